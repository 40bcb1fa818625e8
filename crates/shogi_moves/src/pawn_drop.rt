//! Mate by a pawn drop, and the squares for legal drops.

ghost use Rattle.std.specs.Prelude.{◌≡◌, ◌<◌, ◌&&◌, ℕ, not, true, false};
ghost use Rattle.std.proofs.Props.{props};
ghost use Rattle.shogi_core.specs.declared.moves.Move.TheVariants as moves;
ghost use Rattle.shogi_core.specs.declared.piece.Kind.TheVariants as kinds;
ghost use Rattle.shogi_core.specs.Bits.{HasBits, has_bit, HasThose};
ghost use Rattle.shogi_moves.specs.Destinations.{is_mating_square, AreLegalDrops};
ghost use Rattle.shogi_moves.specs.Legal.{is_pawn_drop, is_pawn_drop_mate, is_safe};

use crate::after::make_safe;
use crate::drops::{KnownDrops, is_pawn_kind};
use crate::pawn_escape::leaves_pawn_escape;
use crate::safe::is_mated_by_drop;
use shogi_core::{Kind, Move, Piece, Position, Role, Square, Squares, step_squares};

/// A position with the squares on which the side to move may drop a pawn, mate included.
#[derive(Clone, Copy)]
struct SafePawnDrops<'a> {
    position: &'a Position,
    squares: Squares,
    ghost safe: { HasBits squares.bits (λ n. is_safe position.now (moves.Drop kinds.Pawn n)) } by { Prim.hlevel props },
}

/// Whether the move is a pawn drop.
fn is_pawn_drop(m: &Move) -> bool
    ensures { result ≡ is_pawn_drop m.now }
{
    match m {
        Move::Board { .. } => false,
        Move::Drop { kind, .. } => is_pawn_kind(*kind),
    }
}

/// Whether the safe move mates by a pawn drop.
pub fn is_pawn_drop_mate(p: &Position, m: &Move) -> bool
    requires { is_safe p.now m.now ≡ true }
    ensures { result ≡ is_pawn_drop_mate p.now m.now }
{
    if !is_pawn_drop(m) {
        return false;
    }
    let mut next = *p;
    make_safe(&mut next, m);
    is_mated_by_drop(&next)
}

/// The square from which a pawn of the side to move would attack the enemy king; a pawn of the
/// other side on the king's square steps onto it. No other pawn drop mates.
#[tactic(auto, using(crate::proofs::DropChecks::facing))]
fn facing_squares(p: &Position) -> Squares
    ensures { (n : ℕ) → n < 81 → has_bit result.bits n ≡ false
        → is_mating_square p.now n ≡ false }
{
    p.reveal_invariant();
    let opponent = p.side().opponent();
    let Some(king) = p.king(opponent) else {
        return Squares::none()
    };
    let pawn = Piece {
        color: opponent,
        role: Role::Pawn,
    };
    step_squares(pawn, king)
}

impl SafePawnDrops<'_> {
    /// The squares on which a pawn drop does not mate. A drop in front of the king is played out
    /// only if no escape square is known at once, which is rare.
    #[tactic(auto, using(crate::proofs::DestinationLaws::sifting))]
    fn non_mating(&self) -> Squares
        ensures squares { HasThose result.bits self.now.squares.bits
            (λ n. not (is_mating_square self.now.position.now n)) }
    {
        let p = self.position;
        let mut left = (self.squares & facing_squares(p)).iter();
        let mut kept = self.squares;
        'squares: while let Some(to) = left.next() {
            if !leaves_pawn_escape(p, to) {
                let m = Move::Drop {
                    kind: Kind::Pawn,
                    to,
                };
                if is_pawn_drop_mate(p, &m) {
                    kept = kept.except(to);
                }
            }
        }
        kept
    }
}

impl KnownDrops<'_> {
    /// The squares on which the kind may legally be dropped; none if it is not in hand.
    #[inline(always)]
    #[tactic(auto, using(crate::proofs::DestinationLaws::legal_dropping))]
    pub fn legal(&self, kind: Kind) -> Squares
        ensures squares { AreLegalDrops self.now.position.now kind result.bits }
    {
        let squares = self.safe(kind);
        if squares.is_empty() {
            return Squares::none();
        }
        match kind {
            Kind::Pawn => SafePawnDrops {
                position: self.position,
                squares,
            }
            .non_mating(),
            _ => squares,
        }
    }
}
