//! Squares for drops, apart from mate by a pawn drop.

ghost use Rattle.std.specs.Prelude.{◌≡◌, true};
ghost use Rattle.std.proofs.Props.{props};
ghost use Rattle.shogi_core.specs.declared.moves.Move.TheVariants as moves;
ghost use Rattle.shogi_core.specs.declared.piece.Kind.{Kind};
ghost use Rattle.shogi_core.specs.Bits.{HasBits};
ghost use Rattle.shogi_core.specs.Position.{count_in_hand};
ghost use Rattle.shogi_moves.specs.Destinations.{AreKingSafeDrops, AreDropSquares};
ghost use Rattle.shogi_moves.specs.Legal.{is_pawn_kind, is_safe};

use crate::after::dropped;
use crate::check_info::KnownPosition;
use crate::king_safety::leaves_king_safe_on_copy;
use shogi_core::zones::{dead_squares, pawn_files};
use shogi_core::{Kind, Move, Position, Square, Squares};

/// A position with the empty squares on which a drop leaves the king unattacked, for every kind in
/// hand.
#[derive(Clone, Copy)]
pub struct KnownDrops<'a> {
    pub position: &'a Position,
    pub squares: Squares,
    ghost right: { AreDropSquares position.now squares.bits } by { Prim.hlevel props },
}

/// Whether the kind is the pawn.
pub fn is_pawn_kind(kind: Kind) -> bool
    ensures { result ≡ is_pawn_kind kind }
{
    matches!(kind, Kind::Pawn)
}

/// The `squares` on which a drop leaves the king unattacked; makes each drop on a copy. A dropped
/// piece can only block, whatever its kind, so a pawn stands for all.
#[inline(never)]
fn tried_drops(p: &Position, squares: Squares) -> Squares
    ensures squares { AreKingSafeDrops p.now squares.bits result.bits }
{
    squares.sift(|to| {
        let m = Move::Drop {
            kind: Kind::Pawn,
            to,
        };
        leaves_king_safe_on_copy(p, &m)
    })
}

/// Whether the side to move has an empty hand.
fn holds_none(p: &Position) -> bool
    ensures { result ≡ true → (kind : Kind) → count_in_hand p.now.hands p.now.side kind ≡ 0 }
{
    let side = p.side();
    p.hand(side, Kind::Pawn) == 0
        && p.hand(side, Kind::Lance) == 0
        && p.hand(side, Kind::Knight) == 0
        && p.hand(side, Kind::Silver) == 0
        && p.hand(side, Kind::Gold) == 0
        && p.hand(side, Kind::Bishop) == 0
        && p.hand(side, Kind::Rook) == 0
}

/// The empty squares on which a drop leaves the king unattacked, for every kind in hand; none with
/// an empty hand in check, which saves the tests.
pub fn drop_squares(known: &KnownPosition<'_>) -> Squares
    ensures { AreDropSquares known.now.position.now result.bits }
{
    let p = known.position;
    p.reveal_invariant();
    let free = p.as_board().free();
    if !known.info.is_check() {
        return free;
    }
    if holds_none(p) {
        return Squares::none();
    }
    tried_drops(p, free & known.info.squares())
}

impl<'a> KnownPosition<'a> {
    /// The position with the squares for its drops.
    #[inline(always)]
    pub fn drops(&self) -> KnownDrops<'a>
        ensures { result.position.now ≡ self.now.position.now }
    {
        KnownDrops {
            position: self.position,
            squares: drop_squares(self),
        }
    }
}

impl KnownDrops<'_> {
    /// The squares on which the kind may be dropped, apart from mate by a pawn drop; none if it is
    /// not in hand.
    #[inline(always)]
    #[tactic(auto, using(crate::proofs::DestinationLaws::safe_dropping))]
    pub fn safe(&self, kind: Kind) -> Squares
        ensures squares { HasBits result.bits
            (λ n. is_safe self.now.position.now (moves.Drop kind n)) }
    {
        let p = self.position;
        let side = p.side();
        if p.hand(side, kind) == 0 {
            return Squares::none();
        }
        let destinations = self.squares.without(dead_squares(dropped(side, kind)));
        if is_pawn_kind(kind) {
            destinations.without(pawn_files(p, side))
        } else {
            destinations
        }
    }
}
