//! Moves that a reply refutes because they change nothing that the refutation relies on.

ghost use Rattle.std.specs.Prelude.{◌≡◌, ◌⊎◌, ◌≤ℤ◌, ◌<ℤ◌, ◌+ℤ◌, ℕ, pos, true, IfSome};
ghost use Rattle.shogi_moves.specs.Legal.{is_pawn_drop};
ghost use Rattle.shogi_eval.specs.Material.{material_of};
ghost use Rattle.minimax.specs.declared.bounds.TheConstants.{INFINITY};
ghost use Rattle.shogi_core.specs.Bits.{has_bit};
ghost use Rattle.analogous_moves.specs.Analogies.{AreAnalogous, IsOneOf, IsOnSquares, ReplySuffices, drops_of};
ghost use Rattle.analogous_moves.specs.PassedReplies.{AreUnthreateningDropsIn};

use crate::passed_reply::{PassedReply, captures_above, squares_touched};
use crate::spare_moves::reply_squares;
use minimax::MATE;
use shogi_core::{Kind, Move, Position, Squares};
use shogi_eval::{Eval, Node};
use shogi_moves::{in_check, is_legal};

/// Destinations of drops, a set for each kind of piece.
#[derive(Clone, Copy, Debug)]
pub struct DropSquares {
    pub pawn: Squares,
    pub lance: Squares,
    pub knight: Squares,
    pub silver: Squares,
    pub gold: Squares,
    pub bishop: Squares,
    pub rook: Squares,
}

impl DropSquares {
    /// The destinations for drops of the kind.
    pub fn of(&self, kind: Kind) -> Squares
        ensures { result ≡ drops_of self.now kind }
    {
        match kind {
            Kind::Pawn => self.pawn,
            Kind::Lance => self.lance,
            Kind::Knight => self.knight,
            Kind::Silver => self.silver,
            Kind::Gold => self.gold,
            Kind::Bishop => self.bishop,
            Kind::Rook => self.rook,
        }
    }
}

/// Moves of one node that one reply refutes: drops to `drops`, and moves from `pieces` to `ends`
/// that neither capture nor promote. With three or four plies left, none is worth more than `most`,
/// in points for the side to move. Illegal moves may be among them.
#[derive(Clone, Copy, Debug)]
pub struct AnalogousMoves {
    pub most: i32,
    pub drops: DropSquares,
    pub pieces: Squares,
    pub ends: Squares,
}

/// Whether the move drops a pawn.
fn drops_pawn(m: &Move) -> bool
    ensures { result ≡ is_pawn_drop m.now }
{
    matches!(
        m,
        Move::Drop {
            kind: Kind::Pawn,
            ..
        }
    )
}

/// Prepares `node`, the position after our pass and the reply. `None` if its score exceeds `most`,
/// or the opponent has not exactly one king.
fn passed_reply_of(node: Node, most: i32, quiet_only: bool) -> Option<PassedReply>
    requires most { most <ℤ INFINITY }
    ensures node { IfSome result (λ replied. replied.node ≡ node) }
    ensures board { IfSome result (λ replied. replied.board ≡ node.position.cells) }
    ensures quiet_only { IfSome result (λ replied. replied.quiet_only ≡ quiet_only) }
    ensures room { IfSome result (λ replied.
        (material_of node.position node.eval +ℤ pos replied.gains) ≤ℤ most) }
{
    let score = node.score();
    if score > most {
        return None;
    }
    let gains = (most - score) as u32;
    let p = node.as_position();
    p.reveal_invariant();
    let king = p.king(p.side().opponent())?;
    king.reveal_invariant();
    let board = p.board();
    Some(PassedReply {
        node,
        board,
        king,
        kingless: board.put(king, None),
        squares: reply_squares(p, king, quiet_only),
        quiet_only,
        gains,
        captures: captures_above(&board, p.side(), node.eval(), gains),
    })
}

/// Whether the opponent's answer to our next move has to be quiet: at depth 4 it is the last ply,
/// where a capture or promotion could lose material under `Exchange`.
fn needs_quiet(eval: Eval, depth: u8) -> bool
    requires deep { (depth ≡ 3) ⊎ (depth ≡ 4) }
    ensures { ReplySuffices result eval depth }
{
    depth == 4 && eval.resolves_captures()
}

/// For each kind, the squares of `free` on which a dropped piece makes no threat; all of `free` if
/// none is in hand.
fn unthreatening_drops(replied: &PassedReply, free: Squares) -> DropSquares
    ensures among { (kind : Kind) (n : ℕ) → has_bit (drops_of result kind).bits n ≡ true
        → has_bit free.bits n ≡ true }
    ensures unthreatening { (kind : Kind)
        → AreUnthreateningDropsIn replied.now kind (drops_of result kind).bits }
{
    DropSquares {
        pawn: replied.unthreatening_drops(Kind::Pawn, free),
        lance: replied.unthreatening_drops(Kind::Lance, free),
        knight: replied.unthreatening_drops(Kind::Knight, free),
        silver: replied.unthreatening_drops(Kind::Silver, free),
        gold: replied.unthreatening_drops(Kind::Gold, free),
        bishop: replied.unthreatening_drops(Kind::Bishop, free),
        rook: replied.unthreatening_drops(Kind::Rook, free),
    }
}

impl AnalogousMoves {
    /// Whether the sets hold the move. The move must neither capture nor promote; this is not
    /// tested.
    pub fn has(&self, m: &Move) -> bool
        ensures among { result ≡ true → IsOneOf self.now m.now }
        ensures on_board { IsOnSquares m.now }
    {
        match m {
            Move::Board { from, to, .. } => {
                from.reveal_invariant();
                to.reveal_invariant();
                self.pieces.has(*from) && self.ends.has(*to)
            }
            Move::Drop { kind, to } => {
                to.reveal_invariant();
                self.drops.of(*kind).has(*to)
            }
        }
    }

    /// The drops and quiet moves that `reply` refutes as it refutes a pass: with `depth` plies
    /// left, 3 or 4, none is worth more than `most`, in points for the side to move. `None` if we
    /// are in check, `most` is below the value of being mated, or the reply drops a pawn, is
    /// illegal after a pass, or leaves us a threat. A pawn drop is refused because our move could
    /// turn it into an illegal pawn-drop mate.
    pub fn of(node: &Node, reply: Move, most: i32, depth: u8) -> Option<AnalogousMoves>
        requires deep { (depth ≡ 3) ⊎ (depth ≡ 4) }
        requires most { most <ℤ INFINITY }
        ensures analogous { IfSome result (AreAnalogous node.now.position node.now.eval depth) }
        ensures most { IfSome result (λ moves. moves.most ≡ most) }
    {
        let p = node.as_position();
        if most < -MATE - 1 || drops_pawn(&reply) || in_check(p) {
            return None;
        }
        p.reveal_invariant();
        let passed = Position::of_valid(p.board(), p.hands(), p.side().opponent());
        let tried = reply;
        if !is_legal(&passed, tried) {
            return None;
        }
        let touched = squares_touched(&reply);
        let quiet_only = needs_quiet(node.eval(), depth);
        let mut next = Node::of(passed, node.eval());
        next.advance(reply);
        let replied = passed_reply_of(next, most, quiet_only)?;
        let relied = replied.relied_on()?;
        let free = p.as_board().free().without(touched | relied.empty);
        let drops = unthreatening_drops(&replied, free);
        let pieces = p.as_board().own(p.side()).without(touched | relied.pieces);
        let ends = replied.unthreatening_ends(p, pieces, free);
        Some(AnalogousMoves {
            most,
            drops,
            pieces,
            ends,
        })
    }
}
