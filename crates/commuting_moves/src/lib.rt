//! Two moves of one side that may change places round a reply, found by squares alone.
//!
//! If a reply refutes a move at a node, it also refutes it after another move and the same reply, as long as
//! no two of the three share a square and neither the reply nor the refuted move ends between the other
//! move's squares: both orders lead to one position. `RefutedMoves` keeps moves with their replies.
#![tactic(auto)]

ghost use Rattle.std.specs.Prelude.{◌≡◌, ℕ, ◌<◌, true, false};
ghost use Rattle.shogi_core.specs.Bits.{has_bit};
ghost use Rattle.analogous_moves.specs.Analogies.{CoversMove, IsOff, IsOnSquares};
ghost use Rattle.commuting_moves.specs.Apart.{AreApart, AreDisjoint};
ghost use Rattle.commuting_moves.specs.Refuted.{IsStillLegal, LeadToOne};

mod refuted_moves;
#[cfg(test)]
mod tests;

pub use refuted_moves::{REFUTED_MAX, RefutedMoves};
use shogi_core::{Move, Squares};
use shogi_replies::squares_between;

/// Gives a proof that the squares of the move are on the board, and does nothing.
fn reveal_squares(m: &Move)
    ensures { IsOnSquares m.now }
{
    match m {
        Move::Board { from, to, .. } => {
            from.reveal_invariant();
            to.reveal_invariant();
        }
        Move::Drop { to, .. } => to.reveal_invariant(),
    }
}

/// The squares of the move.
fn squares_of(m: &Move) -> Squares
    ensures { (n : ℕ) → n < 81 → has_bit result.bits n ≡ false → IsOff m.now n }
{
    match m {
        Move::Board { from, to, .. } => {
            from.reveal_invariant();
            to.reveal_invariant();
            Squares::none().with(*from).with(*to)
        }
        Move::Drop { to, .. } => {
            to.reveal_invariant();
            Squares::none().with(*to)
        }
    }
}

/// The squares of the move and those between them.
fn squares_touched(m: &Move) -> Squares
    ensures { CoversMove m.now result.bits }
{
    match m {
        Move::Board { from, to, .. } => {
            from.reveal_invariant();
            to.reveal_invariant();
            squares_between(*from, *to).with(*from).with(*to)
        }
        Move::Drop { to, .. } => {
            to.reveal_invariant();
            Squares::none().with(*to)
        }
    }
}

/// Whether the moves share no square.
fn are_disjoint(a: &Move, b: &Move) -> bool
    ensures disjoint { result ≡ true → AreDisjoint a.now b.now }
{
    let squares = squares_of(a);
    match b {
        Move::Board { from, to, .. } => {
            from.reveal_invariant();
            to.reveal_invariant();
            !squares.has(*from) && !squares.has(*to)
        }
        Move::Drop { to, .. } => {
            to.reveal_invariant();
            !squares.has(*to)
        }
    }
}

/// Whether no two of the moves share a square, and neither the reply nor the other move ends between
/// those of the first one.
fn have_free_squares(m: &Move, reply: &Move, other: &Move) -> bool
    ensures { result ≡ true → AreApart m.now reply.now other.now }
{
    let touched = squares_touched(m);
    let reply_to = reply.to();
    let other_to = other.to();
    reply_to.reveal_invariant();
    other_to.reveal_invariant();
    let from_reply = are_disjoint(reply, m) && !touched.has(reply_to);
    let from_other = are_disjoint(other, m) && !touched.has(other_to);
    from_reply && from_other && are_disjoint(reply, other)
}

/// Whether two moves of one side and the reply between them do not interfere, by squares. If so, the two
/// moves may change places, and the first is still legal in the second place.
pub fn are_apart(m: &Move, reply: &Move, other: &Move) -> bool
    ensures apart { result ≡ true → AreApart m.now reply.now other.now }
    ensures orders { result ≡ true → LeadToOne m.now reply.now other.now }
    ensures legal { result ≡ true → IsStillLegal m.now reply.now other.now }
{
    reveal_squares(m);
    reveal_squares(reply);
    reveal_squares(other);
    have_free_squares(m, reply, other)
}

/// A reply that refutes a move of a position: after both, the side of the move is worth no more than the
/// bound.
#[derive(Clone, Copy, Debug)]
pub struct Refutation {
    pub reply: Move,
    pub bound: i32,
}
