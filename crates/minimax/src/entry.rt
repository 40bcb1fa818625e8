//! Knowledge of a position's value.

use shogi_core::Move;

/// A position's value under an evaluation at a depth, as an exact value with the best move of least
/// code, or as a bound. Values are for the side to move.
#[derive(Clone, Copy, Debug, PartialEq, Eq)]
pub enum Entry {
    /// The value and the best move, which is `None` if no move is legal or the depth is 0.
    Exact(i32, Option<Move>),
    /// The value is this or greater.
    AtLeast(i32),
    /// The value is this or less.
    AtMost(i32),
}
