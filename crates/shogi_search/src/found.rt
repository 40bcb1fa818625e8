//! The result of a search.

use shogi_core::Move;

/// What a search found.
#[derive(Clone, Copy, Debug, PartialEq, Eq)]
pub struct Found {
    /// The value for the side to move, from -30,016 to 30,016. In a search below a bound, a value
    /// at or above the bound is only a lower bound.
    pub value: i32,
    /// The best move, of lowest code among equals; `None` if no move is legal or the depth is 0. In
    /// a search below a bound it may also be `None` if the value is at or above the bound.
    pub best: Option<Move>,
    /// The steps made; the count saturates. A step enters a node, leaves a node, or settles a child
    /// or the root without entering it. A root that the memo answers takes none.
    pub steps: u64,
}
