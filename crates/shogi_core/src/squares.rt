//! Sets of squares.

ghost use Rattle.std.specs.Prelude.{◌<◌, ◌^◌};

/// A set of squares of the board: bit n is set if the set has the square of index n.
#[derive(Clone, Copy, Debug, PartialEq, Eq)]
pub struct Squares {
    pub bits: u128,
    ghost fits: { bits < 2 ^ 81 },
}
