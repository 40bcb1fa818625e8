//! Offsets, in which the definitions state steps and directions.

/// A change of file and of rank, as Black sees the board.
#[derive(Clone, Copy, Debug, PartialEq, Eq, Hash)]
pub struct Offset {
    pub file: i8,
    pub rank: i8,
}
