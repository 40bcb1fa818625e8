//! Squares of the board.

ghost use Rattle.std.specs.Prelude.{◌≡◌, ◌<◌, ◌+◌, ◌/◌, ◌%◌, IfSome, IsSome, ◌↔◌};
ghost use Rattle.shogi_core.specs.Squares.{IsOnBoard, index_of};

use std::marker::Model;

/// A square, seen as its index: `1a` is 0, `1i` is 8, `5a` is 36 and `9i` is 80.
#[derive(Clone, Copy, Debug, Default, PartialEq, Eq, Hash)]
pub struct Square {
    index: u8,
}

impl Model for Square {
    ghost use Rattle.std.specs.Prelude.{ℕ, ◌<◌};

    ghost Value = { ℕ };

    ghost view = { λ s. s.index };

    ghost invariant = { λ s. s.index < 81 };

    ghost inverse = { λ n. record { index = n } };
}

impl Square {
    /// The square with this file and rank, each from 1 to 9, or `None` if one is out of range.
    pub fn new(file: u8, rank: u8) -> Option<Square>
        ensures on_board { IsSome result ↔ IsOnBoard file rank }
        ensures index { IfSome result (λ square. square ≡ index_of file rank) }
    {
        if file < 1 || file > 9 || rank < 1 || rank > 9 {
            return None;
        }
        Some(Square {
            index: (file - 1) * 9 + (rank - 1),
        })
    }

    /// The index, from 0 to 80: file by file, and rank by rank on each file.
    pub fn index(self) -> usize
        ensures index { result ≡ self }
        ensures range { result < 81 }
    {
        self.index as usize
    }

    /// The rank, from 1 on White's side to 9; USI writes it as a letter from `a` to `i`.
    pub fn rank(self) -> u8
        ensures { result ≡ self % 9 + 1 }
    {
        self.index % 9 + 1
    }
}

impl Square {
    /// Tells the prover that the index is below 81; does nothing at run time.
    pub fn reveal_invariant(&self)
        ensures { self.now < 81 }
    {
        let _ = &self.index;
    }

    /// The square of an index below 81.
    pub fn of_index(index: usize) -> Square
        requires { index < 81 }
        ensures { result ≡ index }
    {
        Square { index: index as u8 }
    }
}
