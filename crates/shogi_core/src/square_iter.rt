//! Iteration over a set of squares.

ghost use Rattle.std.specs.Prelude.{◌≡◌, ℕ, IfSome, IsNone};
ghost use Rattle.shogi_core.specs.Sets.{HasNone, TakesLowest};

use crate::bits::{lowest, without_lowest};
use crate::square::Square;
use crate::squares::Squares;
use std::marker::Model;

/// The squares of a set still to come, by rising index.
#[derive(Drop)]
pub struct SquareIter {
    left: u128,
}

impl Model for SquareIter {
    ghost use Rattle.std.specs.Prelude.{◌<◌, ◌^◌, ℕ};

    ghost Value = { ℕ };

    ghost view = { λ it. it.left };

    ghost invariant = { λ it. it.left < 2 ^ 81 };
}

impl Squares {
    /// Iterates over the squares by rising index.
    #[inline(always)]
    pub fn iter(self) -> SquareIter
        ensures { result ≡ self.bits }
    {
        SquareIter { left: self.bits }
    }
}

impl SquareIter {
    /// The next square, if any.
    #[inline(always)]
    #[tactic(auto, using(crate::proofs::BitLaws::has_none))]
    pub fn next(&mut self) -> Option<Square>
        ensures none { IsNone result → HasNone self.old }
        ensures ended { IsNone result → self.new ≡ self.old }
        ensures some { IfSome result (λ n. TakesLowest n self.old self.new) }
    {
        if self.left == 0 {
            return None;
        }
        let square = lowest(self.left);
        self.left = without_lowest(self.left, square);
        Some(Square::of_index(square))
    }
}
