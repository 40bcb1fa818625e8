//! Operations on sets of squares.

ghost use Rattle.std.specs.Prelude.{◌≡◌, ◌-◌, ◌^◌, ◌==◌, ◌&&◌, ◌||◌, ℕ, true, not, IsNone, IfSome, bit_and, bit_or};
ghost use Rattle.shogi_core.specs.Bits.{has_bit};
ghost use Rattle.shogi_core.specs.Sets.{IsSifted, IsUnion, NonePasses};

use crate::bits::{ALL_SQUARES, cleared, has, lowest, with, without, without_lowest};
use crate::square::Square;
use crate::squares::Squares;
use std::ops::{BitAnd, BitOr};

impl BitAnd for Squares {
    type Output = Squares;

    ghost bitand_gives = { λ a b both. both.bits ≡ bit_and a.bits b.bits };

    /// The squares in both sets.
    fn bitand(self, other: Squares) -> Squares {
        Squares {
            bits: self.bits & other.bits,
        }
    }
}

impl BitOr for Squares {
    type Output = Squares;

    ghost bitor_gives = { λ a b either. either.bits ≡ bit_or a.bits b.bits };

    /// The squares in either set.
    #[tactic(auto, using(crate::proofs::LineBits::or_fits))]
    fn bitor(self, other: Squares) -> Squares {
        Squares {
            bits: self.bits | other.bits,
        }
    }
}

impl Squares {
    /// The empty set.
    pub fn none() -> Squares
        ensures { result.bits ≡ 0 }
    {
        Squares { bits: 0 }
    }

    /// The set of all 81 squares.
    pub fn all() -> Squares
        ensures { result.bits ≡ 2 ^ 81 - 1 }
    {
        Squares { bits: ALL_SQUARES }
    }

    /// Whether the set has no square.
    pub fn is_empty(self) -> bool
        ensures { result ≡ (self.bits == 0) }
    {
        self.bits == 0
    }

    /// Whether the set has the square.
    pub fn has(self, square: Square) -> bool
        ensures { result ≡ has_bit self.bits square }
    {
        square.reveal_invariant();
        has(self.bits, square.index())
    }

    /// The set with the square added.
    pub fn with(self, square: Square) -> Squares
        ensures { (i : ℕ) → has_bit result.bits i ≡ (has_bit self.bits i || i == square) }
    {
        square.reveal_invariant();
        Squares {
            bits: with(self.bits, square.index()),
        }
    }

    /// The set with the square removed.
    pub fn except(self, square: Square) -> Squares
        ensures { (i : ℕ) → has_bit result.bits i ≡ (has_bit self.bits i && not (i == square)) }
    {
        square.reveal_invariant();
        Squares {
            bits: without(self.bits, square.index()),
        }
    }

    /// The set without the others.
    #[tactic(auto, using(crate::proofs::LineBits::and_fits))]
    pub fn without(self, others: Squares) -> Squares
        ensures { result.bits ≡ bit_and self.bits (2 ^ 128 - 1 - others.bits) }
    {
        Squares {
            bits: self.bits & !others.bits,
        }
    }

    /// The squares that pass the test.
    pub fn sift<F: Fn(Square) -> bool>(self, test: F) -> Squares
        requires { F.IsAlwaysCallable test }
        ensures sifted { IsSifted (F.post test) self.bits result.bits }
    {
        let mut left = self.bits;
        let mut kept = self.bits;
        while left != 0 {
            let square = lowest(left);
            if !test(Square::of_index(square)) {
                kept = cleared(kept, square);
            }
            left = without_lowest(left, square);
        }
        Squares { bits: kept }
    }

    /// The first square that passes the test, by index, if any.
    pub fn find<F: Fn(Square) -> bool>(self, test: F) -> Option<Square>
        requires { F.IsAlwaysCallable test }
        ensures if_none { IsNone result → NonePasses (F.post test) self.bits 81 }
        ensures among { IfSome result (λ n. has_bit self.bits n ≡ true) }
        ensures passes { IfSome result (λ n. F.post test n true) }
        ensures first { IfSome result (NonePasses (F.post test) self.bits) }
    {
        let mut left = self.bits;
        while left != 0 {
            let index = lowest(left);
            let square = Square::of_index(index);
            if test(square) {
                return Some(square);
            }
            left = without_lowest(left, index);
        }
        None
    }

    /// The union of the sets that `each` gives for the squares.
    #[tactic(auto, using(crate::proofs::Sifting::uniting))]
    pub fn union<F: Fn(Square) -> Squares>(self, each: F) -> Squares
        requires { F.IsAlwaysCallable each }
        ensures union { IsUnion (F.post each) self.bits result.bits }
    {
        let mut left = self.bits;
        let mut found = 0;
        while left != 0 {
            let square = lowest(left);
            found |= each(Square::of_index(square)).bits;
            left = without_lowest(left, square);
        }
        Squares { bits: found }
    }
}
