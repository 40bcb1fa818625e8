//! Directions of lines on the board.

ghost use Rattle.std.specs.Prelude.{◌≡◌, ◌<◌, ◌+◌, ◌%◌, IfSome, IsNone};

use std::marker::Model;

// Numbers of some directions.
pub const DOWN: usize = 0;

pub const UP_LEFT: usize = 1;

pub const UP: usize = 4;

/// A direction of lines, seen as its number. As Black sees the board, 0 to 7 are down, up-left,
/// left, down-left, up, down-right, right and up-right: indexes rise in the first four.
#[derive(Clone, Copy, Debug, PartialEq, Eq)]
pub struct Direction {
    number: usize,
}

impl Model for Direction {
    ghost use Rattle.std.specs.Prelude.{ℕ, ◌<◌};

    ghost Value = { ℕ };

    ghost view = { λ d. d.number };

    ghost invariant = { λ d. d.number < 8 };

    ghost inverse = { λ n. record { number = n } };
}

/// The directions still to come, seen as the number of the next one, or 8 if none is left.
#[derive(Drop)]
pub struct DirectionIter {
    next: usize,
}

impl Model for DirectionIter {
    ghost use Rattle.std.specs.Prelude.{ℕ, ◌≤◌};

    ghost Value = { ℕ };

    ghost view = { λ it. it.next };

    ghost invariant = { λ it. it.next ≤ 8 };
}

impl Direction {
    /// Down, number 0.
    #[inline(always)]
    pub fn down() -> Direction
        ensures { result ≡ 0 }
    {
        Direction { number: DOWN }
    }

    /// Up and left, number 1.
    #[inline(always)]
    pub fn up_left() -> Direction
        ensures { result ≡ 1 }
    {
        Direction { number: UP_LEFT }
    }

    /// Up, number 4.
    #[inline(always)]
    pub fn up() -> Direction
        ensures { result ≡ 4 }
    {
        Direction { number: UP }
    }

    /// The number, from 0 to 7.
    #[inline(always)]
    pub fn number(self) -> usize
        ensures number { result ≡ self }
        ensures range { result < 8 }
    {
        self.number
    }

    /// Tells the prover that the number is below 8; does nothing at run time.
    #[inline(always)]
    pub fn reveal_invariant(&self)
        ensures { self.now < 8 }
    {
        let _ = &self.number;
    }

    /// The opposite direction.
    #[inline(always)]
    pub fn opposite(self) -> Direction
        ensures { result ≡ (self + 4) % 8 }
    {
        Direction {
            number: (self.number + 4) % 8,
        }
    }

    /// The direction a quarter turn clockwise.
    #[inline(always)]
    pub fn quarter_turn(self) -> Direction
        ensures { result ≡ (self + 2) % 8 }
    {
        Direction {
            number: (self.number + 2) % 8,
        }
    }

    /// All eight directions, by number.
    #[inline(always)]
    pub fn all() -> DirectionIter
        ensures { result ≡ 0 }
    {
        DirectionIter { next: 0 }
    }
}

impl DirectionIter {
    /// The next direction, or `None` if none is left.
    #[inline(always)]
    pub fn next(&mut self) -> Option<Direction>
        ensures none { IsNone result → self.old ≡ 8 }
        ensures ended { IsNone result → self.new ≡ self.old }
        ensures some { IfSome result (λ d. d ≡ self.old) }
        ensures range { IfSome result (λ d. d < 8) }
        ensures rest { IfSome result (λ d. self.new ≡ d + 1) }
    {
        if self.next == 8 {
            return None;
        }
        let number = self.next;
        self.next = number + 1;
        Some(Direction { number })
    }
}
