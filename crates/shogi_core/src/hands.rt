//! Pieces in hand.

ghost use Rattle.std.specs.Prelude.{◌≡◌, ◌<◌, slice_set, replicate};
ghost use Rattle.shogi_core.specs.Position.{count_in_hand, place_of};

use crate::piece::{Color, Kind};
use std::marker::Model;

/// The pieces in hand of both sides, seen as 14 counts: Black's by kind number, then White's.
#[derive(Clone, Copy, Debug, PartialEq, Eq, Hash)]
pub struct Hands {
    counts: [u8; 14],
}

impl Model for Hands {
    ghost use Rattle.std.specs.Prelude.{List, ℕ, ◌≡◌, length};

    ghost Value = { List ℕ };

    ghost view = { λ h. h.counts };

    ghost invariant = { λ h. length h.counts ≡ 14 };

    ghost inverse = { λ counts. record { counts = counts } };
}

impl Hands {
    /// Two empty hands.
    pub fn none() -> Hands
        ensures { result ≡ replicate 14 0 }
    {
        Hands { counts: [0; 14] }
    }

    /// The side's count of the kind.
    pub fn count(self, color: Color, kind: Kind) -> u8
        ensures { result ≡ count_in_hand self color kind }
    {
        self.counts[place(color, kind)]
    }

    /// A copy of the hands in which the side has `n` of the kind.
    pub fn with(self, color: Color, kind: Kind, n: u8) -> Hands
        ensures { result ≡ slice_set self (place_of color kind) n }
    {
        let mut counts = self.counts;
        counts[place(color, kind)] = n;
        Hands { counts }
    }
}

/// The index of a count in the list.
fn place(color: Color, kind: Kind) -> usize
    ensures place { result ≡ place_of color kind }
    ensures range { result < 14 }
{
    match color {
        Color::Black => kind.number(),
        Color::White => kind.number() + 7,
    }
}
