//! The best moves of a position, for MultiPV.

ghost use Rattle.std.specs.Prelude.{◌≡◌, ℕ, ℤ, ◌≤◌, [], length, take, insert, true, false};
ghost use Rattle.shogi_core.specs.Codes.{code_of};
ghost use Rattle.shogi_moves.specs.Rising.{is_in};
ghost use Rattle.shogi_search.specs.Ranked.{is_better, insert_pair, IsPlaceOf, codes_in, are_ranked, IsTop, JoinsTop, value_to_pass, child_beta};
ghost use Rattle.shogi_search.specs.Progress.{IsBeta};
ghost use Rattle.shogi_search.specs.declared.ranks.TheConstants.{MULTI_PV_MAX};

use arrayvec::ArrayVec;
use minimax::INFINITY;
use shogi_core::Move;
use std::marker::Model;

/// The most lines.
pub const MULTI_PV_MAX: usize = 8;

/// One pair more than there are lines, since `offer` inserts before it truncates.
const ROOM: usize = 9;

/// The best of the moves offered, with their values, at most one for each line: by falling value,
/// and by rising code among equals.
#[derive(Drop)]
pub struct Ranks {
    lines: usize,
    pairs: ArrayVec<(Move, i32), ROOM>,
}

impl Model for Ranks {
    ghost use Rattle.shogi_search.specs.Ranked.{AreRankedWithin, Ranking};

    ghost Value = { Ranking };

    ghost view = { λ r. record { lines = r.lines; pairs = r.pairs.items } };

    ghost invariant = { λ r. AreRankedWithin r.lines r.pairs.items };
}

/// Whether the move ranks before `other`.
fn is_better(m: &Move, value: i32, other: &(Move, i32)) -> bool
    ensures { result ≡ is_better value (code_of m.now) other.now.1 (code_of other.now.0) }
{
    value > other.1 || (value == other.1 && m.code() < other.0.code())
}

impl Ranks {
    /// An empty list for 1 to 8 lines.
    pub fn new(lines: usize) -> Ranks
        requires least { 1 ≤ lines }
        requires most { lines ≤ MULTI_PV_MAX }
        ensures empty { result ≡ record { lines = lines; pairs = [] } }
        ensures top { (f : ℕ → ℤ) → IsTop f [] result }
    {
        Ranks {
            lines,
            pairs: ArrayVec::new(),
        }
    }

    /// The index at which the move is to be inserted.
    fn place_of(&self, m: &Move, value: i32) -> usize
        ensures place { IsPlaceOf m.now value self.now.pairs result }
        ensures bound { result ≤ length self.now.pairs }
    {
        let pairs = self.pairs.as_slice();
        for (place, pair) in pairs.iter().enumerate() {
            if is_better(m, value, pair) {
                return place;
            }
        }
        pairs.len()
    }

    /// Inserts the move at its rank, and drops the last one if the list exceeds its lines.
    pub fn offer(&mut self, m: Move, value: i32)
        requires { is_in (code_of m) (codes_in self.old.pairs) ≡ false }
        ensures lines { self.new.lines ≡ self.old.lines }
        ensures pairs { self.new.pairs ≡ take self.old.lines (insert_pair m value self.old.pairs) }
        ensures top { JoinsTop m value self.old self.new }
    {
        let place = self.place_of(&m, value);
        self.pairs.insert(place, (m, value));
        self.pairs.truncate(self.lines);
    }

    /// The value that a move of greater code than all offered so far has to beat to be listed: the
    /// last line's. `None` if a line is free.
    pub fn move_alpha(&self) -> Option<i32>
        ensures { result ≡ value_to_pass self.now }
    {
        let (_, value) = self.pairs.as_slice().get(self.lines - 1)?;
        Some(*value)
    }

    /// The beta for the child of such a move: a child of this value or more is not listed. The end
    /// of the full window if a line is free.
    pub fn child_beta(&self) -> i32
        requires { IsBeta (child_beta self.now) }
        ensures value { result ≡ child_beta self.now }
        ensures beta { IsBeta result }
    {
        match self.move_alpha() {
            Some(value) => -value,
            None => INFINITY,
        }
    }

    /// The best moves so far with their values, the best one first.
    pub fn list(&self) -> &[(Move, i32)]
        ensures value { result.now ≡ self.now.pairs }
        ensures ordered { are_ranked self.now.pairs ≡ true }
        ensures bound { length self.now.pairs ≤ self.now.lines }
        ensures lines { self.now.lines ≤ MULTI_PV_MAX }
    {
        self.pairs.as_slice()
    }
}
