//! Searches as the tests of this crate see them: what their contracts say stays within, so that no test carries
//! it on.

ghost use Rattle.std.specs.Prelude.{◌<ℤ◌, ◌≤ℤ◌};
ghost use Rattle.minimax.specs.Minimax.{negated};
ghost use Rattle.minimax.specs.declared.bounds.TheConstants.{INFINITY};

use shogi_core::{Move, Position};
use shogi_eval::Eval;
use shogi_moves::perft;
use shogi_search::{Found, INFINITY, Memo, Search};
use std::marker::Model;
use std::process::Abort;

/// What a search finds, to a depth of at most 16.
pub fn search<M: Memo>(p: &Position, e: Eval, depth: u8, memo: &mut M) -> Found {
    shogi_search::search(p, e, depth.min(16), memo)
}

/// The bound, from -30,999 to 31,000, or the greatest one.
fn bound_of(beta: i32) -> i32
    ensures open { negated INFINITY <ℤ result }
    ensures most { result ≤ℤ INFINITY }
{
    if -INFINITY < beta && beta <= INFINITY {
        beta
    } else {
        INFINITY
    }
}

/// The same below a bound.
pub fn search_below<M: Memo>(
    rt: &impl Abort,
    p: &Position,
    e: Eval,
    depth: u8,
    beta: i32,
    memo: &mut M,
) -> Found {
    TestSearch::start_below(p, e, depth, beta)
        .advance(memo, u64::MAX)
        .expect(rt, "an end")
}

/// The value, and the code of the best move.
pub fn brief(found: &Found) -> (i32, Option<u16>) {
    (found.value, found.best.map(|m| m.code()))
}

/// Whether there are at most so many sequences of so many moves.
pub fn has_few(p: &Position, plies: u8, most: u64) -> bool {
    perft(p, plies.min(16)) <= Some(most)
}

/// A search in slices, to a depth of at most 16.
#[derive(Drop)]
pub struct TestSearch {
    search: Search,
}

impl Model for TestSearch {
    ghost Value = { Unit };

    ghost view = { λ _. tt };
}

impl TestSearch {
    pub fn start(p: &Position, e: Eval, depth: u8) -> TestSearch {
        TestSearch::start_below(p, e, depth, INFINITY)
    }

    pub fn start_below(p: &Position, e: Eval, depth: u8, beta: i32) -> TestSearch {
        TestSearch {
            search: Search::start_below(p, e, depth.min(16), bound_of(beta)),
        }
    }

    /// Begins anew, in the room of the search before.
    pub fn restart(&mut self, p: &Position, e: Eval, depth: u8) {
        self.search.restart(p, e, depth.min(16));
    }

    pub fn restart_below(&mut self, p: &Position, e: Eval, depth: u8, beta: i32) {
        self.search
            .restart_below(p, e, depth.min(16), bound_of(beta));
    }

    pub fn advise(&mut self, moves: [Option<Move>; 2]) {
        self.search.advise(moves);
    }

    pub fn advance<M: Memo>(&mut self, memo: &mut M, budget: u64) -> Option<Found> {
        self.search.advance(memo, budget)
    }

    /// Advances a step at a time, at most a million times. Each time but the last makes a step.
    pub fn step_by_step<M: Memo>(&mut self, memo: &mut M) -> Option<Found> {
        for made in 0..1_000_000u64 {
            if let Some(found) = self.advance(memo, 1) {
                let is_counted = found.steps == self.steps() && found.steps >= made;
                return if is_counted { Some(found) } else { None };
            }
        }
        None
    }

    pub fn steps(&self) -> u64 {
        self.search.steps()
    }
}
