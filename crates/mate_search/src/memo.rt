//! What is known already of positions: numbers of moves in which they mate by checks, and do not.

ghost use Rattle.std.specs.Prelude.{◌≡◌, ◌≤◌, IfSome, length};
ghost use Rattle.mate_search.specs.Mates.{mates};
ghost use Rattle.mate_search.specs.Bounds.{AreBounds};
ghost use Rattle.mate_search.specs.declared.by_checks.TheConstants.{MOVES_MAX};
ghost use Rattle.mate_search.specs.declared.memo.TheConstants.{MEMO_MAX};

use crate::by_checks::MOVES_MAX;
use shogi_core::{KINDS, Position};
use std::alloc::Allocator;

/// The most positions of which something is kept (own choice): 1.3 MB.
pub const MEMO_MAX: usize = 4_096;

/// What spreads the words of a position over a memo (own choice).
const FACTOR: u64 = 0x9e37_79b9_7f4a_7c15;

/// A position with a number of moves in which it mates by checks, above `MOVES_MAX` if none is known, and
/// one in which it does not.
#[derive(Clone, Copy, Debug)]
pub struct Known {
    position: Position,
    mark: u64,
    mates: u8,
    fails: u8,
    ghost bounds: { AreBounds position mates fails },
}

/// The number with a word mixed into it.
fn mixed(mark: u64, word: u64) -> u64 {
    let product = (mark ^ word).wrapping_mul(FACTOR);
    product ^ (product >> 32)
}

/// A number that few positions share: of what is on the board and what the side to move holds.
fn mark_of(p: &Position) -> u64 {
    let mut mark = 0;
    for word in p.as_board().words() {
        mark = mixed(mark, *word);
    }
    for kind in KINDS {
        mark = mixed(mark, p.hand(p.side(), kind) as u64);
    }
    mark
}

impl Known {
    /// Nothing is known of the position but that no move is no mate.
    fn nothing(p: &Position, mark: u64) -> Known
        ensures { result.position ≡ p.now }
    {
        Known {
            position: *p,
            mark,
            mates: MOVES_MAX + 1,
            fails: 0,
        }
    }

    /// Whether it mates in so many moves, if that is known.
    pub(crate) fn answer(&self, n: u8) -> Option<bool>
        requires { n ≤ MOVES_MAX }
        ensures { IfSome result (λ answer. answer ≡ mates self.now.position n) }
    {
        if self.mates <= n {
            return Some(true);
        }
        if n <= self.fails {
            return Some(false);
        }
        None
    }

    /// With whether it mates in so many moves.
    pub(crate) fn with(self, n: u8, answer: bool) -> Known
        requires { answer ≡ mates self.position n }
        ensures { result.position ≡ self.position }
    {
        if answer {
            Known {
                position: self.position,
                mark: self.mark,
                mates: n,
                fails: self.fails,
            }
        } else {
            Known {
                position: self.position,
                mark: self.mark,
                mates: self.mates,
                fails: n,
            }
        }
    }
}

/// What is kept while mates are sought: at most `MEMO_MAX` positions. No answer depends on it.
#[derive(Drop)]
pub struct Memo<A: Allocator> {
    places: Vec<Option<Known>, A>,
}

impl<A: Allocator + Copy> Memo<A> {
    /// An empty memo. If memory runs out, it keeps nothing, and searches find the same more slowly.
    pub fn new(alloc: A) -> Memo<A>
        ensures most { length result.places.items ≤ MEMO_MAX }
    {
        match vec![in alloc; None; MEMO_MAX] {
            Ok(places) => Memo { places },
            Err(_) => Memo {
                places: Vec::new(alloc),
            },
        }
    }
}

impl<A: Allocator> Memo<A> {
    /// What is known of the position.
    pub(crate) fn known(&self, p: &Position) -> Known
        ensures { result.position ≡ p.now }
    {
        let mark = mark_of(p);
        if let Some(Some(kept)) = self.places.get(mark as usize % MEMO_MAX) {
            if kept.mark == mark && kept.position.is_same(p) {
                return *kept;
            }
        }
        Known::nothing(p, mark)
    }

    /// Keeps what is known of a position, in place of what its place kept.
    pub(crate) fn note(&mut self, known: Known)
        ensures most { length self.new.places.items ≡ length self.old.places.items }
    {
        let place = known.mark as usize % MEMO_MAX;
        if place < self.places.len() {
            self.places[place] = Some(known);
        }
    }
}
