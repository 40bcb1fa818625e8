//! A memory that answers exactly at depths 0 to 2, and keeps nothing.

ghost use Rattle.std.specs.Prelude.{Option, nat_le, if◌then◌else◌};
ghost use Rattle.minimax.specs.Minimax.{value, best};
ghost use Rattle.minimax.specs.declared.entry.Entry.TheVariants.{Exact};

use shogi_core::Position;
use shogi_eval::Eval;
use shogi_search::{Entry, Memo, NoMemo, search};

/// Answers exactly at depths 0 to 2, by a search over no memory, and keeps nothing.
#[derive(Clone, Copy, Debug)]
pub struct Oracle;

impl Memo for Oracle {
    ghost answers = { λ _ p e d. if nat_le d 2 then Option.Some (Exact (value p e d) (best p e d)) else Option.None };

    fn probe(&mut self, p: &Position, e: Eval, d: u8) -> Option<Entry> {
        if d > 2 {
            return None;
        }
        let found = search(p, e, d, &mut NoMemo);
        Some(Entry::Exact(found.value, found.best))
    }

    fn note(&mut self, _p: &Position, _e: Eval, _d: u8, _entry: Entry) {}
}
