//! The transposition table as a search sees it.

ghost use Rattle.std.specs.Prelude.{◌≡◌, ◌≤◌, ℕ, Option, None, IfSome, false, ⊤};
ghost use Rattle.shogi_core.specs.Position.{Shogi};
ghost use Rattle.shogi_eval.specs.declared.eval.Eval.{Eval};
ghost use Rattle.minimax.specs.Minimax.{IsTrueEntry};
ghost use Rattle.minimax.specs.declared.entry.Entry.{Entry};
ghost use Rattle.minimax.specs.declared.bounds.TheConstants.{SEARCH_DEPTH_MAX};
ghost use Rattle.shogi_search.specs.Calls.{Call, Probe, Note};

use minimax::Entry;
use shogi_core::Position;
use shogi_eval::Eval;

/// What a search asks of a transposition table. An implementation may forget at any time, but each
/// answer is true.
pub trait Memo {
    ghost answers: { Self → Shogi → Eval → ℕ → Option Entry };

    /// The most that the memo keeps, if it states that. No call changes it.
    ghost capacity: { Self → ℕ } = { λ _. 0 };

    /// How the call changes the memo. An implementation may state nothing.
    ghost called: { Self → Call → Self → Type 0 } = { λ _ _ _. ⊤ };

    /// Whether a search probes and stores nodes of the depth below its root. The choice changes the
    /// time and the steps, not the result. Nodes with at most one ply left are settled without the
    /// memo and stored only as a root; depth 1, if served, is probed for hash moves. Exact nodes of
    /// depth 2 are stored even if not served.
    fn serves(&self, _d: u8) -> bool {
        true
    }

    /// What is known of the position under the evaluation at the depth.
    fn probe(&mut self, p: &Position, e: Eval, d: u8) -> Option<Entry>
        ensures answer { result ≡ answers self.old p.now e d }
        ensures truth { IfSome result (IsTrueEntry p.now e d) }
        ensures called { called self.old (Probe p.now e d result) self.new }
        ensures capacity { capacity self.new ≡ capacity self.old };

    /// Stores a true entry, or drops it.
    fn note(&mut self, p: &Position, e: Eval, d: u8, entry: Entry)
        requires truth { IsTrueEntry p.now e d entry }
        requires depth { d ≤ SEARCH_DEPTH_MAX }
        ensures called { called self.old (Note p.now e d entry) self.new }
        ensures capacity { capacity self.new ≡ capacity self.old };
}

/// A memo that remembers nothing.
#[derive(Clone, Copy, Debug)]
pub struct NoMemo;

impl Memo for NoMemo {
    ghost answers = { λ _ p e d. Option.None };

    fn serves(&self, _d: u8) -> bool {
        false
    }

    fn probe(&mut self, _p: &Position, _e: Eval, _d: u8) -> Option<Entry> {
        None
    }

    fn note(&mut self, _p: &Position, _e: Eval, _d: u8, _entry: Entry) {}
}
