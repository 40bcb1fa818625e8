//! A memory that records its calls and leaves the rest to another one. Each depth serves it.

use shogi_core::Position;
use shogi_eval::Eval;
use shogi_search::{Entry, Memo};
use std::alloc::Global;

/// A call: a question, or a note and what was noted.
#[derive(Clone, Copy, Debug)]
pub struct Call {
    pub position: Position,
    pub eval: Eval,
    pub depth: u8,
    pub noted: Option<Entry>,
}

/// Another memory, and the calls that it had.
#[derive(Drop)]
pub struct Recorder<M: Memo> {
    memo: M,
    calls: Vec<Call>,
}

impl<M: Memo> Recorder<M> {
    pub fn new(alloc: Global, memo: M) -> Recorder<M> {
        Recorder {
            memo,
            calls: Vec::new(alloc),
        }
    }

    /// The calls, the first one first; where an allocation failed, one is missing.
    pub fn calls(&self) -> &[Call] {
        self.calls.as_slice()
    }
}

impl<M: Memo> Memo for Recorder<M> {
    ghost answers = { λ recorder p e d. M.answers recorder.memo p e d };

    fn probe(&mut self, p: &Position, e: Eval, d: u8) -> Option<Entry> {
        let _ = self.calls.push(Call {
            position: *p,
            eval: e,
            depth: d,
            noted: None,
        });
        self.memo.probe(p, e, d)
    }

    fn note(&mut self, p: &Position, e: Eval, d: u8, entry: Entry) {
        let noted = entry;
        let _ = self.calls.push(Call {
            position: *p,
            eval: e,
            depth: d,
            noted: Some(noted),
        });
        self.memo.note(p, e, d, entry);
    }
}
