//! An open session with the table of its searches.

ghost use Rattle.std.specs.Prelude.{◌≡◌, ◌≢◌, ◌≤◌, ◌+◌, ℕ, List, IfOk, OnErr, false};
ghost use Rattle.shared_table.specs.Recent.{new_table};
ghost use Rattle.shared_table.specs.Uses.{answers_of};
ghost use Rattle.shared_table.specs.declared.table.TheConstants.{CAPACITY_MAX};
ghost use Rattle.usi_session.specs.Due.{due, state_due, load, new_session_under, is_pending, HasSpent};
ghost use Rattle.usi_session.specs.Known.{IsAllKnown};
ghost use Rattle.usi_session.specs.WholeLines.{GrowsByLines};
ghost use Rattle.usi_library.specs.Calls.{AnswersFeed, IsFed, IsMoved, Settles, TellsTable};
ghost use Rattle.usi_library.specs.declared.status.TheConstants.{USI_OK};

use crate::status::{USI_NOT_WANTED, USI_OK, USI_OUT_OF_MEMORY, USI_TOO_LONG};
use shared_table::{SharedTable, TableFault};
use std::alloc::Global;
use std::hash::{BuildHasherDefault, FoldHasher};
use usi_session::{CHUNK_MAX, Session, SessionFault};
use usi_texts::Setup;

/// A session and the table that its searches ask and tell.
#[derive(Drop)]
pub struct Opened {
    pub(crate) session: Session<Global>,
    table: SharedTable<BuildHasherDefault<FoldHasher>, Global>,
}

impl Opened {
    /// A new session under a setup, over an empty table for so many entries.
    pub(crate) fn new(alloc: Global, setup: Setup, entries: usize) -> Result<Opened, TableFault>
        requires least { 1 ≤ entries }
        requires most { entries ≤ CAPACITY_MAX }
        ensures session { IfOk result (λ opened. opened.session ≡ new_session_under setup) }
        ensures table { IfOk result (λ opened. opened.table ≡ new_table entries) }
    {
        let hasher = BuildHasherDefault::<FoldHasher>::new();
        let table = SharedTable::new(alloc, entries, hasher)?;
        Ok(Opened {
            session: Session::with_setup(alloc, setup),
            table,
        })
    }

    /// Stores the bytes, or says why not and changes nothing.
    pub(crate) fn feed(&mut self, bytes: &[u8]) -> u32
        ensures fed { result ≡ USI_OK → IsFed bytes.now self.old.session self.new.session }
        ensures refused { result ≢ USI_OK → self.new ≡ self.old }
        ensures status { AnswersFeed bytes.now result self.old.session }
        ensures table { self.new.table ≡ self.old.table }
    {
        if bytes.len() > CHUNK_MAX {
            return USI_TOO_LONG;
        }
        if !self.session.wants_input() {
            return USI_NOT_WANTED;
        }
        match self.session.feed(bytes) {
            Ok(()) => USI_OK,
            Err(_) => USI_OUT_OF_MEMORY,
        }
    }

    /// Answers what is pending, with at most so many steps of search. Returns how many were made.
    pub(crate) fn work(&mut self, steps: u64) -> Result<u64, SessionFault>
        ensures due { (x : List ℕ) → due self.new.session x ≡ due self.old.session x }
        ensures after { (x : List ℕ) → state_due self.new.session x ≡ state_due self.old.session x }
        ensures most { IfOk result (λ made. made ≤ steps) }
        ensures made { IfOk result
            (λ made. made + load self.new.session ≤ load self.old.session) }
        ensures spent { IfOk result (HasSpent self.new.session steps) }
        ensures enough { Settles steps result self.old.session self.new.session }
        ensures grown { GrowsByLines self.old.session.queued self.new.session.queued }
        ensures told { TellsTable self.old self.new }
        ensures known { IsAllKnown (answers_of self.old.table) self.old.session
            → IfOk result (λ made. (made ≡ 0) × (is_pending self.new.session ≡ false)) }
        ensures err { OnErr result (load self.new.session ≤ load self.old.session) }
    {
        self.session.work(&mut self.table, steps)
    }

    /// Moves queued bytes to the front of a buffer, as many as there are and as it has room for.
    /// Returns how many.
    pub(crate) fn take(&mut self, buffer: &mut [u8]) -> usize
        ensures moved { IsMoved buffer.old buffer.new result self.old.session self.new.session }
        ensures table { self.new.table ≡ self.old.table }
    {
        let queued = self.session.output();
        let n = queued.len().min(buffer.len());
        let (front, _) = buffer.split_at_mut(n);
        let (given, _) = queued.split_at(n);
        front.copy_from_slice(given);
        self.session.take(n);
        n
    }
}
