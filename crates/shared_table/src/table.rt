//! The transposition table: a bounded map, with the least recently used entry replaced first.

ghost use Rattle.std.specs.Prelude.{◌≡◌, ◌≤◌, ◌↔◌, ℕ, IsTrue, length, IfOk};
ghost use Rattle.std.specs.List.{IsDistinct};
ghost use Rattle.std.specs.Map.{keys_of};
ghost use Rattle.std.specs.Map.Iter.{ShowsInOrder, deref_pair};
ghost use Rattle.shared_table.specs.Keys.{is_same_key, key_of};
ghost use Rattle.shared_table.specs.Recent.{AreTrue, IsNoted, entry_of, hit_of, new_table, plus, recalled, table_of, with_probe};
ghost use Rattle.shared_table.specs.declared.table.TheConstants.{CAPACITY_MAX};
ghost use Rattle.minimax.specs.declared.bounds.TheConstants.{SEARCH_DEPTH_MAX};
ghost use Rattle.shared_table.specs.declared.table.TableFault.TheVariants.{OutOfMemory};

use crate::key::TableKey;
use lru::{Iter, LruCache};
use shogi_core::Position;
use shogi_eval::Eval;
use shogi_search::{Entry, Memo};
use std::alloc::{AllocError, Allocator};
use std::hash::BuildHasher;
use std::marker::Model;
use std::num::NonZeroUsize;

/// The greatest capacity of a table, in entries (own choice).
pub const CAPACITY_MAX: usize = 1_000_000;

/// Why a table could not be made.
#[derive(Clone, Copy, Debug, PartialEq, Eq)]
pub enum TableFault {
    /// Memory ran out.
    OutOfMemory,
}

impl From<AllocError> for TableFault {
    ghost from_gives = { λ _ fault. fault ≡ OutOfMemory };

    fn from(_error: AllocError) -> TableFault {
        TableFault::OutOfMemory
    }
}

/// A bounded transposition table of true entries. Contracts see its pairs, most recently used
/// first, its capacity, and its counts of probes, hits and notes that found no memory.
#[derive(Drop)]
pub struct SharedTable<S: BuildHasher, A: Allocator> {
    cache: LruCache<TableKey, Entry, S, A>,
    refused: u64,
    probes: u64,
    hits: u64,
}

impl<S: BuildHasher, A: Allocator> Model for SharedTable<S, A> {
    ghost use Rattle.shared_table.specs.Recent.{IsTable, Table, table_of};

    ghost Value = { Table };

    ghost view = { λ t. table_of t.cache t.refused t.probes t.hits };

    ghost invariant = { λ t. IsTable t.cache.entries t.cache.cap };
}

impl<S: BuildHasher + Drop, A: Allocator + Clone> SharedTable<S, A> {
    /// An empty table for `capacity` entries, from 1 to 1,000,000. `OutOfMemory` comes if its
    /// memory cannot be allocated.
    pub fn new(alloc: A, capacity: usize, hasher: S) -> Result<SharedTable<S, A>, TableFault>
        requires least { 1 ≤ capacity }
        requires most { capacity ≤ CAPACITY_MAX }
        ensures { IfOk result (λ table. table ≡ new_table capacity) }
    {
        let bound = NonZeroUsize::new(capacity).unwrap();
        let cache = LruCache::with_hasher(alloc, bound, hasher)?;
        Ok(SharedTable {
            cache,
            refused: 0,
            probes: 0,
            hits: 0,
        })
    }
}

impl<S: BuildHasher, A: Allocator> SharedTable<S, A> {
    /// Gives proofs that keys are distinct, that there are at most as many entries as the capacity,
    /// which is from 1 to 1,000,000, and that each entry is true.
    pub fn reveal_invariant(&self)
        ensures keys { IsDistinct is_same_key (keys_of self.now.pairs) }
        ensures fits { length self.now.pairs ≤ self.now.capacity }
        ensures least { 1 ≤ self.now.capacity }
        ensures most { self.now.capacity ≤ CAPACITY_MAX }
        ensures truth { AreTrue self.now.pairs }
    {
        let _ = &self.cache;
        self.len();
    }

    /// The entry of the position under the evaluation at the depth, without a change of the order
    /// or the counts.
    pub fn peek(&self, p: &Position, e: Eval, d: u8) -> Option<Entry>
        ensures { result ≡ entry_of self.now.pairs (key_of p.now e d) }
    {
        let key = TableKey::of(p, e, d);
        self.cache.peek(&key).copied()
    }

    /// The number of entries.
    pub fn len(&self) -> usize
        ensures len { result ≡ length self.now.pairs }
        ensures fits { result ≤ self.now.capacity }
        ensures keys { IsDistinct is_same_key (keys_of self.now.pairs) }
    {
        self.cache.len()
    }

    /// The number of notes of new keys that found no memory and stored nothing. The count
    /// saturates.
    pub fn refused(&self) -> u64
        ensures { result ≡ self.now.refused }
    {
        self.refused
    }

    /// The number of probes. The count saturates.
    pub fn probes(&self) -> u64
        ensures { result ≡ self.now.probes }
    {
        self.probes
    }

    /// The number of probes that found an entry. The count saturates.
    pub fn hits(&self) -> u64
        ensures { result ≡ self.now.hits }
    {
        self.hits
    }

    /// The keys with their entries, most recently used first.
    pub fn entries(&self) -> Iter<'_, TableKey, Entry>
        ensures rest { result ≡ self.now.pairs }
        ensures runs { ShowsInOrder (deref_pair {K = TableKey} {X = Entry}) }
        ensures truth { AreTrue self.now.pairs }
    {
        self.cache.iter()
    }
}

impl<S: BuildHasher, A: Allocator + Clone> Memo for SharedTable<S, A> {
    ghost use Rattle.std.specs.Prelude.{IfSome};
    ghost use Rattle.minimax.specs.Minimax.{IsTrueEntry};
    ghost use Rattle.shared_table.specs.Uses.{IsUsed};

    ghost answers = { λ table p e d. entry_of table.pairs (key_of p e d) };

    ghost capacity = { λ table. table.capacity };

    ghost called = { IsUsed };

    /// True from depth 3 on: a node of depth 2 is searched about as fast as it is looked up.
    fn serves(&self, d: u8) -> bool
        ensures { IsTrue result ↔ (3 ≤ d) }
    {
        d >= 3
    }

    fn probe(&mut self, p: &Position, e: Eval, d: u8) -> Option<Entry>
        ensures answer { result ≡ entry_of self.old.pairs (key_of p.now e d) }
        ensures truth { IfSome result (IsTrueEntry p.now e d) }
        ensures used { self.new ≡ with_probe self.old (key_of p.now e d) }
        ensures capacity { self.new.capacity ≡ self.old.capacity }
    {
        let key = TableKey::of(p, e, d);
        let answer = recall(&mut self.cache, &key);
        count(&mut self.probes, 1);
        count(&mut self.hits, hit_of(&answer));
        answer
    }

    fn note(&mut self, p: &Position, e: Eval, d: u8, entry: Entry)
        requires truth { IsTrueEntry p.now e d entry }
        requires depth { d ≤ SEARCH_DEPTH_MAX }
        ensures noted { IsNoted self.old (key_of p.now e d) entry self.new }
        ensures capacity { self.new.capacity ≡ self.old.capacity }
    {
        let key = TableKey::of(p, e, d);
        remember(&mut self.cache, &mut self.refused, key, entry);
    }
}

// Adds to a count, which saturates.
fn count(count: &mut u64, more: u64)
    ensures { count.new ≡ plus count.old more }
{
    *count = count.saturating_add(more);
}

// 1 if an entry was found, else 0.
fn hit_of(answer: &Option<Entry>) -> u64
    ensures { result ≡ hit_of answer.now }
{
    match answer {
        Some(_) => 1,
        None => 0,
    }
}

// The entry under the key, which becomes the most recently used.
fn recall<S: BuildHasher, A: Allocator>(
    cache: &mut LruCache<TableKey, Entry, S, A>,
    key: &TableKey,
) -> Option<Entry>
    ensures value { result ≡ entry_of cache.old.entries key.now }
    ensures cache { cache.new ≡ recalled key.now cache.old }
{
    cache.get(key).copied()
}

// Puts the entry under the key, or counts a refusal if a new key finds no memory.
fn remember<S: BuildHasher, A: Allocator + Clone>(
    cache: &mut LruCache<TableKey, Entry, S, A>,
    refused: &mut u64,
    key: TableKey,
    entry: Entry,
)
    ensures { (probes hits : ℕ) → IsNoted (table_of cache.old refused.old probes hits)
        key entry (table_of cache.new refused.new probes hits) }
{
    cache.len();
    if cache.push(key, entry).is_err() {
        count(refused, 1);
    }
}
