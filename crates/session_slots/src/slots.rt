//! Sessions in slots.

ghost use Rattle.std.specs.Prelude.{◌≡◌, ◌≤◌, ◌<◌, ◌+◌, ◌-◌, ◌^◌, ◌↔◌, [], IfOk, IfSome, IfNone, OnSome, OnErr, IsSome, IsTrue, Err, None, Some, option_copied};
ghost use Rattle.std.specs.Option.{option_copied_mut};
ghost use Rattle.std.specs.Borrow.{sem};
ghost use Rattle.session_slots.specs.declared.slots.SlotFault.TheVariants as SlotFault;
ghost use Rattle.session_slots.specs.Order.{next_of};
ghost use Rattle.session_slots.specs.Slots.{find, count, Opens, OthersKept, IsFull, IsBelow, IsSpent};
ghost use Rattle.session_slots.specs.declared.limits.TheConstants.{SESSIONS_MAX};

use crate::id::SessionId;
use crate::slot::Slot;
use slab::Slab;
use std::alloc::Allocator;
use std::marker::Model;

/// The fault of an `open`, which changes nothing.
#[derive(Clone, Copy, Debug, PartialEq, Eq)]
pub enum SlotFault {
    /// All slots are taken, or no id is left: the next generation would be
    /// 18,446,744,073,709,551,615.
    Full,
    /// There was room for a session but no memory for its slot.
    OutOfMemory,
}

/// Open sessions under their ids, at most `max` at a time.
#[derive(Drop)]
pub struct Slots<T, A: Allocator> {
    max: usize,
    // The number of sessions ever opened: the generation of the next one.
    next: u64,
    slots: Slab<Slot<T>, A>,
}

impl<T, A: Allocator> Model for Slots<T, A> {
    ghost use Rattle.session_slots.specs.Slots.{OpenSessions};

    ghost Value = { OpenSessions T };

    ghost use Rattle.session_slots.specs.Bounds.{AreBounded};

    ghost view = { λ s. record { max = s.max; next = s.next; slots = s.slots.slots } };

    ghost invariant = { λ s. AreBounded s.max s.next s.slots.slots };
}

impl<T, A: Allocator> Slots<T, A> {
    ghost use Rattle.session_slots.specs.Lends.{lends_found, lends_if_found};

    /// No open session, and room for `max`, from 1 to 1,024. Takes no memory.
    pub fn new(alloc: A, max: usize) -> Slots<T, A>
        requires least { 1 ≤ max }
        requires most { max ≤ SESSIONS_MAX }
        ensures { result ≡ record { max = max; next = 0; slots = [] } }
    {
        Slots {
            max,
            next: 0,
            slots: Slab::new(alloc),
        }
    }

    /// States that the id of each open session has a generation below the next one, and that at
    /// most 1,024 sessions are open.
    pub fn reveal_invariant(&self)
        ensures below { IsBelow self.now }
        ensures few { count self.now ≤ SESSIONS_MAX }
    {
        let _ = &self.next;
    }

    /// Whether no further session can be opened.
    fn is_full(&self) -> bool
        ensures { IsTrue result ↔ IsFull self.now }
    {
        self.slots.len() >= self.max || self.next == u64::MAX
    }

    /// Opens the given session. Its generation is the number of sessions opened before it, so no id
    /// comes twice. `Full` comes before `OutOfMemory`; a fault uses no generation and drops the
    /// session.
    pub fn open(&mut self, session: T) -> Result<SessionId, SlotFault>
    where
        T: Drop,
        ensures opened { IfOk result (λ id. Opens self.old self.new id session) }
        ensures full { (result ≡ Err SlotFault.Full) ↔ IsFull self.old }
        ensures spent { (id : SessionId) → IsSpent self.old id → IsSpent self.new id }
        ensures err { OnErr result (self.new ≡ self.old) }
    {
        if self.is_full() {
            return Err(SlotFault::Full);
        }
        if self.slots.reserve(1).is_err() {
            return Err(SlotFault::OutOfMemory);
        }
        let generation = self.next;
        let slot = self.slots.insert_reserved(Slot {
            generation,
            session,
        });
        self.next += 1;
        Ok(SessionId { slot, generation })
    }

    /// The id of the open session in the least slot, or in the least slot above `after`. It looks
    /// only at that slot and the vacant ones before it.
    pub fn next_open(&self, after: Option<usize>) -> Option<SessionId>
        ensures value { result ≡ next_of self.now after }
        ensures open { IfSome result (λ id. IsSome (find self.now id)) }
        ensures not_last { IfSome result (λ id. id.slot < 2 ^ 64 - 1) }
    {
        let end = self.slots.capacity();
        let start = match after {
            None => 0,
            Some(slot) => {
                if slot >= end {
                    return None;
                }
                slot + 1
            }
        };
        for slot in start..end {
            if let Some(opened) = self.slots.get(slot) {
                let generation = opened.generation;
                return Some(SessionId { slot, generation });
            }
        }
        None
    }

    /// The session of the id; `None` forever once it is closed.
    pub fn get(&self, id: SessionId) -> Option<&T>
        ensures { option_copied result ≡ find self.now id }
    {
        let slot = self.slots.get(id.slot)?;
        if slot.generation == id.generation {
            Some(&slot.session)
        } else {
            None
        }
    }

    /// Whether the session of the id is open.
    fn has(&self, id: SessionId) -> bool
        ensures { IsTrue result ↔ IsSome (find self.now id) }
    {
        self.get(id).is_some()
    }

    /// The open session of the id, mutably.
    fn session_mut(&mut self, id: SessionId) -> &mut T
        requires { IsSome (find self.old id) }
        ensures* writes_back { sem 𝓛 (lends_found T.row A.row A.Allocator self.entry id result) }
        ensures value { find self.old id ≡ Some result.now }
    {
        self.slots[id.slot].session_mut()
    }

    /// The session of the id, mutably; `None` if it is not open.
    pub fn get_mut(&mut self, id: SessionId) -> Option<&mut T>
        ensures* writes_back { sem 𝓛 (lends_if_found T.row A.row A.Allocator self.entry id result) }
        ensures value { option_copied_mut result ≡ find self.old id }
    {
        if self.has(id) {
            Some(self.session_mut(id))
        } else {
            None
        }
    }

    /// Closes the session of the id and returns it; `None` if it is not open. The id finds nothing
    /// from now on.
    pub fn close(&mut self, id: SessionId) -> Option<T>
        ensures value { result ≡ find self.old id }
        ensures if_none { find self.new id ≡ None }
        ensures others { OthersKept self.old self.new id }
        ensures unchanged { (self.new.max ≡ self.old.max) × (self.new.next ≡ self.old.next) }
        ensures count { OnSome result (count self.new + 1 ≡ count self.old) }
        ensures spent { (other : SessionId) → IsSpent self.old other → IsSpent self.new other }
        ensures absent { IfNone result (self.new ≡ self.old) }
    {
        if !self.has(id) {
            return None;
        }
        let slot = self.slots.remove(id.slot);
        Some(slot.session)
    }
}
