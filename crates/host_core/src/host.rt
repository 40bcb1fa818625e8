//! A host of sessions.

ghost use Rattle.std.specs.Prelude.{◌≡◌, ◌≤◌, IfNone, IfOk, IsErrOf, IsSome, None, OnErr, OnSome, Err, length};
ghost use Rattle.session_slots.specs.Slots.{count, find, IsBelow, OthersKept};
ghost use Rattle.shared_table.specs.Recent.{AreTrue};
ghost use Rattle.host_core.specs.ById.{IsQueue, activity_of, pending_of, wants_input_of, is_over_of};
ghost use Rattle.host_core.specs.Events.{Open, Feed, Work, Take, Close, Opened, Worked, Gave};
ghost use Rattle.host_core.specs.Kept.{PassKeepsOthers};
ghost use Rattle.host_core.specs.Seen.{as_outcome, done_of, passed_from};
ghost use Rattle.host_core.specs.Steps.{Stepped, new_host, new_host_under};
ghost use Rattle.host_core.specs.declared.event.HostFault.TheVariants.{OutOfMemory};
ghost use Rattle.session_slots.specs.declared.limits.TheConstants.{SESSIONS_MAX};
ghost use Rattle.shared_table.specs.declared.table.TheConstants.{CAPACITY_MAX};

use crate::bytes::Bytes;
use crate::event::HostFault;
use crate::notes::{Activity, Note};
use crate::{notes, on_session};
use session_slots::{SessionId, SlotFault, Slots};
use shared_table::SharedTable;
use std::alloc::Allocator;
use std::hash::BuildHasher;
use std::marker::Model;
use usi_session::Session;
use usi_texts::Setup;

/// Drops the value, and tells whether there was one.
fn dropped<T: Drop>(value: Option<T>) -> Option<()>
    ensures some { OnSome result (IsSome value) }
    ensures if_none { IfNone result (value ≡ None) }
{
    match value {
        Some(_) => Some(()),
        None => None,
    }
}

/// Sessions over one table of searched positions. Each is answered as if it were alone; searches of
/// the others can only save it steps.
#[derive(Drop)]
pub struct Host<S: BuildHasher, A: Allocator + Copy> {
    pub(crate) alloc: A,
    // The setup under which each session begins.
    setup: Setup,
    table: SharedTable<S, A>,
    pub(crate) slots: Slots<Session<A>, A>,
    // The notes, by slot.
    pub(crate) notes: Vec<Note, A>,
}

impl<S: BuildHasher, A: Allocator + Copy> Model for Host<S, A> {
    ghost use Rattle.host_core.specs.Steps.{HostState};
    ghost use Rattle.host_core.specs.Notes.{AreNoted};

    ghost Value = { HostState };

    ghost view = { λ h. record { setup = h.setup; table = h.table; slots = h.slots } };

    ghost invariant = { λ h. AreNoted h.notes.items h.slots };
}

impl<S: BuildHasher, A: Allocator + Copy> Host<S, A> {
    /// A host under the default setup; see `with_setup`.
    pub fn new(alloc: A, slots: usize, entries: usize, hasher: S) -> Result<Host<S, A>, HostFault>
    where
        S: Drop,
        requires least_slots { 1 ≤ slots }
        requires most_slots { slots ≤ SESSIONS_MAX }
        requires least_entries { 1 ≤ entries }
        requires most_entries { entries ≤ CAPACITY_MAX }
        ensures new { IfOk result (λ host. host ≡ new_host slots entries) }
        ensures fault { OnErr result (result ≡ Err OutOfMemory) }
    {
        Host::with_setup(alloc, Setup::new(), slots, entries, hasher)
    }

    /// A host without sessions, with an empty table. It holds at most `slots` sessions at a time,
    /// from 1 to 1,024; the table holds at most `entries` entries, from 1 to 1,000,000. The only
    /// fault is `OutOfMemory`.
    pub fn with_setup(
        alloc: A,
        setup: Setup,
        slots: usize,
        entries: usize,
        hasher: S,
    ) -> Result<Host<S, A>, HostFault>
    where
        S: Drop,
        requires least_slots { 1 ≤ slots }
        requires most_slots { slots ≤ SESSIONS_MAX }
        requires least_entries { 1 ≤ entries }
        requires most_entries { entries ≤ CAPACITY_MAX }
        ensures new { IfOk result (λ host. host ≡ new_host_under setup slots entries) }
        ensures fault { OnErr result (result ≡ Err OutOfMemory) }
    {
        let Ok(table) = SharedTable::new(alloc, entries, hasher) else {
            return Err(HostFault::OutOfMemory);
        };
        let notes = vec![in alloc; Note::NONE; slots]?;
        Ok(Host {
            alloc,
            setup,
            table,
            slots: Slots::new(alloc, slots),
            notes,
        })
    }

    /// States the invariants: each table entry is true, there are at most `capacity` of them, each
    /// id that finds a session has a generation below the next one, and at most 1,024 sessions are
    /// open.
    pub fn reveal_invariant(&self)
        ensures truth { AreTrue self.now.table.pairs }
        ensures fits { length self.now.table.pairs ≤ self.now.table.capacity }
        ensures below { IsBelow self.now.slots }
        ensures few { count self.now.slots ≤ SESSIONS_MAX }
    {
        self.table.reveal_invariant();
        self.slots.reveal_invariant();
    }

    /// The setup under which each session begins.
    pub fn setup(&self) -> Setup
        ensures { result ≡ self.now.setup }
    {
        self.setup
    }

    /// The entries that the table had no memory to store. The count saturates.
    pub fn refused_notes(&self) -> u64
        ensures { result ≡ self.now.table.refused }
    {
        self.table.refused()
    }

    /// The probes of the table so far. The count saturates.
    pub fn probes(&self) -> u64
        ensures { result ≡ self.now.table.probes }
    {
        self.table.probes()
    }

    /// The probes that found an entry. The count saturates.
    pub fn hits(&self) -> u64
        ensures { result ≡ self.now.table.hits }
    {
        self.table.hits()
    }

    /// The number of entries in the table.
    pub fn entries(&self) -> usize
        ensures { result ≡ length self.now.table.pairs }
    {
        self.table.len()
    }

    /// Opens a session: the opening position, each option as the setup has it, no bestmove held.
    /// `Full` if the host is full or has no id left; `OutOfMemory`. A refusal changes nothing.
    pub fn open(&mut self) -> Result<SessionId, HostFault>
        ensures opened { Stepped self.old Open (as_outcome Opened result) self.new }
        ensures err { OnErr result (self.new ≡ self.old) }
        ensures below { IsBelow self.old.slots }
    {
        self.reveal_invariant();
        let session = Session::with_setup(self.alloc, self.setup);
        let activity = Activity::of(&session);
        match self.slots.open(session) {
            Ok(id) => {
                notes::set(&mut self.notes, id, activity);
                Ok(id)
            }
            Err(SlotFault::Full) => Err(HostFault::Full),
            Err(SlotFault::OutOfMemory) => Err(HostFault::OutOfMemory),
        }
    }

    /// Stores bytes for a session, and answers none yet. `UnknownSession`; `NotReady` if it wants
    /// no input, or for more than 4,096 bytes; `OutOfMemory`. A refusal changes nothing.
    pub fn feed(&mut self, id: SessionId, chunk: &[u8]) -> Result<(), HostFault>
        ensures fed { Stepped self.old (Feed id chunk.now) (done_of result) self.new }
        ensures others { OthersKept self.old.slots self.new.slots id }
        ensures err { OnErr result (self.new ≡ self.old) }
        ensures below { IsBelow self.old.slots }
    {
        self.reveal_invariant();
        let Some(session) = self.slots.get_mut(id) else {
            return Err(HostFault::UnknownSession);
        };
        let fed = on_session::feed(session, chunk);
        notes::set(&mut self.notes, id, Activity::of(session));
        fed
    }

    /// Lets a session answer its pending lines, with at most `budget` steps of search. Returns the
    /// steps made, 0 if nothing was pending. `UnknownSession` changes nothing; after `OutOfMemory`
    /// the session still owes the same replies, but some may be queued now, and the table may have
    /// changed.
    pub fn work(&mut self, id: SessionId, budget: u64) -> Result<u64, HostFault>
        ensures worked { Stepped self.old (Work id budget) (as_outcome Worked result) self.new }
        ensures others { OthersKept self.old.slots self.new.slots id }
        ensures truth { AreTrue self.new.table.pairs }
        ensures fits { length self.new.table.pairs ≤ self.new.table.capacity }
        ensures below { IsBelow self.old.slots }
    {
        self.reveal_invariant();
        let Some(session) = self.slots.get_mut(id) else {
            return Err(HostFault::UnknownSession);
        };
        let worked = on_session::work(session, &mut self.table, budget);
        notes::set(&mut self.notes, id, Activity::of(session));
        self.table.reveal_invariant();
        worked
    }

    /// Hands out the first n queued bytes of a session. `UnknownSession`; `NotReady` if fewer are
    /// queued; `OutOfMemory`. A refusal changes nothing.
    pub fn take(&mut self, id: SessionId, n: usize) -> Result<Bytes<A>, HostFault>
        ensures taken { Stepped self.old (Take id n) (as_outcome Gave result) self.new }
        ensures others { OthersKept self.old.slots self.new.slots id }
        ensures err { OnErr result (self.new ≡ self.old) }
        ensures below { IsBelow self.old.slots }
    {
        self.reveal_invariant();
        let Some(queued) = self.output(id) else {
            return Err(HostFault::UnknownSession);
        };
        if n > queued.len() {
            return Err(HostFault::NotReady);
        }
        let bytes = Bytes::copy_of(self.alloc, queued.split_at(n).0)?;
        self.pass(id, n)?;
        Ok(bytes)
    }

    /// Drops the first n queued bytes of a session: a `Take` that hands nothing out, and takes no
    /// memory. `UnknownSession`; `NotReady` if fewer are queued. A refusal changes nothing.
    pub fn pass(&mut self, id: SessionId, n: usize) -> Result<(), HostFault>
        ensures taken { Stepped self.old (Take id n) (passed_from self.old id n result) self.new }
        ensures no_memory { IsErrOf result OutOfMemory → ⊥ }
        ensures others { PassKeepsOthers self.old id n result self.new }
        ensures err { OnErr result (self.new ≡ self.old) }
        ensures below { IsBelow self.old.slots }
    {
        self.reveal_invariant();
        let Some(session) = self.slots.get_mut(id) else {
            return Err(HostFault::UnknownSession);
        };
        let passed = on_session::pass(session, n);
        notes::set(&mut self.notes, id, Activity::of(session));
        passed
    }

    /// Closes a session, and drops whatever was queued or pending. `UnknownSession` if none is open
    /// under the id.
    pub fn close(&mut self, id: SessionId) -> Result<(), HostFault>
        ensures closed { Stepped self.old (Close id) (done_of result) self.new }
        ensures others { OthersKept self.old.slots self.new.slots id }
        ensures err { OnErr result (self.new ≡ self.old) }
        ensures below { IsBelow self.old.slots }
    {
        self.reveal_invariant();
        match dropped(self.slots.close(id)) {
            Some(()) => {
                notes::set(&mut self.notes, id, Activity::NONE);
                Ok(())
            }
            None => Err(HostFault::UnknownSession),
        }
    }

    /// The queued bytes of a session, or `None` if none is open under the id.
    pub fn output(&self, id: SessionId) -> Option<&[u8]>
        ensures { IsQueue (find self.now.slots id) result }
    {
        match self.slots.get(id) {
            Some(session) => Some(session.output()),
            None => None,
        }
    }

    /// The activity of a session, from its note; `Activity::NONE` if none is open under the id. The
    /// slots are looked up only for an id without a note, which no session of this host has.
    pub fn activity(&self, id: SessionId) -> Activity
        ensures { result ≡ activity_of (find self.now.slots id) }
    {
        if let Some(note) = self.notes.get(id.slot) {
            return note.of(id.generation);
        }
        match self.slots.get(id) {
            Some(session) => Activity::of(session),
            None => Activity::NONE,
        }
    }

    /// Whether a session has a running `go` or an unread line, and has not ended. False if none is
    /// open under the id.
    pub fn pending(&self, id: SessionId) -> bool
        ensures { result ≡ pending_of (find self.now.slots id) }
    {
        self.activity(id).is_pending
    }

    /// Whether a session may be fed: it has not ended, nothing is pending, and fewer than 65,536
    /// bytes are queued. False if none is open under the id.
    pub fn wants_input(&self, id: SessionId) -> bool
        ensures { result ≡ wants_input_of (find self.now.slots id) }
    {
        self.activity(id).wants_input
    }

    /// Whether a session has ended, by `quit` or a line that was too long. False if none is open
    /// under the id.
    pub fn is_over(&self, id: SessionId) -> bool
        ensures { result ≡ is_over_of (find self.now.slots id) }
    {
        self.activity(id).is_over
    }
}
