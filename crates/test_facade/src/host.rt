//! A host.

use host_core::{Bytes, Event, Host, HostFault, Outcome, Round};
use session_slots::SessionId;
use std::alloc::Allocator;
use std::hash::{BuildHasherDefault, FoldHasher};
use std::marker::Model;
use usi_texts::Setup;

/// A host whose table has a hash without a seed. What its contracts say stays within.
#[derive(Drop)]
pub struct OpaqueHost<A: Allocator + Copy> {
    host: Host<BuildHasherDefault<FoldHasher>, A>,
}

impl<A: Allocator + Copy> Model for OpaqueHost<A> {
    ghost Value = { Unit };

    ghost view = { λ _. tt };
}

impl<A: Allocator + Copy> OpaqueHost<A> {
    /// A host of so many slots, or of the nearest number from 1 to 1,024, with so many entries, or the
    /// nearest number from 1 to 1,000,000.
    pub fn new(alloc: A, slots: usize, entries: usize) -> Result<OpaqueHost<A>, HostFault> {
        OpaqueHost::with_setup(alloc, Setup::new(), slots, entries)
    }

    /// The same under a setup.
    pub fn with_setup(
        alloc: A,
        setup: Setup,
        slots: usize,
        entries: usize,
    ) -> Result<OpaqueHost<A>, HostFault> {
        let hasher = BuildHasherDefault::<FoldHasher>::new();
        let (slots, entries) = (slots.clamp(1, 1024), entries.clamp(1, 1_000_000));
        Ok(OpaqueHost {
            host: Host::with_setup(alloc, setup, slots, entries, hasher)?,
        })
    }

    pub fn step(&mut self, event: Event<'_>) -> Outcome<A> {
        self.host.step(event)
    }

    pub fn run(&mut self, events: &[Event<'_>]) -> Result<Vec<Outcome<A>, A>, HostFault> {
        self.host.run(events)
    }

    pub fn round(&mut self, budget: u64) -> Round {
        self.host.round(budget)
    }

    pub fn open(&mut self) -> Result<SessionId, HostFault> {
        self.host.open()
    }

    pub fn feed(&mut self, id: SessionId, chunk: &[u8]) -> Result<(), HostFault> {
        self.host.feed(id, chunk)
    }

    /// The steps that were made.
    pub fn work(&mut self, id: SessionId, budget: u64) -> Result<u64, HostFault> {
        self.host.work(id, budget)
    }

    /// Takes the first bytes that are queued, up to so many.
    pub fn take(&mut self, id: SessionId, most: usize) -> Result<Bytes<A>, HostFault> {
        let queued = self.host.output(id).unwrap_or(b"").len();
        self.host.take(id, queued.min(most))
    }

    pub fn close(&mut self, id: SessionId) -> Result<(), HostFault> {
        self.host.close(id)
    }

    pub fn output(&self, id: SessionId) -> Option<&[u8]> {
        self.host.output(id)
    }

    pub fn pending(&self, id: SessionId) -> bool {
        self.host.pending(id)
    }

    pub fn wants_input(&self, id: SessionId) -> bool {
        self.host.wants_input(id)
    }

    pub fn is_over(&self, id: SessionId) -> bool {
        self.host.is_over(id)
    }

    pub fn refused_notes(&self) -> u64 {
        self.host.refused_notes()
    }
}
