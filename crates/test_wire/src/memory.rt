//! A wire in memory.

ghost use Rattle.std.specs.Prelude.{◌≡◌, ◌<◌, ◌≤◌, ◌↔◌, true, false, nat_lt, [], length, cond, min, Some, Ok, Err, IfOk, IfErr, OnErr, OnOk};
ghost use Rattle.transport.specs.Report.{GivesNumber, KeepsAll, HasCause, HasRisen, IsWithin, Reads, Writes};
ghost use Rattle.test_wire.specs.Memory.{IsKnown, new_wire, contents_of, report_by, with_peer, changed, narrowing, failing, called, failed, is_open, fails_for, peer_of, width_of, accept_answer, after_accept, read_answer, after_failing, after_read, after_write, after_shut};
ghost use Rattle.test_wire.specs.declared.memory.TheConstants.{LENT_MAX};
ghost use Rattle.transport.specs.declared.wire.WireFault.TheVariants.{Device, OutOfMemory};

use crate::peer::Peer;
use arrayvec::ArrayVec;
use std::alloc::Allocator;
use std::marker::Model;
use transport::{Got, Wire, WireFault};

/// The most bytes that a read gives.
pub const LENT_MAX: usize = 4096;

/// A wire whose connections are peers that were made beforehand. It reports all that is read and
/// written, which are shut, and of which a call has failed.
#[derive(Drop)]
pub struct MemoryWire<A: Allocator + Copy> {
    alloc: A,
    peers: Vec<Peer<A>, A>,
    accepted: usize,
    failed: u64,
    // How many calls are left until the one that fails; 0 where none does.
    fails_in: u64,
    // What the last read gave.
    lent: ArrayVec<u8, LENT_MAX>,
}

impl<A: Allocator + Copy> Model for MemoryWire<A> {
    ghost use Rattle.std.specs.Prelude.{◌≤◌, vec_len};
    ghost use Rattle.test_wire.specs.Memory.{WireState};

    ghost Value = { WireState };

    ghost view = { λ w. record {
      peers = w.peers.items;
      accepted = w.accepted;
      failed = w.failed;
      fails_in = w.fails_in;
      lent = w.lent.items;
    } };

    ghost invariant = { λ w. w.accepted ≤ vec_len w.peers };
}

impl<A: Allocator + Copy> MemoryWire<A> {
    /// A wire without connections.
    pub fn new(alloc: A) -> MemoryWire<A>
        ensures { result ≡ new_wire }
    {
        MemoryWire {
            alloc,
            peers: Vec::new(alloc),
            accepted: 0,
            failed: 0,
            fails_in: 0,
            lent: ArrayVec::new(),
        }
    }

    /// Adds a peer whose reads give these chunks, cut to what is asked for and to 4,096 bytes, and then
    /// the end; empty chunks are passed over. Answers the number that `accept` will give it: peers are
    /// accepted in the order of these calls. On `OutOfMemory` the chunks are dropped.
    pub fn connect(&mut self, chunks: Vec<Vec<u8, A>, A>) -> Result<u64, WireFault>
        ensures ok { IfOk result (λ number. number ≡ length self.old.peers) }
        ensures connected { OnOk result (self.new ≡ with_peer (contents_of chunks.items) self.old) }
        ensures known { IfOk result (λ number. IsKnown (report_by self.new) number) }
        ensures fault { IfErr result (λ fault. fault ≡ OutOfMemory) }
        ensures err { OnErr result (self.new ≡ self.old) }
    {
        let number = self.peers.len() as u64;
        let peer = Peer::new(self.alloc, chunks);
        self.peers.push(peer)?;
        Ok(number)
    }

    /// From now on each write of the connection takes at most `most` bytes; 0 stalls it.
    pub fn narrow(&mut self, number: u64, most: usize)
        requires { IsKnown (report_by self.old) number }
        ensures { self.new ≡ changed (narrowing most) number self.old }
    {
        self.peers[number as usize].narrow(most);
    }

    /// Makes the n-th call of accept, read or write from now on fail, counted from 1, and no other
    /// one. A later call replaces an earlier one.
    pub fn fail_at(&mut self, n: u64)
        requires { 1 ≤ n }
        ensures { self.new ≡ record self.old { fails_in = n } }
    {
        self.fails_in = n;
    }

    /// Whether `connect` gave this number.
    pub fn is_known(&self, number: u64) -> bool
        ensures test { result ≡ nat_lt number (length self.now.peers) }
        ensures known { result ≡ true → IsKnown (report_by self.now) number }
    {
        number < self.peers.len() as u64
    }

    /// What reads of the connection give from here on.
    pub fn chunks(&self, number: u64) -> &[Vec<u8, A>]
        requires { IsKnown (report_by self.now) number }
        ensures { contents_of result.now ≡ (peer_of self.now number).chunks }
    {
        self.peers[number as usize].chunks()
    }

    /// What was written to the connection.
    pub fn written(&self, number: u64) -> &[u8]
        requires { IsKnown (report_by self.now) number }
        ensures { (report_by self.now).written number ≡ Some result.now }
    {
        self.peers[number as usize].written()
    }

    /// Whether the connection was shut.
    pub fn is_shut(&self, number: u64) -> bool
        requires { IsKnown (report_by self.now) number }
        ensures { (report_by self.now).is_shut number ≡ Some result }
    {
        self.peers[number as usize].is_shut()
    }

    /// Whether a read or a write of the connection has failed.
    pub fn has_failed(&self, number: u64) -> bool
        requires { IsKnown (report_by self.now) number }
        ensures { (report_by self.now).has_failed number ≡ Some result }
    {
        self.peers[number as usize].has_failed()
    }

    // Whether the number is that of a connection that was accepted and not shut.
    fn is_open(&self, number: u64) -> bool
        ensures test { result ≡ is_open self.now number }
        ensures known { result ≡ true → number < length self.now.peers }
    {
        number < self.accepted as u64 && !self.peers[number as usize].is_shut()
    }

    // Counts a call of accept, read or write, which may fail.
    fn count_call(&mut self, fails: bool)
        ensures after { self.new ≡ cond fails (failed (called self.old)) (called self.old) }
        ensures rises { self.old.failed ≤ self.new.failed }
    {
        self.fails_in = self.fails_in.saturating_sub(1);
        if fails {
            self.failed = self.failed.saturating_add(1);
        }
    }

    // Marks a connection of which a call has failed.
    fn mark_failure(&mut self, number: u64)
        ensures { self.new ≡ changed failing number self.old }
    {
        if number < self.peers.len() as u64 {
            self.peers[number as usize].fail();
        }
    }

    // Counts a read or a write, and returns whether it fails: it is the one to fail, or the connection is
    // not open.
    fn fails_for(&mut self, number: u64) -> bool
        ensures test { result ≡ fails_for self.old number }
        ensures after { self.new ≡ cond result (after_failing self.old number) (called self.old) }
        ensures known { result ≡ false → number < length self.new.peers }
        ensures rises { self.old.failed ≤ self.new.failed }
        ensures cause { result ≡ true → HasRisen self.old.failed self.new.failed }
    {
        let fails = self.fails_in == 1 || !self.is_open(number);
        self.count_call(fails);
        if fails {
            self.mark_failure(number);
        }
        fails
    }
}

impl<A: Allocator + Copy> Wire for MemoryWire<A> {
    ghost use Rattle.test_wire.specs.Memory.{report_by};

    ghost report = { report_by };

    ghost bound = { λ wire. wire.accepted };

    ghost failed = { λ wire. wire.failed };

    ghost lent = { λ wire. wire.lent };

    fn accept(&mut self) -> Result<Option<u64>, WireFault>
        ensures answer { result ≡ accept_answer self.old }
        ensures after { self.new ≡ after_accept self.old }
        ensures number { GivesNumber self.old.accepted self.new.accepted result }
        ensures unchanged { KeepsAll (report_by self.old) (report_by self.new) }
        ensures cause { HasCause self.old.failed self.new.failed result }
    {
        let fails = self.fails_in == 1;
        self.count_call(fails);
        if fails {
            return Err(WireFault::Device);
        }
        if self.accepted < self.peers.len() {
            let number = self.accepted as u64;
            self.accepted += 1;
            return Ok(Some(number));
        }
        Ok(None)
    }

    fn read(&mut self, number: u64, most: usize) -> Result<Got, WireFault>
        ensures answer { result ≡ read_answer self.old number (min most LENT_MAX) }
        ensures after { self.new ≡ after_read self.old number (min most LENT_MAX) }
        ensures bound { self.new.accepted ≡ self.old.accepted }
        ensures within { IsWithin result most self.new.lent }
        ensures read { Reads (report_by self.old) (report_by self.new) number result self.new.lent }
        ensures cause { HasCause self.old.failed self.new.failed result }
    {
        if self.fails_for(number) {
            return Err(WireFault::Device);
        }
        let mut room = [0u8; LENT_MAX];
        let (front, _) = room.split_at_mut(most.min(LENT_MAX));
        let (got, n) = self.peers[number as usize].read(front);
        self.lent.clear();
        let _fits = self.lent.try_extend_from_slice(front.split_at(n).0);
        Ok(got)
    }

    fn bytes(&self) -> &[u8] {
        self.lent.as_slice()
    }

    fn write(&mut self, number: u64, buf: &[u8]) -> Result<usize, WireFault>
        ensures device { (result ≡ Err Device) ↔ (fails_for self.old number ≡ true) }
        ensures taken { IfOk result (λ n. n ≡ min (width_of self.old number) (length buf.now)) }
        ensures after { self.new ≡ after_write self.old number buf.now result }
        ensures bound { self.new.accepted ≡ self.old.accepted }
        ensures written { Writes (report_by self.old) (report_by self.new) number result buf.now }
        ensures cause { HasCause self.old.failed self.new.failed result }
    {
        if self.fails_for(number) {
            return Err(WireFault::Device);
        }
        self.peers[number as usize].take(buf)
    }

    fn shut(&mut self, number: u64)
        ensures { self.new ≡ after_shut self.old number }
    {
        if self.is_open(number) {
            self.peers[number as usize].shut();
        }
    }

    fn wait(&mut self, _idle: bool) -> Result<(), WireFault>
        ensures done { result ≡ Ok tt }
        ensures same { self.new ≡ self.old }
    {
        Ok(())
    }

    fn faults(&self) -> u64 {
        self.failed
    }
}
