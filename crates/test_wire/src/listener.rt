//! A listener in memory.

ghost use Rattle.std.specs.Prelude.{◌≡◌, ◌++◌, [], false, IfOk, OnErr};
ghost use Rattle.byte_logs.specs.Noted.{is_noted};
ghost use Rattle.stream_transport.specs.Streams.{answer_of};

use crate::returns::{Remains, Returns};
use crate::stream::{MemoryStream, Plan};
use byte_logs::Bytes;
use http_server::Log;
use std::alloc::Allocator;
use std::time::Duration;
use stream_transport::{Listener, ListenerCall, Ready, StreamFault};

/// What a listener was told, for clauses alone.
#[derive(Drop)]
pub struct Past {
    asked: Log<ListenerCall, ()>,
    shut: Log<u64, ()>,
    failed: Log<u64, ()>,
}

/// A listener in memory, whose streams were made beforehand. It tells all that it is told, and its
/// calls. A number that came back is refused.
#[derive(Drop)]
pub struct MemoryListener<A: Allocator + Copy> {
    waiting: Vec<MemoryStream<A>, A>,
    /// The streams that came back, as far as there is memory.
    pub returned: Vec<MemoryStream<A>, A>,
    // The numbers of those that were handed out, as far as there is memory.
    handed: Vec<u64, A>,
    ready: Vec<Ready, A>,
    plan: Plan,
    returns: Returns,
    past: Past,
}

/// Whether somebody came.
fn answer_for<A: Allocator + Copy>(
    accepted: &Result<MemoryStream<A>, StreamFault>,
) -> Result<(), StreamFault>
    ensures { result ≡ answer_of accepted.now }
{
    match accepted {
        Ok(_) => Ok(()),
        Err(fault) => Err(*fault),
    }
}

/// Names each of these streams, as far as there is memory.
fn name_all<A: Allocator + Copy>(named: &mut Vec<Ready, A>, numbers: &[u64]) {
    for place in 0..numbers.len() {
        let _named = named.push(Ready::Stream(numbers[place]));
    }
}

impl<A: Allocator + Copy> MemoryListener<A> {
    /// These streams wait, the last one first.
    pub fn new(alloc: A, waiting: Vec<MemoryStream<A>, A>, plan: Plan) -> MemoryListener<A> {
        MemoryListener {
            waiting,
            returned: Vec::new(alloc),
            handed: Vec::new(alloc),
            ready: Vec::new(alloc),
            plan,
            returns: Returns::new(),
            past: Past {
                asked: Log::new(),
                shut: Log::new(),
                failed: Log::new(),
            },
        }
    }

    fn accept_as(&mut self, number: u64) -> Result<MemoryStream<A>, StreamFault>
        ensures new { IfOk result (λ _. is_noted self.old.returns.back.items number ≡ false) }
        ensures past { self.new.past ≡ self.old.past }
        ensures returns { self.new.returns ≡ self.old.returns }
        ensures ready { self.new.ready ≡ self.old.ready }
    {
        if let Some(fault) = self.plan.call() {
            return Err(fault);
        }
        if !self.returns.is_new(number) {
            return Err(StreamFault::Failed);
        }
        match self.waiting.pop() {
            Some(stream) => {
                let _named = self.handed.push(number);
                Ok(stream)
            }
            None => Err(StreamFault::WouldBlock),
        }
    }

    fn look_now(&mut self) -> Result<(), StreamFault>
        ensures nobody { OnErr result (self.new.ready.items ≡ []) }
        ensures past { self.new.past ≡ self.old.past }
        ensures returns { self.new.returns ≡ self.old.returns }
    {
        self.ready.clear();
        if let Some(fault) = self.plan.call() {
            return Err(fault);
        }
        if !self.waiting.is_empty() {
            let _named = self.ready.push(Ready::Listener);
        }
        name_all(&mut self.ready, self.handed.as_slice());
        Ok(())
    }
}

impl<A: Allocator + Copy> Listener for MemoryListener<A> {
    type Stream = MemoryStream<A>;

    ghost use Rattle.std.specs.Prelude.{Some};
    ghost use Rattle.stream_transport.specs.Streams.{firsts};
    ghost use Rattle.test_wire.specs.Telling.{told_of};

    ghost told = { λ listener. told_of listener.returns.back.items
        listener.past.shut.items listener.past.failed.items };

    ghost asked = { λ listener. Some (firsts listener.past.asked.items) };

    ghost named = { λ listener. listener.ready.items };

    fn accept(&mut self, number: u64) -> Result<MemoryStream<A>, StreamFault> {
        let accepted = self.accept_as(number);
        let answer = answer_for(&accepted);
        self.past.asked = self.past.asked.and(&ListenerCall::Accept(answer), &());
        accepted
    }

    fn look(&mut self) -> Result<(), StreamFault> {
        let looked = self.look_now();
        self.past.asked = self.past.asked.and(&ListenerCall::Look(looked), &());
        looked
    }

    fn wait(&mut self, patience: Option<Duration>) -> Result<(), StreamFault> {
        let is_bounded = patience.is_some();
        let looked = self.look_now();
        self.past.asked = self
            .past
            .asked
            .and(&ListenerCall::Wait(is_bounded, looked), &());
        looked
    }

    fn found(&self) -> usize {
        self.ready.len()
    }

    fn ready(&self, place: usize) -> Option<Ready> {
        self.ready.get(place).copied()
    }

    fn fail(&mut self, number: u64) {
        self.past.failed = self.past.failed.and(&number, &());
    }

    fn shut(&mut self, number: u64) {
        self.past.shut = self.past.shut.and(&number, &());
    }

    fn take_back(&mut self, number: u64, stream: MemoryStream<A>, kept: &[u8]) {
        let mut unread = Bytes::new();
        unread.note(kept);
        unread.note(stream.incoming.as_slice());
        let mut written = Bytes::new();
        written.note(stream.written.as_slice());
        let remains = Remains { unread, written };
        self.returns.note(number, &remains);
        let _kept = self.returned.push(stream);
    }
}
