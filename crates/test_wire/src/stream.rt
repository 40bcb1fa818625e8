//! Streams in memory.

ghost use Rattle.std.specs.Prelude.{◌≡◌, [], Some};
ghost use Rattle.std.specs.Io.{ReadsAtMost, WritesAtMost};
ghost use Rattle.std.specs.Io.KnownBytes.{ReadConsumes, WriteAppends};

use crate::peer::take_prefix;
use byte_logs::Bytes;
use http_server::Log;
use std::alloc::Allocator;
use stream_transport::{ByteStream, StreamCall, StreamFault};

/// Which call fails, and how.
#[derive(Clone, Copy)]
pub struct Plan {
    /// How many calls are left until that one: 1 where it is the next, 0 where none fails.
    pub fails_in: u64,
    pub fault: StreamFault,
}

impl Plan {
    /// No call fails.
    pub fn none() -> Plan {
        Plan {
            fails_in: 0,
            fault: StreamFault::Failed,
        }
    }

    /// Counts a call, and answers how it fails.
    pub fn call(&mut self) -> Option<StreamFault> {
        let is_due = self.fails_in == 1;
        self.fails_in = self.fails_in.saturating_sub(1);
        if is_due { Some(self.fault) } else { None }
    }
}

/// A stream in memory. It tells what its reads will give and gave, what its writes took, and its calls.
#[derive(Drop)]
pub struct MemoryStream<A: Allocator + Copy> {
    // What its reads give from here on.
    pub incoming: Vec<u8, A>,
    /// What its writes took.
    pub written: Vec<u8, A>,
    // The most bytes that a write takes.
    width: usize,
    plan: Plan,
    given: Bytes,
    calls: Log<StreamCall, ()>,
}

impl<A: Allocator + Copy> MemoryStream<A> {
    /// Its reads give these bytes, and then the end; a write takes at most `width`.
    pub fn new(alloc: A, incoming: Vec<u8, A>, width: usize, plan: Plan) -> MemoryStream<A>
        ensures incoming { result.incoming.items ≡ incoming.items }
        ensures written { result.written.items ≡ [] }
        ensures calls { result.calls.items ≡ [] }
    {
        MemoryStream {
            incoming,
            written: Vec::new(alloc),
            width,
            plan,
            given: Bytes::new(),
            calls: Log::new(),
        }
    }

    fn give(&mut self, buf: &mut [u8]) -> Result<usize, StreamFault>
        ensures bound { ReadsAtMost result buf.new }
        ensures bytes { ReadConsumes (Some self.old.incoming.items) (Some self.new.incoming.items)
            result buf.new }
        ensures written { self.new.written ≡ self.old.written }
        ensures given { self.new.given ≡ self.old.given }
        ensures calls { self.new.calls ≡ self.old.calls }
    {
        if let Some(fault) = self.plan.call() {
            return Err(fault);
        }
        Ok(take_prefix(&mut self.incoming, buf))
    }

    fn take(&mut self, buf: &[u8]) -> Result<usize, StreamFault>
        ensures bound { WritesAtMost result buf.now }
        ensures bytes { WriteAppends (Some self.old.written.items) (Some self.new.written.items)
            result buf.now }
        ensures incoming { self.new.incoming ≡ self.old.incoming }
        ensures given { self.new.given ≡ self.old.given }
        ensures calls { self.new.calls ≡ self.old.calls }
    {
        if let Some(fault) = self.plan.call() {
            return Err(fault);
        }
        let n = self.width.min(buf.len());
        let (front, _) = buf.split_at(n);
        if self.written.extend_from_slice(front).is_err() {
            return Err(StreamFault::Failed);
        }
        Ok(n)
    }
}

impl<A: Allocator + Copy> ByteStream for MemoryStream<A> {
    ghost use Rattle.std.specs.Prelude.{Some};
    ghost use Rattle.stream_transport.specs.Streams.{firsts};

    ghost unread = { λ stream. Some stream.incoming.items };

    ghost written = { λ stream. Some stream.written.items };

    ghost given = { λ stream. Some stream.given.items };

    ghost calls = { λ stream. Some (firsts stream.calls.items) };

    fn receive(&mut self, buf: &mut [u8]) -> Result<usize, StreamFault> {
        let room = buf.len();
        let answer = self.give(buf);
        self.calls = self.calls.and(&StreamCall::Receive(room, answer), &());
        if let Ok(n) = answer {
            self.given.note(buf.split_at(n).0);
        }
        answer
    }

    fn send(&mut self, buf: &[u8]) -> Result<usize, StreamFault> {
        let answer = self.take(buf);
        self.calls = self.calls.and(&StreamCall::Send(buf.len(), answer), &());
        answer
    }
}
