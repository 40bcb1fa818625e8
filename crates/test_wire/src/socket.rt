//! Sockets of a system in memory, which tell all that they are asked for.

ghost use Rattle.std.specs.Prelude.{◌≡◌, [], IfOk};
ghost use Rattle.std.specs.IoError.{error_kind};
ghost use Rattle.stream_transport.specs.Streams.{fault_by};

use crate::stream::{MemoryStream, Plan};
use byte_logs::Bytes;
use http_server::Log;
use mio::Events;
use std::alloc::Allocator;
use std::io;
use std::io::ErrorKind;
use std::marker::PhantomData;
use std::time::Duration;
use stream_transport::{Binder, ByteStream, Endpoint, Socket, StreamFault, WATCHED, Watcher};

/// An error of the system with this reason.
fn error_for(fault: StreamFault) -> io::Error
    ensures { fault_by (error_kind result) ≡ fault }
{
    match fault {
        StreamFault::WouldBlock => ErrorKind::WouldBlock.into(),
        StreamFault::Interrupted => ErrorKind::Interrupted.into(),
        StreamFault::Failed => ErrorKind::BrokenPipe.into(),
    }
}

/// A stream of a system in memory.
#[derive(Drop)]
pub struct MemorySocket<A: Allocator + Copy> {
    pub stream: MemoryStream<A>,
    /// Its writing side was shut.
    pub is_shut: bool,
    ends: Log<Result<(), StreamFault>, ()>,
}

impl<A: Allocator + Copy> MemorySocket<A> {
    /// Its peer has sent these bytes; a write takes 3 at most.
    fn new(alloc: A, incoming: Vec<u8, A>) -> MemorySocket<A>
        ensures { result.stream.calls.items ≡ [] }
    {
        MemorySocket {
            stream: MemoryStream::new(alloc, incoming, 3, Plan::none()),
            is_shut: false,
            ends: Log::new(),
        }
    }
}

impl<A: Allocator + Copy> Socket for MemorySocket<A> {
    ghost use Rattle.std.specs.Prelude.{Some};
    ghost use Rattle.stream_transport.specs.Streams.{firsts};

    ghost unread = { λ socket. Some socket.stream.incoming.items };

    ghost taken = { λ socket. Some socket.stream.written.items };

    ghost calls = { λ socket. Some (firsts socket.stream.calls.items) };

    ghost is_shut = { λ socket. Some socket.is_shut };

    ghost ends = { λ socket. Some (firsts socket.ends.items) };

    fn read_some(&mut self, buf: &mut [u8]) -> io::Result<usize> {
        match self.stream.receive(buf) {
            Ok(n) => Ok(n),
            Err(fault) => Err(error_for(fault)),
        }
    }

    fn write_some(&mut self, buf: &[u8]) -> io::Result<usize> {
        match self.stream.send(buf) {
            Ok(n) => Ok(n),
            Err(fault) => Err(error_for(fault)),
        }
    }

    fn end_writing(&mut self) -> io::Result<()> {
        self.is_shut = true;
        self.ends = self.ends.and(&Ok(()), &());
        Ok(())
    }
}

/// A call of an endpoint, with its answer.
#[derive(Clone, Copy)]
pub enum EndpointCall {
    /// Who waits first was asked for.
    Accept(Result<(), StreamFault>),
    /// A stream was to be named by this number.
    Name(u64, Result<(), StreamFault>),
    /// A listener was to be named by this number.
    NameListener(u64, Result<(), StreamFault>),
    /// A poll of so long at most.
    Poll(Option<Duration>, Result<(), StreamFault>),
}

/// A listener in memory, whose clients have sent what they will.
#[derive(Drop)]
pub struct MemoryDoor<A: Allocator + Copy> {
    alloc: A,
    // What each client has sent, the last one first.
    waiting: Vec<Vec<u8, A>, A>,
}

impl<A: Allocator + Copy> MemoryDoor<A> {
    /// These clients wait, the last one first.
    pub fn new(alloc: A, waiting: Vec<Vec<u8, A>, A>) -> MemoryDoor<A> {
        MemoryDoor { alloc, waiting }
    }

    /// Who waits first.
    fn accept(&mut self) -> Result<MemorySocket<A>, StreamFault>
        ensures { IfOk result (λ socket. socket.stream.calls.items ≡ []) }
    {
        match self.waiting.pop() {
            Some(incoming) => Ok(MemorySocket::new(self.alloc, incoming)),
            None => Err(StreamFault::WouldBlock),
        }
    }
}

/// An endpoint in memory. Its polls find nobody.
#[derive(Drop)]
pub struct MemoryEndpoint<A: Allocator + Copy> {
    calls: Log<EndpointCall, ()>,
    of: PhantomData<A>,
}

impl<A: Allocator + Copy> MemoryEndpoint<A> {
    /// It was asked for nothing.
    pub fn new() -> MemoryEndpoint<A>
        ensures { result.calls.items ≡ [] }
    {
        MemoryEndpoint {
            calls: Log::new(),
            of: PhantomData,
        }
    }
}

impl<A: Allocator + Copy> Endpoint for MemoryEndpoint<A> {
    type Stream = MemorySocket<A>;

    type Listener = MemoryDoor<A>;

    type Watcher = MemoryEndpoint<A>;

    ghost use Rattle.std.specs.Prelude.{Some};
    ghost use Rattle.test_wire.specs.Endpoints.{calls_of};

    ghost calls = { λ endpoint. Some (calls_of endpoint.calls.items) };

    fn accept_one(&mut self, listener: &mut MemoryDoor<A>) -> io::Result<MemorySocket<A>> {
        match listener.accept() {
            Ok(socket) => {
                self.calls = self.calls.and(&EndpointCall::Accept(Ok(())), &());
                Ok(socket)
            }
            Err(fault) => {
                self.calls = self.calls.and(&EndpointCall::Accept(Err(fault)), &());
                Err(error_for(fault))
            }
        }
    }

    fn name(&mut self, _stream: &mut MemorySocket<A>, number: u64) -> io::Result<()> {
        self.calls = self.calls.and(&EndpointCall::Name(number, Ok(())), &());
        Ok(())
    }

    fn name_listener(&mut self, _listener: &mut MemoryDoor<A>, number: u64) -> io::Result<()> {
        self.calls = self
            .calls
            .and(&EndpointCall::NameListener(number, Ok(())), &());
        Ok(())
    }

    fn watcher(&mut self) -> io::Result<MemoryEndpoint<A>> {
        Ok(MemoryEndpoint::new())
    }

    fn poll_once<B: Allocator>(
        &mut self,
        events: &mut Events<B>,
        patience: Option<Duration>,
    ) -> io::Result<()> {
        events.clear();
        self.calls = self.calls.and(&EndpointCall::Poll(patience, Ok(())), &());
        Ok(())
    }
}

impl<A: Allocator + Copy> Watcher for MemoryEndpoint<A> {
    type Stream = MemorySocket<A>;

    type Listener = MemoryDoor<A>;

    type Spare = ();

    ghost use Rattle.std.specs.Prelude.{Some};
    ghost use Rattle.test_wire.specs.Endpoints.{calls_of};

    ghost calls = { λ endpoint. Some (calls_of endpoint.calls.items) };

    fn accept_visitor(&mut self, listener: &mut MemoryDoor<A>) -> io::Result<MemorySocket<A>> {
        self.accept_one(listener)
    }

    fn watch_again(&mut self, listener: &mut MemoryDoor<A>) -> io::Result<()> {
        self.name_listener(listener, WATCHED)
    }

    fn spare(&mut self) -> io::Result<()> {
        Ok(())
    }
}

/// A call of a binder, with its answer.
#[derive(Clone, Copy)]
pub enum BinderStep {
    /// An endpoint was to be made.
    Open(Result<(), StreamFault>),
    /// A listener was to be made at a path.
    Listen(Result<(), StreamFault>),
}

/// Makes endpoints in memory. A path is taken once a listener was made.
#[derive(Drop)]
pub struct MemoryBinder<A: Allocator + Copy> {
    // The listener that it makes.
    door: Option<MemoryDoor<A>>,
    // Each call, with the path of a listener.
    calls: Log<BinderStep, Bytes>,
}

impl<A: Allocator + Copy> MemoryBinder<A> {
    /// It makes this listener.
    pub fn new(door: MemoryDoor<A>) -> MemoryBinder<A> {
        MemoryBinder {
            door: Some(door),
            calls: Log::new(),
        }
    }
}

impl<A: Allocator + Copy> Binder<MemoryEndpoint<A>> for MemoryBinder<A> {
    ghost use Rattle.std.specs.Prelude.{Some};
    ghost use Rattle.test_wire.specs.Endpoints.{steps_of};

    ghost calls = { λ binder. Some (steps_of binder.calls.items) };

    fn open(&mut self) -> io::Result<MemoryEndpoint<A>> {
        self.calls = self.calls.and(&BinderStep::Open(Ok(())), &Bytes::new());
        Ok(MemoryEndpoint::new())
    }

    fn listen(&mut self, path: &str) -> io::Result<MemoryDoor<A>> {
        let mut bytes = Bytes::new();
        bytes.note(path.as_bytes());
        match self.door.take() {
            Some(door) => {
                self.calls = self.calls.and(&BinderStep::Listen(Ok(())), &bytes);
                Ok(door)
            }
            None => {
                let fault = StreamFault::Failed;
                self.calls = self.calls.and(&BinderStep::Listen(Err(fault)), &bytes);
                Err(error_for(fault))
            }
        }
    }
}
