//! The calls of the system that sockets are made of. The real ones are at the end: each of their bodies is
//! one call of `mio`, and these are all that is trusted of this crate's code.

ghost use Rattle.std.specs.Prelude.{◌≡◌, ◌≤◌, [], ◌∷◌, ℕ, Bool, List, Option, None, Result, length, IfOk, OnErr, OnOk};
ghost use Rattle.std.specs.Io.{ReadsAtMost, WritesAtMost};
ghost use Rattle.std.specs.Io.KnownBytes.{ReadConsumes, WriteAppends};
ghost use Rattle.mio.specs.Events.{items, capacity as events_capacity};
ghost use Rattle.transport.specs.Asked.{Asks};
ghost use Rattle.stream_transport.specs.System.{Accept, BinderCall, IsShut, IsUnused, Listen, Name, NameListener, Open, Poll as Polled, SystemCall, answer_by, most_of, outcome_by};
ghost use Rattle.stream_transport.specs.declared.listener.StreamCall.{StreamCall};
ghost use Rattle.stream_transport.specs.declared.listener.StreamCall.TheVariants.{Receive, Send};
ghost use Rattle.stream_transport.specs.declared.listener.StreamFault.{StreamFault};
ghost use Rattle.stream_transport.specs.declared.tokens.TheConstants.{WATCHED};

use crate::tokens::WATCHED;
use mio::net::{UnixListener, UnixStream};
use mio::{Events, Interest, Poll, Registry, Token};
use std::alloc::Allocator;
use std::fs::Files;
use std::io;
use std::io::{Read, Write};
use std::net::{Net, Shutdown};
use std::time::Duration;

/// A stream of the system. It may tell what it has, and what it was asked for; the real one tells nothing.
pub trait Socket: Drop {
    /// The bytes that its reads will give from here on.
    ghost unread: { Self → Option (List ℕ) } = { λ _. None };

    /// The bytes that its writes took.
    ghost taken: { Self → Option (List ℕ) } = { λ _. None };

    /// The reads and writes that it was asked for, with their answers.
    ghost calls: { Self → Option (List StreamCall) } = { λ _. None };

    /// Its writing side was shut.
    ghost is_shut: { Self → Option Bool } = { λ _. None };

    /// The answers as its writing side was to be shut.
    ghost ends: { Self → Option (List (Result (Unit {0}) StreamFault)) } = { λ _. None };

    /// Reads once.
    fn read_some(&mut self, buf: &mut [u8]) -> io::Result<usize>
        ensures bound { ReadsAtMost result buf.new }
        ensures bytes { ReadConsumes (unread self.old) (unread self.new) result buf.new }
        ensures called { Asks (calls self.old) (calls self.new)
            (Receive (length buf.old) (answer_by result) ∷ []) }
        ensures taken { taken self.new ≡ taken self.old }
        ensures shut { is_shut self.new ≡ is_shut self.old };

    /// Writes once.
    fn write_some(&mut self, buf: &[u8]) -> io::Result<usize>
        ensures bound { WritesAtMost result buf.now }
        ensures bytes { WriteAppends (taken self.old) (taken self.new) result buf.now }
        ensures called { Asks (calls self.old) (calls self.new)
            (Send (length buf.now) (answer_by result) ∷ []) }
        ensures unread { unread self.new ≡ unread self.old }
        ensures shut { is_shut self.new ≡ is_shut self.old };

    /// Ends the writing side.
    fn end_writing(&mut self) -> io::Result<()>
        ensures shut { OnOk result (IsShut (is_shut self.new)) }
        ensures ended { Asks (ends self.old) (ends self.new) (outcome_by result ∷ []) }
        ensures called { calls self.new ≡ calls self.old }
        ensures taken { taken self.new ≡ taken self.old }
        ensures unread { unread self.new ≡ unread self.old };
}

/// Where streams of the system come from, and who names them when they may be ready. It may tell its
/// calls; the real one does not.
pub trait Endpoint: Drop {
    type Stream: Socket;

    /// Where clients come.
    type Listener: Drop;

    /// Who may have polls name another listener again.
    type Watcher: Watcher;

    /// The calls that it was asked for, with their answers.
    ghost calls: { Self → Option (List SystemCall) } = { λ _. None };

    /// The stream of who waits first at the listener.
    fn accept_one(&mut self, listener: &mut Self::Listener) -> io::Result<Self::Stream>
        ensures called { Asks (calls self.old) (calls self.new)
            (Accept (outcome_by result) ∷ []) }
        ensures unused { IfOk result (λ stream. IsUnused (Self.Stream.calls stream)) };

    /// Has polls name a stream by this number.
    fn name(&mut self, stream: &mut Self::Stream, number: u64) -> io::Result<()>
        ensures called { Asks (calls self.old) (calls self.new)
            (Name number (outcome_by result) ∷ []) }
        ensures kept { Self.Stream.calls stream.new ≡ Self.Stream.calls stream.old };

    /// Has polls name a listener by this number.
    fn name_listener(&mut self, listener: &mut Self::Listener, number: u64) -> io::Result<()>
        ensures { Asks (calls self.old) (calls self.new)
            (NameListener number (outcome_by result) ∷ []) };

    /// Who may have polls name a listener again.
    fn watcher(&mut self) -> io::Result<Self::Watcher>
        ensures { calls self.new ≡ calls self.old };

    /// Polls once, for so long at most.
    fn poll_once<A: Allocator>(
        &mut self,
        events: &mut Events<A>,
        patience: Option<Duration>,
    ) -> io::Result<()>
        ensures called { Asks (calls self.old) (calls self.new)
            (Polled (most_of patience) (items events.new) (outcome_by result) ∷ []) }
        ensures count { length (items events.new) ≤ events_capacity events.old }
        ensures nobody { OnErr result (items events.new ≡ []) }
        ensures capacity { events_capacity events.new ≡ events_capacity events.old };
}

/// Who accepts at a listener that another's polls name, and may have them name it again. It may tell its
/// calls; the real one does not.
pub trait Watcher: Drop {
    type Stream: Socket;

    /// Where visitors come.
    type Listener: Drop;

    /// What is given up if there is no descriptor for a visitor.
    type Spare: Drop;

    /// The calls that it was asked for, with their answers.
    ghost calls: { Self → Option (List SystemCall) } = { λ _. None };

    /// The stream of who waits first at the listener.
    fn accept_visitor(&mut self, listener: &mut Self::Listener) -> io::Result<Self::Stream>
        ensures called { Asks (calls self.old) (calls self.new)
            (Accept (outcome_by result) ∷ []) }
        ensures unused { IfOk result (λ stream. IsUnused (Self.Stream.calls stream)) };

    /// Has the next poll name the listener when somebody waits.
    fn watch_again(&mut self, listener: &mut Self::Listener) -> io::Result<()>
        ensures { Asks (calls self.old) (calls self.new)
            (NameListener WATCHED (outcome_by result) ∷ []) };

    /// A descriptor to be given up.
    fn spare(&mut self) -> io::Result<Self::Spare>
        ensures { calls self.new ≡ calls self.old };
}

/// Who makes an endpoint and its listener, and may do nothing else.
pub trait Binder<E: Endpoint> {
    /// The calls that it was asked for, with their answers. It may tell none.
    ghost calls: { Self → Option (List BinderCall) } = { λ _. None };

    /// An endpoint that was asked for nothing.
    fn open(&mut self) -> io::Result<E>
        ensures called { Asks (calls self.old) (calls self.new) (Open (outcome_by result) ∷ []) }
        ensures unused { IfOk result (λ endpoint. IsUnused (E.calls endpoint)) };

    /// A listener at a path at which nothing stood.
    fn listen(&mut self, path: &str) -> io::Result<E::Listener>
        ensures { Asks (calls self.old) (calls self.new)
            (Listen path.now (outcome_by result) ∷ []) };
}

impl Socket for UnixStream {
    fn read_some(&mut self, buf: &mut [u8]) -> io::Result<usize> {
        self.read(buf)
    }

    fn write_some(&mut self, buf: &[u8]) -> io::Result<usize> {
        self.write(buf)
    }

    fn end_writing(&mut self) -> io::Result<()> {
        self.shutdown(Shutdown::Write)
    }
}

impl Endpoint for Poll {
    type Stream = UnixStream;

    type Listener = UnixListener;

    type Watcher = Registry;

    fn accept_one(&mut self, listener: &mut UnixListener) -> io::Result<UnixStream> {
        Ok(listener.accept()?.0)
    }

    fn name(&mut self, stream: &mut UnixStream, number: u64) -> io::Result<()> {
        self.registry().register(
            stream,
            Token(number as usize),
            Interest::READABLE | Interest::WRITABLE,
        )
    }

    fn name_listener(&mut self, listener: &mut UnixListener, number: u64) -> io::Result<()> {
        self.registry()
            .register(listener, Token(number as usize), Interest::READABLE)
    }

    fn watcher(&mut self) -> io::Result<Registry> {
        self.registry().try_clone()
    }

    fn poll_once<A: Allocator>(
        &mut self,
        events: &mut Events<A>,
        patience: Option<Duration>,
    ) -> io::Result<()> {
        self.poll(events, patience)
    }
}

impl Watcher for Registry {
    type Stream = UnixStream;

    type Listener = UnixListener;

    type Spare = Registry;

    fn accept_visitor(&mut self, listener: &mut UnixListener) -> io::Result<UnixStream> {
        Ok(listener.accept()?.0)
    }

    fn watch_again(&mut self, listener: &mut UnixListener) -> io::Result<()> {
        self.reregister(listener, Token(WATCHED as usize), Interest::READABLE)
    }

    fn spare(&mut self) -> io::Result<Registry> {
        self.try_clone()
    }
}

/// Makes polls and sockets. Who has it has no other right to files.
#[derive(Drop)]
pub struct MioBinder<'r, R: Files + Net> {
    rt: &'r R,
}

impl<'r, R: Files + Net> MioBinder<'r, R> {
    /// By the rights of this process.
    pub fn new(rt: &'r R) -> MioBinder<'r, R> {
        MioBinder { rt }
    }
}

impl<'r, R: Files + Net> Binder<Poll> for MioBinder<'r, R> {
    fn open(&mut self) -> io::Result<Poll> {
        Poll::new(self.rt)
    }

    fn listen(&mut self, path: &str) -> io::Result<UnixListener> {
        UnixListener::bind(self.rt, path)
    }
}
