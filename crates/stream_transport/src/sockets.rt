//! A wire over a Unix socket.

ghost use Rattle.std.specs.Prelude.{◌≡◌, ◌≤◌, [], ◌∷◌, is_some, length, true, false, vec_capacity, Err, IfOk, OnErr, OnOk, Some};
ghost use Rattle.std.specs.Io.{ReadsAtMost, WritesAtMost};
ghost use Rattle.std.specs.Io.KnownBytes.{Keeps, ReadConsumes, WriteAppends};
ghost use Rattle.std.specs.IoError.{error_kind};
ghost use Rattle.mio.specs.Events.{items, capacity as events_capacity};
ghost use Rattle.stream_transport.specs.Lingering.{Leave};
ghost use Rattle.byte_logs.specs.Noted.{last_under};
ghost use Rattle.stream_transport.specs.Reporting.{AreBlank};
ghost use Rattle.stream_transport.specs.Streams.{HandsOut, HasBack, KeepsElse, Receives, answer_of, fault_by, firsts};
ghost use Rattle.stream_transport.specs.System.{IsAskedAnew, IsAskedForOne, IsAskedOnce, IsAskedToBind, IsPolled, IsUnused, KeepsShut, LingersOnceShut, NameListener, named_by, names_of, outcome_by, Poll as Polled, most_of, visited_for, IsNewPast, Watches};
ghost use Rattle.stream_transport.specs.declared.tokens.TheConstants.{LISTENER, WATCHED};
ghost use Rattle.stream_transport.specs.declared.listener.ListenerCall.TheVariants.{Accept, Look, Wait};
ghost use Rattle.stream_transport.specs.declared.listener.StreamCall.TheVariants.{Receive, Send};
ghost use Rattle.transport.specs.Asked.{Asks};
ghost use Rattle.transport.specs.Report.{KeepsAll};
ghost use Rattle.transport.specs.declared.wire.WireFault.TheVariants.{Device};

use crate::lingering::{LINGERING_MAX, Lingering};
use crate::listener::{ByteStream, Listener, ListenerCall, Ready, StreamCall, StreamFault};
use crate::system::{Binder, Endpoint, Socket};
use crate::tokens::{LISTENER, WATCHED};
use crate::wire::StreamWire;
use byte_logs::Bytes;
use http_server::Log;
use mio::{Events, Poll, Token};
use std::alloc::Allocator;
use std::io;
use std::io::ErrorKind;
use std::time::Duration;
use transport::{Wire, WireFault};

/// How many events a poll may give: one for each connection of a full host and each that lingers, one for
/// the listener, and one for a listener that is watched.
const EVENTS: usize = 1026 + LINGERING_MAX;

/// How many milliseconds a wait lasts at most after the listener that is watched was named.
pub const VISIT_PATIENCE: u64 = 500;

/// Why a call of the system gave nothing.
fn fault_of(error: io::Error) -> StreamFault
    ensures { result ≡ fault_by (error_kind error) }
{
    match error.kind() {
        ErrorKind::WouldBlock => StreamFault::WouldBlock,
        ErrorKind::Interrupted => StreamFault::Interrupted,
        _ => StreamFault::Failed,
    }
}

/// One read of a stream.
fn read_once<S: Socket>(stream: &mut S, buf: &mut [u8]) -> Result<usize, StreamFault>
    ensures bound { ReadsAtMost result buf.new }
    ensures bytes { ReadConsumes (S.unread stream.old) (S.unread stream.new) result buf.new }
    ensures called { Asks (S.calls stream.old) (S.calls stream.new)
        (Receive (length buf.old) result ∷ []) }
    ensures taken { S.taken stream.new ≡ S.taken stream.old }
    ensures shut { S.is_shut stream.new ≡ S.is_shut stream.old }
{
    match stream.read_some(buf) {
        Ok(n) => Ok(n),
        Err(error) => Err(fault_of(error)),
    }
}

/// One write to a stream.
fn write_once<S: Socket>(stream: &mut S, buf: &[u8]) -> Result<usize, StreamFault>
    ensures bound { WritesAtMost result buf.now }
    ensures bytes { WriteAppends (S.taken stream.old) (S.taken stream.new) result buf.now }
    ensures called { Asks (S.calls stream.old) (S.calls stream.new)
        (Send (length buf.now) result ∷ []) }
    ensures unread { S.unread stream.new ≡ S.unread stream.old }
    ensures shut { S.is_shut stream.new ≡ S.is_shut stream.old }
{
    match stream.write_some(buf) {
        Ok(n) => Ok(n),
        Err(error) => Err(fault_of(error)),
    }
}

/// Notes as much of a buffer as a call passed.
fn note_passed(log: &mut Bytes, answer: Result<usize, StreamFault>, buf: &[u8])
    requires { IfOk answer (λ n. n ≤ length buf.now) }
    ensures { WriteAppends (Some log.old.items) (Some log.new.items) answer buf.now }
{
    if let Ok(n) = answer {
        log.note(buf.split_at(n).0);
    }
}

/// A stream of a socket. It tells its calls, what its reads gave and what its writes took, by logs that
/// take no memory. Each of its calls is one call of the stream of the system, with the same bytes and the
/// same answer.
#[derive(Drop)]
pub struct SocketStream<S: Socket> {
    stream: S,
    calls: Log<StreamCall, ()>,
    given: Bytes,
    // Behind what was noted under its number before it came.
    written: Bytes,
}

impl<S: Socket> ByteStream for SocketStream<S> {
    ghost use Rattle.std.specs.Prelude.{Some};
    ghost use Rattle.stream_transport.specs.Streams.{firsts};

    ghost written = { λ stream. Some stream.written.items };

    ghost given = { λ stream. Some stream.given.items };

    ghost calls = { λ stream. Some (firsts stream.calls.items) };

    ghost is_shut = { λ stream. S.is_shut stream.stream };

    fn receive(&mut self, buf: &mut [u8]) -> Result<usize, StreamFault>
        ensures bound { ReadsAtMost result buf.new }
        ensures bytes { Receives ⟦<Self as ByteStream>⟧.unread
            self.old self.new result buf.new }
        ensures gave { WriteAppends (Some self.old.given.items) (Some self.new.given.items)
            result buf.new }
        ensures written { Keeps (Some self.old.written.items) (Some self.new.written.items) }
        ensures called { Asks
            (Some (firsts self.old.calls.items)) (Some (firsts self.new.calls.items))
            (Receive (length buf.old) result ∷ []) }
        ensures shut { S.is_shut self.new.stream ≡ S.is_shut self.old.stream }
        ensures made { Asks (S.calls self.old.stream) (S.calls self.new.stream)
            (Receive (length buf.old) result ∷ []) }
        ensures came { ReadConsumes (S.unread self.old.stream) (S.unread self.new.stream)
            result buf.new }
        ensures taken { S.taken self.new.stream ≡ S.taken self.old.stream }
    {
        let room = buf.len();
        let answer = read_once(&mut self.stream, buf);
        self.calls = self.calls.and(&StreamCall::Receive(room, answer), &());
        note_passed(&mut self.given, answer, buf);
        answer
    }

    fn send(&mut self, buf: &[u8]) -> Result<usize, StreamFault>
        ensures bound { WritesAtMost result buf.now }
        ensures bytes { WriteAppends (Some self.old.written.items) (Some self.new.written.items)
            result buf.now }
        ensures unread { Keeps (⟦<Self as ByteStream>⟧.unread self.old)
            (⟦<Self as ByteStream>⟧.unread self.new) }
        ensures given { Keeps (Some self.old.given.items) (Some self.new.given.items) }
        ensures called { Asks
            (Some (firsts self.old.calls.items)) (Some (firsts self.new.calls.items))
            (Send (length buf.now) result ∷ []) }
        ensures shut { S.is_shut self.new.stream ≡ S.is_shut self.old.stream }
        ensures made { Asks (S.calls self.old.stream) (S.calls self.new.stream)
            (Send (length buf.now) result ∷ []) }
        ensures taken { WriteAppends (S.taken self.old.stream) (S.taken self.new.stream)
            result buf.now }
        ensures left { S.unread self.new.stream ≡ S.unread self.old.stream }
    {
        let answer = write_once(&mut self.stream, buf);
        self.calls = self.calls.and(&StreamCall::Send(buf.len(), answer), &());
        note_passed(&mut self.written, answer, buf);
        answer
    }
}

/// What a listener was told of numbers, by logs that take no memory.
#[derive(Drop)]
struct Past {
    // What the stream of a number took that came back.
    back: Log<u64, Bytes>,
    shut: Log<u64, ()>,
    failed: Log<u64, ()>,
}

impl Past {
    /// It was told nothing.
    fn new() -> Past
        ensures { IsNewPast result }
    {
        Past {
            back: Log::new(),
            shut: Log::new(),
            failed: Log::new(),
        }
    }
}

/// A socket, and a poll that names its streams. It tells its calls, and of each number what its
/// stream took that came back, whether it was shut and whether a call failed, by logs that take no
/// memory.
#[derive(Drop)]
pub struct SocketListener<E: Endpoint, A: Allocator> {
    endpoint: E,
    // Where clients come.
    listener: E::Listener,
    events: Events<A>,
    // Whom the last poll named, in the room for all.
    ready: Vec<Ready, A>,
    asked: Log<ListenerCall, ()>,
    // The streams that it has back and whose peers have not ended.
    lingering: Lingering<SocketStream<E::Stream>, A>,
    /// How often a look or a wait has named the listener that is watched.
    pub visits: u64,
    // It was named, and no wait has found nobody since.
    is_visited: bool,
    past: Past,
    ghost room: { events_capacity events ≤ vec_capacity ready },
}

/// A listener over a Unix socket.
pub type MioListener<A> = SocketListener<Poll, A>;

/// How long a wait lasts at most: for a while where a visitor may not have been answered.
fn patience_while(is_visited: bool, patience: Option<Duration>) -> Option<Duration>
    ensures { most_of result ≡ visited_for is_visited (most_of patience) }
{
    if is_visited {
        Some(Duration::from_millis(VISIT_PATIENCE))
    } else {
        patience
    }
}

/// The one that a token names: nobody, if it is that of the listener that is watched.
fn name_of(token: Token) -> Option<Ready>
    ensures { result ≡ named_by token }
{
    if token.0 as u64 == WATCHED {
        None
    } else if token.0 as u64 == LISTENER {
        Some(Ready::Listener)
    } else {
        Some(Ready::Stream(token.0 as u64))
    }
}

/// Puts down whom these events name, for whom there is room, and answers how many name the listener that
/// is watched.
fn name_all<A: Allocator>(ready: &mut Vec<Ready, A>, events: &Events<A>) -> u64
    requires none { ready.old.items ≡ [] }
    requires room { length (items events.now) ≤ vec_capacity ready.old }
    ensures names { ready.new.items ≡ names_of (items events.now) }
    ensures capacity { vec_capacity ready.old ≤ vec_capacity ready.new }
{
    let mut visits = 0u64;
    for event in events.iter() {
        match name_of(event.token()) {
            Some(who) => {
                let _kept = ready.push(who);
            }
            None => visits = visits.saturating_add(1),
        }
    }
    visits
}

/// Whether somebody came.
fn answer_for<S: Socket>(accepted: &Result<SocketStream<S>, StreamFault>) -> Result<(), StreamFault>
    ensures { result ≡ answer_of accepted.now }
{
    match accepted {
        Ok(_) => Ok(()),
        Err(fault) => Err(*fault),
    }
}

impl<E: Endpoint, A: Allocator + Copy> SocketListener<E, A> {
    /// Polls, and remembers who was named.
    fn look_for(&mut self, patience: Option<Duration>) -> Result<(), StreamFault>
        ensures nobody { OnErr result (self.new.ready.items ≡ []) }
        ensures asked { self.new.asked ≡ self.old.asked }
        ensures lingering { self.new.lingering ≡ self.old.lingering }
        ensures past { self.new.past ≡ self.old.past }
        ensures polled { Asks (E.calls self.old.endpoint) (E.calls self.new.endpoint)
            (Polled (most_of patience) (items self.new.events) result ∷ []) }
        ensures named { OnOk result (self.new.ready.items ≡ names_of (items self.new.events)) }
    {
        self.ready.clear();
        if let Err(error) = self.endpoint.poll_once(&mut self.events, patience) {
            return Err(fault_of(error));
        }
        let visits = name_all(&mut self.ready, &self.events);
        self.visits = self.visits.saturating_add(visits);
        self.is_visited = self.is_visited | (visits > 0);
        Ok(())
    }

    /// Looks who may be ready now, and so do those who linger.
    fn look_and_drain(&mut self) -> Result<(), StreamFault>
        ensures nobody { OnErr result (self.new.ready.items ≡ []) }
        ensures asked { self.new.asked ≡ self.old.asked }
        ensures past { self.new.past ≡ self.old.past }
        ensures leaves { Leave 1 self.old.lingering self.new.lingering }
        ensures polled { Asks (E.calls self.old.endpoint) (E.calls self.new.endpoint)
            (Polled (Some 0) (items self.new.events) result ∷ []) }
        ensures named { OnOk result (self.new.ready.items ≡ names_of (items self.new.events)) }
        ensures shut { KeepsShut ⟦<SocketStream<E::Stream> as ByteStream>⟧.is_shut
            self.old.lingering self.new.lingering }
    {
        let looked = self.look_for(Some(Duration::ZERO));
        self.lingering.pass(self.ready.as_slice(), 1);
        looked
    }

    /// Waits until somebody may be ready; not for long while somebody lingers, or after the listener that
    /// is watched was named, as it may not have been answered.
    fn wait_and_drain(&mut self, patience: Option<Duration>) -> Result<(), StreamFault>
        ensures nobody { OnErr result (self.new.ready.items ≡ []) }
        ensures asked { self.new.asked ≡ self.old.asked }
        ensures past { self.new.past ≡ self.old.past }
        ensures leaves { Leave 1 self.old.lingering self.new.lingering }
        ensures polled { IsPolled patience self.old.lingering self.old.is_visited
            (E.calls self.old.endpoint) (E.calls self.new.endpoint) (items self.new.events) result }
        ensures named { OnOk result (self.new.ready.items ≡ names_of (items self.new.events)) }
        ensures shut { KeepsShut ⟦<SocketStream<E::Stream> as ByteStream>⟧.is_shut
            self.old.lingering self.new.lingering }
    {
        let visits = self.visits;
        let patience = self
            .lingering
            .patience(patience_while(self.is_visited, patience));
        let looked = self.look_for(patience);
        let looks = self.lingering.looks_of_wait(self.ready.as_slice());
        self.lingering.pass(self.ready.as_slice(), looks);
        if looks > 1 && self.visits == visits {
            self.is_visited = false;
        }
        looked
    }

    /// Shuts the writing side of a stream, which then lingers until its peer ends.
    fn linger(&mut self, number: u64, stream: SocketStream<E::Stream>)
        ensures calls { E.calls self.new.endpoint ≡ E.calls self.old.endpoint }
        ensures shut { KeepsShut ⟦<SocketStream<E::Stream> as ByteStream>⟧.is_shut
            self.old.lingering self.new.lingering }
        ensures asked { self.new.asked ≡ self.old.asked }
        ensures past { self.new.past ≡ self.old.past }
        ensures named { self.new.ready.items ≡ self.old.ready.items }
        ensures lingers { LingersOnceShut
            ⟦<SocketStream<E::Stream> as ByteStream>⟧.calls E.Stream.ends
            number stream self.old.lingering self.new.lingering }
    {
        let mut stream = stream;
        match stream.stream.end_writing() {
            Ok(()) => self.lingering.linger(number, stream),
            Err(_) => {}
        }
    }

    /// Accepts who waits first. Where that fails, those who linger leave, and it is tried once more.
    fn accept_with_room(&mut self, number: u64) -> Result<SocketStream<E::Stream>, StreamFault>
        ensures calls { IsAskedForOne number self.old.lingering
            (E.calls self.old.endpoint) (E.calls self.new.endpoint) (answer_of result) }
        ensures unused { IfOk result (λ stream. IsUnused (E.Stream.calls stream.stream)) }
        ensures written { IfOk result (λ stream. stream.written.items
            ≡ last_under (λ bytes. bytes.items) self.old.past.back.items number) }
        ensures asked { self.new.asked ≡ self.old.asked }
        ensures past { self.new.past ≡ self.old.past }
        ensures named { self.new.ready.items ≡ self.old.ready.items }
        ensures shut { KeepsShut ⟦<SocketStream<E::Stream> as ByteStream>⟧.is_shut
            self.old.lingering self.new.lingering }
    {
        match self.accept_as(number) {
            Err(StreamFault::Failed) if self.lingering.release() => self.accept_as(number),
            accepted => accepted,
        }
    }

    /// Accepts who waits first, and has the poll name the stream by this number.
    fn accept_as(&mut self, number: u64) -> Result<SocketStream<E::Stream>, StreamFault>
        ensures written { IfOk result (λ stream. stream.written.items
            ≡ last_under (λ bytes. bytes.items) self.old.past.back.items number) }
        ensures calls { IsAskedOnce number
            (E.calls self.old.endpoint) (E.calls self.new.endpoint) (answer_of result) }
        ensures unused { IfOk result (λ stream. IsUnused (E.Stream.calls stream.stream)) }
        ensures asked { self.new.asked ≡ self.old.asked }
        ensures past { self.new.past ≡ self.old.past }
        ensures lingering { self.new.lingering ≡ self.old.lingering }
        ensures named { self.new.ready.items ≡ self.old.ready.items }
    {
        let mut stream = match self.endpoint.accept_one(&mut self.listener) {
            Ok(stream) => stream,
            Err(error) => return Err(fault_of(error)),
        };
        match self.endpoint.name(&mut stream, number) {
            Ok(()) => Ok(SocketStream {
                stream,
                calls: Log::new(),
                given: Bytes::new(),
                written: Bytes::last_under(&self.past.back, &number),
            }),
            Err(_) => Err(StreamFault::Failed),
        }
    }
}

impl<E: Endpoint, A: Allocator + Copy> SocketListener<E, A> {
    /// Has a wait end too where somebody comes to this other listener, which names nobody. One listener
    /// may be watched.
    pub fn watch(&mut self, other: &mut E::Listener) -> io::Result<E::Watcher>
        ensures calls { Watches WATCHED
            (E.calls self.old.endpoint) (E.calls self.new.endpoint) (outcome_by result) }
        ensures told { ⟦<Self as Listener>⟧.told self.new
            ≡ ⟦<Self as Listener>⟧.told self.old }
        ensures asked { ⟦<Self as Listener>⟧.asked self.new
            ≡ ⟦<Self as Listener>⟧.asked self.old }
        ensures lingering { self.new.lingering ≡ self.old.lingering }
    {
        match self.endpoint.name_listener(other, WATCHED) {
            Ok(()) => self.endpoint.watcher(),
            Err(error) => Err(error),
        }
    }

    /// A listener whose clients come to a socket at the path. All memory is taken before the socket is
    /// made. The path is not empty.
    fn bind<B: Binder<E>>(
        binder: &mut B,
        alloc: A,
        path: &str,
    ) -> Result<SocketListener<E, A>, WireFault>
        ensures made { IsAskedToBind path.now (B.calls binder.old) (B.calls binder.new) result }
        ensures named { IfOk result (λ listener. IsAskedAnew E.calls listener.endpoint
            (NameListener LISTENER (Ok tt) ∷ [])) }
        ensures nobody { IfOk result
            (λ listener. (listener.lingering ≡ []) × (listener.ready.items ≡ [])) }
        ensures asked { IfOk result (λ listener. listener.asked.items ≡ []) }
        ensures past { IfOk result (λ listener. IsNewPast listener.past) }
    {
        let events = Events::with_capacity(alloc, EVENTS)?;
        let ready = Vec::with_capacity(alloc, EVENTS)?;
        let lingering = Lingering::new(alloc)?;
        let mut endpoint = match binder.open() {
            Ok(endpoint) => endpoint,
            Err(_) => return Err(WireFault::Device),
        };
        let mut listener = match binder.listen(path) {
            Ok(listener) => listener,
            Err(_) => return Err(WireFault::Device),
        };
        match endpoint.name_listener(&mut listener, LISTENER) {
            Ok(()) => Ok(SocketListener {
                endpoint,
                listener,
                events,
                ready,
                asked: Log::new(),
                lingering,
                visits: 0,
                is_visited: false,
                past: Past::new(),
            }),
            Err(_) => Err(WireFault::Device),
        }
    }
}

impl<E: Endpoint, A: Allocator + Copy> Listener for SocketListener<E, A> {
    type Stream = SocketStream<E::Stream>;

    ghost use Rattle.std.specs.Prelude.{Some};
    ghost use Rattle.stream_transport.specs.Streams.{firsts};
    ghost use Rattle.stream_transport.specs.Told.{told_by};

    ghost told = { λ listener. told_by
        listener.past.back.items listener.past.shut.items listener.past.failed.items };

    ghost asked = { λ listener. Some (firsts listener.asked.items) };

    ghost named = { λ listener. listener.ready.items };

    fn accept(&mut self, number: u64) -> Result<SocketStream<E::Stream>, StreamFault>
        ensures given { HandsOut ⟦<SocketStream<E::Stream> as ByteStream>⟧.unread
            ⟦<SocketStream<E::Stream> as ByteStream>⟧.written
            (⟦<Self as Listener>⟧.told self.old) number result }
        ensures rest { IfOk result (λ stream. KeepsElse
            (⟦<Self as Listener>⟧.told self.old)
            (⟦<Self as Listener>⟧.told self.new) number) }
        ensures err { OnErr result (KeepsAll
            (⟦<Self as Listener>⟧.told self.old) (⟦<Self as Listener>⟧.told self.new)) }
        ensures asked { Asks
            (⟦<Self as Listener>⟧.asked self.old) (⟦<Self as Listener>⟧.asked self.new)
            (Accept (answer_of result) ∷ []) }
        ensures named { ⟦<Self as Listener>⟧.named self.new
            ≡ ⟦<Self as Listener>⟧.named self.old }
        ensures calls { IsAskedForOne number self.old.lingering
            (E.calls self.old.endpoint) (E.calls self.new.endpoint) (answer_of result) }
        ensures unused { IfOk result (λ stream. IsUnused (E.Stream.calls stream.stream)) }
        ensures shut { KeepsShut ⟦<SocketStream<E::Stream> as ByteStream>⟧.is_shut
            self.old.lingering self.new.lingering }
    {
        let accepted = self.accept_with_room(number);
        let answer = answer_for(&accepted);
        self.asked = self.asked.and(&ListenerCall::Accept(answer), &());
        accepted
    }

    fn look(&mut self) -> Result<(), StreamFault>
        ensures unchanged { KeepsAll
            (⟦<Self as Listener>⟧.told self.old) (⟦<Self as Listener>⟧.told self.new) }
        ensures nobody { OnErr result (⟦<Self as Listener>⟧.named self.new ≡ []) }
        ensures asked { Asks
            (⟦<Self as Listener>⟧.asked self.old) (⟦<Self as Listener>⟧.asked self.new)
            (Look result ∷ []) }
        ensures polled { Asks (E.calls self.old.endpoint) (E.calls self.new.endpoint)
            (Polled (Some 0) (items self.new.events) result ∷ []) }
        ensures named { OnOk result (self.new.ready.items ≡ names_of (items self.new.events)) }
        ensures shut { KeepsShut ⟦<SocketStream<E::Stream> as ByteStream>⟧.is_shut
            self.old.lingering self.new.lingering }
    {
        let looked = self.look_and_drain();
        self.asked = self.asked.and(&ListenerCall::Look(looked), &());
        looked
    }

    fn wait(&mut self, patience: Option<Duration>) -> Result<(), StreamFault>
        ensures unchanged { KeepsAll
            (⟦<Self as Listener>⟧.told self.old) (⟦<Self as Listener>⟧.told self.new) }
        ensures nobody { OnErr result (⟦<Self as Listener>⟧.named self.new ≡ []) }
        ensures asked { Asks
            (⟦<Self as Listener>⟧.asked self.old) (⟦<Self as Listener>⟧.asked self.new)
            (Wait (is_some patience) result ∷ []) }
        ensures polled { IsPolled patience self.old.lingering self.old.is_visited
            (E.calls self.old.endpoint) (E.calls self.new.endpoint) (items self.new.events) result }
        ensures named { OnOk result (self.new.ready.items ≡ names_of (items self.new.events)) }
        ensures shut { KeepsShut ⟦<SocketStream<E::Stream> as ByteStream>⟧.is_shut
            self.old.lingering self.new.lingering }
    {
        let is_bounded = patience.is_some();
        let looked = self.wait_and_drain(patience);
        self.asked = self.asked.and(&ListenerCall::Wait(is_bounded, looked), &());
        looked
    }

    fn found(&self) -> usize {
        self.ready.len()
    }

    fn ready(&self, place: usize) -> Option<Ready> {
        self.ready.get(place).copied()
    }

    fn fail(&mut self, number: u64) {
        self.past.failed = self.past.failed.and(&number, &());
    }

    fn shut(&mut self, number: u64) {
        self.past.shut = self.past.shut.and(&number, &());
    }

    fn take_back(&mut self, number: u64, stream: SocketStream<E::Stream>, _kept: &[u8])
        ensures back { HasBack ⟦<SocketStream<E::Stream> as ByteStream>⟧.unread
            ⟦<SocketStream<E::Stream> as ByteStream>⟧.written
            (⟦<Self as Listener>⟧.told self.new) number _kept.now stream }
        ensures rest { KeepsElse (⟦<Self as Listener>⟧.told self.old)
            (⟦<Self as Listener>⟧.told self.new) number }
        ensures asked { ⟦<Self as Listener>⟧.asked self.new
            ≡ ⟦<Self as Listener>⟧.asked self.old }
        ensures calls { E.calls self.new.endpoint ≡ E.calls self.old.endpoint }
        ensures shut { KeepsShut ⟦<SocketStream<E::Stream> as ByteStream>⟧.is_shut
            self.old.lingering self.new.lingering }
        ensures lingers { LingersOnceShut
            ⟦<SocketStream<E::Stream> as ByteStream>⟧.calls E.Stream.ends
            number stream self.old.lingering self.new.lingering }
    {
        self.past.back = self.past.back.and(&number, &stream.written);
        self.linger(number, stream);
    }
}

/// The connections of a Unix socket.
pub type MioWire<A> = StreamWire<MioListener<A>, A>;

impl<E: Endpoint, A: Allocator + Copy> StreamWire<SocketListener<E, A>, A> {
    /// Makes a socket at the path, and listens. `Device` where the system refuses it, as for a path that
    /// exists, and where the path is empty; no wire counts it, as there is none yet.
    pub fn bind<B: Binder<E>>(
        binder: &mut B,
        alloc: A,
        path: &str,
    ) -> Result<StreamWire<SocketListener<E, A>, A>, WireFault>
        ensures unnamed { path.now ≡ [] → result ≡ Err Device }
        ensures unused { IfOk result (λ wire. (wire.next ≡ 0) × (wire.failed ≡ 0)) }
        ensures blank { IfOk result (λ wire. AreBlank (⟦<Self as Wire>⟧.report wire)) }
        ensures made { IsAskedToBind path.now (B.calls binder.old) (B.calls binder.new) result }
        ensures named { IfOk result (λ wire. IsAskedAnew E.calls wire.listener.endpoint
            (NameListener LISTENER (Ok tt) ∷ [])) }
    {
        if path.is_empty() {
            return Err(WireFault::Device);
        }
        match SocketListener::bind(binder, alloc, path) {
            Ok(listener) => Ok(StreamWire::new(alloc, listener)),
            Err(fault) => Err(fault),
        }
    }
}
