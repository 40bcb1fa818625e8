//! A wire over a listener.

ghost use Rattle.std.specs.Prelude.{◌≡◌, ◌≢◌, ◌≤◌, ◌-◌, ◌^◌, ◌&&◌, not, true, ℕ, [], ◌∷◌, ◌++◌, length, IfOk, Err, None, Ok, OnOk, Some};
ghost use Rattle.usi_lines.specs.OneLine.{IsOneLine};
ghost use Rattle.transport.specs.Asked.{Accept, Asks, Read, Shut, Wait, Write};
ghost use Rattle.transport.specs.Report.{GivesNumber, HasCause, HasRisen, IsWithin, KeepsAll, bytes_read, bytes_written};
ghost use Rattle.transport.specs.declared.wire.WireFault.TheVariants.{Device};
ghost use Rattle.stream_transport.specs.Asking.{AnswersAs, AreAwakeStill, AsksByAccept, AsksByRead, AsksByWait, AsksNext, AsksToTake, GivesKept, HoldsAccepted, NotesByRead, NotesByWrite, OfNumber, StaysOpen, WakesByAccept, WakesByWait, is_made, nothing_asked};
ghost use Rattle.stream_transport.specs.Held.{HasPassed, HoldsOthers, TakesFirst, counted, given_under, held, kept_of, none_given};
ghost use Rattle.stream_transport.specs.Noted.{call_of, calls_of};
ghost use Rattle.stream_transport.specs.Reporting.{CountsRead, CountsWrite, KeepsReport, given_last, ReportsRead, ReportsShut, ReportsWrite, no_traffic};
ghost use Rattle.stream_transport.specs.Streams.{Notes};
ghost use Rattle.stream_transport.specs.declared.connection.TheConstants.{PLACES};

use crate::connection::{BufferedStream, PLACES};
use crate::kept::Spare;
use crate::listener::{Listener, StreamFault};
use crate::places::{free_place, insert, is_quiet, lent_under, number_at, remove};
use crate::readiness::{Readiness, mark_all_ready, patience_for};
use byte_logs::Bytes;
use http_server::Log;
use std::alloc::Allocator;
use transport::{Got, Wire, WireFault};

/// How many bytes passed. Each count stays at the greatest number once it is there.
#[derive(Clone, Copy)]
pub struct Traffic {
    /// How many bytes reads gave.
    pub received: u64,
    /// How many bytes writes took.
    pub sent: u64,
}

/// A call of a wire, without the bytes of a write.
#[derive(Clone, Copy)]
pub enum WireCall {
    /// The next one who waits was asked for.
    Accept(Result<Option<u64>, WireFault>),
    /// A connection was to be read, of so many bytes at most.
    Read(u64, usize),
    /// A connection was to be written to.
    Write(u64),
    /// A connection was to be shut.
    Shut(u64),
    /// It was asked to wait, until something may be ready if it is true.
    Wait(bool, Result<(), WireFault>),
}

/// Notes a call, with the bytes of a write, for clauses alone.
fn note_call(log: &mut Log<WireCall, Bytes>, call: WireCall, buf: &[u8])
    ensures { Asks (Some (calls_of log.old.items)) (Some (calls_of log.new.items))
        (call_of call buf.now ∷ []) }
{
    let mut bytes = Bytes::new();
    bytes.note(buf);
    *log = log.and(&call, &bytes);
}

/// The connections of a listener. It reports what its reads gave, and what the streams tell of their bytes;
/// and its calls. Only `wait` waits.
///
/// A read gives one line at most, so that a turn answers one line of each connection. What else came
/// with it is kept, and given by the next reads before the stream is asked again. Room for it is there
/// before the bytes are read: where allocation fails the read fails, and no byte is lost.
///
/// A listener or a stream that has said that it has nothing, or no room, is not asked again before a
/// look has named it. Each `accept` looks, so nobody who may be ready waits for a `wait`.
#[derive(Drop)]
pub struct StreamWire<L: Listener, A: Allocator> {
    alloc: A,
    /// Where its connections come from.
    pub listener: L,
    // By the place of each one's number.
    places: Vec<Option<BufferedStream<L::Stream, A>>, A>,
    // Room for the next read, once a read has asked for it.
    spare: Spare<A>,
    // Under this number the last read gave what is lent.
    lender: u64,
    readiness: Readiness,
    // The number of the next connection is this one or a greater one.
    next: u64,
    failed: u64,
    /// The bytes that passed so far.
    pub traffic: Traffic,
    // What each read gave, by its number. It takes no memory.
    given: Log<u64, Bytes>,
    // The calls that it was asked for. It takes no memory.
    asked: Log<WireCall, Bytes>,
}

/// The bytes that a read gave, by what is lent after it.
fn bytes_read<'a>(got: &Result<Got, WireFault>, lent: &'a [u8]) -> &'a [u8]
    ensures { result.now ≡ bytes_read got.now lent.now }
{
    match got {
        Ok(Got::Bytes) => lent,
        _ => lent.split_at(0).0,
    }
}

/// The bytes that a write took.
fn bytes_written<'a>(taken: &Result<usize, WireFault>, buf: &'a [u8]) -> &'a [u8]
    requires { IfOk taken.now (λ n. n ≤ length buf.now) }
    ensures { result.now ≡ bytes_written taken.now buf.now }
{
    match taken {
        Ok(n) => buf.split_at(*n).0,
        Err(_) => buf.split_at(0).0,
    }
}

/// The count with these bytes.
fn counted(count: u64, bytes: &[u8]) -> u64
    ensures { result ≡ counted count bytes.now }
{
    count.saturating_add(bytes.len() as u64)
}

/// Notes what a read of this number gave, for clauses alone.
fn note_given(log: &mut Log<u64, Bytes>, number: u64, given: &[u8])
    ensures given { given_under log.new.items number
        ≡ given_under log.old.items number ++ given.now }
    ensures others { (other : ℕ) → other ≢ number
        → given_under log.new.items other ≡ given_under log.old.items other }
{
    let mut bytes = Bytes::new();
    bytes.note(given);
    *log = log.and(&number, &bytes);
}

/// Counts a call that failed.
fn fault(failed: &mut u64) -> WireFault
    ensures device { result ≡ Device }
    ensures rises { failed.old ≤ failed.new }
    ensures risen { HasRisen failed.old failed.new }
{
    *failed = failed.saturating_add(1);
    WireFault::Device
}

/// Answers as a look or a wait, and counts one that failed.
fn answer_as(failed: &mut u64, looked: Result<(), StreamFault>) -> Result<(), WireFault>
    ensures answers { AnswersAs result looked }
    ensures cause { HasCause failed.old failed.new result }
{
    match looked {
        Ok(()) => Ok(()),
        Err(_) => Err(fault(failed)),
    }
}

/// Tells the listener of a call of this number that failed, and counts it.
fn tell<L: Listener, T>(
    listener: &mut L,
    failed: &mut u64,
    number: u64,
    found: &Result<T, WireFault>,
)
    ensures noted { Notes (L.told listener.old) (L.told listener.new) number found.now }
    ensures cause { HasCause failed.old failed.new found.now }
    ensures asks { L.asked listener.new ≡ L.asked listener.old }
{
    if let Err(cause) = found {
        listener.fail(number);
        if *cause == WireFault::Device {
            let _counted = fault(failed);
        }
    }
}

impl<L: Listener, A: Allocator + Copy> StreamWire<L, A> {
    /// A wire that has accepted nobody.
    pub fn new(alloc: A, listener: L) -> StreamWire<L, A>
        ensures bound { ⟦<Self as Wire>⟧.bound result ≡ 0 }
        ensures failed { ⟦<Self as Wire>⟧.failed result ≡ 0 }
        ensures traffic { result.traffic ≡ no_traffic }
        ensures listener { result.listener ≡ listener }
        ensures asked { ⟦<Self as Wire>⟧.asked result ≡ Some [] }
        ensures readiness { result.readiness ≡ nothing_asked }
        ensures report { KeepsAll
            (none_given (L.told listener)) (⟦<Self as Wire>⟧.report result) }
    {
        StreamWire {
            alloc,
            listener,
            places: Vec::new(alloc),
            spare: Spare::new(alloc),
            lender: 0,
            readiness: Readiness {
                may_accept: true,
                has_buffered: false,
                needs_timeout: false,
            },
            next: 0,
            failed: 0,
            traffic: Traffic {
                received: 0,
                sent: 0,
            },
            given: Log::new(),
            asked: Log::new(),
        }
    }

    /// Accepts who waits first, under the next number that has a free place.
    fn accept_next(&mut self) -> Result<Option<u64>, WireFault>
        requires left { self.old.next ≤ 2 ^ 64 - 1 - PLACES }
        ensures number { GivesNumber self.old.next self.new.next result }
        ensures cause { HasCause self.old.failed self.new.failed result }
        ensures asks { AsksNext L.asked self.old self.new result }
        ensures named { L.named self.new.listener ≡ L.named self.old.listener }
        ensures awake { AreAwakeStill self.old.places.items self.new.places.items }
        ensures holds { HoldsAccepted result self.old.places.items self.new.places.items }
        ensures first { TakesFirst result self.new.places.items }
        ensures readiness { self.new.readiness ≡ self.old.readiness }
        ensures traffic { self.new.traffic ≡ self.old.traffic }
        ensures unchanged { KeepsReport ⟦<Self as Wire>⟧ self.old self.new }
        ensures calls { self.new.asked ≡ self.old.asked }
    {
        let place = free_place(&mut self.places)?;
        if place >= PLACES as usize {
            return Err(fault(&mut self.failed));
        }
        let number = number_at(self.next, place as u64);
        match self.listener.accept(number) {
            Ok(stream) => {
                insert(
                    &mut self.places,
                    BufferedStream::new(self.alloc, number, stream),
                );
                self.next = number + 1;
                Ok(Some(number))
            }
            Err(cause) => match cause {
                StreamFault::WouldBlock => Ok(None),
                _ => Err(fault(&mut self.failed)),
            },
        }
    }

    /// Looks, and accepts who waits first if somebody may.
    fn accept_now(&mut self) -> Result<Option<u64>, WireFault>
        ensures number { GivesNumber self.old.next self.new.next result }
        ensures unchanged { KeepsReport ⟦<Self as Wire>⟧ self.old self.new }
        ensures cause { HasCause self.old.failed self.new.failed result }
        ensures asks { AsksByAccept L.named L.asked self.old self.new result }
        ensures opens { StaysOpen result
            self.old.readiness.may_accept self.new.readiness.may_accept }
        ensures awake { WakesByAccept L.named self.old self.new }
        ensures still { AreAwakeStill self.old.places.items self.new.places.items }
        ensures holds { HoldsAccepted result self.old.places.items self.new.places.items }
        ensures first { TakesFirst result self.new.places.items }
        ensures more { self.new.readiness.has_buffered ≡ self.old.readiness.has_buffered }
        ensures sure { OnOk result
            (self.new.readiness.needs_timeout ≡ self.old.readiness.needs_timeout) }
        ensures traffic { self.new.traffic ≡ self.old.traffic }
        ensures calls { self.new.asked ≡ self.old.asked }
    {
        if self.next > u64::MAX - PLACES {
            return Err(fault(&mut self.failed));
        }
        let looked = self.listener.look();
        mark_all_ready(
            &self.listener,
            &mut self.readiness.may_accept,
            &mut self.places,
        );
        answer_as(&mut self.failed, looked)?;
        if !self.readiness.may_accept {
            return Ok(None);
        }
        let accepted = self.accept_next();
        self.readiness.note_accept(&accepted);
        accepted
    }

    /// Waits if it is to wait and no read has left something.
    fn wait_now(&mut self, idle: bool) -> Result<(), WireFault>
        ensures bound { self.new.next ≡ self.old.next }
        ensures unchanged { KeepsReport ⟦<Self as Wire>⟧ self.old self.new }
        ensures cause { HasCause self.old.failed self.new.failed result }
        ensures asks { AsksByWait L.asked idle self.old self.new result }
        ensures awake { WakesByWait L.named idle self.old self.new }
        ensures still { AreAwakeStill self.old.places.items self.new.places.items }
        ensures opens { self.old.readiness.may_accept ≡ true
            → self.new.readiness.may_accept ≡ true }
        ensures more { self.new.readiness.has_buffered
            ≡ (self.old.readiness.has_buffered && not idle) }
        ensures unsure { self.new.readiness.needs_timeout ≡ (self.old.readiness.needs_timeout
            && not (is_made idle self.old.readiness.has_buffered)) }
        ensures traffic { self.new.traffic ≡ self.old.traffic }
        ensures calls { self.new.asked ≡ self.old.asked }
    {
        if !idle {
            return Ok(());
        }
        if self.readiness.has_buffered {
            self.readiness.has_buffered = false;
            return Ok(());
        }
        let patience = patience_for(self.readiness.needs_timeout);
        self.readiness.needs_timeout = false;
        let looked = self.listener.wait(patience);
        mark_all_ready(
            &self.listener,
            &mut self.readiness.may_accept,
            &mut self.places,
        );
        answer_as(&mut self.failed, looked)
    }
}

impl<L: Listener, A: Allocator + Copy> Wire for StreamWire<L, A> {
    ghost use Rattle.std.specs.Prelude.{Some};
    ghost use Rattle.stream_transport.specs.Held.{given_under, held, lent_under, reported};
    ghost use Rattle.stream_transport.specs.Noted.{calls_of};

    ghost report = { λ wire. reported L.Stream.unread L.Stream.written
        (given_under wire.given.items) (L.told wire.listener) wire.places.items };

    ghost asked = { λ wire. Some (calls_of wire.asked.items) };

    ghost bound = { λ wire. wire.next };

    ghost failed = { λ wire. wire.failed };

    ghost lent = { λ wire. lent_under wire.spare (held wire.places.items wire.lender) };

    fn accept(&mut self) -> Result<Option<u64>, WireFault>
        ensures number { GivesNumber self.old.next self.new.next result }
        ensures unchanged { KeepsReport ⟦<Self as Wire>⟧ self.old self.new }
        ensures cause { HasCause self.old.failed self.new.failed result }
        ensures asks { AsksByAccept L.named L.asked self.old self.new result }
        ensures opens { StaysOpen result
            self.old.readiness.may_accept self.new.readiness.may_accept }
        ensures awake { WakesByAccept L.named self.old self.new }
        ensures still { AreAwakeStill self.old.places.items self.new.places.items }
        ensures holds { HoldsAccepted result self.old.places.items self.new.places.items }
        ensures first { TakesFirst result self.new.places.items }
        ensures more { self.new.readiness.has_buffered ≡ self.old.readiness.has_buffered }
        ensures sure { OnOk result
            (self.new.readiness.needs_timeout ≡ self.old.readiness.needs_timeout) }
        ensures traffic { self.new.traffic ≡ self.old.traffic }
        ensures asked { Asks
            (⟦<Self as Wire>⟧.asked self.old) (⟦<Self as Wire>⟧.asked self.new)
            (Accept result ∷ []) }
    {
        let accepted = self.accept_now();
        note_call(&mut self.asked, WireCall::Accept(accepted), &[]);
        accepted
    }

    fn read(&mut self, number: u64, most: usize) -> Result<Got, WireFault>
        ensures bound { self.new.next ≡ self.old.next }
        ensures within { IsWithin result most (⟦<Self as Wire>⟧.lent self.new) }
        ensures read { ReportsRead ⟦<Self as Wire>⟧ self.old self.new number result }
        ensures line { IsOneLine (given_last ⟦<Self as Wire>⟧ self.new result) }
        ensures cause { HasCause self.old.failed self.new.failed result }
        ensures absent { held self.old.places.items number ≡ None → result ≡ Err Device }
        ensures first { GivesKept (kept_of self.old.places.items number) most result
            (⟦<Self as Wire>⟧.lent self.new) }
        ensures asks { L.asked self.new.listener ≡ L.asked self.old.listener }
        ensures gives { AsksByRead L.Stream.calls number most result self.old self.new }
        ensures came { OfNumber number (λ old new. HasPassed L.Stream.given old new
            (given_last ⟦<Self as Wire>⟧ self.new result)) self.old self.new }
        ensures others { HoldsOthers self.old.places.items self.new.places.items number }
        ensures readiness { NotesByRead number result self.old self.new }
        ensures traffic { CountsRead self.old self.new
            (given_last ⟦<Self as Wire>⟧ self.new result) }
        ensures asked { Asks
            (⟦<Self as Wire>⟧.asked self.old) (⟦<Self as Wire>⟧.asked self.new)
            (Read number most ∷ []) }
    {
        note_call(&mut self.asked, WireCall::Read(number, most), &[]);
        let received = self.traffic.received;
        if is_quiet(self.places.as_slice(), number) {
            return Ok(Got::Nothing);
        }
        let Some(mut reader) = remove(&mut self.places, number) else {
            let absent = Err(WireFault::Device);
            tell(&mut self.listener, &mut self.failed, number, &absent);
            return absent;
        };
        let got = reader.read(&mut self.spare, most);
        let given = bytes_read(&got, reader.buffer.lent(&self.spare));
        note_given(&mut self.given, number, given);
        self.traffic.received = counted(received, given);
        self.readiness.note_read(&reader, &got);
        insert(&mut self.places, reader);
        self.lender = number;
        tell(&mut self.listener, &mut self.failed, number, &got);
        got
    }

    fn bytes(&self) -> &[u8] {
        lent_under(self.places.as_slice(), &self.spare, self.lender)
    }

    fn write(&mut self, number: u64, buf: &[u8]) -> Result<usize, WireFault>
        ensures bound { self.new.next ≡ self.old.next }
        ensures written { ReportsWrite ⟦<Self as Wire>⟧
            self.old self.new number result buf.now }
        ensures cause { HasCause self.old.failed self.new.failed result }
        ensures absent { held self.old.places.items number ≡ None → result ≡ Err Device }
        ensures asks { L.asked self.new.listener ≡ L.asked self.old.listener }
        ensures takes { OfNumber number
            (AsksToTake L.Stream.calls (length buf.now) result) self.old self.new }
        ensures came { OfNumber number (λ old new.
            HasPassed L.Stream.given old new []) self.old self.new }
        ensures others { HoldsOthers self.old.places.items self.new.places.items number }
        ensures readiness { NotesByWrite number result self.old self.new }
        ensures traffic { CountsWrite self.old self.new result buf.now }
        ensures asked { Asks
            (⟦<Self as Wire>⟧.asked self.old) (⟦<Self as Wire>⟧.asked self.new)
            (Write number buf.now ∷ []) }
    {
        note_call(&mut self.asked, WireCall::Write(number), buf);
        let sent = self.traffic.sent;
        let Some(mut writer) = remove(&mut self.places, number) else {
            let absent = Err(WireFault::Device);
            tell(&mut self.listener, &mut self.failed, number, &absent);
            return absent;
        };
        let taken = writer.write(buf);
        self.traffic.sent = counted(sent, bytes_written(&taken, buf));
        self.readiness.note_write(&writer, &taken);
        insert(&mut self.places, writer);
        tell(&mut self.listener, &mut self.failed, number, &taken);
        taken
    }

    fn shut(&mut self, number: u64)
        ensures bound { self.new.next ≡ self.old.next }
        ensures shut { ReportsShut ⟦<Self as Wire>⟧ self.old self.new number }
        ensures gone { held self.new.places.items number ≡ None }
        ensures others { HoldsOthers self.old.places.items self.new.places.items number }
        ensures faults { self.old.failed ≤ self.new.failed }
        ensures asks { L.asked self.new.listener ≡ L.asked self.old.listener }
        ensures readiness { self.new.readiness ≡ self.old.readiness }
        ensures traffic { self.new.traffic ≡ self.old.traffic }
        ensures asked { Asks
            (⟦<Self as Wire>⟧.asked self.old) (⟦<Self as Wire>⟧.asked self.new)
            (Shut number ∷ []) }
    {
        note_call(&mut self.asked, WireCall::Shut(number), &[]);
        self.listener.shut(number);
        if let Some(connection) = remove(&mut self.places, number) {
            let BufferedStream { stream, buffer, .. } = connection;
            self.listener.take_back(number, stream, buffer.as_slice());
        }
    }

    fn wait(&mut self, idle: bool) -> Result<(), WireFault>
        ensures bound { self.new.next ≡ self.old.next }
        ensures unchanged { KeepsReport ⟦<Self as Wire>⟧ self.old self.new }
        ensures cause { HasCause self.old.failed self.new.failed result }
        ensures asks { AsksByWait L.asked idle self.old self.new result }
        ensures awake { WakesByWait L.named idle self.old self.new }
        ensures still { AreAwakeStill self.old.places.items self.new.places.items }
        ensures opens { self.old.readiness.may_accept ≡ true
            → self.new.readiness.may_accept ≡ true }
        ensures more { self.new.readiness.has_buffered
            ≡ (self.old.readiness.has_buffered && not idle) }
        ensures unsure { self.new.readiness.needs_timeout ≡ (self.old.readiness.needs_timeout
            && not (is_made idle self.old.readiness.has_buffered)) }
        ensures traffic { self.new.traffic ≡ self.old.traffic }
        ensures asked { Asks
            (⟦<Self as Wire>⟧.asked self.old) (⟦<Self as Wire>⟧.asked self.new)
            (Wait idle result ∷ []) }
    {
        let waited = self.wait_now(idle);
        note_call(&mut self.asked, WireCall::Wait(idle, waited), &[]);
        waited
    }

    fn faults(&self) -> u64 {
        self.failed
    }
}
