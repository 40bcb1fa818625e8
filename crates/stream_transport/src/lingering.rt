//! Streams that were shut and whose peers have not ended yet.

ghost use Rattle.std.specs.Prelude.{◌≡◌, ◌≢◌, ◌≤◌, ◌+◌, ◌-◌, [], ℕ, length, filter, is_some, true, IfOk, vec_capacity};
ghost use Rattle.stream_transport.specs.Lingering.{Leave, StayAtMost, are_drained, has_looks, with_one};
ghost use Rattle.stream_transport.specs.System.{AreShut, IsDrained, IsShut, Lingers, lingering_for, most_of};
ghost use Rattle.stream_transport.specs.declared.lingering.TheConstants.{LINGERING_MAX, LOOKS_MAX};

use crate::listener::{ByteStream, Ready, StreamFault};
use std::alloc::{AllocError, Allocator};
use std::marker::Model;
use std::time::Duration;

/// The most streams that linger; one more makes the oldest leave.
pub const LINGERING_MAX: usize = 256;

/// The most looks for which a stream lingers.
pub const LOOKS_MAX: u64 = 4096;

/// The looks counted for a wait that found nothing.
pub const IDLE_LOOKS: u64 = 64;

/// Longest wait in milliseconds while streams linger.
pub const IDLE_PATIENCE: u64 = 50;

/// Longest wait in milliseconds while a lingering stream may have unread bytes.
pub const DRAINING_PATIENCE: u64 = 1;

/// The most reads of a lingering stream at one look.
pub const READS: usize = 4;

/// A stream that was shut for writing, and its remaining looks.
#[derive(Drop)]
pub struct LingeringStream<S: Drop> {
    pub number: u64,
    pub stream: S,
    /// The last reads may have left bytes, or a look has named the stream since.
    pub readable: bool,
    /// The looks for which the stream stays; at 0 it leaves.
    pub looks: u64,
}

/// The streams of shut connections, the oldest first. Bytes that peers still send are read and
/// dropped: closing with unread bytes resets the connection, and the peer may lose what it was
/// written. A stream leaves when its peer ends, when a read fails, or after `LOOKS_MAX` looks.
#[derive(Drop)]
pub struct Lingering<S: Drop, A: Allocator> {
    streams: Vec<LingeringStream<S>, A>,
}

impl<S: Drop, A: Allocator> Model for Lingering<S, A> {
    ghost use Rattle.std.specs.Prelude.{List, ◌≤◌, length};
    ghost use Rattle.stream_transport.specs.Lingering.{IsWithin};
    ghost use Rattle.stream_transport.specs.declared.lingering.LingeringStream.{LingeringStream};

    ghost Value = { List (LingeringStream S) };

    ghost view = { λ lingering. lingering.streams.items };

    ghost invariant = { λ lingering. IsWithin lingering.streams };
}

/// Whether a look has named the stream of this number.
fn is_named(ready: &[Ready], number: u64) -> bool {
    for who in ready {
        if *who == Ready::Stream(number) {
            return true;
        }
    }
    false
}

/// Reads and drops what the peer sent, in at most `READS` reads. `None` if the peer has ended or
/// the stream failed; otherwise whether it may have sent more.
fn drain<S: ByteStream>(stream: &mut S) -> Option<bool>
    ensures shut { S.is_shut stream.new ≡ S.is_shut stream.old }
    ensures reads { IsDrained (S.calls stream.old) (S.calls stream.new) result }
{
    let mut buf = [0u8; 4096];
    for _ in 0..READS {
        match stream.receive(&mut buf) {
            Ok(0) => return None,
            Ok(_) => {}
            Err(StreamFault::WouldBlock) => return Some(false),
            Err(StreamFault::Interrupted) => {}
            Err(StreamFault::Failed) => return None,
        }
    }
    Some(true)
}

impl<S: ByteStream> LingeringStream<S> {
    /// Counts `looks` looks, and drains the stream if the last one named it or bytes may be left.
    fn pass(&mut self, ready: &[Ready], looks: u64)
        ensures looks { self.new.looks ≤ self.old.looks - looks }
        ensures shut { S.is_shut self.new.stream ≡ S.is_shut self.old.stream }
    {
        self.looks = self.looks.saturating_sub(looks);
        self.readable = self.readable | is_named(ready, self.number);
        if !self.readable {
            return;
        }
        match drain(&mut self.stream) {
            Some(has_more) => self.readable = has_more,
            None => self.looks = 0,
        }
    }
}

/// Counts `looks` looks for each stream.
fn pass_all<S: ByteStream, A: Allocator>(
    streams: &mut Vec<LingeringStream<S>, A>,
    ready: &[Ready],
    looks: u64,
)
    ensures leave { Leave looks streams.old.items streams.new.items }
    ensures shut { AreShut S.is_shut streams.old.items → AreShut S.is_shut streams.new.items }
    ensures length { length streams.new.items ≡ length streams.old.items }
    ensures capacity { vec_capacity streams.new ≡ vec_capacity streams.old }
{
    for lingering in streams.iter_mut() {
        lingering.pass(ready, looks);
    }
}

/// Drops the streams without looks left.
fn retain_lingering<S: ByteStream, A: Allocator>(streams: &mut Vec<LingeringStream<S>, A>)
    ensures left { streams.new.items ≡ filter has_looks streams.old.items }
    ensures fewer { length streams.new.items ≤ length streams.old.items }
    ensures capacity { vec_capacity streams.new ≡ vec_capacity streams.old }
{
    streams.retain(|lingering| lingering.looks > 0);
}

/// Whether no stream is known to have unread bytes.
fn are_drained<S: ByteStream>(streams: &[LingeringStream<S>]) -> bool
    ensures { result ≡ are_drained streams.now }
{
    for place in 0..streams.len() {
        if streams[place].readable {
            return false;
        }
    }
    true
}

impl<S: ByteStream, A: Allocator + Copy> Lingering<S, A> {
    /// No stream, and room for `LINGERING_MAX`. Fails if out of memory.
    pub fn new(alloc: A) -> Result<Lingering<S, A>, AllocError>
        ensures { IfOk result (λ lingering. lingering ≡ []) }
    {
        let streams = Vec::with_capacity(alloc, LINGERING_MAX)?;
        Ok(Lingering { streams })
    }

    /// Adds a stream; if `LINGERING_MAX` linger already, the oldest leaves.
    fn push(&mut self, lingering: LingeringStream<S>)
        requires { lingering.looks ≤ LOOKS_MAX }
        ensures added { self.new ≡ with_one self.old lingering }
        ensures few { length self.new ≤ LINGERING_MAX }
        ensures within { StayAtMost LOOKS_MAX self.new }
    {
        if self.streams.len() >= LINGERING_MAX {
            let _oldest = self.streams.remove(0);
        }
        let _room = self.streams.push(lingering);
    }

    /// Drains the stream of a shut connection, which then lingers for `LOOKS_MAX` looks, unless its
    /// peer has ended or it failed.
    pub fn linger(&mut self, number: u64, stream: S)
        ensures few { length self.new ≤ LINGERING_MAX }
        ensures within { StayAtMost LOOKS_MAX self.new }
        ensures shut { AreShut S.is_shut self.old → IsShut (S.is_shut stream)
            → AreShut S.is_shut self.new }
        ensures lingers { Lingers S.calls number stream self.old self.new }
    {
        let _within = &self.streams;
        let mut stream = stream;
        if let Some(has_more) = drain(&mut stream) {
            self.push(LingeringStream {
                number,
                stream,
                readable: has_more,
                looks: LOOKS_MAX,
            });
        }
    }

    /// Counts `looks` looks, drains the streams that may have bytes, and drops those that leave.
    pub fn pass(&mut self, ready: &[Ready], looks: u64)
        ensures leaves { Leave looks self.old self.new }
        ensures shut { AreShut S.is_shut self.old → AreShut S.is_shut self.new }
        ensures gone { StayAtMost looks self.old → self.new ≡ [] }
        ensures few { length self.new ≤ LINGERING_MAX }
        ensures within { StayAtMost LOOKS_MAX self.new }
    {
        pass_all(&mut self.streams, ready, looks);
        retain_lingering(&mut self.streams);
    }

    /// The longest duration of a wait: as given if no stream lingers, otherwise `IDLE_PATIENCE` or
    /// `DRAINING_PATIENCE`.
    pub fn patience(&self, patience: Option<Duration>) -> Option<Duration>
        ensures { most_of result ≡ lingering_for self.now (most_of patience) }
    {
        if self.streams.is_empty() {
            return patience;
        }
        Some(Duration::from_millis(if are_drained(self.streams.as_slice()) {
            IDLE_PATIENCE
        } else {
            DRAINING_PATIENCE
        }))
    }

    /// The looks to count for a wait: `IDLE_LOOKS` if it found nothing and nothing is known to be
    /// unread, otherwise 1.
    pub fn looks_of_wait(&self, ready: &[Ready]) -> u64
        ensures { 1 ≤ result }
    {
        if ready.is_empty() && are_drained(self.streams.as_slice()) {
            IDLE_LOOKS
        } else {
            1
        }
    }

    /// Drops all streams, and returns whether there were any. A failed accept is tried again
    /// after it.
    pub fn release(&mut self) -> bool
        ensures gone { self.new ≡ [] }
        ensures had { result ≡ true → self.old ≢ [] }
    {
        let had_some = !self.streams.is_empty();
        self.streams.clear();
        had_some
    }
}
