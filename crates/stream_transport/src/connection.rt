//! A connection of a wire, with the bytes it keeps.

ghost use Rattle.std.specs.Prelude.{◌≡◌, ◌≢◌, ◌<◌, ◌⊎◌, ◌≤◌, [], true, length, Some, Ok, Err, IfOk};
ghost use Rattle.std.specs.Io.KnownBytes.{Keeps};
ghost use Rattle.usi_lines.specs.OneLine.{IsOneLine};
ghost use Rattle.transport.specs.Report.{EndsAt, IsWithin, bytes_written};
ghost use Rattle.transport.specs.declared.wire.Got.TheVariants.{Nothing};
ghost use Rattle.transport.specs.declared.wire.WireFault.TheVariants.{OutOfMemory};
ghost use Rattle.stream_transport.specs.Asking.{AsksToGive, AsksToTake, GivesKept, IsAwake};
ghost use Rattle.stream_transport.specs.ReadBuffer.{lent_from};
ghost use Rattle.stream_transport.specs.Held.{HasGiven, HasPassed, HasTaken, given_by, unread_of, written_of};

use crate::kept::{ReadBuffer, Spare};
use crate::listener::{ByteStream, StreamFault};
use std::alloc::Allocator;
use transport::{Got, WireFault};

/// Places of numbers: each number has the place of its remainder. Open connections get numbers with
/// different places, which finds each without a search.
pub const PLACES: u64 = 1_048_576;

/// A connection, and what the last calls and looks showed of it.
#[derive(Drop)]
pub struct BufferedStream<S: Drop, A: Allocator> {
    pub number: u64,
    pub stream: S,
    // The bytes read and not given yet, and the bytes lent.
    pub buffer: ReadBuffer<A>,
    // The last read of the stream did not return `WouldBlock`, or a look has named the stream
    // since.
    pub readable: bool,
    // The last write to the stream did not return `WouldBlock`, or a look has named the stream
    // since.
    pub writable: bool,
}

impl<S: ByteStream, A: Allocator + Copy> BufferedStream<S, A> {
    /// A connection without kept bytes, whose stream may be ready.
    pub fn new(alloc: A, number: u64, stream: S) -> BufferedStream<S, A>
        ensures number { result.number ≡ number }
        ensures stream { result.stream ≡ stream }
        ensures kept { result.buffer.kept ≡ [] }
        ensures awake { IsAwake (Some result) }
    {
        BufferedStream {
            number,
            stream,
            buffer: ReadBuffer::new(alloc),
            readable: true,
            writable: true,
        }
    }

    /// Gives the first line kept, or all bytes if no line has ended, but at most `most` bytes. If
    /// none are kept it reads the stream once first, into room for `most` bytes. `Nothing` if
    /// `most` is 0, or the stream would block, was interrupted or sleeps; `Ended` at its end;
    /// `Device` if it failed; `OutOfMemory` without room.
    pub fn read(&mut self, spare: &mut Spare<A>, most: usize) -> Result<Got, WireFault>
        ensures number { self.new.number ≡ self.old.number }
        ensures within { IsWithin result most (lent_from spare.new self.new.buffer) }
        ensures line { IsOneLine (given_by result spare.new self.new) }
        ensures unread { HasGiven S.unread self.old self.new (given_by result spare.new self.new) }
        ensures came { HasPassed S.given self.old self.new (given_by result spare.new self.new) }
        ensures written { Keeps (written_of S.written self.old) (written_of S.written self.new) }
        ensures ended { EndsAt result (unread_of S.unread self.new) }
        ensures first { GivesKept self.old.buffer.kept most result
            (lent_from spare.new self.new.buffer) }
        ensures asked { AsksToGive S.calls most result self.old self.new }
    {
        if most == 0 {
            return Ok(Got::Nothing);
        }
        if !self.buffer.is_empty() {
            self.buffer.give_line(spare, most);
            return Ok(Got::Bytes);
        }
        if !self.readable {
            return Ok(Got::Nothing);
        }
        spare.reserve(most)?;
        match self.stream.receive(spare.bytes.split_at_mut(most).0) {
            Ok(0) => Ok(Got::Ended),
            Ok(n) => {
                self.buffer.fill(spare, n);
                self.buffer.give_line(spare, most);
                Ok(Got::Bytes)
            }
            Err(StreamFault::WouldBlock) => {
                self.readable = false;
                Ok(Got::Nothing)
            }
            Err(StreamFault::Interrupted) => Ok(Got::Nothing),
            Err(StreamFault::Failed) => Err(WireFault::Device),
        }
    }

    /// Writes once, and returns how many bytes the stream took; 0 if it would block, was
    /// interrupted or sleeps. `Device` if it failed.
    pub fn write(&mut self, buf: &[u8]) -> Result<usize, WireFault>
        ensures number { self.new.number ≡ self.old.number }
        ensures within { IfOk result (λ n. n ≤ length buf.now) }
        ensures unread { Keeps (unread_of S.unread self.old) (unread_of S.unread self.new) }
        ensures written { HasTaken S.written self.old self.new (bytes_written result buf.now) }
        ensures came { HasPassed S.given self.old self.new [] }
        ensures kept { self.new.buffer.kept ≡ self.old.buffer.kept }
        ensures asked { AsksToTake S.calls (length buf.now) result self.old self.new }
    {
        if !self.writable {
            return Ok(0);
        }
        match self.stream.send(buf) {
            Ok(n) => Ok(n),
            Err(StreamFault::WouldBlock) => {
                self.writable = false;
                Ok(0)
            }
            Err(StreamFault::Interrupted) => Ok(0),
            Err(StreamFault::Failed) => Err(WireFault::Device),
        }
    }
}
