//! A byte stream that arrives in chunks, cut into lines.

ghost use Rattle.std.specs.Prelude.{◌≡◌, ◌≢◌, ◌↔◌, ◌≤◌, ℕ, false, true, List, [], ◌∷◌, IsTrue, IsNone, IsOk, IfSome, OnOk, OnErr, drop, vec_len, ◌<◌};
ghost use Rattle.usi_lines.specs.Lines.{Buffer, ahead, IsAheadAfter, IsFirstAhead, TooLong};
ghost use Rattle.usi_lines.specs.Room.{KeepsRoom};
ghost use Rattle.usi_lines.specs.Seen.{line_of};
ghost use Rattle.usi_lines.specs.declared.buffer.TheConstants.{ROOM_KEPT};

use crate::line::{LINE_MAX, Line, line_len, without_return};
use crate::room::give_back_room;
use std::alloc::{AllocError, Allocator};
use std::marker::Model;

/// Why a chunk was not accepted.
#[derive(Clone, Copy, Debug, PartialEq, Eq)]
pub enum LineFault {
    /// Memory for the chunk ran out.
    OutOfMemory,
}

impl From<AllocError> for LineFault {
    fn from(_error: AllocError) -> LineFault {
        LineFault::OutOfMemory
    }
}

/// The most capacity kept while no byte is unread, in bytes: a chunk of 4,096 bytes fits in it
/// behind the first 4,096 bytes of a line.
const ROOM_KEPT: usize = 8_192;

/// The bytes of a stream not yet read as lines, in one buffer of the given allocator. While none
/// are unread, its capacity is at most `ROOM_KEPT` bytes.
#[derive(Drop)]
pub struct LineBuffer<A: Allocator> {
    bytes: Vec<u8, A>,
    start: usize,
    end: usize,
    closed: bool,
}

impl<A: Allocator> Model for LineBuffer<A> {
    ghost use Rattle.std.specs.Prelude.{drop};
    ghost use Rattle.usi_lines.specs.Lines.{Buffer, IsLineBuffer};
    ghost use Rattle.usi_lines.specs.declared.buffer.TheConstants.{ROOM_KEPT};

    ghost Value = { Buffer };

    ghost view = { λ b. record { unread = drop b.start b.bytes.items; closed = b.closed } };

    ghost invariant = { λ b. IsLineBuffer ROOM_KEPT b.bytes b.start b.end };
}

/// Removes the read bytes once they are more than half of the buffer, and shrinks it; returns the
/// start of the unread bytes. Each removal moves fewer bytes than were read, so the cost stays
/// linear.
fn compact<A: Allocator>(bytes: &mut Vec<u8, A>, start: usize) -> usize
    requires { start ≤ vec_len bytes.old }
    ensures kept { drop result bytes.new.items ≡ drop start bytes.old.items }
    ensures within { result ≤ vec_len bytes.new }
    ensures room { 0 < start → KeepsRoom ROOM_KEPT result bytes.new }
{
    if start <= bytes.len() / 2 {
        return start;
    }
    bytes.drain(..start);
    give_back_room(bytes, ROOM_KEPT);
    0
}

impl<A: Allocator> LineBuffer<A> {
    /// A buffer at the start of a stream. It allocates nothing yet.
    pub fn new(alloc: A) -> LineBuffer<A>
        ensures { result ≡ record { unread = []; closed = false } }
    {
        LineBuffer {
            bytes: Vec::new(alloc),
            start: 0,
            end: 0,
            closed: false,
        }
    }

    /// Appends the next chunk of the stream. After `TooLong` was dropped, chunks are accepted and
    /// ignored. `OutOfMemory` comes only if the allocation for the chunk fails, and leaves the
    /// buffer as it was.
    pub fn feed(&mut self, chunk: &[u8]) -> Result<(), LineFault>
        ensures ok { OnOk result (IsAheadAfter chunk.now self.old self.new) }
        ensures closed { self.old.closed ≡ true → IsOk result × (self.new ≡ self.old) }
        ensures err { OnErr result (self.new ≡ self.old) }
    {
        if self.closed || chunk.is_empty() {
            return Ok(());
        }
        self.bytes.reserve(chunk.len())?;
        let len = self.bytes.len();
        self.bytes.extend_from_slice(chunk)?;
        if self.end == len {
            self.end += line_len(chunk);
        }
        Ok(())
    }

    /// Whether there is an unread line.
    pub fn has_line(&self) -> bool
        ensures { IsTrue result ↔ (ahead self.now [] ≢ []) }
    {
        !self.closed && (self.end < self.bytes.len() || self.end - self.start > LINE_MAX)
    }

    /// The first unread line, which stays unread; `None` if no line has ended yet.
    pub fn next_line(&self) -> Option<Line<'_>>
        ensures if_none { IsNone result ↔ (ahead self.now [] ≡ []) }
        ensures first { IfSome result (λ line. IsFirstAhead self.now (line_of line)) }
    {
        if self.closed {
            return None;
        }
        if self.end - self.start > LINE_MAX {
            return Some(Line::TooLong);
        }
        if self.end == self.bytes.len() {
            return None;
        }
        let line = &self.bytes[self.start..self.end];
        Some(Line::Text(without_return(line)))
    }

    /// Moves past the first unread line. After `TooLong` there are no more lines.
    pub fn drop_line(&mut self)
        requires { ahead self.old [] ≢ [] }
        ensures rest { (x : List ℕ) → ahead self.new x ≡ drop 1 (ahead self.old x) }
        ensures too_long { ahead self.old [] ≡ TooLong ∷ [] → self.new.closed ≡ true }
    {
        if self.end - self.start > LINE_MAX {
            self.closed = true;
            self.bytes.clear();
            self.bytes.shrink_to_fit();
            self.start = 0;
            self.end = 0;
            return;
        }
        self.start = compact(&mut self.bytes, self.end + 1);
        self.end = self.start + line_len(&self.bytes[self.start..]);
    }
}
