//! The bytes read from a connection and not given yet, and the bytes lent to the caller.

ghost use Rattle.std.specs.Prelude.{◌≡◌, ◌≢◌, ◌<◌, ◌≤◌, [], ◌++◌, length, take, nat_eq, vec_len, OnErr, OnOk, true};
ghost use Rattle.usi_lines.specs.OneLine.{one_line, IsOneLine};
ghost use Rattle.stream_transport.specs.ReadBuffer.{lent_by, lent_from};

use std::alloc::{AllocError, Allocator};
use std::marker::Model;
use std::mem::swap;
use usi_lines::cut_line;

/// Room for the next read. `start..end` are the bytes given last, if they lie here.
#[derive(Drop)]
pub struct Spare<A: Allocator> {
    pub bytes: Vec<u8, A>,
    pub start: usize,
    pub end: usize,
}

impl<A: Allocator> Spare<A> {
    /// No room.
    pub fn new(alloc: A) -> Spare<A> {
        Spare {
            bytes: Vec::new(alloc),
            start: 0,
            end: 0,
        }
    }

    /// Grows to room for `most` bytes. Out of memory leaves the room as it was.
    pub fn reserve(&mut self, most: usize) -> Result<(), AllocError>
        ensures ok { OnOk result (most ≤ vec_len self.new.bytes) }
        ensures grown { vec_len self.old.bytes < most
            → OnOk result (vec_len self.new.bytes ≡ most) }
        ensures kept { most ≤ vec_len self.old.bytes → self.new ≡ self.old }
        ensures err { OnErr result (vec_len self.new.bytes ≡ vec_len self.old.bytes) }
    {
        if self.bytes.len() < most {
            self.bytes.resize(most, 0)?;
        }
        Ok(())
    }

    /// The bytes in `start..end`.
    pub fn lent(&self) -> &[u8]
        ensures { result.now ≡ lent_by self.now }
    {
        let (front, _) = self
            .bytes
            .as_slice()
            .split_at(self.end.min(self.bytes.len()));
        front.split_at(self.start.min(front.len())).1
    }
}

/// Bytes read from a stream and not given yet. Only a buffer that keeps some owns memory; it lends
/// the bytes given last from there.
#[derive(Drop)]
pub struct ReadBuffer<A: Allocator> {
    bytes: Vec<u8, A>,
    // Start of the bytes given last.
    given: usize,
    // Start of the bytes kept.
    start: usize,
    end: usize,
}

impl<A: Allocator> Model for ReadBuffer<A> {
    ghost use Rattle.stream_transport.specs.ReadBuffer.{Buffered, IsReadBuffer, between};

    ghost Value = { Buffered };

    ghost view = { λ buffer. record {
      lent = between buffer.given buffer.start buffer.bytes.items;
      kept = between buffer.start buffer.end buffer.bytes.items;
    } };

    ghost invariant = { λ buffer. IsReadBuffer buffer.given buffer.start buffer.end buffer.bytes };
}

impl<A: Allocator> ReadBuffer<A> {
    /// An empty buffer without memory.
    pub fn new(alloc: A) -> ReadBuffer<A>
        ensures { result ≡ record { lent = []; kept = [] } }
    {
        ReadBuffer {
            bytes: Vec::new(alloc),
            given: 0,
            start: 0,
            end: 0,
        }
    }

    /// For an empty buffer: keeps the first `n` bytes of the spare room, whose memory it takes.
    pub fn fill(&mut self, spare: &mut Spare<A>, n: usize)
        requires some { 1 ≤ n }
        requires fits { n ≤ vec_len spare.old.bytes }
        ensures { self.new.kept ≡ take n spare.old.bytes.items }
    {
        swap(&mut self.bytes, &mut spare.bytes);
        self.given = 0;
        self.start = 0;
        self.end = n;
    }

    /// The bytes kept.
    pub fn as_slice(&self) -> &[u8]
        ensures { result.now ≡ self.now.kept }
    {
        self.bytes
            .as_slice()
            .split_at(self.end)
            .0
            .split_at(self.start)
            .1
    }

    /// Whether no byte is kept.
    pub fn is_empty(&self) -> bool
        ensures test { result ≡ nat_eq (length self.now.kept) 0 }
        ensures none { result ≡ true → self.now.kept ≡ [] }
    {
        self.start == self.end
    }

    /// The bytes given last: in this buffer while it keeps more, otherwise in the spare room.
    pub fn lent<'a>(&'a self, spare: &'a Spare<A>) -> &'a [u8]
        ensures { result.now ≡ lent_from spare.now self.now }
    {
        if self.is_empty() {
            return spare.lent();
        }
        self.bytes
            .as_slice()
            .split_at(self.start)
            .0
            .split_at(self.given)
            .1
    }

    /// Gives the first line with its LF, or all bytes if none has ended, but at most `most` bytes.
    /// Giving the last byte turns the buffer's memory into the spare room.
    pub fn give_line(&mut self, spare: &mut Spare<A>, most: usize)
        ensures given { lent_from spare.new self.new ≡ take most (one_line self.old.kept) }
        ensures line { IsOneLine (lent_from spare.new self.new) }
        ensures kept { lent_from spare.new self.new ++ self.new.kept ≡ self.old.kept }
        ensures most { length (lent_from spare.new self.new) ≤ most }
        ensures some { self.old.kept ≢ [] → 1 ≤ most
            → 1 ≤ length (lent_from spare.new self.new) }
    {
        let (line, _) = cut_line(self.as_slice());
        let n = line.len().min(most);
        self.given = self.start;
        self.start += n;
        if self.start == self.end {
            swap(&mut self.bytes, &mut spare.bytes);
            spare.start = self.given;
            spare.end = self.start;
            self.bytes.clear();
            self.bytes.shrink_to(0);
            self.given = 0;
            self.start = 0;
            self.end = 0;
        }
    }
}
