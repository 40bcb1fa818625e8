//! One connection of a wire in memory.

ghost use Rattle.std.specs.Prelude.{◌≡◌, ◌≤◌, ◌++◌, length, min, take, drop, Some, Ok, Err, IfOk, IfErr, OnErr};
ghost use Rattle.transport.specs.Report.{IsWithin, EndsAt, bytes_read, bytes_written};
ghost use Rattle.test_wire.specs.Memory.{Gives, HasGiven, MarksFailure, unread_of, contents_of, new_peer, failing, shutting, narrowing, taking, past_empty, got_from, giving};
ghost use Rattle.transport.specs.declared.wire.WireFault.TheVariants.{OutOfMemory};

use std::alloc::Allocator;
use std::marker::Model;
use transport::{Got, WireFault};

#[derive(Drop)]
pub struct Peer<A: Allocator + Copy> {
    // What reads give from here on.
    chunks: Vec<Vec<u8, A>, A>,
    // What writes took.
    written: Vec<u8, A>,
    // The most bytes that a write takes.
    width: usize,
    is_shut: bool,
    // A read or a write of it has failed.
    has_failed: bool,
}

impl<A: Allocator + Copy> Model for Peer<A> {
    ghost use Rattle.test_wire.specs.Memory.{PeerState, contents_of};

    ghost Value = { PeerState };

    ghost view = { λ p. record {
      chunks = contents_of p.chunks.items;
      written = p.written.items;
      width = p.width;
      is_shut = p.is_shut;
      has_failed = p.has_failed;
    } };
}

// Passes over the empty chunks at the start.
fn skip_empty<A: Allocator + Copy>(chunks: &mut Vec<Vec<u8, A>, A>)
    ensures { contents_of chunks.new.items ≡ past_empty (contents_of chunks.old.items) }
{
    while !chunks.is_empty() && chunks[0].is_empty() {
        chunks.remove(0);
    }
}

/// Moves bytes from the start of a chunk to the start of the buffer.
pub fn take_prefix<A: Allocator + Copy>(chunk: &mut Vec<u8, A>, buf: &mut [u8]) -> usize
    ensures count { result ≡ min (length chunk.old.items) (length buf.old) }
    ensures len { length buf.new ≡ length buf.old }
    ensures given { take result buf.new ≡ take (length buf.old) chunk.old.items }
    ensures left { chunk.new.items ≡ drop (length buf.old) chunk.old.items }
{
    let n = chunk.len().min(buf.len());
    buf[..n].copy_from_slice(&chunk[..n]);
    let left = chunk.len() - n;
    chunk.copy_within(n.., 0);
    chunk.truncate(left);
    n
}

impl<A: Allocator + Copy> Peer<A> {
    /// Nothing was written to it; a write takes all.
    pub fn new(alloc: A, chunks: Vec<Vec<u8, A>, A>) -> Peer<A>
        ensures { result ≡ new_peer (contents_of chunks.items) }
    {
        Peer {
            chunks,
            written: Vec::new(alloc),
            width: usize::MAX,
            is_shut: false,
            has_failed: false,
        }
    }

    pub fn narrow(&mut self, most: usize)
        ensures { self.new ≡ narrowing most self.old }
    {
        self.width = most;
    }

    pub fn fail(&mut self)
        ensures { self.new ≡ failing self.old }
    {
        self.has_failed = true;
    }

    pub fn shut(&mut self)
        ensures { self.new ≡ shutting self.old }
    {
        self.is_shut = true;
    }

    pub fn chunks(&self) -> &[Vec<u8, A>]
        ensures { contents_of result.now ≡ self.now.chunks }
    {
        self.chunks.as_slice()
    }

    pub fn written(&self) -> &[u8]
        ensures { result.now ≡ self.now.written }
    {
        self.written.as_slice()
    }

    pub fn is_shut(&self) -> bool
        ensures { result ≡ self.now.is_shut }
    {
        self.is_shut
    }

    pub fn has_failed(&self) -> bool
        ensures { result ≡ self.now.has_failed }
    {
        self.has_failed
    }

    // The next bytes, how many there are, and what is left.
    fn give(&mut self, buf: &mut [u8]) -> (Got, usize)
        ensures got { result.0 ≡ got_from (past_empty self.old.chunks) (length buf.old) }
        ensures len { length buf.new ≡ length buf.old }
        ensures fits { result.1 ≤ length buf.old }
        ensures given { Gives result.0 (take result.1 buf.new) (length buf.old) self.old }
        ensures left { self.new ≡ giving (length buf.old) self.old }
        ensures within { IsWithin (Ok result.0) (length buf.old) (take result.1 buf.new) }
        ensures ended { EndsAt (Ok result.0) (Some (unread_of self.new)) }
    {
        skip_empty(&mut self.chunks);
        let Some(first) = self.chunks.first_mut() else {
            return (Got::Ended, 0);
        };
        let n = take_prefix(first, buf);
        if n == 0 {
            (Got::Nothing, 0)
        } else {
            (Got::Bytes, n)
        }
    }

    /// The next bytes, as many as the buffer takes and the first chunk has, and how many they are.
    pub fn read(&mut self, buf: &mut [u8]) -> (Got, usize)
        ensures got { result.0 ≡ got_from (past_empty self.old.chunks) (length buf.old) }
        ensures len { length buf.new ≡ length buf.old }
        ensures fits { result.1 ≤ length buf.old }
        ensures given { Gives result.0 (take result.1 buf.new) (length buf.old) self.old }
        ensures left { self.new ≡ giving (length buf.old) self.old }
        ensures within { IsWithin (Ok result.0) (length buf.old) (take result.1 buf.new) }
        ensures consumed { HasGiven self.old self.new
            (bytes_read (Ok result.0) (take result.1 buf.new)) }
        ensures ended { EndsAt (Ok result.0) (Some (unread_of self.new)) }
    {
        self.give(buf)
    }

    /// Takes a prefix of the bytes, or fails and takes nothing where memory runs out.
    pub fn take(&mut self, bytes: &[u8]) -> Result<usize, WireFault>
        ensures count { IfOk result (λ n. n ≡ min self.old.width (length bytes.now)) }
        ensures ok { IfOk result (λ n. self.new ≡ taking (take n bytes.now) self.old) }
        ensures err { OnErr result (self.new ≡ failing self.old) }
        ensures fault { IfErr result (λ fault. fault ≡ OutOfMemory) }
        ensures within { IfOk result (λ n. n ≤ length bytes.now) }
        ensures appended { self.new.written ≡ self.old.written ++ bytes_written result bytes.now }
        ensures failed { MarksFailure result self.old self.new }
        ensures chunks { self.new.chunks ≡ self.old.chunks }
        ensures shut { self.new.is_shut ≡ self.old.is_shut }
    {
        let n = self.width.min(bytes.len());
        let (front, _) = bytes.split_at(n);
        if self.written.extend_from_slice(front).is_err() {
            self.has_failed = true;
            return Err(WireFault::OutOfMemory);
        }
        Ok(n)
    }
}
