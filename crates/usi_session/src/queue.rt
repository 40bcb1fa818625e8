//! Bytes queued until they are taken.

ghost use Rattle.std.specs.Prelude.{◌≡◌, ◌≤◌, ◌++◌, [], OnOk, OnErr, drop, length};
ghost use Rattle.usi_session.specs.declared.queue.TheConstants.{ROOM_KEPT};

use std::alloc::{AllocError, Allocator};
use std::marker::Model;
use usi_lines::give_back_room;

/// The most capacity kept while nothing is queued, in bytes.
const ROOM_KEPT: usize = 4_096;

/// Bytes written and not yet taken. While none are queued, at most `ROOM_KEPT` bytes of capacity
/// are kept.
#[derive(Drop)]
pub struct Queue<A: Allocator> {
    bytes: Vec<u8, A>,
    taken: usize,
}

impl<A: Allocator> Model for Queue<A> {
    ghost use Rattle.std.specs.Prelude.{ℕ, List, drop, ◌≤◌, vec_len};
    ghost use Rattle.usi_lines.specs.Room.{KeepsRoom};
    ghost use Rattle.usi_session.specs.declared.queue.TheConstants.{ROOM_KEPT};

    ghost Value = { List ℕ };

    ghost view = { λ o. drop o.taken o.bytes.items };

    ghost invariant = { λ o.
        (o.taken ≤ vec_len o.bytes) × KeepsRoom ROOM_KEPT o.taken o.bytes };
}

impl<A: Allocator> Queue<A> {
    /// An empty queue. It takes no memory.
    pub fn new(alloc: A) -> Queue<A>
        ensures { result ≡ [] }
    {
        Queue {
            bytes: Vec::new(alloc),
            taken: 0,
        }
    }

    /// Appends the text. If allocation fails, nothing changes.
    pub fn push(&mut self, text: &[u8]) -> Result<(), AllocError>
        ensures ok { OnOk result (self.new ≡ self.old ++ text.now) }
        ensures err { OnErr result (self.new ≡ self.old) }
    {
        if text.is_empty() {
            return Ok(());
        }
        self.bytes.reserve(text.len())?;
        self.bytes.extend_from_slice(text)
    }

    /// The queued bytes.
    pub fn as_slice(&self) -> &[u8]
        ensures { result.now ≡ self.now }
    {
        &self.bytes[self.taken..]
    }

    /// Drops the first n bytes. Once more than half of the buffer is taken, that half is drained,
    /// which moves fewer bytes than were taken, and spare capacity is given back.
    pub fn take(&mut self, n: usize)
        requires { n ≤ length self.old }
        ensures { self.new ≡ drop n self.old }
    {
        self.taken += n;
        if self.taken > self.bytes.len() / 2 {
            self.bytes.drain(..self.taken);
            self.taken = 0;
            give_back_room(&mut self.bytes, ROOM_KEPT);
        }
    }
}
