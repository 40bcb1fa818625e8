//! A host, a wire in memory and the loop between them. What happens there, and what is wanted, stands in rows:
//! each call in a test in which a host lives takes seconds to prove, and each `?` too.

ghost use Rattle.std.specs.Prelude.{◌≤◌};

use host_core::Host;
use socket_loop::Loop;
use std::alloc::Global;
use std::hash::{BuildHasherDefault, FoldHasher};
use std::marker::Model;
use std::process::Abort;
use std::test::Fail;
use test_support::{holds, same};
use test_wire::MemoryWire;
use transport::Wire;

/// What `go depth 1` from the opening position is answered.
pub const ANSWER: &[u8] = b"info depth 1 score cp 0 pv 1g1f\nbestmove 1g1f\n";
/// What is written to a connection that finds the host full.
pub const HOST_FULL: &[u8] = b"info string host full\n";
/// What `isready` is answered.
pub const READY: &[u8] = b"readyok\n";
/// `go depth 1` and `quit`, in two chunks.
pub const GO_AND_QUIT: &[&[u8]] = &[b"go de", b"pth 1\nquit\n"];

/// A host whose table has a hash without a seed.
pub type SeedlessHost = Host<BuildHasherDefault<FoldHasher>, Global>;

/// What happens in a scene, or is wanted of it. Peers have the numbers 0, 1 and so on.
#[derive(Clone, Copy)]
pub enum Step<'a> {
    /// A new peer gives these chunks, and then ends.
    Connect(&'a [&'a [u8]]),
    /// Each write of the connection takes at most so many bytes.
    Narrow(u64, usize),
    /// So many turns.
    Turns(usize),
    /// Whether each of the next turns moves.
    Moves(&'a [bool]),
    /// What the connection was written, and whether it was shut.
    Written(u64, &'a [u8], bool),
    /// Whether a read or a write of the connection has failed.
    Failed(u64, bool),
    /// How many bytes of the connection were not read.
    Unread(u64, usize),
    /// How many calls of the wire have failed.
    Faults(u64),
}

/// A host, a wire in memory, and a loop that serves one to the other.
#[derive(Drop)]
pub struct Scene {
    alloc: Global,
    host: SeedlessHost,
    wire: MemoryWire<Global>,
    turns: Loop<Global>,
}

impl Model for Scene {
    ghost use Rattle.socket_loop.specs.Links.{links_of};
    ghost use Rattle.socket_loop.specs.Turns.{Fits};

    ghost Value = { Unit };

    ghost view = { λ _. tt };

    ghost invariant = { λ s. Fits (links_of s.turns.held) (⟦<MemoryWire<Global> as Wire>⟧.bound s.wire) s.host };
}

impl Scene {
    /// No connection yet: a host of so many slots, 1 to 1,024, with 4,096 entries, and rounds of this
    /// budget.
    pub fn new(alloc: Global, slots: usize, slice: u64) -> Result<Scene, Fail>
        requires least { 1 ≤ slots }
        requires most { slots ≤ 1024 }
        requires slice { 1 ≤ slice }
    {
        let host = Host::new(alloc, slots, 4096, BuildHasherDefault::<FoldHasher>::new())?;
        Ok(Scene {
            alloc,
            host,
            wire: MemoryWire::new(alloc),
            turns: Loop::new(alloc, slice)?,
        })
    }

    /// A new peer that gives these chunks, and then ends.
    pub fn connect(&mut self, chunks: &[&[u8]]) -> Result<u64, Fail> {
        let mut all = Vec::new(self.alloc);
        for chunk in chunks {
            all.push(Vec::from_slice(self.alloc, chunk)?)?;
        }
        Ok(self.wire.connect(all).map_err(|_| "memory for a peer")?)
    }

    /// A new peer that gives these bytes in chunks of so many, and then ends.
    pub fn connect_cut(&mut self, bytes: &[u8], size: usize) -> Result<u64, Fail>
        requires { 1 ≤ size }
    {
        let mut all = Vec::new(self.alloc);
        for chunk in bytes.chunks(size) {
            all.push(Vec::from_slice(self.alloc, chunk)?)?;
        }
        Ok(self.wire.connect(all).map_err(|_| "memory for a peer")?)
    }

    /// Each write of the connection takes at most so many bytes.
    pub fn narrow(&mut self, number: u64, most: usize) {
        if self.wire.is_known(number) {
            self.wire.narrow(number, most);
        }
    }

    /// The n-th call of the wire from now on fails.
    pub fn fail_at(&mut self, n: u64)
        requires { 1 ≤ n }
    {
        self.wire.fail_at(n);
    }

    /// One turn, and whether it moved.
    pub fn turn(&mut self) -> bool {
        self.turns.turn(&mut self.host, &mut self.wire).moved
    }

    /// So many turns, and whether the last one moved.
    pub fn turn_times(&mut self, count: usize) -> bool {
        let mut moved = false;
        for _ in 0..count {
            moved = self.turn();
        }
        moved
    }

    /// What was written to the connection.
    pub fn written(&self, number: u64) -> &[u8] {
        if self.wire.is_known(number) {
            self.wire.written(number)
        } else {
            b""
        }
    }

    /// Whether the connection was shut.
    pub fn is_shut(&self, number: u64) -> bool {
        self.wire.is_known(number) && self.wire.is_shut(number)
    }

    /// Whether a read or a write of the connection has failed.
    pub fn has_failed(&self, number: u64) -> bool {
        self.wire.is_known(number) && self.wire.has_failed(number)
    }

    // How many bytes of the connection were not read.
    fn unread(&self, number: u64) -> usize {
        let mut left = 0usize;
        if self.wire.is_known(number) {
            for chunk in self.wire.chunks(number) {
                left = left.saturating_add(chunk.len());
            }
        }
        left
    }

    /// How many calls of the wire have failed.
    pub fn faults(&self) -> u64 {
        self.wire.faults()
    }

    /// Ends the test where the connection was written something else, or was shut where it is not to be, or
    /// the other way round.
    pub fn is_written<R: Abort>(&self, rt: &R, number: u64, written: &[u8], is_shut: bool) {
        holds!(*rt; self.written(number) == written, number);
        same!(*rt; self.is_shut(number), is_shut, number);
    }

    // Turns, of which each moves or not.
    fn moves<R: Abort>(&mut self, rt: &R, wanted: &[bool]) {
        for (turn, moved) in wanted.iter().enumerate() {
            same!(*rt; self.turn(), *moved, turn);
        }
    }

    fn plays_one<R: Abort>(&mut self, rt: &R, step: Step<'_>) -> Result<(), Fail> {
        match step {
            Step::Connect(chunks) => {
                self.connect(chunks)?;
            }
            Step::Narrow(number, most) => self.narrow(number, most),
            Step::Turns(count) => {
                self.turn_times(count);
            }
            Step::Moves(wanted) => self.moves(rt, wanted),
            Step::Written(number, written, is_shut) => {
                self.is_written(rt, number, written, is_shut);
            }
            Step::Failed(number, failed) => same!(*rt; self.has_failed(number), failed, number),
            Step::Unread(number, left) => same!(*rt; self.unread(number), left, number),
            Step::Faults(count) => same!(*rt; self.faults(), count),
        }
        Ok(())
    }

    /// Plays the steps, and ends the test where one is answered otherwise than expected.
    pub fn plays<R: Abort>(&mut self, rt: &R, steps: &[Step<'_>]) -> Result<(), Fail> {
        for step in steps {
            self.plays_one(rt, *step)?;
        }
        Ok(())
    }
}
