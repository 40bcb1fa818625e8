//! Each request of a loop refused in turn: one connection at most is shut early.

use host_core::Host;
use socket_loop::Loop;
use std::alloc::Global;
use std::hash::{BuildHasherDefault, FoldHasher};
use std::marker::Model;
use std::process::Abort;
use std::test::Fail;
use test_support::rows::INFO_AND_BEST_ONE;
use test_support::{FailingAllocator, holds};
use test_wire::MemoryWire;
use transport::Wire;

type Memory = FailingAllocator<Global>;

type FailingHost<'a> = Host<BuildHasherDefault<FoldHasher>, &'a Memory>;

// More requests than a run makes.
const REQUESTS: u64 = 10_000;

type FailingWire<'a> = MemoryWire<&'a Memory>;

/// A host and a loop over memory that is refused, and a wire over other memory that is refused.
#[derive(Drop)]
struct Scene<'a> {
    of_wire: &'a Memory,
    host: FailingHost<'a>,
    wire: FailingWire<'a>,
    turns: Loop<&'a Memory>,
}

impl<'a> Model for Scene<'a> {
    ghost use Rattle.socket_loop.specs.Links.{links_of};
    ghost use Rattle.socket_loop.specs.Turns.{Fits};

    ghost Value = { Unit };

    ghost view = { λ _. tt };

    ghost invariant = { λ s. Fits (links_of s.turns.held) (⟦<MemoryWire<&'static Memory> as Wire>⟧.bound s.wire) s.host };
}

impl<'a> Scene<'a> {
    /// Two slots, and no connection yet.
    fn new(of_host: &'a Memory, of_wire: &'a Memory) -> Result<Scene<'a>, Fail> {
        Ok(Scene {
            of_wire,
            host: Host::new(of_host, 2, 4096, BuildHasherDefault::<FoldHasher>::new())?,
            wire: MemoryWire::new(of_wire),
            turns: Loop::new(of_host, 1000)?,
        })
    }

    /// A new peer that asks for a search to depth 1, in two chunks.
    fn connect(&mut self) -> Result<u64, Fail> {
        let mut chunks = Vec::new(self.of_wire);
        for chunk in [b"go de".as_slice(), b"pth 1\nquit\n"] {
            chunks.push(Vec::from_slice(self.of_wire, chunk)?)?;
        }
        Ok(self.wire.connect(chunks).map_err(|_| "memory for a peer")?)
    }

    fn turn_times(&mut self, count: usize) {
        for _ in 0..count {
            self.turns.turn(&mut self.host, &mut self.wire);
        }
    }

    /// Whether the connection was written its whole answer; else it was written a prefix of it. It is shut.
    fn is_served(&self, rt: &impl Abort, number: u64) -> bool {
        if !self.wire.is_known(number) {
            return false;
        }
        holds!(*rt; self.wire.is_shut(number));
        let written = self.wire.written(number);
        holds!(*rt; INFO_AND_BEST_ONE.as_bytes().starts_with(written));
        written == INFO_AND_BEST_ONE.as_bytes()
    }
}

/// Whose allocations fail: those of the host and its loop, or that of the wire.
#[derive(Clone, Copy)]
enum Owner {
    Host,
    Wire,
}

// Serves two connections while requests are refused; returns how many of the two were shut early.
fn serve_two(
    rt: &impl Abort,
    scene: &mut Scene<'_>,
    memory: &Memory,
    n: u64,
    stays_gone: bool,
) -> Result<usize, Fail> {
    let x = scene.connect()?;
    let y = scene.connect()?;
    if stays_gone {
        memory.refuse_from(n);
    } else {
        memory.refuse_at(n);
    }
    scene.turn_times(8);
    memory.refuse_nothing();
    scene.turn_times(8);
    let mut early = 0usize;
    for number in [x, y] {
        if !scene.is_served(rt, number) {
            early = early.saturating_add(1);
        }
    }
    Ok(early)
}

// A further connection is served.
fn assert_serves(rt: &impl Abort, scene: &mut Scene<'_>) -> Result<(), Fail> {
    let last = scene.connect()?;
    scene.turn_times(8);
    holds!(*rt; scene.is_served(rt, last));
    Ok(())
}

// The two, and a third one once memory is there again. Returns whether a request was refused, and how many of
// the two were shut early.
fn serve(
    rt: &impl Abort,
    alloc: Global,
    owner: Owner,
    n: u64,
    stays_gone: bool,
) -> Result<(bool, usize), Fail> {
    let of_host = FailingAllocator::new(alloc);
    let of_wire = FailingAllocator::new(alloc);
    let memory = match owner {
        Owner::Host => &of_host,
        Owner::Wire => &of_wire,
    };
    let mut scene = Scene::new(&of_host, &of_wire)?;
    let early = serve_two(rt, &mut scene, memory, n, stays_gone)?;
    assert_serves(rt, &mut scene)?;
    Ok((memory.refused() > 0, early))
}

// How many requests a run makes: the n-th one of each run is refused, and where memory stays gone each one after
// it, until a run has no n-th request. One refusal alone shuts one connection at most.
fn refusals(rt: &impl Abort, alloc: Global, owner: Owner, stays_gone: bool) -> Result<u64, Fail> {
    let mut shut = 0usize;
    for n in 1..REQUESTS {
        let (refused, early) = serve(rt, alloc, owner, n, stays_gone)?;
        holds!(*rt; stays_gone || early <= 1, n);
        shut = shut.saturating_add(early);
        if !refused {
            holds!(*rt; n > 1 && early == 0 && shut > 0);
            return Ok(n.saturating_sub(1));
        }
    }
    Err(Fail::from("there are always more requests"))
}

#[test]
fn each_request_of_a_loop_is_refused_in_turn(rt: HostRuntime) -> Result<(), Fail> {
    let met = refusals(&rt, rt.alloc(), Owner::Host, false)?;
    println!(rt; "Loop::turn, one: {met} requests")?;
    Ok(())
}

// Connections that ask while no memory is there are shut early; those that ask later are served.
#[test]
fn memory_of_a_loop_stays_gone_and_comes_back(rt: HostRuntime) -> Result<(), Fail> {
    let met = refusals(&rt, rt.alloc(), Owner::Host, true)?;
    println!(rt; "Loop::turn, all from one on: {met} requests")?;
    Ok(())
}

// A write that the wire has no memory for shuts its connection.
#[test]
fn memory_of_a_wire_is_refused(rt: HostRuntime) -> Result<(), Fail> {
    let one = refusals(&rt, rt.alloc(), Owner::Wire, false)?;
    let all = refusals(&rt, rt.alloc(), Owner::Wire, true)?;
    println!(rt; "MemoryWire: {one} requests, {all} where memory stays gone")?;
    Ok(())
}
