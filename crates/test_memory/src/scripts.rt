//! Memory that is refused to a script.

use crate::refusals::{Memory, Trial, refuse_each};
use linked_list_allocator::LocalHeap;
use std::alloc::{Allocator, Global};
use std::process::Abort;
use std::test::Fail;
use test_support::fakes::FailingReader;
use test_support::rows::joined;
use test_support::scripts::Script;
use test_support::tables::{two_ready, two_sessions};
use test_support::{holds, same};
use usi_replay::{ReplayFault, replay};
use usi_stdio::Duplex;

/// A script that is read in reads of at most so many bytes, over a table of so many entries, in
/// slices of so many steps.
#[derive(Clone, Copy)]
struct Replay {
    script: Script,
    most: usize,
    entries: usize,
    slice: u64,
}

// Plays the script over this memory: out of memory with nothing written, or all of the output.
// Returns whether it was written.
fn is_played<A: Allocator + Copy>(
    rt: &impl Abort,
    alloc: Global,
    memory: A,
    run: &Replay,
) -> Result<bool, Fail> {
    let output = joined(alloc, run.script.output)?;
    let mut ends = Duplex::new(
        FailingReader::new(run.script.text.as_bytes(), run.most, usize::MAX),
        Vec::new(alloc),
    );
    let (slots, entries) = (
        run.script.slots.clamp(1, 1024),
        run.entries.clamp(1, 1_000_000),
    );
    let ended = replay(memory, &mut ends, slots, entries, run.slice.max(1));
    Ok(is_whole(rt, ended, ends.output.as_slice(), output.as_bytes()))
}

fn is_whole(
    rt: &impl Abort,
    ended: Result<(), ReplayFault>,
    written: &[u8],
    output: &[u8],
) -> bool {
    match ended {
        Ok(()) => {
            holds!(*rt; written == output);
            true
        }
        Err(fault) => {
            same!(*rt; fault, ReplayFault::OutOfMemory);
            holds!(*rt; written.is_empty());
            false
        }
    }
}

// Heaps of growing sizes, from nothing on.
fn assert_heaps(
    rt: &impl Abort,
    alloc: Global,
    script: Script,
    entries: usize,
    step: usize,
) -> Result<(), Fail> {
    let run = Replay {
        script,
        most: 16,
        entries,
        slice: 1000,
    };
    let mut passed = 0usize;
    for blocks in 0..200usize {
        let heap = LocalHeap::new(alloc, blocks.saturating_mul(step))?;
        passed = passed.saturating_add(usize::from(is_played(rt, alloc, &heap, &run)?));
    }
    holds!(*rt; 0 < passed && passed < 200, passed);
    Ok(())
}

#[test]
fn refused_memory_of_a_script(rt: HostRuntime) -> Result<(), Fail> {
    assert_heaps(&rt, rt.alloc(), two_ready(), 4, 64)?;
    assert_heaps(&rt, rt.alloc(), two_sessions(), 1, 640)?;
    assert_heaps(&rt, rt.alloc(), two_sessions(), 4096, 4096)
}

impl Trial for Replay {
    fn run<R: Abort>(&self, rt: &R, alloc: Global, memory: &Memory) -> Result<u64, Fail> {
        Ok(u64::from(!is_played(rt, alloc, memory, self)?))
    }
}

// How many requests a run makes, over a table of one entry and over one of 4,096.
fn requests(rt: &impl Abort, alloc: Global, stays_gone: bool) -> Result<(u64, u64), Fail> {
    let mut run = Replay {
        script: two_sessions(),
        most: usize::MAX,
        entries: 1,
        slice: 1,
    };
    let few = refuse_each(rt, alloc, &run, stays_gone)?;
    run.entries = 4096;
    let many = refuse_each(rt, alloc, &run, stays_gone)?;
    holds!(*rt; few.refusals > 0 && many.refusals > 0);
    holds!(*rt; few.requests > 0 && many.requests > few.requests, few);
    Ok((few.requests, many.requests))
}

#[test]
fn each_request_of_a_script_is_refused_in_turn(rt: HostRuntime) -> Result<(), Fail> {
    let (few, many) = requests(&rt, rt.alloc(), false)?;
    println!(rt; "replay, one: {few} requests with a table of 1 entry, {many} of 4,096")?;
    Ok(())
}

#[test]
fn memory_of_a_script_stays_gone(rt: HostRuntime) -> Result<(), Fail> {
    let (few, many) = requests(&rt, rt.alloc(), true)?;
    println!(rt;
        "replay, all from one on: {few} requests with a table of 1 entry, {many} of 4,096"
    )?;
    Ok(())
}
