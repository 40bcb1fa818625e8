//! Memory that is refused to the program's streams.

use crate::refusals::{Memory, Met, Trial, refuse_each};
use linked_list_allocator::LocalHeap;
use std::alloc::{Allocator, Global};
use std::process::Abort;
use std::test::Fail;
use test_support::fakes::FailingReader;
use test_support::rows::{Row, joined};
use test_support::tables::{opening, three_of_a_mate, two_plies};
use test_support::{holds, same};
use usi_stdio::{Duplex, StdioFault, stdio};

/// What is sent, in reads of at most so many bytes, and what is answered over a table of so many
/// entries.
#[derive(Clone, Copy)]
struct Run<'a> {
    sent: &'a [u8],
    most: usize,
    whole: &'a [u8],
    entries: usize,
}

// The streams over this memory: out of memory with a prefix of the answer, or all of it. Returns
// whether all of it was written.
fn is_written<A: Allocator + Copy>(
    rt: &impl Abort,
    alloc: Global,
    memory: A,
    run: &Run<'_>,
) -> bool {
    let mut ends = Duplex::new(
        FailingReader::new(run.sent, run.most, usize::MAX),
        Vec::new(alloc),
    );
    let ended = stdio(memory, &mut ends, run.entries.clamp(1, 1_000_000));
    is_whole(rt, ended, ends.output.as_slice(), run.whole)
}

fn is_whole(rt: &impl Abort, ended: Result<(), StdioFault>, written: &[u8], whole: &[u8]) -> bool {
    match ended {
        Ok(()) => {
            holds!(*rt; written == whole);
            true
        }
        Err(fault) => {
            same!(*rt; fault, StdioFault::OutOfMemory);
            holds!(*rt; whole.starts_with(written));
            false
        }
    }
}

// Heaps of growing sizes, from nothing on. The largest block is the current search, and the small
// ones come before and after it.
fn assert_heaps(rt: &impl Abort, alloc: Global, run: &Run<'_>, step: usize) -> Result<(), Fail> {
    let mut passed = 0usize;
    for blocks in 0..200usize {
        let heap = LocalHeap::new(alloc, blocks.saturating_mul(step))?;
        passed = passed.saturating_add(usize::from(is_written(rt, alloc, &heap, run)));
    }
    holds!(*rt; 0 < passed && passed < 200, passed);
    Ok(())
}

fn assert_refusals(
    rt: &impl Abort,
    alloc: Global,
    sent: &str,
    entries: usize,
    step: usize,
) -> Result<(), Fail> {
    let mut ends = Duplex::new(sent.as_bytes(), Vec::new(alloc));
    stdio(alloc, &mut ends, entries.clamp(1, 1_000_000))?;
    let run = Run {
        sent: sent.as_bytes(),
        most: 16,
        whole: ends.output.as_slice(),
        entries,
    };
    assert_heaps(rt, alloc, &run, step)
}

#[test]
fn refused_memory(rt: HostRuntime) -> Result<(), Fail> {
    let quick = "usi\nposition startpos moves 7g7f 7g7f\nstop\nquit\n";
    assert_refusals(&rt, rt.alloc(), quick, 4, 32)?;
    let many = "usi\ngo infinite depth 2\nposition startpos moves 7g7f 7g7f\nstop\nquit\n";
    assert_refusals(&rt, rt.alloc(), many, 4, 320)?;
    let deep = "position startpos\ngo depth 3\n";
    assert_refusals(&rt, rt.alloc(), deep, 1, 320)?;
    assert_refusals(&rt, rt.alloc(), deep, 4096, 4096)
}

/// A row over a table of so many entries.
#[derive(Clone, Copy)]
struct Streams {
    row: Row,
    entries: usize,
}

impl Trial for Streams {
    fn run<R: Abort>(&self, rt: &R, alloc: Global, memory: &Memory) -> Result<u64, Fail> {
        let whole = joined(alloc, self.row.answer)?;
        let run = Run {
            sent: self.row.sent.as_bytes(),
            most: usize::MAX,
            whole: whole.as_bytes(),
            entries: self.entries,
        };
        Ok(u64::from(!is_written(rt, alloc, memory, &run)))
    }
}

fn met_by(
    rt: &impl Abort,
    alloc: Global,
    row: Row,
    entries: usize,
    stays_gone: bool,
) -> Result<Met, Fail> {
    refuse_each(rt, alloc, &Streams { row, entries }, stays_gone)
}

// How many requests a run makes, over a table of one entry and over one of 4,096.
fn requests(rt: &impl Abort, alloc: Global, stays_gone: bool) -> Result<(u64, u64), Fail> {
    let few = met_by(rt, alloc, opening(), 1, stays_gone)?;
    let many = met_by(rt, alloc, opening(), 4096, stays_gone)?;
    holds!(*rt; few.refusals > 0 && many.refusals > 0);
    holds!(*rt; few.requests > 0 && many.requests > few.requests, few);
    Ok((few.requests, many.requests))
}

// A table of one entry asks for memory at the start alone; a larger one grows, and a growth that is
// refused costs what it would have kept.
#[test]
fn each_request_of_the_streams_is_refused_in_turn(rt: HostRuntime) -> Result<(), Fail> {
    let (few, many) = requests(&rt, rt.alloc(), false)?;
    println!(rt; "stdio, one: {few} requests with a table of 1 entry, {many} of 4,096")?;
    Ok(())
}

#[test]
fn memory_of_the_streams_stays_gone(rt: HostRuntime) -> Result<(), Fail> {
    let (few, many) = requests(&rt, rt.alloc(), true)?;
    println!(rt;
        "stdio, all from one on: {few} requests with a table of 1 entry, {many} of 4,096"
    )?;
    Ok(())
}

#[test]
fn each_request_of_streams_with_several_lines_is_refused_in_turn(
    rt: HostRuntime,
) -> Result<(), Fail> {
    for (row, entries) in [
        (two_plies(), 1),
        (two_plies(), 4096),
        (three_of_a_mate(), 4096),
    ] {
        let met = met_by(&rt, rt.alloc(), row, entries, false)?;
        holds!(rt; met.refusals > 5 && met.requests > 4, met);
    }
    Ok(())
}
