//! Scripts of many sessions, read and written by streams that fail.

use std::alloc::Global;
use std::process::Abort;
use std::test::Fail;
use test_support::fakes::{FailingReader, FailingWriter};
use test_support::rows::joined;
use test_support::tables::{refused_and_again, two_sessions};
use test_support::{holds, same};
use usi_replay::{ReplayFault, replay};
use usi_stdio::Duplex;

// A reader that fails after so many reads, the one that finds the end too: nothing was written. Returns whether
// all was.
fn assert_read(rt: &impl Abort, alloc: Global, reads: usize) -> Result<bool, Fail> {
    let script = two_sessions();
    let output = joined(alloc, script.output)?;
    let mut ends = Duplex::new(
        FailingReader::new(script.text.as_bytes(), 5, reads),
        Vec::new(alloc),
    );
    let ended = replay(alloc, &mut ends, 2, 1, 1000);
    let written = std::str::from_utf8(ends.output.as_slice())?;
    if ended == Ok(()) {
        same!(*rt; written, output.as_str());
        return Ok(true);
    }
    same!(*rt; ended, Err(ReplayFault::ReadFailed), reads);
    same!(*rt; written, "", reads);
    Ok(false)
}

#[test]
fn each_read_of_a_script_fails_in_turn(rt: HostRuntime) -> Result<(), Fail> {
    let mut passed = 0usize;
    for reads in 0..14usize {
        passed = passed.saturating_add(usize::from(assert_read(&rt, rt.alloc(), reads)?));
    }
    holds!(rt; 0 < passed && passed < 14, passed);
    Ok(())
}

// How a writer ends a replay: all was written, or a prefix and a fault.
fn assert_prefix(rt: &impl Abort, alloc: Global, writer: FailingWriter) -> Result<bool, Fail> {
    let script = refused_and_again();
    let output = joined(alloc, script.output)?;
    let mut ends = Duplex::new(script.text.as_bytes(), writer);
    let ended = replay(alloc, &mut ends, 1, 4096, 1000);
    let written = ends.output.written();
    match ended {
        Ok(()) => {
            same!(*rt; std::str::from_utf8(written)?, output.as_str());
            Ok(true)
        }
        Err(fault) => {
            same!(*rt; fault, ReplayFault::WriteFailed);
            holds!(*rt; output.as_bytes().starts_with(written));
            Ok(false)
        }
    }
}

// Whether all is written to a writer that takes so many bytes a call, and so many writes and flushes.
fn is_written(
    rt: &impl Abort,
    alloc: Global,
    most: usize,
    writes: usize,
    flushes: usize,
) -> Result<bool, Fail> {
    assert_prefix(rt, alloc, FailingWriter::new(alloc, most, writes, flushes))
}

#[test]
fn each_write_of_an_output_fails_in_turn(rt: HostRuntime) -> Result<(), Fail> {
    let mut passed = 0usize;
    for writes in 0..10usize {
        let is_written = is_written(&rt, rt.alloc(), 32, writes, usize::MAX)?;
        passed = passed.saturating_add(usize::from(is_written));
    }
    holds!(rt; 0 < passed && passed < 10, passed);
    Ok(())
}

#[test]
fn writers_of_one_byte_and_of_none(rt: HostRuntime) -> Result<(), Fail> {
    for (most, writes, flushes, whole) in [
        (4096usize, usize::MAX, 0usize, false),
        (1, usize::MAX, 1, true),
        (0, usize::MAX, usize::MAX, false),
    ] {
        same!(rt; is_written(&rt, rt.alloc(), most, writes, flushes)?, whole, most);
    }
    Ok(())
}
