//! Streams that fail, and when they are read and written.

use crate::rows::assert_answer;
use std::alloc::Global;
use std::process::Abort;
use std::test::Fail;
use test_support::fakes::{FailingReader, FailingWriter, Watch, WatchedWriter, WatchingReader};
use test_support::rows::{Row, joined};
use test_support::tables::stored;
use test_support::{holds, same};
use usi_stdio::{Duplex, StdioFault, stdio};

// What is written answers the bytes.
fn assert_answers(rt: &impl Abort, alloc: Global, read: &[u8], written: &[u8]) -> Result<(), Fail> {
    let mut ends = Duplex::new(read, Vec::new(alloc));
    stdio(alloc, &mut ends, 1)?;
    holds!(*rt; written == ends.output.as_slice());
    Ok(())
}

// A reader that fails after so many reads: what was written answers the bytes that were read, and they
// alone. Returns whether all was written.
fn assert_read(rt: &impl Abort, alloc: Global, reads: usize) -> Result<bool, Fail> {
    let row = stored();
    let mut ends = Duplex::new(
        FailingReader::new(row.sent.as_bytes(), 5, reads),
        Vec::new(alloc),
    );
    match stdio(alloc, &mut ends, 1) {
        Ok(()) => {
            assert_answer(rt, alloc, &row, ends.output.as_slice())?;
            Ok(true)
        }
        Err(fault) => {
            same!(*rt; fault, StdioFault::ReadFailed, reads);
            assert_answers(rt, alloc, ends.input.given(), ends.output.as_slice())?;
            Ok(false)
        }
    }
}

// Each read failing in turn.
#[test]
fn each_read_fails_in_turn(rt: HostRuntime) -> Result<(), Fail> {
    let mut passed = 0usize;
    for reads in 0..20usize {
        passed = passed.saturating_add(usize::from(assert_read(&rt, rt.alloc(), reads)?));
    }
    holds!(rt; 0 < passed && passed < 20, passed);
    Ok(())
}

// The bytes are a prefix of the answer of the row.
fn assert_starts(rt: &impl Abort, alloc: Global, row: &Row, written: &[u8]) -> Result<(), Fail> {
    let whole = joined(alloc, row.answer)?;
    holds!(*rt; whole.as_bytes().starts_with(written));
    Ok(())
}

// How a writer ends a run: all was written, or a prefix and a fault.
fn assert_prefix(rt: &impl Abort, alloc: Global, output: FailingWriter) -> Result<bool, Fail> {
    let row = stored();
    let input = FailingReader::new(row.sent.as_bytes(), 5, usize::MAX);
    let mut ends = Duplex::new(input, output);
    match stdio(alloc, &mut ends, 1) {
        Ok(()) => {
            assert_answer(rt, alloc, &row, ends.output.written())?;
            Ok(true)
        }
        Err(fault) => {
            same!(*rt; fault, StdioFault::WriteFailed);
            assert_starts(rt, alloc, &row, ends.output.written())?;
            Ok(false)
        }
    }
}

// Writers that fail at each write in turn, or at each flush.
fn fails_in_turn(rt: &impl Abort, alloc: Global, most: usize, at_flush: bool) -> Result<(), Fail> {
    let mut passed = 0usize;
    for n in 0..40usize {
        let (writes, flushes) = if at_flush {
            (usize::MAX, n)
        } else {
            (n, usize::MAX)
        };
        let writer = FailingWriter::new(alloc, most, writes, flushes);
        passed = passed.saturating_add(usize::from(assert_prefix(rt, alloc, writer)?));
    }
    holds!(*rt; 0 < passed && passed < 40, passed);
    Ok(())
}

#[test]
fn each_write_fails_in_turn(rt: HostRuntime) -> Result<(), Fail> {
    fails_in_turn(&rt, rt.alloc(), 7, false)
}

#[test]
fn each_flush_fails_in_turn(rt: HostRuntime) -> Result<(), Fail> {
    fails_in_turn(&rt, rt.alloc(), 4096, true)
}

#[test]
fn writers_of_one_byte_and_of_none(rt: HostRuntime) -> Result<(), Fail> {
    let narrow = FailingWriter::new(rt.alloc(), 1, usize::MAX, usize::MAX);
    holds!(rt; assert_prefix(&rt, rt.alloc(), narrow)?);
    let stalled = FailingWriter::new(rt.alloc(), 0, usize::MAX, usize::MAX);
    holds!(rt; !assert_prefix(&rt, rt.alloc(), stalled)?);
    Ok(())
}

// Each chunk with the number of bytes of its answer.
#[test]
fn each_piece_is_answered_and_flushed_before_the_next_read(rt: HostRuntime) -> Result<(), Fail> {
    let chunks = [
        ("isready\n", 8),
        ("isre", 0),
        ("ady\nposition startpos\n", 8),
        ("go depth 1\n", 46),
        ("isready\nisready\n", 16),
    ];
    let watch = Watch::new();
    let mut ends = Duplex::new(
        WatchingReader::new(&watch, &chunks),
        WatchedWriter::new(&watch),
    );
    stdio(rt.alloc(), &mut ends, 1)?;
    Ok(())
}
