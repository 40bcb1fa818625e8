//! Lines that are written as they are found.

use std::alloc::Global;
use std::process::Abort;
use std::test::Fail;
use test_support::fakes::{FailingWriter, NotingWriter};
use test_support::rows::INFO_ONE;
use test_support::{holds, same};
use usi_stdio::{Duplex, StdioFault, stdio};

// What the streams write for the bytes.
fn noted(alloc: Global, sent: &[u8], entries: usize) -> Result<NotingWriter, Fail> {
    if entries < 1 || entries > 1_000_000 {
        return Err("a table has entries".into());
    }
    let mut ends = Duplex::new(sent, NotingWriter::new(alloc));
    stdio(alloc, &mut ends, entries)?;
    let Duplex { output, .. } = ends;
    Ok(output)
}

// The line of depth 1 is flushed by itself, before that of depth 5 is found.
fn assert_begun(rt: &impl Abort, writer: &NotingWriter) -> Result<(), Fail> {
    let answer = writer.written();
    holds!(*rt; std::str::from_utf8(answer)?.contains("info depth 5 score cp 200 pv 9g9f"));
    let flushed = writer.flushed();
    let first = flushed.first().copied().unwrap_or(0);
    let begun = answer.get(..first).unwrap_or(b"");
    holds!(*rt; begun.starts_with(INFO_ONE.as_bytes()), first);
    holds!(*rt; !std::str::from_utf8(begun)?.contains("depth 5"), first);
    same!(*rt; flushed.last().copied(), Some(answer.len()));
    Ok(())
}

// Depth 1 takes a step, and depth 5 more than a slice: the kept counts of steps tell (`bench_jobs`). So the first
// slice is written before the search at depth 5 has made its last step.
#[test]
fn lines_are_flushed_as_they_are_found(rt: HostRuntime) -> Result<(), Fail> {
    let writer = noted(rt.alloc(), b"go depth 5\n", 4096)?;
    assert_begun(&rt, &writer)
}

// Lines that come in one read are answered one by one: what is written is 8 bytes, 46 and 8. Nothing is flushed
// where nothing was written.
#[test]
fn each_line_is_flushed_before_the_next(rt: HostRuntime) -> Result<(), Fail> {
    let rows: [(&[u8], &[usize]); 2] = [
        (
            b"isready\nposition startpos\ngo depth 1\nisready\n",
            &[8, 54, 62],
        ),
        (b"position startpos\nusinewgame\n", &[]),
    ];
    for (sent, flushed) in rows {
        let writer = noted(rt.alloc(), sent, 1)?;
        holds!(rt; writer.flushed() == flushed, sent);
    }
    Ok(())
}

// A search to depth 16 would not end: a front end that is gone is noticed at the line of depth 1.
#[test]
fn a_front_end_that_is_gone(rt: HostRuntime) {
    for (writes, flushes) in [
        (0, usize::MAX),
        (1, usize::MAX),
        (usize::MAX, 0),
        (usize::MAX, 1),
    ] {
        let mut ends = Duplex::new(
            b"go depth 16\n".as_slice(),
            FailingWriter::new(rt.alloc(), 4096, writes, flushes),
        );
        same!(rt; stdio(rt.alloc(), &mut ends, 4096), Err(StdioFault::WriteFailed));
    }
}
