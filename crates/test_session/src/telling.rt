//! A front end that tells its bytes and its calls, and the calls of runs over it.

ghost use Rattle.std.specs.Prelude.{◌≡◌, ◌++◌, ◌∷◌, []};
ghost use Rattle.usi_texts.specs.Setup.{default_setup};
ghost use Rattle.usi_stdio.specs.Dialogue.{Talks};
ghost use Rattle.test_session.specs.Calls.{told_by};

use crate::call::Call;
use std::alloc::Global;
use std::io;
use std::io::{Error, ErrorKind};
use std::process::Abort;
use test_support::{holds, same};
use usi_stdio::{FrontEnd, StdioFault, stdio};

/// The most bytes that a read gives or a write takes.
const MOST: usize = 5;

/// A front end in memory that keeps each call, and of which the call after so many fails. Where there
/// is no memory to keep one, the process ends.
#[derive(Drop)]
struct TellingEnd<'r, R: Abort> {
    rt: &'r R,
    alloc: Global,
    unread: &'r [u8],
    written: Vec<u8, Global>,
    calls: Vec<Call<Global>, Global>,
    calls_before_fault: usize,
}

impl<'r, R: Abort> TellingEnd<'r, R> {
    fn keep(&mut self, call: Call<Global>)
        ensures calls { self.new.calls.items ≡ self.old.calls.items ++ (call ∷ []) }
        ensures unread { self.new.unread.now ≡ self.old.unread.now }
        ensures written { self.new.written ≡ self.old.written }
    {
        if self.calls.push(call).is_err() {
            self.rt.abort()
        }
    }

    fn copied(&self, bytes: &[u8]) -> Vec<u8, Global>
        ensures { result.items ≡ bytes.now }
    {
        match Vec::from_slice(self.alloc, bytes) {
            Ok(copy) => copy,
            Err(_) => self.rt.abort(),
        }
    }

    fn is_to_fail(&self) -> bool {
        self.calls.len() == self.calls_before_fault
    }
}

impl<'r, R: Abort> FrontEnd for TellingEnd<'r, R> {
    ghost use Rattle.std.specs.Prelude.{Some};
    ghost use Rattle.test_session.specs.Calls.{told_by};

    ghost report = { λ end. record {
      unread = Some end.unread.now;
      written = Some end.written.items;
      calls = told_by end.calls.items;
    } };

    fn read(&mut self, buf: &mut [u8]) -> io::Result<usize> {
        if self.is_to_fail() {
            self.keep(Call::FailedRead);
            return Err(Error::from(ErrorKind::ConnectionReset));
        }
        let n = buf.len().min(self.unread.len()).min(MOST);
        let (given, rest) = self.unread.split_at(n);
        buf.split_at_mut(n).0.copy_from_slice(given);
        self.unread = rest;
        let bytes = self.copied(given);
        self.keep(Call::Read(bytes));
        Ok(n)
    }

    fn write(&mut self, bytes: &[u8]) -> io::Result<usize> {
        if self.is_to_fail() {
            self.keep(Call::FailedWrite);
            return Err(Error::from(ErrorKind::BrokenPipe));
        }
        let n = bytes.len().min(MOST);
        let (taken, _) = bytes.split_at(n);
        if self.written.extend_from_slice(taken).is_err() {
            self.rt.abort()
        }
        let copy = self.copied(taken);
        self.keep(Call::Write(copy));
        Ok(n)
    }

    fn flush(&mut self) -> io::Result<()> {
        if self.is_to_fail() {
            self.keep(Call::FailedFlush);
            return Err(Error::from(ErrorKind::BrokenPipe));
        }
        self.keep(Call::Flush);
        Ok(())
    }
}

/// A run over such a front end: its calls are a dialogue that ends with the result.
fn run_over<R: Abort>(alloc: Global, end: &mut TellingEnd<'_, R>) -> Result<(), StdioFault>
    ensures calls { Talks default_setup (told_by end.old.calls.items)
        (told_by end.new.calls.items) result }
{
    stdio(alloc, end, 1)
}

/// A call that is expected.
#[derive(Clone, Copy)]
enum Due {
    Read(&'static [u8]),
    Write(&'static [u8]),
    Flush,
}

/// The calls for `isready` and an LF, where none fails.
const CALLS: [Due; 6] = [
    Due::Read(b"isrea"),
    Due::Read(b"dy\n"),
    Due::Write(b"ready"),
    Due::Write(b"ok\n"),
    Due::Flush,
    Due::Read(b""),
];

fn is_due(call: &Call<Global>, due: Due) -> bool {
    match due {
        Due::Read(bytes) => matches!(call, Call::Read(all) if all.as_slice() == bytes),
        Due::Write(bytes) => matches!(call, Call::Write(all) if all.as_slice() == bytes),
        Due::Flush => matches!(call, Call::Flush),
    }
}

/// The call that was due failed; with it came this fault.
fn has_failed(call: &Call<Global>, due: Due, fault: &StdioFault) -> bool {
    match due {
        Due::Read(_) => matches!(call, Call::FailedRead) && *fault == StdioFault::ReadFailed,
        Due::Write(_) => matches!(call, Call::FailedWrite) && *fault == StdioFault::WriteFailed,
        Due::Flush => matches!(call, Call::FailedFlush) && *fault == StdioFault::WriteFailed,
    }
}

fn new_end<R: Abort>(rt: &R, alloc: Global, calls_before_fault: usize) -> TellingEnd<'_, R> {
    TellingEnd {
        rt,
        alloc,
        unread: b"isready\n",
        written: Vec::new(alloc),
        calls: Vec::new(alloc),
        calls_before_fault,
    }
}

// The first calls of a run are those that are due.
fn assert_calls<R: Abort>(rt: &R, end: &TellingEnd<'_, R>) {
    let calls = CALLS;
    for (call, due) in end
        .calls
        .as_slice()
        .iter()
        .zip(calls)
        .take(end.calls_before_fault)
    {
        holds!(*rt; is_due(call, due));
    }
}

#[test]
fn the_calls_of_a_run(rt: HostRuntime) {
    let mut end = new_end(&rt, rt.alloc(), usize::MAX);
    same!(rt; run_over(rt.alloc(), &mut end), Ok(()));
    same!(rt; end.calls.len(), CALLS.len());
    same!(rt; end.written.as_slice(), b"readyok\n".as_slice());
    assert_calls(&rt, &end);
}

// Each call failing in turn is the last one, and its fault is answered.
#[test]
fn each_call_fails_in_turn(rt: HostRuntime) {
    let calls = CALLS;
    for (n, due) in calls.iter().enumerate() {
        let mut end = new_end(&rt, rt.alloc(), n);
        let Err(fault) = run_over(rt.alloc(), &mut end) else {
            holds!(rt; false, n);
            continue;
        };
        same!(rt; end.calls.len().saturating_sub(1), n);
        assert_calls(&rt, &end);
        holds!(rt; end.calls.last().is_some_and(|call| has_failed(call, *due, &fault)), n);
    }
}
