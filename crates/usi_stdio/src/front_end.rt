//! The front end of a session: a source of bytes to read and a sink to write to and flush, whose
//! calls come in one order.

ghost use Rattle.std.specs.Prelude.{◌≡◌, [], ◌∷◌, ◌++◌};
ghost use Rattle.usi_stdio.specs.Calls.{StdioReport, no_stdio_report, ReadsInput, WritesOutput, Flushes};
ghost use Rattle.usi_stdio.specs.Noted.{call_by, calls_noted};

use byte_logs::Bytes;
use http_server::Log;
use std::io::{Read, Result, Write};

/// The front end of a session. A call that fails moves no byte.
pub trait FrontEnd {
    /// The front end's report of its bytes and its calls. It may report nothing.
    ghost report: { Self → StdioReport } = { λ _. no_stdio_report };

    /// Reads the next bytes into the start of the buffer, which is not empty, and returns their
    /// number; 0 at the end of the input.
    fn read(&mut self, buf: &mut [u8]) -> Result<usize>
        ensures { ReadsInput (report self.old) (report self.new) result buf.new };

    /// Writes a prefix of the bytes, and returns its length.
    fn write(&mut self, bytes: &[u8]) -> Result<usize>
        ensures { WritesOutput (report self.old) (report self.new) result bytes.now };

    /// Sends on all bytes written.
    fn flush(&mut self) -> Result<()>
        ensures { Flushes (report self.old) (report self.new) result };
}

/// The kind of a call, and whether it failed.
#[derive(Clone, Copy, Debug, PartialEq, Eq)]
pub enum CallKind {
    Read,
    Write,
    Flush,
    FailedRead,
    FailedWrite,
    FailedFlush,
}

/// A reader and a writer as one front end. It reports their bytes if they do. A log that takes no
/// memory reports its calls, with the bytes that each moved.
#[derive(Drop)]
pub struct Duplex<R, W> {
    pub input: R,
    pub output: W,
    calls: Log<CallKind, Bytes>,
}

impl<R, W> Duplex<R, W> {
    /// A front end without a call so far.
    pub fn new(input: R, output: W) -> Duplex<R, W>
        ensures input { result.input ≡ input }
        ensures output { result.output ≡ output }
        ensures calls { calls_noted result.calls.items ≡ [] }
    {
        Duplex {
            input,
            output,
            calls: Log::new(),
        }
    }
}

/// Notes a call of this kind, which moved these bytes.
fn note(log: &mut Log<CallKind, Bytes>, kind: CallKind, bytes: &[u8])
    ensures { calls_noted log.new.items ≡ calls_noted log.old.items ++ call_by kind bytes.now ∷ [] }
{
    let mut moved = Bytes::new();
    moved.note(bytes);
    *log = log.and(&kind, &moved);
}

impl<R: Read, W: Write> FrontEnd for Duplex<R, W> {
    ghost use Rattle.std.specs.Prelude.{Some};
    ghost use Rattle.usi_stdio.specs.Noted.{calls_noted};

    ghost report = { λ ends. record {
      unread = R.remaining ends.input;
      written = W.contents ends.output;
      calls = Some (calls_noted ends.calls.items);
    } };

    fn read(&mut self, buf: &mut [u8]) -> Result<usize> {
        match self.input.read(buf) {
            Ok(n) => {
                note(&mut self.calls, CallKind::Read, buf.split_at(n).0);
                Ok(n)
            }
            Err(error) => {
                note(&mut self.calls, CallKind::FailedRead, &[]);
                Err(error)
            }
        }
    }

    fn write(&mut self, bytes: &[u8]) -> Result<usize> {
        match self.output.write(bytes) {
            Ok(n) => {
                note(&mut self.calls, CallKind::Write, bytes.split_at(n).0);
                Ok(n)
            }
            Err(error) => {
                note(&mut self.calls, CallKind::FailedWrite, &[]);
                Err(error)
            }
        }
    }

    fn flush(&mut self) -> Result<()> {
        match self.output.flush() {
            Ok(()) => {
                note(&mut self.calls, CallKind::Flush, &[]);
                Ok(())
            }
            Err(error) => {
                note(&mut self.calls, CallKind::FailedFlush, &[]);
                Err(error)
            }
        }
    }
}
