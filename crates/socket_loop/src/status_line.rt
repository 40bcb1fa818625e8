//! A status as one line of JSON.

ghost use Rattle.std.specs.Prelude.{◌≡◌, [], ◌++◌, codes, decimal, OnErr, OnOk};
ghost use Rattle.socket_loop.specs.StatusLine.{eval_word, status_line};

use crate::status::Status;
use itoa::Buffer;
use shogi_eval::Eval;
use std::alloc::{AllocError, Allocator};

/// Room for a line, in bytes; the longest line is shorter.
pub const LINE_MAX: usize = 1024;

/// Appends a text and a number.
fn put<A: Allocator>(out: &mut Vec<u8, A>, text: &[u8], n: u64) -> Result<(), AllocError>
    ensures { OnOk result (out.new.items ≡ out.old.items ++ text.now ++ decimal n) }
{
    let mut buffer = Buffer::new();
    out.extend_from_slice(text)?;
    out.extend_from_slice(buffer.format(n).as_bytes())
}

/// The value of `--eval` for an evaluation.
fn word_of(eval: Eval) -> &'static [u8]
    ensures { result.now ≡ eval_word eval }
{
    match eval {
        Eval::Plain => b"plain",
        Eval::Hand => b"hand",
        Eval::Exchange => b"exchange",
    }
}

/// Replaces the contents of `out` by the line and its LF. Out of memory leaves `out` empty.
pub fn write_line<A: Allocator>(out: &mut Vec<u8, A>, status: &Status) -> Result<(), AllocError>
    ensures ok { OnOk result (out.new.items ≡ status_line status.now) }
    ensures err { OnErr result (out.new.items ≡ []) }
{
    let written = write_fields(out, status);
    if written.is_err() {
        out.clear();
    }
    written
}

/// Like `write_line`, but out of memory may leave part of the line.
fn write_fields<A: Allocator>(out: &mut Vec<u8, A>, status: &Status) -> Result<(), AllocError>
    ensures { OnOk result (out.new.items ≡ status_line status.now) }
{
    let totals = &status.totals;
    out.clear();
    out.extend_from_slice(b"{\"version\":\"0.1.0\"")?;
    put(out, b",\"pid\":", status.process.pid as u64)?;
    put(out, b",\"started\":", status.process.started)?;
    put(out, b",\"slots\":", status.limits.slots)?;
    put(out, b",\"entries\":", status.limits.entries)?;
    put(out, b",\"slice\":", status.limits.slice)?;
    put(out, b",\"depth\":", status.setup.depth as u64)?;
    put(out, b",\"max_depth\":", status.setup.max_depth as u64)?;
    put(out, b",\"lines\":", status.setup.multi_pv as u64)?;
    out.extend_from_slice(b",\"eval\":\"")?;
    out.extend_from_slice(word_of(status.setup.eval))?;
    out.extend_from_slice(b"\"")?;
    put(out, b",\"used\":", status.used)?;
    put(out, b",\"searching\":", status.searching)?;
    put(
        out,
        b",\"waiting\":",
        status.used.saturating_sub(status.searching),
    )?;
    put(out, b",\"filled\":", status.filled)?;
    put(out, b",\"turns\":", totals.turns)?;
    put(out, b",\"accepted\":", totals.accepted)?;
    put(out, b",\"full\":", totals.full)?;
    put(out, b",\"unopened\":", totals.unopened)?;
    put(out, b",\"ended_reading\":", totals.ended_reading)?;
    put(out, b",\"ended_writing\":", totals.ended_writing)?;
    put(out, b",\"finished\":", totals.finished)?;
    put(out, b",\"refused_work\":", totals.refused_work)?;
    put(out, b",\"bestmoves\":", totals.bestmoves)?;
    put(out, b",\"steps\":", totals.steps)?;
    put(out, b",\"probes\":", status.probes)?;
    put(out, b",\"hits\":", status.hits)?;
    put(out, b",\"refused_notes\":", status.refused_notes)?;
    put(out, b",\"faults\":", status.faults)?;
    put(out, b",\"bytes_in\":", status.received)?;
    put(out, b",\"bytes_out\":", status.sent)?;
    out.extend_from_slice(b"}\n")
}
