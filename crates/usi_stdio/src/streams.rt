//! One session over a front end.

ghost use Rattle.std.specs.Prelude.{◌≡◌, ◌<◌, ◌≤◌, [], true, false, length, IfErr, OnOk, OnErr, Err};
ghost use Rattle.usi_stdio.specs.Dialogue.{Talks};
ghost use Rattle.usi_stdio.specs.Remembered.{TellsFed, TellsMemory, TellsNewTable};
ghost use Rattle.usi_stdio.specs.Saying.{Answered, CutShort, CutShortDue, SaysFlushed, Worked, Wrote, WrotePrefix, slices_of};
ghost use Rattle.usi_stdio.specs.Stdio.{IsFrontEndLeft, IsFrontEndServed};
ghost use Rattle.usi_stdio.specs.declared.streams.StdioFault.TheVariants.{OutOfMemory, WriteFailed};
ghost use Rattle.usi_lines.specs.OneLine.{IsOneLine};
ghost use Rattle.usi_texts.specs.Setup.{default_setup};
ghost use Rattle.usi_session.specs.Due.{due, is_pending, wants_input, EndsSearches};
ghost use Rattle.usi_session.specs.declared.limits.TheConstants.{CHUNK_MAX};
ghost use Rattle.shared_table.specs.declared.table.TheConstants.{CAPACITY_MAX};

use crate::front_end::FrontEnd;
use shared_table::{SharedTable, TableFault};
use shogi_search::Memo;
use std::alloc::Allocator;
use std::hash::{BuildHasherDefault, FoldHasher};
use thiserror::Error;
use usi_lines::cut_line;
use usi_session::{CHUNK_MAX, Session, SessionFault};
use usi_texts::Setup;

/// The most steps of search before queued replies are written.
pub const SLICE: u64 = 300;

/// Why a run over a front end ended early.
#[derive(Debug, PartialEq, Eq, Drop, Error)]
pub enum StdioFault {
    /// Allocation failed.
    #[error("out of memory")]
    OutOfMemory,
    /// A read failed, or there were 18,446,744,073,709,551,615 reads.
    #[error("read failed")]
    ReadFailed,
    /// A write or a flush failed, or a write took nothing.
    #[error("write failed")]
    WriteFailed,
}

impl From<SessionFault> for StdioFault {
    ghost from_gives = { λ _ fault. fault ≡ OutOfMemory };

    fn from(fault: SessionFault) -> StdioFault {
        match fault {
            SessionFault::OutOfMemory => StdioFault::OutOfMemory,
        }
    }
}

impl From<TableFault> for StdioFault {
    ghost from_gives = { λ _ fault. fault ≡ OutOfMemory };

    fn from(fault: TableFault) -> StdioFault {
        match fault {
            TableFault::OutOfMemory => StdioFault::OutOfMemory,
        }
    }
}

/// Writes the bytes, in as many writes as the front end needs, and flushes. It takes no memory.
/// `WriteFailed`, the only fault, comes if a write or the flush failed or a write took nothing; a
/// prefix of the bytes was then written.
pub fn write_out<T: FrontEnd>(front_end: &mut T, bytes: &[u8]) -> Result<(), StdioFault>
    ensures ok { OnOk result
        (SaysFlushed (T.report front_end.old) (T.report front_end.new) bytes.now) }
    ensures err { IfErr result (WrotePrefix T.report front_end.old front_end.new bytes.now) }
    ensures fault { OnErr result (result ≡ Err WriteFailed) }
{
    let mut rest = bytes;
    'writes: while !rest.is_empty() {
        match front_end.write(rest) {
            Ok(0) => return Err(StdioFault::WriteFailed),
            Ok(n) => rest = rest.split_at(n).1,
            Err(_) => return Err(StdioFault::WriteFailed),
        }
    }
    match front_end.flush() {
        Ok(()) => Ok(()),
        Err(_) => Err(StdioFault::WriteFailed),
    }
}

/// Writes, flushes and takes the queued bytes. If none are queued, the front end is left alone.
fn write_queued<A: Allocator + Copy, T: FrontEnd>(
    session: &mut Session<A>,
    front_end: &mut T,
) -> Result<(), StdioFault>
    ensures ok { OnOk result
        (Wrote T.report session.old session.new front_end.old front_end.new) }
    ensures err { CutShort T.report result front_end.old front_end.new session.old.queued }
{
    let queued = session.output().len();
    if queued == 0 {
        return Ok(());
    }
    write_out(front_end, session.output())?;
    session.take(queued);
    Ok(())
}

/// Works one slice, and writes the replies that it queued.
fn work_slice<A: Allocator + Copy, M: Memo, T: FrontEnd>(
    session: &mut Session<A>,
    memo: &mut M,
    front_end: &mut T,
) -> Result<(), StdioFault>
    requires pending { is_pending session.old ≡ true }
    requires empty { session.old.queued ≡ [] }
    ensures ok { OnOk result (Worked T.report session.old session.new front_end.old front_end.new) }
    ensures fewer { OnOk result (slices_of session.new < slices_of session.old) }
    ensures err { CutShortDue T.report result front_end.old front_end.new session.old [] }
    ensures told { OnOk result
        (EndsSearches M.called memo.old memo.new session.old session.new) }
    ensures capacity { M.capacity memo.new ≡ M.capacity memo.old }
{
    session.work(memo, SLICE)?;
    write_queued(session, front_end)
}

/// Works off all pending lines, and writes the replies after each slice.
fn work_off<A: Allocator + Copy, M: Memo, T: FrontEnd>(
    session: &mut Session<A>,
    memo: &mut M,
    front_end: &mut T,
) -> Result<(), StdioFault>
    requires { session.old.queued ≡ [] }
    ensures ok { OnOk result (Worked T.report session.old session.new front_end.old front_end.new) }
    ensures settled { OnOk result (is_pending session.new ≡ false) }
    ensures err { CutShortDue T.report result front_end.old front_end.new session.old [] }
    ensures told { OnOk result
        (EndsSearches M.called memo.old memo.new session.old session.new) }
    ensures capacity { M.capacity memo.new ≡ M.capacity memo.old }
{
    'slices: while session.pending() {
        work_slice(session, memo, front_end)?;
    }
    Ok(())
}

/// Feeds one line or a part of one, answers it, and writes the answer.
fn answer_line<A: Allocator + Copy, M: Memo, T: FrontEnd>(
    session: &mut Session<A>,
    memo: &mut M,
    front_end: &mut T,
    line: &[u8],
) -> Result<(), StdioFault>
    requires wants { wants_input session.old ≡ true }
    requires empty { session.old.queued ≡ [] }
    requires most { length line.now ≤ CHUNK_MAX }
    requires one { IsOneLine line.now }
    ensures answered { OnOk result
        (Answered T.report session.old session.new line.now front_end.old front_end.new) }
    ensures err { CutShortDue T.report result front_end.old front_end.new session.old line.now }
    ensures told { OnOk result
        (TellsFed M.called memo.old memo.new session.old line.now session.new) }
    ensures capacity { M.capacity memo.new ≡ M.capacity memo.old }
{
    session.feed(line)?;
    work_off(session, memo, front_end)
}

/// Feeds a chunk line by line, and writes the answer to each line before it feeds the next. Bytes
/// behind a line that ends the session are dropped.
fn answer_chunk<A: Allocator + Copy, M: Memo, T: FrontEnd>(
    session: &mut Session<A>,
    memo: &mut M,
    front_end: &mut T,
    chunk: &[u8],
) -> Result<(), StdioFault>
    requires wants { wants_input session.old ≡ true }
    requires empty { session.old.queued ≡ [] }
    requires most { length chunk.now ≤ CHUNK_MAX }
    ensures answered { OnOk result
        (Answered T.report session.old session.new chunk.now front_end.old front_end.new) }
    ensures err { CutShort T.report result front_end.old front_end.new (due session.old chunk.now) }
    ensures told { OnOk result
        (TellsFed M.called memo.old memo.new session.old chunk.now session.new) }
    ensures capacity { M.capacity memo.new ≡ M.capacity memo.old }
{
    let mut rest = chunk;
    'lines: while !rest.is_empty() && !session.is_over() {
        let (line, after) = cut_line(rest);
        answer_line(session, memo, front_end, line)?;
        rest = after;
    }
    Ok(())
}

/// Runs one session under the default setup; see `stdio_with_setup`.
pub fn stdio<A: Allocator + Copy, T: FrontEnd>(
    alloc: A,
    front_end: &mut T,
    entries: usize,
) -> Result<(), StdioFault>
    requires least { 1 ≤ entries }
    requires most { entries ≤ CAPACITY_MAX }
    ensures ok { OnOk result
        (IsFrontEndServed default_setup (T.report front_end.old) (T.report front_end.new)) }
    ensures err { OnErr result
        (IsFrontEndLeft default_setup (T.report front_end.old) (T.report front_end.new)) }
    ensures calls { Talks default_setup
        (T.report front_end.old).calls (T.report front_end.new).calls result }
    ensures table { OnOk result
        (TellsNewTable default_setup entries (T.report front_end.old) (T.report front_end.new)) }
{
    stdio_with_setup(alloc, Setup::new(), front_end, entries)
}

/// Runs one session under a setup: reads chunks of at most 4,096 bytes and answers each before the
/// next, until the input ends or the session is over. Replies are written and flushed as they are
/// found: those to a line before the next line is looked at, and the info line of a depth before
/// the next 300 steps of search. Bytes after the last LF are no line, but 65,536 or more of them
/// are a line that is too long. The table has `entries` entries, from 1 to 1,000,000.
///
/// `OutOfMemory` comes if allocation failed, `ReadFailed` if a read failed, and `WriteFailed` if a
/// write or a flush failed or a write took nothing. The bytes written are then a prefix of the
/// replies to the bytes read.
pub fn stdio_with_setup<A: Allocator + Copy, T: FrontEnd>(
    alloc: A,
    setup: Setup,
    front_end: &mut T,
    entries: usize,
) -> Result<(), StdioFault>
    requires least { 1 ≤ entries }
    requires most { entries ≤ CAPACITY_MAX }
    ensures ok { OnOk result
        (IsFrontEndServed setup (T.report front_end.old) (T.report front_end.new)) }
    ensures err { OnErr result
        (IsFrontEndLeft setup (T.report front_end.old) (T.report front_end.new)) }
    ensures calls { Talks setup
        (T.report front_end.old).calls (T.report front_end.new).calls result }
    ensures table { OnOk result
        (TellsNewTable setup entries (T.report front_end.old) (T.report front_end.new)) }
{
    let hasher = BuildHasherDefault::<FoldHasher>::new();
    let mut table = SharedTable::new(alloc, entries, hasher)?;
    stdio_on(alloc, setup, front_end, &mut table)
}

/// Runs one session as `stdio_with_setup` does, over a memo that the caller keeps: a table, or
/// `NoMemo`. After a success the memo was told each search along a pv for the bytes read.
pub fn stdio_on<A: Allocator + Copy, M: Memo, T: FrontEnd>(
    alloc: A,
    setup: Setup,
    front_end: &mut T,
    memo: &mut M,
) -> Result<(), StdioFault>
    ensures ok { OnOk result
        (IsFrontEndServed setup (T.report front_end.old) (T.report front_end.new)) }
    ensures err { OnErr result
        (IsFrontEndLeft setup (T.report front_end.old) (T.report front_end.new)) }
    ensures calls { Talks setup
        (T.report front_end.old).calls (T.report front_end.new).calls result }
    ensures told { OnOk result (TellsMemory M.called setup
        (T.report front_end.old) (T.report front_end.new) memo.old memo.new) }
    ensures capacity { M.capacity memo.new ≡ M.capacity memo.old }
{
    let mut session = Session::with_setup(alloc, setup);
    let mut chunk = [0u8; CHUNK_MAX];
    'chunks: for _reads in 0..u64::MAX {
        let Ok(n) = front_end.read(&mut chunk) else {
            return Err(StdioFault::ReadFailed);
        };
        if n == 0 {
            return Ok(());
        }
        let (given, _) = chunk.split_at(n);
        answer_chunk(&mut session, memo, front_end, given)?;
        if session.is_over() {
            return Ok(());
        }
    }
    Err(StdioFault::ReadFailed)
}
