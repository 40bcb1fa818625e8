//! What C calls.

ghost use Rattle.std.specs.Prelude.{◌≡◌, ◌≢◌, ◌≤◌, ◌<◌, ℕ, [], None, Some};
ghost use Rattle.shared_table.specs.declared.table.TheConstants.{CAPACITY_MAX};
ghost use Rattle.usi_session.specs.Due.{due, state_due, IsSameAfter};
ghost use Rattle.usi_library.specs.Calls.{closed_answer, open_in, AnswersFeed, FailsForMemory, IsCapacity, IsEnough, IsFedOnOk, IsMoved, IsNothing, IsSeen, KeepsTable, LowersLoad, NeedsNoStep, Opens, OpensNumbered, OpensUnder, QueuesLines, SpendsAll, TellsItsTable, WhereOpen};
ghost use Rattle.usi_library.specs.Setups.{setup_refusal};
ghost use Rattle.usi_library.specs.declared.status.TheConstants.{USI_OK, USI_CLOSED, USI_IS_OPEN, USI_OUT_OF_RANGE};

use crate::handle::UsiSession;
use crate::opened::Opened;
use crate::setup::setup_of;
use crate::status::{USI_CLOSED, USI_IS_OPEN, USI_OK, USI_OUT_OF_MEMORY, USI_OUT_OF_RANGE};
use shared_table::CAPACITY_MAX;
use std::alloc::Global;
use usi_texts::Setup;

/// What `usi_work` and `usi_take` answer.
#[repr(C)]
#[derive(Clone, Copy)]
pub struct UsiAnswer {
    /// `USI_OK`, or why it was not done.
    pub status: u32,
    /// How many steps were made, or how many bytes were taken.
    pub count: u64,
}

/// What is answered for a closed session.
const CLOSED: UsiAnswer = UsiAnswer {
    status: USI_CLOSED,
    count: 0,
};

/// What `usi_look` answers.
#[repr(C)]
#[derive(Clone, Copy)]
pub struct UsiLook {
    /// How many bytes are queued.
    pub queued: u64,
    /// Whether the session is open.
    pub is_open: bool,
    /// Whether it may be fed.
    pub wants_input: bool,
    /// Whether it has a running `go` or an unread line.
    pub is_pending: bool,
    /// Whether it has ended, after `quit` or a line that was too long.
    pub is_over: bool,
}

/// Opens a closed session under a setup.
fn open(session: &mut UsiSession, alloc: Global, setup: Setup, entries: usize) -> u32
    requires least { 1 ≤ entries }
    requires most { entries ≤ CAPACITY_MAX }
    ensures opened { result ≡ USI_OK → OpensUnder setup entries session.old session.new }
    ensures refused { result ≢ USI_OK → open_in session.new ≡ open_in session.old }
    ensures was_open { open_in session.old ≢ None → result ≡ USI_IS_OPEN }
    ensures was_closed { open_in session.old ≡ None → FailsForMemory result }
{
    if let Some(open) = session.take_out() {
        session.put_in(open);
        return USI_IS_OPEN;
    }
    let Ok(opened) = Opened::new(alloc, setup, entries) else {
        return USI_OUT_OF_MEMORY;
    };
    match Box::new(alloc, opened) {
        Ok(boxed) => {
            session.put_in(boxed);
            USI_OK
        }
        Err(_) => USI_OUT_OF_MEMORY,
    }
}

/// Opens a closed session: the opening position, each option at its default, and an empty table for
/// `entries` entries, from 1 to 1,000,000. `USI_OUT_OF_RANGE` comes before `USI_IS_OPEN`, and
/// `USI_OUT_OF_MEMORY` if allocation failed; each of them leaves the session as it was.
#[unsafe(no_mangle)]
pub extern "C" fn usi_open(session: &mut UsiSession, alloc: Global, entries: usize) -> u32
    ensures opened { result ≡ USI_OK → Opens entries session.old session.new }
    ensures refused { result ≢ USI_OK → open_in session.new ≡ open_in session.old }
    ensures least { entries < 1 → result ≡ USI_OUT_OF_RANGE }
    ensures most { CAPACITY_MAX < entries → result ≡ USI_OUT_OF_RANGE }
    ensures was_open { IsCapacity entries → open_in session.old ≢ None → result ≡ USI_IS_OPEN }
    ensures was_closed { IsCapacity entries → open_in session.old ≡ None
        → FailsForMemory result }
{
    if entries < 1 || entries > CAPACITY_MAX {
        return USI_OUT_OF_RANGE;
    }
    open(session, alloc, Setup::new(), entries)
}

/// Opens a closed session as `usi_open` does, under a setup: `depth` (1 to 16), `lines` (1 to 8) and `eval`
/// (a number as `USI_EVAL_PLAIN`) are the first values of the options Depth, MultiPV and Eval, and
/// `max_depth` (1 to 16) is the greatest depth of a search. `USI_OUT_OF_RANGE` for the entries comes
/// first; then `USI_UNKNOWN_EVAL`, `USI_DEPTH_OUT_OF_RANGE`, `USI_MAX_DEPTH_OUT_OF_RANGE`,
/// `USI_LINES_OUT_OF_RANGE` and `USI_DEPTH_ABOVE_MAX`, in this order; then `USI_IS_OPEN`, and
/// `USI_OUT_OF_MEMORY` if allocation failed. Each of them leaves the session as it was.
#[unsafe(no_mangle)]
pub extern "C" fn usi_open_with_setup(
    session: &mut UsiSession,
    alloc: Global,
    entries: usize,
    depth: u32,
    max_depth: u32,
    lines: u32,
    eval: u32,
) -> u32
    ensures opened { result ≡ USI_OK
        → OpensNumbered entries depth max_depth lines eval session.old session.new }
    ensures refused { result ≢ USI_OK → open_in session.new ≡ open_in session.old }
    ensures least { entries < 1 → result ≡ USI_OUT_OF_RANGE }
    ensures most { CAPACITY_MAX < entries → result ≡ USI_OUT_OF_RANGE }
    ensures setup { IsCapacity entries
        → (status : ℕ) → setup_refusal depth max_depth lines eval ≡ Some status → result ≡ status }
    ensures was_open { IsCapacity entries → setup_refusal depth max_depth lines eval ≡ None
        → open_in session.old ≢ None → result ≡ USI_IS_OPEN }
    ensures was_closed { IsCapacity entries → setup_refusal depth max_depth lines eval ≡ None
        → open_in session.old ≡ None → FailsForMemory result }
{
    if entries < 1 || entries > CAPACITY_MAX {
        return USI_OUT_OF_RANGE;
    }
    match setup_of(depth, max_depth, lines, eval) {
        Ok(setup) => open(session, alloc, setup, entries),
        Err(status) => status,
    }
}

/// Closes a session and gives its memory back. `USI_CLOSED` if it was closed already.
#[unsafe(no_mangle)]
pub extern "C" fn usi_close(session: &mut UsiSession) -> u32
    ensures closed { open_in session.new ≡ None }
    ensures was_closed { open_in session.old ≡ None → result ≡ USI_CLOSED }
    ensures was_open { open_in session.old ≢ None → result ≡ USI_OK }
{
    match session.take_out() {
        Some(_open) => USI_OK,
        None => USI_CLOSED,
    }
}

/// Stores these bytes, at most 4,096, and answers nothing yet. Any other status than `USI_OK`
/// leaves the session as it was.
#[unsafe(no_mangle)]
pub extern "C" fn usi_feed(session: &mut UsiSession, bytes: &[u8]) -> u32
    ensures closed { open_in session.old ≡ None → result ≡ USI_CLOSED }
    ensures refused { result ≢ USI_OK → open_in session.new ≡ open_in session.old }
    ensures fed { WhereOpen session.old session.new (IsFedOnOk bytes.now result) }
    ensures status { WhereOpen session.old session.new
        (λ old _. AnswersFeed bytes.now result old) }
    ensures table { KeepsTable session.old session.new }
{
    let Some(mut open) = session.take_out() else {
        return USI_CLOSED;
    };
    let status = open.feed(bytes);
    session.put_in(open);
    status
}

/// Answers what is pending, with at most `steps` steps of search, and counts the steps made. If something
/// is still pending, the steps were used up. The session's table is told what each search found; with one
/// line, no step is made for what it has exactly. After `USI_OUT_OF_MEMORY`, which counts none, the
/// session owes what it owed, and the next call continues.
#[unsafe(no_mangle)]
pub extern "C" fn usi_work(session: &mut UsiSession, steps: u64) -> UsiAnswer
    ensures closed { open_in session.old ≡ None → result ≡ closed_answer }
    ensures still_closed { open_in session.old ≡ None → open_in session.new ≡ None }
    ensures status { WhereOpen session.old session.new
        (λ old new. FailsForMemory result.status) }
    ensures due { WhereOpen session.old session.new (IsSameAfter due []) }
    ensures after { WhereOpen session.old session.new (IsSameAfter state_due []) }
    ensures most { result.count ≤ steps }
    ensures made { WhereOpen session.old session.new (LowersLoad result.count) }
    ensures spent { WhereOpen session.old session.new (λ old new. SpendsAll steps result new) }
    ensures enough { WhereOpen session.old session.new (IsEnough steps result) }
    ensures grown { WhereOpen session.old session.new QueuesLines }
    ensures told { TellsItsTable session.old session.new }
    ensures known { NeedsNoStep result session.old session.new }
    ensures err { result.status ≢ USI_OK → result.count ≡ 0 }
{
    let Some(mut open) = session.take_out() else {
        return CLOSED;
    };
    let worked = open.work(steps);
    session.put_in(open);
    match worked {
        Ok(count) => UsiAnswer {
            status: USI_OK,
            count,
        },
        Err(_) => UsiAnswer {
            status: USI_OUT_OF_MEMORY,
            count: 0,
        },
    }
}

/// Moves queued bytes to the front of a buffer, as many as there are and as it has room for, and
/// counts them.
#[unsafe(no_mangle)]
pub extern "C" fn usi_take(session: &mut UsiSession, buffer: &mut [u8]) -> UsiAnswer
    ensures closed { open_in session.old ≡ None → result ≡ closed_answer }
    ensures still_closed { open_in session.old ≡ None → open_in session.new ≡ None }
    ensures untouched { open_in session.old ≡ None → buffer.new ≡ buffer.old }
    ensures status { WhereOpen session.old session.new (λ old new. result.status ≡ USI_OK) }
    ensures moved { WhereOpen session.old session.new
        (IsMoved buffer.old buffer.new result.count) }
    ensures table { KeepsTable session.old session.new }
{
    let Some(mut open) = session.take_out() else {
        return CLOSED;
    };
    let count = open.take(buffer);
    session.put_in(open);
    UsiAnswer {
        status: USI_OK,
        count: count as u64,
    }
}

/// The state of a session: all zero if it is closed. It changes nothing.
#[unsafe(no_mangle)]
pub extern "C" fn usi_look(session: &mut UsiSession) -> UsiLook
    ensures closed { open_in session.old ≡ None → IsNothing result }
    ensures open { WhereOpen session.old session.new (λ old new. IsSeen old result) }
    ensures unchanged { open_in session.new ≡ open_in session.old }
{
    let Some(open) = session.take_out() else {
        return UsiLook {
            queued: 0,
            is_open: false,
            wants_input: false,
            is_pending: false,
            is_over: false,
        };
    };
    let look = UsiLook {
        queued: open.session.output().len() as u64,
        is_open: true,
        wants_input: open.session.wants_input(),
        is_pending: open.session.pending(),
        is_over: open.session.is_over(),
    };
    session.put_in(open);
    look
}
