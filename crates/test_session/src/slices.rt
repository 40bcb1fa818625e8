//! Sessions that are worked in slices, the steps that they make, and what they queue.

use crate::rows::assert_answer;
use shogi_search::{Memo, NoMemo};
use std::alloc::Global;
use std::process::Abort;
use std::test::Fail;
use test_facade::{OpaqueSession, table_of};
use test_support::pv_lines::TWO_AT_ONE;
use test_support::rows::{INFO_ONE, Row, joined};
use test_support::tables::{more_lines_than_moves, sliced, three_of_a_mate, two_plies};
use test_support::{holds, same};
use usi_stdio::{Duplex, stdio_on};
use usi_texts::Setup;

// The most slices that a test works.
const SLICES: u64 = 200_000;

type TestSession = OpaqueSession<Global>;

// A session that was fed the row, and nothing more.
fn fed(alloc: Global, sent: &str) -> Result<TestSession, Fail> {
    let mut session = OpaqueSession::new(alloc);
    session.feed(sent.as_bytes())?;
    Ok(session)
}

// Works one slice, and gives the steps made. One that leaves something pending has used its budget.
fn work_slice<M: Memo>(
    rt: &impl Abort,
    session: &mut TestSession,
    memo: &mut M,
    budget: u64,
) -> Result<u64, Fail> {
    let made = session.work(memo, budget)?;
    holds!(*rt; made <= budget);
    if session.pending() {
        same!(*rt; made, budget, "still pending");
    }
    Ok(made)
}

// Works slice by slice until nothing is pending, and gives the sum of the steps made.
fn worked<M: Memo>(
    rt: &impl Abort,
    session: &mut TestSession,
    memo: &mut M,
    budget: u64,
) -> Result<u64, Fail> {
    let mut steps: u64 = 0;
    for _ in 0..SLICES {
        if !session.pending() {
            return Ok(steps);
        }
        let made = work_slice(rt, session, memo, budget)?;
        steps = steps.saturating_add(made);
    }
    Err(Fail::from("it never ends"))
}

// Works the row with this budget: its answer is that of the row, whatever the budget.
fn assert_worked<M: Memo>(
    rt: &impl Abort,
    alloc: Global,
    memo: &mut M,
    row: &Row,
    budget: u64,
) -> Result<u64, Fail> {
    let mut session = fed(alloc, row.sent)?;
    let steps = worked(rt, &mut session, memo, budget)?;
    assert_answer(rt, alloc, row, session.output())?;
    Ok(steps)
}

// The row with every budget from 1 to 70: the same bytes, and the same sum of steps. Its load is enough.
fn assert_every_budget(rt: &impl Abort, alloc: Global, row: &Row, load: u64) -> Result<(), Fail> {
    let whole = assert_worked(rt, alloc, &mut NoMemo, row, load)?;
    holds!(*rt; whole <= load, whole);
    for budget in 1..71u64 {
        let steps = assert_worked(rt, alloc, &mut NoMemo, row, budget)?;
        same!(*rt; steps, whole, budget);
    }
    Ok(())
}

// The loads are counts of the whole tree: 31 positions at depth 1, 931 at depth 2 and 26,401 at depth 3,
// each counted four times, for every search along the best lines. With two lines each of the 30 positions
// after a move counts four times at depth 1: 120. At depth 2 each is the root of a tree of 31, so that they
// count 120 times 31, and again 124 after each of the two moves that are listed.
#[test]
fn every_budget_gives_the_same_bytes_and_steps(rt: HostRuntime) -> Result<(), Fail> {
    let [one, two, three] = sliced();
    let one_ply = Row {
        sent: "setoption name MultiPV value 2\ngo depth 1\n",
        answer: &[TWO_AT_ONE, "bestmove 1g1f\n"],
    };
    for (row, load) in [
        (one, 124),
        (two, 3_972),
        (three, 114_284),
        (one_ply, 120),
        (two_plies(), 120 + 120 * 31 + 2 * 124),
    ] {
        assert_every_budget(&rt, rt.alloc(), &row, load)?;
    }
    Ok(())
}

// Works with this budget, of which the session takes so many steps and is then pending or not. Gives what it
// has queued.
fn assert_steps(
    rt: &impl Abort,
    session: &mut TestSession,
    budget: u64,
    steps: u64,
    pending: bool,
    queued: &str,
) -> Result<(), Fail> {
    same!(*rt; session.work(&mut NoMemo, budget)?, steps, budget);
    same!(*rt; session.pending(), pending, budget);
    same!(*rt; std::str::from_utf8(session.output())?, queued);
    Ok(())
}

// By hand: at depth 1 the opening position is answered in one step. At depth 2 it is entered, its first move
// is answered, no other is better, and it is left; then the position after that move is answered: 4 steps.
// A budget of 3 leaves the last one to be made. With no budget the lines before a search are answered, and no
// step is made.
#[test]
fn two_depths_take_five_steps(rt: HostRuntime) -> Result<(), Fail> {
    let mut session = fed(rt.alloc(), "isready\ngo depth 2\n")?;
    let ready = "readyok\n";
    let one = "readyok\ninfo depth 1 score cp 0 pv 1g1f\n";
    let all = "readyok
info depth 1 score cp 0 pv 1g1f
info depth 2 score cp 0 pv 1g1f 1a1b
bestmove 1g1f ponder 1a1b
";
    holds!(rt; !session.wants_input());
    for (budget, steps, pending, queued) in [
        (0, 0, true, ready),
        (0, 0, true, ready),
        (1, 1, true, one),
        (0, 0, true, one),
        (3, 3, true, one),
        (0, 0, true, one),
        (5, 1, false, all),
        (5, 0, false, all),
    ] {
        assert_steps(&rt, &mut session, budget, steps, pending, queued)?;
    }
    Ok(())
}

// The same with two lines: nothing is said without a budget.
#[test]
fn a_budget_of_nothing_for_several_lines(rt: HostRuntime) -> Result<(), Fail> {
    let mut session = fed(rt.alloc(), two_plies().sent)?;
    assert_steps(&rt, &mut session, 0, 0, true, "")?;
    assert_steps(&rt, &mut session, 0, 0, true, "")
}

// The row is cut after so many steps, and continues over another memory: what was queued by then and what is
// queued afterwards are the answer. Gives how many bytes were queued by then, where something was pending.
fn assert_cut(
    rt: &impl Abort,
    alloc: Global,
    sent: &str,
    answer: &[u8],
    cut: u64,
) -> Result<Option<usize>, Fail> {
    let mut session = fed(alloc, sent)?;
    session.work(&mut NoMemo, cut)?;
    let was_pending = session.pending();
    let queued = session.output().len();
    holds!(*rt; answer.starts_with(session.output()), cut);
    session.take(queued);
    session.work(&mut table_of(alloc, 1)?, u64::MAX)?;
    holds!(*rt; !session.pending(), cut);
    let rest = answer.get(queued..).unwrap_or(b"");
    holds!(*rt; session.output() == rest, cut);
    Ok(if was_pending { Some(queued) } else { None })
}

// Cut after each multiple of so many steps, until one is enough for all. Some cut is between two lines.
fn assert_cut_anywhere(
    rt: &impl Abort,
    alloc: Global,
    row: &Row,
    multiple: u64,
) -> Result<(), Fail> {
    let answer = joined(alloc, row.answer)?;
    let mut early = 0usize;
    for number in 0..SLICES {
        let cut = number.saturating_mul(multiple);
        match assert_cut(rt, alloc, row.sent, answer.as_bytes(), cut)? {
            Some(queued) => early = early.max(queued),
            None => {
                holds!(*rt; early > INFO_ONE.len(), early);
                return Ok(());
            }
        }
    }
    Err(Fail::from("it never ends"))
}

#[test]
fn searches_cut_anywhere(rt: HostRuntime) -> Result<(), Fail> {
    let held = Row {
        sent: "isready\ngo infinite depth 2\nstop\nstop\nisready\n",
        answer: &[
            "readyok\ninfo depth 1 score cp 0 pv 1g1f\n",
            "info depth 2 score cp 0 pv 1g1f 1a1b\nbestmove 1g1f ponder 1a1b\nreadyok\n",
        ],
    };
    for (row, multiple) in [
        (held, 1),
        (more_lines_than_moves(), 1),
        (three_of_a_mate(), 31),
        (two_plies(), 7),
    ] {
        assert_cut_anywhere(&rt, rt.alloc(), &row, multiple)?;
    }
    Ok(())
}

// Each root along the best lines is known from the first session, so the second makes no step.
#[test]
fn a_second_session_finds_what_the_first_one_searched(rt: HostRuntime) -> Result<(), Fail> {
    let mut table = table_of(rt.alloc(), 4096)?;
    for row in sliced() {
        let steps = assert_worked(&rt, rt.alloc(), &mut table, &row, 1)?;
        holds!(rt; steps > 0);
        same!(rt; assert_worked(&rt, rt.alloc(), &mut table, &row, 0)?, 0);
    }
    Ok(())
}

// A run over a table of the caller leaves each root in it, so a session makes no step.
#[test]
fn a_session_finds_what_a_run_searched(rt: HostRuntime) -> Result<(), Fail> {
    let mut table = table_of(rt.alloc(), 4096)?;
    for row in sliced() {
        let mut ends = Duplex::new(row.sent.as_bytes(), Vec::new(rt.alloc()));
        stdio_on(rt.alloc(), Setup::new(), &mut ends, &mut table)?;
        assert_answer(&rt, rt.alloc(), &row, ends.output.as_slice())?;
        same!(rt; assert_worked(&rt, rt.alloc(), &mut table, &row, 0)?, 0);
    }
    Ok(())
}

// How many bytes are queued, and whether input is wanted.
fn assert_queued(rt: &impl Abort, session: &TestSession, queued: usize, wants_input: bool) {
    same!(*rt; session.output().len(), queued);
    same!(*rt; session.wants_input(), wants_input);
}

// A session that was fed 1,024 times `usi`, and nothing more.
fn fed_usi(alloc: Global) -> Result<TestSession, Fail> {
    let mut chunk = Vec::new(alloc);
    for _ in 0..1024 {
        chunk.extend_from_slice(b"usi\n")?;
    }
    let mut session = OpaqueSession::new(alloc);
    session.feed(chunk.as_slice())?;
    Ok(session)
}

// 1,024 times `usi` queues 1,024 answers of 229 bytes each.
#[test]
fn input_waits_for_a_full_queue(rt: HostRuntime) -> Result<(), Fail> {
    let mut session = fed_usi(rt.alloc())?;
    holds!(rt; session.pending());
    assert_queued(&rt, &session, 0, false);
    session.work(&mut NoMemo, u64::MAX)?;
    assert_queued(&rt, &session, 234_496, false);
    session.take(168_960);
    assert_queued(&rt, &session, 65_536, false);
    session.take(1);
    assert_queued(&rt, &session, 65_535, true);
    Ok(())
}
