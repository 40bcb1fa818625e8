//! Rows through a host of many sessions.

use crate::host::{Brief, expect, expect_run, output_is};
use host_core::{Event, HostFault};
use session_slots::SessionId;
use std::alloc::Global;
use std::process::Abort;
use std::test::Fail;
use test_facade::OpaqueHost;
use test_support::rows::{INFO_AND_BEST_ONE, INFO_ONE, INFO_THREE, joined};
use test_support::tables::opening;
use test_support::{holds, same};

const FULL: Brief = Brief::Refused(HostFault::Full);

const UNKNOWN: Brief = Brief::Refused(HostFault::UnknownSession);

const NOT_READY: Brief = Brief::Refused(HostFault::NotReady);

// From the opening position `go depth 1` takes one step, and its answer has 46 bytes.
// What the first session searched, the second finds in the table.
fn assert_two_sessions<R: Abort>(
    rt: &R,
    alloc: Global,
    host: &mut OpaqueHost<Global>,
) -> Result<SessionId, Fail> {
    let a = host.open()?;
    let go = b"go depth 1\n".as_slice();
    let events = [Event::Feed(a, go), Event::Work(a, 62)];
    expect_run(rt, alloc, host, &events, &[Brief::Done, Brief::Worked(1)])?;
    holds!(*rt; !host.pending(a) && host.wants_input(a));

    let b = host.open()?;
    let events = [
        Event::Open,
        Event::Feed(b, go),
        Event::Work(b, 0),
        Event::Take(b, 47),
    ];
    let wanted = [FULL, Brief::Done, Brief::Worked(0), NOT_READY];
    expect_run(rt, alloc, host, &events, &wanted)?;
    let taken = host.take(b, INFO_AND_BEST_ONE.len())?;
    holds!(*rt; taken.as_slice() == INFO_AND_BEST_ONE.as_bytes());
    expect(rt, host, &[(Event::Take(b, 1), NOT_READY)]);
    Ok(a)
}

#[test]
fn two_slots_and_three_sessions(rt: HostRuntime) -> Result<(), Fail> {
    let row = opening();
    let answer = joined(rt.alloc(), row.answer)?;
    let mut host = OpaqueHost::new(rt.alloc(), 2, 4096)?;
    let a = assert_two_sessions(&rt, rt.alloc(), &mut host)?;
    expect(&rt, &mut host, &[(Event::Close(a), Brief::Done)]);
    let c = host.open()?;
    same!(rt; (c.slot, c.generation), (a.slot, 2));
    let events = [Event::Feed(a, b""), Event::Feed(c, b"go\n")];
    expect_run(&rt, rt.alloc(), &mut host, &events, &[UNKNOWN, Brief::Done])?;
    holds!(rt; host.work(c, u64::MAX).is_ok() && !host.pending(c));
    output_is(&rt, &host, c, answer.as_bytes());
    Ok(())
}

// One step less than the searches have, and it continues; with the last one it is answered. By hand: one step
// at depth 1. At depth 2 the root is entered, its first move is answered, no other is better, and it is left;
// then the position after that move is answered.
#[test]
fn one_step_less_than_the_search(rt: HostRuntime) -> Result<(), Fail> {
    let mut host = OpaqueHost::new(rt.alloc(), 1, 1)?;
    let id = host.open()?;
    expect(
        &rt,
        &mut host,
        &[
            (Event::Open, FULL),
            (Event::Feed(id, b"go infinite depth 2\n"), Brief::Done),
        ],
    );
    holds!(rt; host.pending(id) && !host.wants_input(id));
    expect(&rt, &mut host, &[(Event::Work(id, 4), Brief::Worked(4))]);
    holds!(rt; host.pending(id));
    output_is(&rt, &host, id, INFO_ONE.as_bytes());
    expect(&rt, &mut host, &[(Event::Work(id, 3), Brief::Worked(1))]);
    holds!(rt; !host.pending(id));
    same!(rt; host.output(id).map(|bytes| bytes.len()), Some(32 + 37));
    Ok(())
}

// At depth 4 the best move is 7g7f, of value 0.
fn assert_at_depth_four<R: Abort>(rt: &R, said: &[u8]) -> Result<(), Fail> {
    let said = std::str::from_utf8(said)?;
    holds!(*rt; said.starts_with(INFO_THREE));
    holds!(*rt; said.contains("info depth 4 score cp 0 pv 7g7f "));
    holds!(*rt; said.contains("\nbestmove 7g7f ponder "));
    Ok(())
}

// What the first session searched is known, to the last search of the second one: no step is made. Where
// memory is there, no note is refused.
#[test]
fn a_search_is_shared(rt: HostRuntime) -> Result<(), Fail> {
    let mut host = OpaqueHost::new(rt.alloc(), 2, 100_000)?;
    let first = host.open()?;
    expect(
        &rt,
        &mut host,
        &[(Event::Feed(first, b"go depth 4\n"), Brief::Done)],
    );
    holds!(rt; host.work(first, u64::MAX)? > 1);

    let second = host.open()?;
    expect(
        &rt,
        &mut host,
        &[
            (Event::Feed(second, b"go depth 4\n"), Brief::Done),
            (Event::Work(second, 0), Brief::Worked(0)),
        ],
    );
    holds!(rt; !host.pending(first) && !host.pending(second));
    holds!(rt; host.output(first) == host.output(second));
    same!(rt; host.refused_notes(), 0);
    assert_at_depth_four(&rt, host.output(second).ok_or("it is open")?)
}
