//! Each request refused in turn while a `go` with several lines is answered.

use crate::host::{is_done, is_refused, opened};
use crate::refusals::{Memory, Trial, refuse_each};
use host_core::{Event, Outcome};
use session_slots::SessionId;
use shogi_search::Memo;
use std::alloc::Global;
use std::process::Abort;
use std::test::Fail;
use test_facade::{OpaqueHost, OpaqueSession, table_of};
use test_support::rows::{Row, joined};
use test_support::tables::{more_lines_than_moves, three_of_a_mate, two_plies};
use test_support::{holds, same};

// More slices than the searches take.
const SLICES: u64 = 100_000;

/// A row in a session of its own, in slices of so many steps.
#[derive(Clone, Copy)]
struct Slices {
    row: Row,
    budget: u64,
}

// What the session is refused is sent again, with all the memory there. What is queued stays a
// prefix of the answer, and in the end it is all of it.
fn answer<M: Memo>(
    rt: &impl Abort,
    session: &mut OpaqueSession<&Memory>,
    memory: &Memory,
    table: &mut M,
    run: &Slices,
    whole: &str,
) -> Result<(), Fail> {
    let sent = run.row.sent.as_bytes();
    if session.feed(sent).is_err() {
        memory.refuse_nothing();
        holds!(*rt; session.output().is_empty() && session.wants_input());
        session.feed(sent)?;
    }
    for _ in 0..SLICES {
        if !session.pending() {
            break;
        }
        if session.work(table, run.budget).is_err() {
            holds!(*rt; memory.refused() > 0 && session.pending());
            holds!(*rt; whole.as_bytes().starts_with(session.output()));
            memory.refuse_nothing();
        }
    }
    same!(*rt; std::str::from_utf8(session.output())?, whole);
    Ok(())
}

impl Trial for Slices {
    fn run<R: Abort>(&self, rt: &R, alloc: Global, memory: &Memory) -> Result<u64, Fail> {
        let whole = joined(alloc, self.row.answer)?;
        let mut table = table_of(alloc, 64)?;
        let mut session = OpaqueSession::new(memory);
        answer(rt, &mut session, memory, &mut table, self, whole.as_str())?;
        Ok(0)
    }
}

#[test]
fn each_request_of_a_session_is_refused_in_turn(rt: HostRuntime) -> Result<(), Fail> {
    for row in [more_lines_than_moves(), three_of_a_mate(), two_plies()] {
        for budget in [5, u64::MAX] {
            for stays_gone in [false, true] {
                let met = refuse_each(&rt, rt.alloc(), &Slices { row, budget }, stays_gone)?;
                holds!(rt; met.requests > 5, met);
            }
        }
    }
    Ok(())
}

/// A host over this memory.
#[derive(Drop)]
struct Served<'a> {
    memory: &'a Memory,
    host: OpaqueHost<&'a Memory>,
}

impl<'a> Served<'a> {
    /// Sends the event, and where it is refused for memory once more, with all the memory there.
    fn send(&mut self, event: Event<'_>) -> Outcome<&'a Memory> {
        let first = self.host.step(event);
        if !is_refused(&first) {
            return first;
        }
        self.memory.refuse_nothing();
        self.host.step(event)
    }

    fn does(&mut self, rt: &impl Abort, event: Event<'_>) {
        holds!(*rt; is_done(&self.send(event)), event);
    }

    fn open(&mut self) -> Result<SessionId, Fail> {
        opened(&self.send(Event::Open))
    }

    fn work_off(&mut self, rt: &impl Abort, first: SessionId, second: SessionId) {
        for _ in 0..SLICES {
            if !self.host.pending(first) && !self.host.pending(second) {
                break;
            }
            self.does(rt, Event::Work(first, 2));
            self.does(rt, Event::Work(second, 2));
        }
    }

    fn has_answered(&self, alloc: Global, id: SessionId, row: &Row) -> Result<bool, Fail> {
        let answer = joined(alloc, row.answer)?;
        Ok(self.host.output(id) == Some(answer.as_bytes()))
    }

    // Two sessions with numbers of lines of their own work by turns over one table.
    fn answers_both(&mut self, rt: &impl Abort, alloc: Global) -> Result<(), Fail> {
        let (one, other) = (more_lines_than_moves(), three_of_a_mate());
        let (first, second) = (self.open()?, self.open()?);
        self.does(rt, Event::Feed(first, one.sent.as_bytes()));
        self.does(rt, Event::Feed(second, other.sent.as_bytes()));
        self.work_off(rt, first, second);
        holds!(*rt; self.has_answered(alloc, first, &one)?);
        holds!(*rt; self.has_answered(alloc, second, &other)?);
        Ok(())
    }
}

/// A host with two sessions.
#[derive(Clone, Copy)]
struct Both;

impl Trial for Both {
    fn run<R: Abort>(&self, rt: &R, alloc: Global, memory: &Memory) -> Result<u64, Fail> {
        match OpaqueHost::new(memory, 2, 64) {
            Ok(host) => {
                Served { memory, host }.answers_both(rt, alloc)?;
                Ok(0)
            }
            Err(_) => Ok(1),
        }
    }
}

#[test]
fn each_request_of_a_host_is_refused_in_turn(rt: HostRuntime) -> Result<(), Fail> {
    for stays_gone in [false, true] {
        let met = refuse_each(&rt, rt.alloc(), &Both, stays_gone)?;
        holds!(rt; met.requests > 9, met);
    }
    Ok(())
}
