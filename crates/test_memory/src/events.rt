//! Each request of a host refused in turn, and the event that was refused sent again.

use crate::host::{gave, is_done, is_refused, opened};
use crate::refusals::{Memory, Trial, refuse_each};
use host_core::{Event, HostFault, Outcome};
use session_slots::SessionId;
use std::alloc::Global;
use std::process::Abort;
use std::test::Fail;
use test_facade::OpaqueHost;
use test_support::rows::{INFO_AND_BEST_ONE, joined};
use test_support::tables::opening;
use test_support::{FailingAllocator, holds, same};

// More requests than a run makes.
const REQUESTS: u64 = 10_000;

// More rounds than the searches take.
const ROUNDS: u64 = 100_000;

/// A host over memory that is refused, and how often one of its events was.
#[derive(Drop)]
struct Served<'a> {
    memory: &'a Memory,
    stays_gone: bool,
    host: OpaqueHost<&'a Memory>,
    refused: u64,
}

impl<'a> Served<'a> {
    /// A host of three slots. Where allocation fails it is made again.
    fn new(memory: &'a Memory, stays_gone: bool) -> Result<Served<'a>, Fail> {
        let (host, refused) = match OpaqueHost::new(memory, 3, 4096) {
            Ok(host) => (host, 0),
            Err(_) => {
                memory.refuse_nothing();
                (OpaqueHost::new(memory, 3, 4096)?, 1)
            }
        };
        Ok(Served {
            memory,
            stays_gone,
            host,
            refused,
        })
    }

    /// Sends the event. Where it is refused for memory it is sent again, while memory stays gone
    /// too.
    fn send(&mut self, rt: &impl Abort, event: Event<'_>) -> Outcome<&'a Memory> {
        let first = self.host.step(event);
        if !is_refused(&first) {
            return first;
        }
        self.refused = self.refused.saturating_add(1);
        if self.stays_gone {
            holds!(*rt; is_refused(&self.host.step(event)));
        }
        self.memory.refuse_nothing();
        self.host.step(event)
    }

    /// The id of the session that is opened, with this generation: a refusal uses none.
    fn open(&mut self, rt: &impl Abort, generation: u64) -> Result<SessionId, Fail> {
        let id = opened(&self.send(rt, Event::Open))?;
        same!(*rt; id.generation, generation);
        Ok(id)
    }

    /// Whether these bytes are queued for the session.
    fn has(&self, id: SessionId, bytes: &[u8]) -> bool {
        self.host.output(id) == Some(bytes)
    }

    /// Whether what is queued for the session is a prefix of the answer.
    fn has_prefix(&self, id: SessionId, whole: &str) -> bool {
        match self.host.output(id) {
            Some(queued) => whole.as_bytes().starts_with(queued),
            None => false,
        }
    }

    fn feed(&mut self, rt: &impl Abort, id: SessionId, chunk: &[u8]) {
        holds!(*rt; is_done(&self.send(rt, Event::Feed(id, chunk))));
    }

    /// One step of the session, if it is pending. What is queued stays a prefix of the answer.
    fn work(&mut self, rt: &impl Abort, id: SessionId, whole: &str) {
        let before = self.refused;
        holds!(*rt; is_done(&self.send(rt, Event::Work(id, 1))));
        holds!(*rt; self.refused == before || self.has_prefix(id, whole));
    }

    /// Takes the whole answer.
    fn take(&mut self, rt: &impl Abort, id: SessionId, whole: &str) {
        let taken = self.send(rt, Event::Take(id, whole.len()));
        holds!(*rt; gave(&taken, whole.as_bytes()));
        holds!(*rt; self.has(id, b""));
    }

    /// Steps of two sessions by turns until both have answered.
    fn work_off(&mut self, rt: &impl Abort, first: (SessionId, &str), second: (SessionId, &str)) {
        for _ in 0..ROUNDS {
            if !self.host.pending(first.0) && !self.host.pending(second.0) {
                break;
            }
            self.work(rt, first.0, first.1);
            self.work(rt, second.0, second.1);
        }
    }

    /// Two sessions, at depths 1 and 3, work by turns, step by step.
    fn answer_both(&mut self, rt: &impl Abort, sent: &str, three: &str) -> Result<(), Fail> {
        let first = self.open(rt, 0)?;
        let second = self.open(rt, 1)?;
        self.feed(rt, first, b"setoption name Depth value 1\ngo\n");
        self.feed(rt, second, sent.as_bytes());
        self.work_off(rt, (first, INFO_AND_BEST_ONE), (second, three));
        self.take(rt, first, INFO_AND_BEST_ONE);
        self.take(rt, second, three);
        Ok(())
    }
}

/// Two sessions of a host.
#[derive(Clone, Copy)]
struct Both {
    stays_gone: bool,
}

impl Trial for Both {
    fn run<R: Abort>(&self, rt: &R, alloc: Global, memory: &Memory) -> Result<u64, Fail> {
        let row = opening();
        let three = joined(alloc, row.answer)?;
        let mut served = Served::new(memory, self.stays_gone)?;
        served.answer_both(rt, row.sent, three.as_str())?;
        Ok(served.refused)
    }
}

// How many requests a run makes.
fn requests(rt: &impl Abort, alloc: Global, stays_gone: bool) -> Result<u64, Fail> {
    let met = refuse_each(rt, alloc, &Both { stays_gone }, stays_gone)?;
    holds!(*rt; met.refusals > 0 && met.requests > 10, met);
    Ok(met.requests)
}

// A request that an event does not need, as one for an entry of the table, is refused without a
// word.
#[test]
fn each_request_of_a_host_is_refused_in_turn(rt: HostRuntime) -> Result<(), Fail> {
    let met = requests(&rt, rt.alloc(), false)?;
    println!(rt; "a host by steps, one: {met} requests")?;
    Ok(())
}

#[test]
fn memory_of_a_host_stays_gone_and_comes_back(rt: HostRuntime) -> Result<(), Fail> {
    let met = requests(&rt, rt.alloc(), true)?;
    println!(rt; "a host by steps, all from one on: {met} requests")?;
    Ok(())
}

impl<'a> Served<'a> {
    /// Runs the events, of which the n-th request is refused. Where the run itself is refused
    /// nothing has changed, and else the work that was refused is sent again.
    fn run(&mut self, rt: &impl Abort, n: u64) -> Result<(), Fail> {
        let id = self.open(rt, 0)?;
        self.feed(rt, id, b"isready\n");
        self.work(rt, id, "readyok\n");
        self.memory.refuse_at(n);
        let ended = self.host.run(&[
            Event::Feed(id, b"go depth 1\n"),
            Event::Work(id, u64::MAX),
            Event::Close(id),
        ]);
        self.assert_run(rt, id, n, ended.err());
        self.open(rt, 1)?;
        Ok(())
    }

    fn assert_run(&mut self, rt: &impl Abort, id: SessionId, n: u64, fault: Option<HostFault>) {
        if fault.is_none() {
            holds!(*rt; n > 1 && self.host.output(id).is_none());
            return;
        }
        same!(*rt; fault, Some(HostFault::OutOfMemory));
        holds!(*rt; n == 1 && !self.host.pending(id) && self.has(id, b"readyok\n"));
        self.memory.refuse_nothing();
        self.take(rt, id, "readyok\n");
    }
}

// Whether the n-th request of a run was refused.
fn is_run_refused(rt: &impl Abort, alloc: Global, n: u64) -> Result<bool, Fail> {
    let memory = FailingAllocator::new(alloc);
    Served::new(&memory, false)?.run(rt, n)?;
    Ok(memory.refused() > 0)
}

#[test]
fn a_run_that_is_refused_answers_no_event(rt: HostRuntime) -> Result<(), Fail> {
    let mut met = 0u64;
    for n in 1..REQUESTS {
        if !is_run_refused(&rt, rt.alloc(), n)? {
            break;
        }
        met = met.saturating_add(1);
    }
    holds!(rt; met > 1, met);
    println!(rt; "Host::run: {met} requests")?;
    Ok(())
}
