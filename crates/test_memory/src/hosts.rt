//! Memory that is refused at one place after another.

ghost use Rattle.std.specs.Prelude.{◌≤◌};

use crate::host::{gave, is_done, is_refused, opened};
use host_core::{Event, HostFault, Outcome};
use linked_list_allocator::LocalHeap;
use session_slots::SessionId;
use shogi_search::Memo;
use std::alloc::{AllocError, Global};
use std::process::Abort;
use std::test::Fail;
use test_facade::{OpaqueHost, OpaqueSession, table_of};
use test_support::rows::{INFO_AND_BEST_ONE, Row, joined};
use test_support::tables::{cut, sliced};
use test_support::{holds, same};

// Room for the current search, which is the largest block, and for what is read and queued.
const HEAP: usize = 65_536;

// Memory for two sessions with a search under way each, and for the table.
const HOST_HEAP: usize = 131_072;

// The most slices that a test works.
const SLICES: u64 = 10_000;

// What was refused in a run.
#[derive(Clone, Copy, Debug)]
struct Refused {
    feed: bool,
    work: bool,
}

/// A session, and a ballast that takes memory away from it.
#[derive(Drop)]
struct Scarce<'a> {
    session: OpaqueSession<&'a LocalHeap>,
    ballast: Option<Vec<u8, &'a LocalHeap>>,
    refused: Refused,
}

impl<'a> Scarce<'a> {
    /// The ballast leaves so many bytes. None where it found no room itself.
    fn new(heap: &'a LocalHeap, left: usize) -> Option<Scarce<'a>> {
        match Vec::with_capacity(heap, HEAP.saturating_sub(left)) {
            Ok(block) => Some(Scarce {
                session: OpaqueSession::new(heap),
                ballast: Some(block),
                refused: Refused {
                    feed: false,
                    work: false,
                },
            }),
            Err(_) => None,
        }
    }

    /// Feeds the session. Where that is refused the ballast is dropped, and it is fed again.
    fn feed(&mut self, rt: &impl Abort, sent: &str) -> Result<(), Fail> {
        if self.session.feed(sent.as_bytes()).is_err() {
            self.refused.feed = true;
            self.ballast = None;
            holds!(*rt; self.session.output().is_empty() && self.session.wants_input());
            self.session.feed(sent.as_bytes())?;
        }
        Ok(())
    }

    /// Works a slice. Where that is refused the ballast is dropped, and what is queued is a front
    /// of the answer.
    fn work<M: Memo>(&mut self, rt: &impl Abort, table: &mut M, budget: u64, whole: &str) {
        if self.session.work(table, budget).is_err() {
            holds!(*rt; self.ballast.is_some(), "refused with all the memory there");
            self.refused.work = true;
            self.ballast = None;
            holds!(*rt; self.session.pending());
            holds!(*rt; whole.as_bytes().starts_with(self.session.output()));
        }
    }

    fn work_off<M: Memo>(&mut self, rt: &impl Abort, table: &mut M, budget: u64, whole: &str) {
        for _ in 0..SLICES {
            if !self.session.pending() {
                break;
            }
            self.work(rt, table, budget, whole);
        }
        holds!(*rt; self.session.output() == whole.as_bytes(), whole);
    }
}

// At the first refusal the ballast is dropped, and what was refused is sent again: what is queued
// stays a prefix of the answer, and in the end it is all of it. None where the ballast itself found
// no room.
fn assert_continues(
    rt: &impl Abort,
    alloc: Global,
    row: &Row,
    left: usize,
    budget: u64,
) -> Result<Option<Refused>, Fail> {
    let heap = LocalHeap::new(alloc, HEAP)?;
    let whole = joined(alloc, row.answer)?;
    let mut table = table_of(alloc, 1)?;
    let Some(mut scarce) = Scarce::new(&heap, left) else {
        return Ok(None);
    };
    scarce.feed(rt, row.sent)?;
    scarce.work_off(rt, &mut table, budget, whole.as_str());
    Ok(Some(scarce.refused))
}

// From no memory on, by so many bytes.
fn assert_from_nothing(
    rt: &impl Abort,
    alloc: Global,
    row: &Row,
    budget: u64,
    step: usize,
) -> Result<(), Fail>
    requires { 1 ≤ step }
{
    let (mut fed, mut worked, mut never) = (false, false, false);
    for blocks in 0..HEAP / step {
        let left = blocks.saturating_mul(step);
        if let Some(Refused { feed, work }) = assert_continues(rt, alloc, row, left, budget)? {
            fed |= feed;
            worked |= work;
            never |= !feed && !work;
        }
    }
    holds!(*rt; fed && worked && never, fed);
    Ok(())
}

// The feed is refused, then the current search, then one reply after another, then nothing.
#[test]
fn a_session_continues_after_a_refusal(rt: HostRuntime) -> Result<(), Fail> {
    let [_, deeper, _] = sliced();
    assert_from_nothing(&rt, rt.alloc(), &cut(), u64::MAX, 512)?;
    assert_from_nothing(&rt, rt.alloc(), &deeper, 1, 128)
}

/// Vectors that take memory away from a host.
type Ballast<'a> = Vec<Vec<u8, &'a LocalHeap>>;

// Takes blocks of a size until there are none.
fn take_all<'a>(
    heap: &'a LocalHeap,
    ballast: &mut Ballast<'a>,
    size: usize,
) -> Result<(), AllocError> {
    for _ in 0..HOST_HEAP / 32 {
        let Ok(taken) = Vec::with_capacity(heap, size) else {
            break;
        };
        ballast.push(taken)?;
    }
    Ok(())
}

/// Takes all the memory that is there, in vectors of falling sizes, and then drops so many of the
/// last ones.
fn ballast_but<'a>(
    alloc: Global,
    heap: &'a LocalHeap,
    dropped: usize,
) -> Result<Ballast<'a>, AllocError> {
    let mut ballast = Vec::new(alloc);
    let mut size = HOST_HEAP;
    for _ in 0..13 {
        take_all(heap, &mut ballast, size)?;
        size /= 2;
    }
    for _ in 0..dropped {
        ballast.pop();
    }
    Ok(ballast)
}

/// A host with little memory.
#[derive(Drop)]
struct Starved<'a> {
    host: OpaqueHost<&'a LocalHeap>,
    ballast: Ballast<'a>,
}

impl<'a> Starved<'a> {
    fn new(alloc: Global, heap: &'a LocalHeap, entries: usize) -> Result<Starved<'a>, Fail> {
        Ok(Starved {
            host: OpaqueHost::new(heap, 2, entries)?,
            ballast: Vec::new(alloc),
        })
    }

    /// Takes the memory but so many blocks. With none left a run answers no event.
    fn starve(
        &mut self,
        rt: &impl Abort,
        (alloc, heap): (Global, &'a LocalHeap),
        dropped: usize,
        events: &[Event<'_>],
    ) -> Result<(), Fail> {
        self.ballast = ballast_but(alloc, heap, dropped)?;
        if dropped == 0 {
            same!(*rt; self.host.run(events).err(), Some(HostFault::OutOfMemory));
        }
        Ok(())
    }

    /// Steps, and steps again without the ballast where an allocation failed.
    fn step(&mut self, event: Event<'_>) -> Outcome<&'a LocalHeap> {
        let first = self.host.step(event);
        if !is_refused(&first) {
            return first;
        }
        self.ballast.clear();
        self.host.step(event)
    }

    fn open(&mut self, rt: &impl Abort, generation: u64) -> Result<SessionId, Fail> {
        let id = opened(&self.step(Event::Open))?;
        same!(*rt; id.generation, generation);
        Ok(id)
    }

    /// A step that is done or gives what `go depth 1` says.
    fn does(&mut self, rt: &impl Abort, event: Event<'_>) {
        let outcome = self.step(event);
        holds!(*rt; is_done(&outcome) || gave(&outcome, INFO_AND_BEST_ONE.as_bytes()), event);
    }

    /// Whether the ballast was dropped, or is there still.
    fn is_fed(&self) -> bool {
        self.ballast.is_empty()
    }
}

// Two sessions are opened with so many blocks. Returns whether an allocation failed.
fn assert_opened(rt: &impl Abort, alloc: Global, dropped: usize) -> Result<bool, Fail> {
    let heap = LocalHeap::new(alloc, HOST_HEAP)?;
    let mut starved = Starved::new(alloc, &heap, 1)?;
    starved.starve(rt, (alloc, &heap), dropped, &[Event::Open])?;
    starved.open(rt, 0)?;
    starved.open(rt, 1)?;
    Ok(starved.is_fed())
}

// A refused opening uses no generation, and a run that finds no memory for its outcomes answers no
// event.
#[test]
fn sessions_are_opened_after_a_refusal(rt: HostRuntime) -> Result<(), Fail> {
    let mut refused = 0usize;
    for dropped in 0..24 {
        refused = refused.saturating_add(usize::from(assert_opened(&rt, rt.alloc(), dropped)?));
    }
    holds!(rt; 0 < refused && refused < 24, refused);
    Ok(())
}

// From an event on so many blocks are left. Returns whether an allocation failed.
fn assert_answered(
    rt: &impl Abort,
    alloc: Global,
    scarce_from: usize,
    dropped: usize,
) -> Result<bool, Fail> {
    let heap = LocalHeap::new(alloc, HOST_HEAP)?;
    let mut starved = Starved::new(alloc, &heap, 4)?;
    let (a, b) = (starved.open(rt, 0)?, starved.open(rt, 1)?);
    let lines = b"setoption name Depth value 1\ngo\nquit\n".as_slice();
    let feeds = [Event::Feed(a, b"go depth 1\n"), Event::Feed(b, lines)];
    let works = [Event::Work(a, 40), Event::Work(b, 40)];
    let takes = [Event::Take(a, 46), Event::Take(b, 46)];
    let parts = [feeds, works, works, works, takes];
    for (number, part) in parts.iter().enumerate() {
        if number == scarce_from {
            let closes = [Event::Close(a), Event::Close(b)];
            starved.starve(rt, (alloc, &heap), dropped, &closes)?;
        }
        for event in part {
            starved.does(rt, *event);
        }
    }
    holds!(*rt; !starved.host.pending(a) && starved.host.is_over(b));
    Ok(starved.is_fed())
}

// From whichever event on memory is scarce, both sessions say what they would have said.
#[test]
fn two_sessions_continue_after_a_refusal(rt: HostRuntime) -> Result<(), Fail> {
    for scarce_from in [0, 2, 4] {
        let mut refused = 0usize;
        for dropped in 0..24 {
            let is_refused = assert_answered(&rt, rt.alloc(), scarce_from, dropped)?;
            refused = refused.saturating_add(usize::from(is_refused));
        }
        holds!(rt; 0 < refused && refused < 24, refused);
    }
    Ok(())
}
