//! What is given back: idle sessions are small, and so is a host whose sessions were closed.

use crate::host::{is_done, opened};
use crate::refusals::Memory;
use host_core::{Event, Outcome};
use session_slots::SessionId;
use shogi_search::NoMemo;
use std::alloc::Global;
use std::process::Abort;
use std::test::Fail;
use test_facade::{OpaqueHost, OpaqueSession};
use test_support::rows::INFO_AND_BEST_ONE;
use test_support::{FailingAllocator, holds, same};
use usi_session::CHUNK_MAX;

// The most room that an idle session keeps: 8,192 bytes for what it reads and 4,096 for what it
// says.
const KEPT: usize = 12_288;

// A line of 65,535 bytes that is no command, and its LF.
fn longest_line(alloc: Global) -> Result<Vec<u8>, Fail> {
    let mut line = vec![in alloc; b'x'; 65_535]?;
    line.push(b'\n')?;
    Ok(line)
}

// 4,096 bytes for which 234,496 are answered.
fn usi_lines(alloc: Global) -> Result<Vec<u8>, Fail> {
    let mut lines = Vec::new(alloc);
    for _ in 0..1024 {
        lines.extend_from_slice(b"usi\n")?;
    }
    Ok(lines)
}

// Feeds the bytes in chunks, and answers each.
fn say(session: &mut OpaqueSession<&Memory>, bytes: &[u8]) -> Result<(), Fail> {
    for chunk in bytes.chunks(CHUNK_MAX) {
        session.feed(chunk)?;
        session.work(&mut NoMemo, u64::MAX)?;
    }
    Ok(())
}

// The line is read to its end, and nothing of it is kept.
fn assert_line(
    rt: &impl Abort,
    memory: &Memory,
    session: &mut OpaqueSession<&Memory>,
    unended: &[u8],
) -> Result<(), Fail> {
    say(session, unended)?;
    holds!(*rt; memory.held() >= 65_535);
    say(session, b"\n")?;
    holds!(*rt; memory.held() <= KEPT, memory.held());
    Ok(())
}

// What is kept is at most eight times what is queued, however small the chunks are in which it is
// taken.
fn assert_taken(
    rt: &impl Abort,
    memory: &Memory,
    session: &mut OpaqueSession<&Memory>,
    most: usize,
) {
    for _ in 0..234_496 {
        if session.output().is_empty() {
            break;
        }
        session.take(most);
        let queued = session.output().len();
        let bound = queued.saturating_mul(8).saturating_add(KEPT);
        holds!(*rt; memory.held() <= bound, memory.held());
    }
    holds!(*rt; session.output().is_empty() && memory.held() <= KEPT, memory.held());
}

// A long line, and then a long answer that is taken in such chunks.
fn assert_small(
    rt: &impl Abort,
    alloc: Global,
    memory: &Memory,
    session: &mut OpaqueSession<&Memory>,
    most: usize,
) -> Result<(), Fail> {
    let unended = vec![in alloc; b'x'; 65_535]?;
    assert_line(rt, memory, session, unended.as_slice())?;
    say(session, usi_lines(alloc)?.as_slice())?;
    holds!(*rt; memory.held() >= 234_496);
    assert_taken(rt, memory, session, most);
    Ok(())
}

#[test]
fn an_idle_session_is_small(rt: HostRuntime) -> Result<(), Fail> {
    let memory = FailingAllocator::new(rt.alloc());
    let mut session = OpaqueSession::new(&memory);
    same!(rt; memory.held(), 0);
    for most in [1, 117, 4096, usize::MAX] {
        assert_small(&rt, rt.alloc(), &memory, &mut session, most)?;
    }
    drop(session);
    same!(rt; memory.held(), 0);
    Ok(())
}

// A line that is too long ends the session, and nothing of it is kept.
#[test]
fn a_session_that_is_over_is_small(rt: HostRuntime) -> Result<(), Fail> {
    let memory = FailingAllocator::new(rt.alloc());
    let mut session = OpaqueSession::new(&memory);
    let line = vec![in rt.alloc(); b'x'; 65_536]?;
    say(&mut session, line.as_slice())?;
    holds!(rt; session.is_over());
    session.take(usize::MAX);
    holds!(rt; memory.held() <= KEPT, memory.held());
    Ok(())
}

// Room that no smaller block replaces stays, with what is in it. An empty queue and an empty buffer
// need no block.
fn assert_nothing_lost(
    rt: &impl Abort,
    memory: &Memory,
    session: &mut OpaqueSession<&Memory>,
) -> Result<(), Fail> {
    memory.refuse_from(1);
    session.take(234_496 - 20);
    holds!(*rt; memory.refused() > 0 && memory.held() >= 234_496);
    holds!(*rt; session.output() == b"1 min 1 max 8\nusiok\n".as_slice());
    session.take(10);
    holds!(*rt; session.output() == b"x 8\nusiok\n".as_slice());
    session.take(10);
    holds!(*rt; memory.held() <= KEPT, memory.held());
    memory.refuse_nothing();
    say(session, b"isready\n")?;
    holds!(*rt; session.output() == b"readyok\n".as_slice());
    Ok(())
}

#[test]
fn a_refused_block_loses_nothing(rt: HostRuntime) -> Result<(), Fail> {
    let memory = FailingAllocator::new(rt.alloc());
    let mut session = OpaqueSession::new(&memory);
    say(&mut session, longest_line(rt.alloc())?.as_slice())?;
    say(&mut session, usi_lines(rt.alloc())?.as_slice())?;
    assert_nothing_lost(&rt, &memory, &mut session)
}

// Thirty positions.
fn usual_lines(alloc: Global) -> Result<Vec<u8>, Fail> {
    let mut lines = Vec::new(alloc);
    for _ in 0..30 {
        lines.extend_from_slice(
            b"position startpos moves 7g7f 3c3d 2g2f 8c8d 2f2e 8d8e\nisready\n",
        )?;
    }
    Ok(lines)
}

// Dialogues of a few hundred bytes ask for room at first alone: with the same room the same is said
// again.
#[test]
fn usual_lines_keep_their_room(rt: HostRuntime) -> Result<(), Fail> {
    let memory = FailingAllocator::new(rt.alloc());
    let mut session = OpaqueSession::new(&memory);
    let lines = usual_lines(rt.alloc())?;
    let mut held = 0;
    for round in 0..100 {
        say(&mut session, lines.as_slice())?;
        session.take(usize::MAX);
        if round == 0 {
            held = memory.held();
        }
        holds!(rt; held <= KEPT && memory.held() == held, held);
    }
    Ok(())
}

fn does(rt: &impl Abort, host: &mut OpaqueHost<&Memory>, event: Event<'_>) {
    holds!(*rt; is_done(&host.step(event)), event);
}

fn answer(rt: &impl Abort, host: &mut OpaqueHost<&Memory>, id: SessionId, bytes: &[u8]) {
    for chunk in bytes.chunks(CHUNK_MAX) {
        does(rt, host, Event::Feed(id, chunk));
        does(rt, host, Event::Work(id, u64::MAX));
    }
}

// Opens a session, has it answer the bytes, takes so many bytes of answers, which are all, and
// closes it.
fn serve(
    rt: &impl Abort,
    host: &mut OpaqueHost<&Memory>,
    bytes: &[u8],
    answered: usize,
) -> Result<(), Fail> {
    let id = opened(&host.step(Event::Open))?;
    answer(rt, host, id, bytes);
    same!(*rt; host.output(id).map(|queued| queued.len()), Some(answered));
    let taken = host.step(Event::Take(id, answered));
    holds!(*rt; matches!(&taken, Outcome::Gave(given) if given.as_slice().len() == answered));
    does(rt, host, Event::Close(id));
    Ok(())
}

// Each hundredth session has a long line and a long answer. The table is full after the first
// search.
fn assert_as_small(
    rt: &impl Abort,
    alloc: Global,
    memory: &Memory,
    host: &mut OpaqueHost<&Memory>,
) -> Result<(), Fail> {
    let (line, lines) = (longest_line(alloc)?, usi_lines(alloc)?);
    let mut held = 0;
    for number in 0..1_000u64 {
        let (sent, answered) = match number % 100 {
            98 => (line.as_slice(), 0),
            99 => (lines.as_slice(), 234_496),
            _ => (b"go depth 1\n".as_slice(), INFO_AND_BEST_ONE.len()),
        };
        serve(rt, host, sent, answered)?;
        if number == 0 {
            held = memory.held();
        }
        same!(*rt; memory.held(), held, number);
    }
    Ok(())
}

#[test]
fn a_host_is_as_small_as_it_was(rt: HostRuntime) -> Result<(), Fail> {
    let memory = FailingAllocator::new(rt.alloc());
    let mut host = OpaqueHost::new(&memory, 2, 1)?;
    assert_as_small(&rt, rt.alloc(), &memory, &mut host)?;
    drop(host);
    same!(rt; memory.held(), 0);
    Ok(())
}
