//! The job `measure`: times counts of moves and searches, and counts steps. It answers each line of standard
//! input with one line.

use crate::request::{Refusal, Request, read};
use anyhow::{Result, anyhow};
use shogi_core::{Move, Position};
use shogi_eval::Eval;
use shogi_moves::perft;
use shogi_search::{Found, Memo, NoMemo, search};
use shogi_sfen::write_move;
use std::alloc::Global;
use std::time::Instant;
use std::{fmt, io};
use test_facade::{OpaqueSession, table_of};
use usi_lines::DEPTH_MAX;
use usi_texts::DEPTH_DEFAULT;

/// A count as it is printed: a number, or `too-many` from 2^64 up.
#[derive(Clone, Copy, Debug)]
struct Count(Option<u64>);

impl fmt::Display for Count {
    fn fmt<W: fmt::Write>(&self, f: &mut fmt::Formatter<W>) -> fmt::Result {
        match self.0 {
            Some(count) => write!(f, "{count}"),
            None => write!(f, "too-many"),
        }
    }
}

/// A best move as it is printed: its USI text, or `none`.
#[derive(Clone, Copy, Debug)]
struct BestMove(Option<Move>);

impl fmt::Display for BestMove {
    fn fmt<W: fmt::Write>(&self, f: &mut fmt::Formatter<W>) -> fmt::Result {
        let Some(best) = self.0 else {
            return write!(f, "none");
        };
        let text = write_move(best);
        match str::from_utf8(text.as_slice()) {
            Ok(text) => write!(f, "{text}"),
            // The text of a move is ASCII.
            Err(_) => Err(fmt::Error),
        }
    }
}

/// Counts the sequences of so many moves, and prints how long that took.
fn time_perft(rt: &HostRuntime, p: &Position, depth: u8) -> io::Result<()> {
    let start = Instant::now(rt)?;
    let count = Count(perft(p, depth.min(16)));
    let seconds = start.elapsed(rt)?.as_secs_f64();
    println!(rt; "perft {depth} {count} {seconds:.6}")
}

/// Searches over the memo, and prints how long that took.
fn time_search<M: Memo>(
    rt: &HostRuntime,
    p: &Position,
    eval: Eval,
    depth: u8,
    memo: &mut M,
) -> io::Result<()> {
    let start = Instant::now(rt)?;
    let found = search(p, eval, depth.min(16), memo);
    let seconds = start.elapsed(rt)?.as_secs_f64();
    let Found { value, best, steps } = found;
    let best = BestMove(best);
    println!(rt; "search {depth} {value} {best} {steps} {seconds:.6}")
}

/// The lines as a session is sent them.
fn sent_lines(alloc: Global, lines: &[u8]) -> Result<Vec<u8>> {
    let mut sent = Vec::new(alloc);
    for byte in lines {
        sent.push(if *byte == b';' { b'\n' } else { *byte })?;
    }
    sent.push(b'\n')?;
    Ok(sent)
}

/// Sends a session lines.
fn send(session: &mut OpaqueSession<Global>, lines: &[u8]) -> Result<()> {
    let fed = session.feed(lines);
    fed.map_err(|_| anyhow!("a session is not heard"))
}

/// A session that offers each evaluation, and begins under `Plain`.
fn session_of<M: Memo>(alloc: Global, memo: &mut M) -> Result<OpaqueSession<Global>> {
    let made = OpaqueSession::under(alloc, DEPTH_DEFAULT, DEPTH_MAX, 1, Eval::Exchange);
    let mut session = made.map_err(|_| anyhow!("there is no setup of these numbers"))?;
    send(&mut session, b"setoption name Eval value Plain\n")?;
    session.work(memo, u64::MAX)?;
    Ok(session)
}

/// How many steps a session over the memo has made each time that it wrote something. It makes one at a time.
fn steps_of<M: Memo>(alloc: Global, lines: &[u8], memo: &mut M) -> Result<Vec<u64>> {
    let mut session = session_of(alloc, memo)?;
    let sent = sent_lines(alloc, lines)?;
    send(&mut session, sent.as_slice())?;
    let mut counts = Vec::new(alloc);
    let mut made = 0u64;
    for _ in 0..u64::MAX {
        if !session.pending() {
            break;
        }
        made = made.saturating_add(session.work(memo, 1)?);
        if !session.output().is_empty() {
            session.take(usize::MAX);
            counts.push(made)?;
        }
    }
    Ok(counts)
}

/// Prints the steps of a session.
fn count_steps<M: Memo>(rt: &HostRuntime, lines: &[u8], memo: &mut M) -> Result<()> {
    let counts = steps_of(rt.alloc(), lines, memo)?;
    print!(rt; "steps")?;
    for count in counts.as_slice() {
        print!(rt; " {count}")?;
    }
    println!(rt)?;
    Ok(())
}

/// Answers over the memo. Only a count of moves asks none.
fn answer_over<M: Memo>(rt: &HostRuntime, request: &Request<'_>, memo: &mut M) -> Result<()> {
    match request {
        Request::Perft { depth, position } => time_perft(rt, position, *depth)?,
        Request::Search {
            depth,
            eval,
            position,
            ..
        } => time_search(rt, position, *eval, *depth, memo)?,
        Request::Steps { lines, .. } => count_steps(rt, lines, memo)?,
    }
    Ok(())
}

/// Prints on standard error why the line of this number could not be answered.
fn refuse(rt: &HostRuntime, number: usize, refusal: Refusal) -> Result<()> {
    eprintln!(rt; "measure: line {number}: {refusal}")?;
    Ok(())
}

/// Answers the request of the line of this number, or says why not.
fn answer(rt: &HostRuntime, number: usize, request: &Request<'_>) -> Result<()> {
    let entries = match request {
        Request::Perft { .. } => 0,
        Request::Search { entries, .. } => *entries,
        Request::Steps { entries, .. } => *entries,
    };
    if entries == 0 {
        return answer_over(rt, request, &mut NoMemo);
    }
    match table_of(rt.alloc(), entries) {
        Ok(mut table) => answer_over(rt, request, &mut table),
        Err(_) => refuse(rt, number, Refusal::OutOfMemory),
    }
}

/// Answers each line of standard input.
pub fn measure(rt: &HostRuntime) -> Result<()> {
    for (index, line) in rt.lines(rt.alloc()).enumerate() {
        let number = index.saturating_add(1);
        match line {
            Ok(line) => match read(line.as_str()) {
                Ok(request) => answer(rt, number, &request)?,
                Err(refusal) => refuse(rt, number, refusal)?,
            },
            Err(error) if error.kind() == io::ErrorKind::InvalidData => {
                refuse(rt, number, Refusal::NotText)?
            }
            Err(error) => return Err(error.into()),
        }
    }
    Ok(())
}
