//! Rows as sessions of their own: through the program's streams, and in slices, cut in two and by turns over
//! several memories.

use crate::found::Found;
use crate::row::{Place, Row};
use shogi_search::{Memo, NoMemo};
use std::alloc::{AllocError, Global};
use test_facade::{OpaqueSession, SeedlessTable, table_of};
use usi_stdio::{Duplex, stdio_with_setup};

/// The most slices of one run.
const SLICES: u64 = 1_000_000;

type Table = SeedlessTable<Global>;

/// A session, and the steps that it made. It is fed nothing that it may not be fed.
#[derive(Drop)]
struct Talk {
    session: OpaqueSession<Global>,
    steps: u64,
    is_short: bool,
}

impl Talk {
    fn new((alloc, setup): Place) -> Talk {
        Talk {
            session: OpaqueSession::with_setup(alloc, setup),
            steps: 0,
            is_short: false,
        }
    }

    /// Feeds the bytes, where input is wanted.
    fn feed(&mut self, chunk: &[u8]) {
        if self.session.wants_input() && self.session.feed(chunk).is_err() {
            self.is_short = true;
        }
    }

    /// Works one slice.
    fn work<M: Memo>(&mut self, memo: &mut M, budget: u64) {
        match self.session.work(memo, budget) {
            Ok(made) => self.steps = self.steps.saturating_add(made),
            Err(_) => self.is_short = true,
        }
    }

    /// Works in slices of this budget until nothing is pending.
    fn work_off<M: Memo>(&mut self, memo: &mut M, budget: u64) {
        for _ in 0..SLICES {
            if !self.pending() {
                break;
            }
            self.work(memo, budget);
        }
    }

    fn pending(&self) -> bool {
        self.session.pending() && !self.is_short
    }

    /// What was said. Where memory ran out, another text.
    fn said(&self) -> &[u8] {
        if self.is_short {
            return b"out of memory\n";
        }
        self.session.output()
    }
}

fn new_table(alloc: Global, entries: usize) -> Result<Table, AllocError> {
    table_of(alloc, entries).map_err(|_| AllocError)
}

/// What the program's streams write, and whether they ended well.
fn written((alloc, setup): Place, row: &Row, entries: usize) -> (Vec<u8>, bool) {
    let mut ends = Duplex::new(row.sent.as_bytes(), Vec::new(alloc));
    let ended = stdio_with_setup(alloc, setup, &mut ends, entries.clamp(1, 1_000_000));
    let Duplex { output, .. } = ends;
    (output, ended.is_ok())
}

/// The row through the streams.
fn run_streams(at: Place, row: &Row, found: &mut Found) {
    for entries in [1usize, 2, 4096] {
        let (said, is_ok) = written(at, row, entries);
        found.holds(row, "through the streams", "they failed\n", is_ok);
        found.said(row, "through the streams", said.as_slice());
    }
}

/// The row in slices of this budget. Gives the steps that were made.
fn run_slices<M: Memo>(at: Place, memo: &mut M, row: &Row, budget: u64, found: &mut Found) -> u64 {
    let mut talk = Talk::new(at);
    talk.feed(row.sent.as_bytes());
    talk.work_off(memo, budget);
    found.said(row, "in slices", talk.said());
    talk.steps
}

/// The steps are the same in slices of any budget.
fn run_budgets(at: Place, row: &Row, found: &mut Found) {
    let whole = run_slices(at, &mut NoMemo, row, u64::MAX, found);
    for budget in [1, 2, 7, 61, 1000] {
        let steps = run_slices(at, &mut NoMemo, row, budget, found);
        found.holds(row, "in slices", "other steps\n", steps == whole);
    }
}

/// The row in two parts, the second fed after the first was answered.
fn run_parts<M: Memo>(
    at: Place,
    memo: &mut M,
    row: &Row,
    (first, second): (&[u8], &[u8]),
    found: &mut Found,
) {
    let mut talk = Talk::new(at);
    for part in [first, second] {
        talk.feed(part);
        talk.work_off(memo, u64::MAX);
    }
    found.said(row, "cut in two", talk.said());
}

/// The row cut at each place.
fn run_cuts<M: Memo>(at: Place, memo: &mut M, row: &Row, found: &mut Found) {
    let sent = row.sent.as_bytes();
    for place in 0..sent.len() {
        if let Some(parts) = sent.split_at_checked(place) {
            run_parts(at, memo, row, parts, found);
        }
    }
}

/// Two rows by turns, step by step, over one memory.
fn run_turns<M: Memo>(at: Place, memo: &mut M, one: &Row, other: &Row, found: &mut Found) {
    let (mut first, mut second) = (Talk::new(at), Talk::new(at));
    first.feed(one.sent.as_bytes());
    second.feed(other.sent.as_bytes());
    for _ in 0..SLICES {
        if !first.pending() && !second.pending() {
            break;
        }
        first.work(memo, 1);
        second.work(memo, 1);
    }
    found.said(one, "by turns", first.said());
    found.said(other, "by turns", second.said());
}

/// Everything that is run of a single row, over a small and a large table among others.
fn run_row(at: Place, small: &mut Table, large: &mut Table, row: &Row, found: &mut Found) {
    run_streams(at, row, found);
    run_budgets(at, row, found);
    for budget in [1, u64::MAX] {
        run_slices(at, small, row, budget, found);
        run_slices(at, large, row, budget, found);
    }
    run_cuts(at, &mut NoMemo, row, found);
    run_cuts(at, large, row, found);
}

pub fn run(at: Place, rows: &[Row], found: &mut Found) -> Result<(), AllocError> {
    let (alloc, _) = at;
    let (mut small, mut large) = (new_table(alloc, 1)?, new_table(alloc, 4096)?);
    for row in rows {
        run_row(at, &mut small, &mut large, row, found);
    }
    for pair in rows.windows(2) {
        if let [one, other] = pair {
            run_turns(at, &mut small, one, other, found);
            run_turns(at, &mut new_table(alloc, 4096)?, one, other, found);
        }
    }
    Ok(())
}
