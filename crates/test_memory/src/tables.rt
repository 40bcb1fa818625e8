//! A table whose growth is refused.

use crate::refusals::{Memory, Trial, refuse_each};
use shogi_search::Memo;
use std::alloc::Global;
use std::process::Abort;
use std::test::Fail;
use test_facade::{OpaqueSession, table_of};
use test_support::holds;
use test_support::rows::joined;
use test_support::tables::opening;

/// A session over this table answers the opening position at depth 3 as it should.
pub fn assert_answers<M: Memo>(rt: &impl Abort, alloc: Global, table: &mut M) -> Result<(), Fail> {
    let row = opening();
    let answer = joined(alloc, row.answer)?;
    let mut session = OpaqueSession::new(alloc);
    session.feed(row.sent.as_bytes())?;
    session.work(table, u64::MAX)?;
    holds!(*rt; session.output() == answer.as_bytes());
    Ok(())
}

/// A table of 1,000,000 entries.
#[derive(Clone, Copy)]
struct LargeTable;

// It is refused what it needs where the table is not made, and not where it may not grow.
impl Trial for LargeTable {
    fn run<R: Abort>(&self, rt: &R, alloc: Global, memory: &Memory) -> Result<u64, Fail> {
        let Ok(mut table) = table_of(memory, 1_000_000) else {
            return Ok(1);
        };
        assert_answers(rt, alloc, &mut table)?;
        Ok(0)
    }
}

// The search is as good: a note that finds no memory is not kept, and is no fault of the search.
#[test]
fn a_table_whose_growth_is_refused(rt: HostRuntime) -> Result<(), Fail> {
    let met = refuse_each(&rt, rt.alloc(), &LargeTable, true)?;
    holds!(rt; met.requests > met.refusals, met);
    println!(rt; "a table of 1,000,000 entries: {} requests", met.requests)?;
    Ok(())
}
