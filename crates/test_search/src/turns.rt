//! Searches in slices: two by turns, and the calls of one that makes a step at a time.

use crate::oracle::Oracle;
use crate::recorder::Recorder;
use crate::searches::{TestSearch, brief};
use crate::tables::table_of;
use shogi_core::Position;
use shogi_eval::Eval;
use shogi_search::{Entry, Found, Memo, NoMemo};
use std::alloc::Global;
use std::process::Abort;
use std::test::Fail;
use test_support::{holds, same};

/// Depths from the opening position, with the value and the code of the best move as another program
/// found them: 1g1f twice, then 7g7f twice.
const OPENING: [(u8, (i32, u16)); 4] = [
    (1, (0, 982)),
    (2, (0, 982)),
    (3, (200, 9838)),
    (4, (0, 9838)),
];

fn assert_found(rt: &impl Abort, found: &Found, (value, code): (i32, u16)) {
    same!(*rt; brief(found), (value, Some(code)));
}

/// Advances by turns, a step each, until both have ended: the first over the memory, the second over it
/// and over none at alternate calls.
fn by_turns<M: Memo>(
    first: &mut TestSearch,
    second: &mut TestSearch,
    memo: &mut M,
) -> Option<(Found, Found)> {
    for turn in 0..100000u64 {
        let one = first.advance(memo, 1);
        let two = if turn % 2 == 0 {
            second.advance(memo, 1)
        } else {
            second.advance(&mut NoMemo, 1)
        };
        if let (Some(one), Some(two)) = (one, two) {
            return Some((one, two));
        }
    }
    None
}

fn assert_turns<M: Memo>(rt: &impl Abort, memo: &mut M, depth: u8, wanted: (i32, u16)) {
    let mut first = TestSearch::start(&Position::start(), Eval::Plain, depth);
    let mut second = TestSearch::start(&Position::start(), Eval::Plain, depth);
    let (one, two) = by_turns(&mut first, &mut second, memo).expect(rt, "an end");
    assert_found(rt, &one, wanted);
    assert_found(rt, &two, wanted);
    same!(*rt; (one.steps, two.steps), (first.steps(), second.steps()));
}

#[test]
fn two_searches_by_turns_over_one_table(rt: HostRuntime) -> Result<(), Fail> {
    for capacity in [1usize, 100] {
        for (depth, wanted) in OPENING {
            assert_turns(&rt, &mut table_of(rt.alloc(), capacity)?, depth, wanted);
        }
    }
    Ok(())
}

#[test]
fn two_searches_by_turns_over_an_oracle(rt: HostRuntime) {
    for (depth, wanted) in OPENING {
        assert_turns(&rt, &mut Oracle, depth, wanted);
    }
}

// A search that is under way begins anew, and so does one that has ended: each finds what one finds that was
// made for it, from no step on.
#[test]
fn a_search_begins_anew(rt: HostRuntime) -> Result<(), Fail> {
    let start = Position::start();
    let mut search = TestSearch::start(&start, Eval::Hand, 4);
    holds!(rt; search.advance(&mut NoMemo, 100).is_none());
    search.restart(&start, Eval::Plain, 3);
    same!(rt; search.steps(), 0);
    let found = search.advance(&mut NoMemo, u64::MAX).ok_or("an end")?;
    assert_found(&rt, &found, (200, 9838));
    search.restart_below(&start, Eval::Plain, 1, 1);
    let found = search.advance(&mut NoMemo, u64::MAX).ok_or("an end")?;
    assert_found(&rt, &found, (0, 982));
    Ok(())
}

// In slices of any size a search finds the same, in as many steps.
#[test]
fn in_slices(rt: HostRuntime) -> Result<(), Fail> {
    for budget in [1, 7, 1000, u64::MAX] {
        let mut search = TestSearch::start(&Position::start(), Eval::Plain, 3);
        let mut found = None;
        for _ in 0..962u64 {
            if found.is_none() {
                found = search.advance(&mut NoMemo, budget);
            }
        }
        let found = found.ok_or("an end")?;
        assert_found(&rt, &found, (200, 9838));
        holds!(rt; found.steps < 962 && found.steps == search.steps(), budget);
    }
    Ok(())
}

// An exact answer at the root takes no step, for every budget; after the end the answer stays.
#[test]
fn a_root_that_is_known(rt: HostRuntime) -> Result<(), Fail> {
    for budget in [0, 1, 1000] {
        let mut search = TestSearch::start(&Position::start(), Eval::Plain, 1);
        let found = search.advance(&mut Oracle, budget).ok_or("an end at once")?;
        assert_found(&rt, &found, (0, 982));
        let again = search.advance(&mut NoMemo, 1000).ok_or("an end")?;
        holds!(rt; again == found);
        same!(rt; (found.steps, search.steps()), (0, 0));
    }
    Ok(())
}

// A step is no whole search: each asks and notes a few times.
#[test]
fn few_calls_in_a_step(rt: HostRuntime) -> Result<(), Fail> {
    let mut search = TestSearch::start(&Position::start(), Eval::Plain, 3);
    let mut recorder = Recorder::new(rt.alloc(), NoMemo);
    let mut before = 0usize;
    for made in 0..60000u64 {
        let found = search.advance(&mut recorder, 1);
        let calls = recorder.calls().len();
        holds!(rt; calls.saturating_sub(before) <= 10, made);
        before = calls;
        if let Some(found) = found {
            assert_found(&rt, &found, (200, 9838));
            same!(rt; found.steps, search.steps());
            return Ok(());
        }
    }
    Err(Fail::from("an end"))
}

// The last call notes what was found at the root, and after the end there is none.
fn assert_last_call<M: Memo + Drop>(
    rt: &impl Abort,
    alloc: Global,
    memo: M,
    depth: u8,
    wanted: (i32, u16),
) -> Result<(), Fail> {
    let start = Position::start();
    let mut search = TestSearch::start(&start, Eval::Plain, depth);
    let mut recorder = Recorder::new(alloc, memo);
    let found = search.step_by_step(&mut recorder).ok_or("an end")?;
    assert_found(rt, &found, wanted);
    let calls = recorder.calls().len();
    let last = recorder.calls().last().copied().ok_or("a call")?;
    holds!(*rt; last.position == start && last.eval == Eval::Plain && last.depth == depth);
    holds!(*rt; last.noted == Some(Entry::Exact(found.value, found.best)));
    for budget in [0, 1, 1000, u64::MAX] {
        holds!(*rt; search.advance(&mut recorder, budget) == Some(found));
        same!(*rt; recorder.calls().len(), calls, budget);
    }
    same!(*rt; search.steps(), found.steps);
    Ok(())
}

#[test]
fn the_last_call_notes_the_root(rt: HostRuntime) -> Result<(), Fail> {
    for (depth, wanted) in OPENING {
        assert_last_call(&rt, rt.alloc(), NoMemo, depth, wanted)?;
        assert_last_call(&rt, rt.alloc(), table_of(rt.alloc(), 1)?, depth, wanted)?;
    }
    Ok(())
}
