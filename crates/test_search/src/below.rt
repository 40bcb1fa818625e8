//! Searches below a bound: against plain minimax, and themselves in slices.

use crate::forgetful::Forgetful;
use crate::plain::{children_of, minimax};
use crate::positions::{each_twentieth, position};
use crate::searches::{TestSearch, brief, search, search_below};
use crate::tables::{TWO_PAWNS, table_of};
use shogi_core::Position;
use shogi_eval::Eval;
use shogi_search::{Found, INFINITY, Memo, NoMemo};
use std::alloc::Global;
use std::process::Abort;
use std::test::Fail;
use test_support::{games, holds, same};

// Bounds at both ends, and far below, just below, at, just above and far above a value.
fn bounds_of(value: i32) -> [i32; 7] {
    let by = |n: i32| value.saturating_add(n);
    [-30999, by(-250), by(-1), value, by(1), by(250), 31000]
}

// Below the bound lies the value, and then it is found with the best move; or what is found is no less
// than the bound and no more than the value.
fn assert_below(rt: &impl Abort, found: &Found, plain: &Found, beta: i32) {
    if plain.value < beta {
        same!(*rt; found.value, plain.value, beta);
        holds!(*rt; found.best == plain.best, beta);
    } else {
        holds!(*rt; beta <= found.value, beta);
        holds!(*rt; found.value <= plain.value, "no more than the value");
        holds!(*rt; found.best.is_none() || found.best == plain.best);
    }
    holds!(*rt; found.steps <= plain.steps, beta);
}

// The search below a bound, made a step at a time.
fn in_steps<M: Memo>(p: &Position, e: Eval, depth: u8, beta: i32, memo: &mut M) -> Option<Found> {
    TestSearch::start_below(p, e, depth, beta).step_by_step(memo)
}

// Over no memory, whole and in steps, over one that forgets, and over a table of its own. Over that
// table the whole search then finds the value and the best move.
fn assert_bound(
    rt: &impl Abort,
    alloc: Global,
    p: &Position,
    (e, depth): (Eval, u8),
    plain: &Found,
    beta: i32,
    memo: &mut Forgetful,
) -> Result<(), Fail> {
    let found = search_below(rt, p, e, depth, beta, &mut NoMemo);
    assert_below(rt, &found, plain, beta);
    holds!(*rt; in_steps(p, e, depth, beta, &mut NoMemo) == Some(found));
    assert_below(rt, &search_below(rt, p, e, depth, beta, memo), plain, beta);

    let mut table = table_of(alloc, 1000)?;
    let found = in_steps(p, e, depth, beta, &mut table).ok_or("an end")?;
    assert_below(rt, &found, plain, beta);
    assert_below(
        rt,
        &search_below(rt, p, e, depth, beta, &mut table),
        plain,
        beta,
    );
    same!(*rt; brief(&search(p, e, depth, &mut table)), brief(plain), beta);
    Ok(())
}

// Each twentieth position of a game, at depths 0 to 2, below each bound around its value.
fn walk(rt: &impl Abort, alloc: Global, moves: &[&str]) -> Result<(), Fail> {
    let mut memo = Forgetful::new();
    for p in each_twentieth(rt, alloc, moves)?.as_slice() {
        for (e, depth) in [(Eval::Plain, 0u8), (Eval::Hand, 1), (Eval::Plain, 2)] {
            let plain = minimax(p, e, depth);
            for beta in bounds_of(plain.value) {
                assert_bound(rt, alloc, p, (e, depth), &plain, beta, &mut memo)?;
            }
        }
    }
    Ok(())
}

#[test]
fn first_game_below(rt: HostRuntime) -> Result<(), Fail> {
    walk(&rt, rt.alloc(), games::first())
}

// Below each of four bounds, one search after another.
fn assert_bounds<M: Memo>(rt: &impl Abort, p: &Position, depth: u8, plain: &Found, memo: &mut M) {
    for beta in [-30999, 0, 1, 200] {
        let found = search_below(rt, p, Eval::Plain, depth, beta, memo);
        assert_below(rt, &found, plain, beta);
    }
}

#[test]
fn bounds_over_tables(rt: HostRuntime) -> Result<(), Fail> {
    for (p, depth) in [(Position::start(), 3u8), (position(TWO_PAWNS)?, 5)] {
        let plain = minimax(&p, Eval::Plain, depth);
        assert_bounds(&rt, &p, depth, &plain, &mut NoMemo);
        for capacity in [1, 30, 1000] {
            let mut table = table_of(rt.alloc(), capacity)?;
            assert_bounds(&rt, &p, depth, &plain, &mut table);
        }
    }
    Ok(())
}

// The children of a position by rising code, one search in the room of another, each below the least value
// so far.
fn assert_children<M: Memo>(
    rt: &impl Abort,
    alloc: Global,
    p: &Position,
    depth: u8,
    memo: &mut M,
) -> Result<(), Fail> {
    let mut search = TestSearch::start(p, Eval::Plain, 0);
    let mut beta = INFINITY;
    for child in children_of(alloc, p)?.as_slice() {
        search.restart_below(&child.position, Eval::Plain, depth, beta);
        let found = search.advance(memo, u64::MAX).ok_or("an end")?;
        let plain = minimax(&child.position, Eval::Plain, depth);
        assert_below(rt, &found, &plain, beta);
        beta = i32::min(beta, found.value);
    }
    Ok(())
}

#[test]
fn one_search_after_another(rt: HostRuntime) -> Result<(), Fail> {
    for (p, depth) in [(Position::start(), 2u8), (position(TWO_PAWNS)?, 4)] {
        assert_children(&rt, rt.alloc(), &p, depth, &mut NoMemo)?;
        let mut table = table_of(rt.alloc(), 1000)?;
        assert_children(&rt, rt.alloc(), &p, depth, &mut table)?;
    }
    Ok(())
}
