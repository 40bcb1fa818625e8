//! Values and best moves: those of another program, and those of plain minimax over tables of several sizes.

use crate::plain::{minimax, minimax_by_depth};
use crate::positions::position;
use crate::recorder::Recorder;
use crate::searches::{TestSearch, brief, search};
use crate::tables::{TWO_PAWNS, table_of};
use shogi_core::Position;
use shogi_eval::Eval;
use shogi_search::{Found, Memo, NoMemo};
use std::alloc::Global;
use std::process::Abort;
use std::test::Fail;
use test_support::{holds, same};

// Another program's values and best moves: 1g1f twice, 7g7f twice, and 9g9f.
#[test]
fn the_opening_over_no_memory(rt: HostRuntime) {
    let start = Position::start();
    for (depth, value, code) in [
        (1u8, 0, 982),
        (2, 0, 982),
        (3, 200, 9838),
        (4, 0, 9838),
        (5, 200, 12790),
    ] {
        let found = search(&start, Eval::Plain, depth, &mut NoMemo);
        same!(rt; brief(&found), (value, Some(code)), depth);
    }
}

// At depth 1 the root is answered at once. At depth 2 it is entered, its first move is answered, no other is
// better, and it is left. At depth 3 there are 30 positions after a move and 900 after two, so that all
// moves take twice 31 steps and 900.
#[test]
fn steps_from_the_opening(rt: HostRuntime) {
    let start = Position::start();
    for (depth, least, most) in [(1, 1, 1), (2, 3, 3), (3, 1, 961)] {
        let steps = search(&start, Eval::Plain, depth, &mut NoMemo).steps;
        holds!(rt; least <= steps && steps <= most, steps);
    }
}

// Searches at depths from 1 on find what plain minimax does.
fn assert_by_depth<M: Memo>(
    rt: &impl Abort,
    p: &Position,
    e: Eval,
    plain: &[(u8, Found)],
    memo: &mut M,
) {
    for (depth, wanted) in plain {
        let found = search(p, e, *depth, memo);
        same!(*rt; brief(&found), brief(wanted), *depth);
    }
}

// The same, one search in the room of another, with the best moves of the two before to visit first, as a
// `go` makes them.
fn assert_deeper<M: Memo>(
    rt: &impl Abort,
    p: &Position,
    e: Eval,
    plain: &[(u8, Found)],
    memo: &mut M,
) -> Result<(), Fail> {
    let mut search = TestSearch::start(p, e, 0);
    let mut best_moves = [None; 2];
    for (depth, wanted) in plain {
        search.restart(p, e, *depth);
        search.advise([best_moves[0], best_moves[1]]);
        let found = search.advance(memo, u64::MAX).ok_or("an end")?;
        same!(*rt; brief(&found), brief(wanted), *depth);
        best_moves = [best_moves[1], found.best];
    }
    Ok(())
}

// Both over no memory, where each node is asked for and where few are, and over tables of these sizes.
fn assert_values(
    rt: &impl Abort,
    alloc: Global,
    (p, e, deepest): (&Position, Eval, u8),
    capacities: &[usize],
) -> Result<(), Fail> {
    let plain = minimax_by_depth(alloc, p, e, deepest)?;
    let plain = plain.as_slice();
    assert_by_depth(rt, p, e, plain, &mut NoMemo);
    assert_by_depth(rt, p, e, plain, &mut Recorder::new(alloc, NoMemo));
    assert_deeper(rt, p, e, plain, &mut NoMemo)?;
    for capacity in capacities {
        assert_by_depth(rt, p, e, plain, &mut table_of(alloc, *capacity)?);
        assert_deeper(rt, p, e, plain, &mut table_of(alloc, *capacity)?)?;
    }
    Ok(())
}

#[test]
fn the_opening_over_tables(rt: HostRuntime) -> Result<(), Fail> {
    let start = Position::start();
    let capacities = [1, 2, 30, 1000, 100000];
    assert_values(&rt, rt.alloc(), (&start, Eval::Plain, 3), &capacities)?;
    assert_values(&rt, rt.alloc(), (&start, Eval::Hand, 3), &capacities)?;
    assert_values(&rt, rt.alloc(), (&start, Eval::Exchange, 3), &capacities)
}

#[test]
fn two_pawns_over_tables(rt: HostRuntime) -> Result<(), Fail> {
    let pawns = position(TWO_PAWNS)?;
    for e in [Eval::Plain, Eval::Hand, Eval::Exchange] {
        assert_values(&rt, rt.alloc(), (&pawns, e, 5), &[1, 2, 30, 1000])?;
    }
    Ok(())
}

/// G*5b mates.
const MATE: &str = "4k4/9/4P4/9/9/9/9/9/9 b G";

/// The king steps aside, and is mated.
const MATED: &str = "4k4/9/4G4/9/9/9/9/9/9 w G";

#[test]
fn mates_over_tables(rt: HostRuntime) -> Result<(), Fail> {
    for sfen in [MATE, MATED] {
        let mated = (&position(sfen)?, Eval::Plain, 4);
        assert_values(&rt, rt.alloc(), mated, &[1, 30, 1000])?;
    }
    Ok(())
}

// A mate is worth more the more plies are left, and one after two plies as much less.
#[test]
fn mates_at_depth_four(rt: HostRuntime) -> Result<(), Fail> {
    for (sfen, value, code) in [(MATE, 30003, 13483), (MATED, -30002, 5886)] {
        let found = search(&position(sfen)?, Eval::Plain, 4, &mut NoMemo);
        same!(rt; brief(&found), (value, Some(code)), sfen);
    }
    Ok(())
}

/// Positions of games between other programs, a few moves before their ends.
const PLAYED: [&str; 4] = [
    "lnskg1R2/5Ps2/ppgp1pn2/6ppb/4+b4/2PPS4/PPS1P1P1P/2pG3R1/LNK2G1NL b Pl2p",
    "ln1B5/1k+P+b3r1/pp1p1pn2/6p1s/9/2PPS4/PPS1P1P1P/2KG5/LN3G1NL w RGS3Pgl2p",
    "ln1B5/3b+R4/pp1p1pn2/1k4p1s/2+R6/2PPS4/PPS1P1P1P/2KG5/LN3G1NL w L4P2gs2p",
    "lns1k2nl/3g+B1gs1/pppp3pp/9/3b5/2P2P2P/PP1P2PP1/3GG2R1/LNS1K1SNL w R3Pp",
];

#[test]
fn the_ends_of_games(rt: HostRuntime) -> Result<(), Fail> {
    for sfen in PLAYED {
        let p = position(sfen)?;
        let plain = minimax(&p, Eval::Plain, 3);
        let found = search(&p, Eval::Plain, 3, &mut NoMemo);
        same!(rt; brief(&found), brief(&plain), sfen);
        let found = search(&p, Eval::Plain, 3, &mut table_of(rt.alloc(), 1000)?);
        same!(rt; brief(&found), brief(&plain), sfen);
    }
    Ok(())
}
