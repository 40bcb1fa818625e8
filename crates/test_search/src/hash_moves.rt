//! What a search asks its memory, and the hash move that a node visits first.

use crate::oracle::Oracle;
use crate::plain::minimax;
use crate::positions::{played, position};
use crate::recorder::{Call, Recorder};
use crate::searches::{TestSearch, search};
use crate::tables::table_of;
use shogi_core::{Move, Position};
use shogi_eval::Eval;
use shogi_moves::play;
use shogi_search::{Entry, NoMemo};
use std::process::Abort;
use std::test::Fail;
use test_support::{holds, same};

// The first steps go down to a node of depth 1. Each node from the root to depth 2 is asked for at its depth
// and then, for its best move, at the one below; the node of depth 1 is answered without a question.
#[test]
fn each_node_is_asked_for_on_the_way_down(rt: HostRuntime) -> Result<(), Fail> {
    for depth in 2..=16u8 {
        let mut search = TestSearch::start(&Position::start(), Eval::Plain, depth);
        let mut recorder = Recorder::new(rt.alloc(), NoMemo);
        search.advance(&mut recorder, u64::from(depth));
        let calls = recorder.calls();
        same!(rt; calls.len(), usize::from(depth - 1) * 2, depth);
        for (place, call) in calls.iter().enumerate() {
            let passed = place.saturating_add(1) / 2;
            same!(rt; usize::from(call.depth).saturating_add(passed), usize::from(depth));
            holds!(rt; call.noted.is_none(), depth);
        }
    }
    Ok(())
}

// After 7g7f the first move to visit is 1a1b, and after that the first one is the capture 8h3c, which loses
// the bishop: two and three plies deep another move is best there.
#[test]
fn a_child_visits_its_hash_move_first(rt: HostRuntime) -> Result<(), Fail> {
    let root = played(&rt, &Position::start(), "7g7f");
    let child = played(&rt, &root, "1a1b");
    let capture = played(&rt, &child, "8h3c");
    let mut bare = Recorder::new(rt.alloc(), NoMemo);
    TestSearch::start(&root, Eval::Plain, 4).advance(&mut bare, 3);
    let down = [(root, 4), (root, 3), (child, 3), (child, 2), (capture, 2)];
    assert_asked(&rt, bare.calls(), &down);
    for below in [2u8, 3] {
        let (inner, depth) = (below.saturating_add(1), below.saturating_add(2));
        let mut table = table_of(rt.alloc(), 10000)?;
        search(&child, Eval::Plain, below, &mut table);
        let mut recorder = Recorder::new(rt.alloc(), table);
        TestSearch::start(&root, Eval::Plain, depth).advance(&mut recorder, 3);
        let best = minimax(&child, Eval::Plain, below).best;
        let last = play(&child, best.ok_or("a move")?).expect(&rt, "a legal move");
        holds!(rt; last != capture, depth);
        let wanted = [
            (root, depth),
            (root, inner),
            (child, inner),
            (child, below),
            (last, below),
        ];
        assert_asked(&rt, recorder.calls(), &wanted);
    }
    Ok(())
}

/// After 7g7f and 3c3d: the bishops face each other.
const FACING: &str = "lnsgkgsnl/1r5b1/pppppp1pp/6p2/9/2P6/PP1PPPPPP/1B5R1/LNSGKGSNL b -";

// Each call asks for one of these positions at this depth.
fn assert_asked(rt: &impl Abort, calls: &[Call], wanted: &[(Position, u8)]) {
    holds!(*rt; calls.len() >= wanted.len());
    for ((position, depth), call) in wanted.iter().zip(calls) {
        holds!(*rt; call.position == *position && call.eval == Eval::Plain, depth);
        same!(*rt; call.depth, *depth);
        holds!(*rt; call.noted.is_none(), depth);
    }
}

// The root is asked for, then its best move at the depth below, then the first capture: 8h2b. The last
// call notes the root.
#[test]
fn the_first_capture_is_visited_first(rt: HostRuntime) -> Result<(), Fail> {
    let root = position(FACING)?;
    let capture = played(&rt, &root, "8h2b");
    let mut recorder = Recorder::new(rt.alloc(), NoMemo);
    let found = search(&root, Eval::Plain, 3, &mut recorder);
    holds!(rt; found.steps > 0);
    assert_asked(&rt, recorder.calls(), &[(root, 3), (root, 2), (capture, 2)]);
    for depth in [0, 1, 2, 3] {
        let mut recorder = Recorder::new(rt.alloc(), NoMemo);
        search(&root, Eval::Plain, depth, &mut recorder);
        let last = recorder.calls().last().ok_or("a call")?;
        holds!(rt; last.position == root && last.depth == depth);
        holds!(rt; matches!(last.noted, Some(Entry::Exact(_, _))));
    }
    Ok(())
}

// The best move one ply less deep is visited before the first capture: 1g1f, two plies deep, before 8h3c.
#[test]
fn the_hash_move_is_visited_before_captures(rt: HostRuntime) -> Result<(), Fail> {
    let root = played(&rt, &played(&rt, &Position::start(), "7g7f"), "1a1b");
    let best = played(&rt, &root, "1g1f");
    let mut recorder = Recorder::new(rt.alloc(), Oracle);
    search(&root, Eval::Plain, 3, &mut recorder);
    assert_asked(&rt, recorder.calls(), &[(root, 3), (root, 2), (best, 2)]);
    Ok(())
}

// Moves that are advised are visited before the first capture: 1a1a is none, and 1g1f comes first.
#[test]
fn advised_moves_are_visited_first(rt: HostRuntime) -> Result<(), Fail> {
    let root = position(FACING)?;
    let quiet = played(&rt, &root, "1g1f");
    let mut search = TestSearch::start(&root, Eval::Plain, 3);
    search.advise([Move::of_code(0), Move::of_code(982)]);
    let mut recorder = Recorder::new(rt.alloc(), NoMemo);
    search.advance(&mut recorder, 2);
    assert_asked(&rt, recorder.calls(), &[(root, 3), (root, 2), (quiet, 2)]);
    Ok(())
}
