//! The search against plain minimax, on positions of played games and two published ones.

use crate::forgetful::Forgetful;
use crate::plain::minimax;
use crate::positions::{played, position};
use crate::searches::{has_few, search};
use shogi_core::Position;
use shogi_eval::Eval;
use shogi_moves::{has_legal, perft};
use shogi_search::{Found, NoMemo};
use std::process::Abort;
use std::test::Fail;
use test_support::{games, holds, same};

// The search finds the value and the best move of plain minimax, in no more steps.
fn assert_same(rt: &impl Abort, found: &Found, plain: &Found, at: usize, depth: u8) {
    same!(*rt; (at, depth, found.value), (at, depth, plain.value));
    holds!(*rt; found.best == plain.best, at);
    holds!(*rt; found.steps <= plain.steps, at);
}

// The same over no memo, over one that forgets, and over that one again. Returns whether it then
// knew the root.
fn assert_agrees(
    rt: &impl Abort,
    p: &Position,
    e: Eval,
    at: usize,
    depth: u8,
    memo: &mut Forgetful,
) -> bool {
    let plain = minimax(p, e, depth);
    assert_same(rt, &search(p, e, depth, &mut NoMemo), &plain, at, depth);
    assert_same(rt, &search(p, e, depth, memo), &plain, at, depth);
    let again = search(p, e, depth, memo);
    assert_same(rt, &again, &plain, at, depth);
    again.steps == 0
}

// Walks through a game up to its mate, and searches each fifth position under each evaluation at depths
// 0 and 1, and each 25th at depth 2 where few moves are legal. The memo is the same all along; it keeps
// some roots and forgets others.
fn walk(rt: &impl Abort, moves: &[&str]) {
    let mut memo = Forgetful::new();
    let mut p = Position::start();
    let (mut known, mut forgotten) = (false, false);
    for (at, text) in moves.iter().enumerate() {
        for (depth, stride) in [(0u8, 5), (1, 5), (2, 25)] {
            for e in [Eval::Plain, Eval::Hand, Eval::Exchange] {
                if at % stride == 0 && has_few(&p, depth.saturating_sub(1), 50) {
                    if assert_agrees(rt, &p, e, at, depth, &mut memo) {
                        known = true;
                    } else {
                        forgotten = true;
                    }
                }
            }
        }
        p = played(rt, &p, text);
    }
    holds!(*rt; !has_legal(&p), "the end of the game");
    holds!(*rt; known && forgotten, "each second note is forgotten");
}

#[test]
fn first_game(rt: HostRuntime) {
    walk(&rt, games::first());
}

#[test]
fn second_game(rt: HostRuntime) {
    walk(&rt, games::second());
}

#[test]
fn third_game(rt: HostRuntime) {
    walk(&rt, games::third());
}

// A position with so many legal moves, at depth 1.
fn assert_wide(rt: &impl Abort, sfen: &str, moves: u64) -> Result<(), Fail> {
    let p = position(sfen)?;
    same!(*rt; perft(&p, 1), Some(moves));
    for e in [Eval::Plain, Eval::Hand, Eval::Exchange] {
        assert_agrees(rt, &p, e, 0, 1, &mut Forgetful::new());
    }
    Ok(())
}

// The greatest number of legal moves known.
#[test]
fn most_moves(rt: HostRuntime) -> Result<(), Fail> {
    let sfen = "R8/2K1S1SSk/4B4/9/9/9/9/9/1L1L1L3 b RBGSNLP3g3n17p";
    assert_wide(&rt, sfen, 593)
}

#[test]
fn middle_game(rt: HostRuntime) -> Result<(), Fail> {
    let sfen = "l6nl/5+P1gk/2np1S3/p1p4Pp/3P2Sp1/1PPb2P1P/P5GS1/R8/LN4bKL w RGgsn5p";
    assert_wide(&rt, sfen, 207)
}
