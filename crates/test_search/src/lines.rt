//! Lists of several lines, each child searched below the bound that its place in the list needs, against a
//! plain ranking.

use crate::plain::{Child, children_of, minimax};
use crate::positions::each_twentieth;
use crate::ranks::TestRanks;
use crate::searches::{has_few, search_below};
use crate::tables::table_of;
use shogi_core::{Move, Position};
use shogi_eval::Eval;
use shogi_search::{INFINITY, Memo, NoMemo};
use std::alloc::{AllocError, Global};
use std::process::Abort;
use std::test::Fail;
use test_support::{games, holds, same};

// The end of the window of the next child.
fn child_beta(ranks: &TestRanks) -> i32 {
    match ranks.move_alpha() {
        Some(value) => value.saturating_neg(),
        None => INFINITY,
    }
}

// Searches the position after a move below its bound, and lists the move where it is worth more than
// the last line.
fn take_in<M: Memo>(
    rt: &impl Abort,
    ranks: &mut TestRanks,
    child: &Child,
    depth: u8,
    memo: &mut M,
) {
    let beta = child_beta(ranks);
    let found = search_below(rt, &child.position, Eval::Plain, depth, beta, memo);
    if found.value < beta {
        let m = Move::of_code(child.code).expect(rt, "a move");
        ranks.offer(rt, m, found.value.saturating_neg());
    }
}

// A move of the code and the worth stands on the line: so many other moves are worth more, or as much
// and have a lesser code.
fn assert_line(rt: &impl Abort, worths: &[(u16, i32)], line: usize, listed: (u16, i32)) {
    let mut ahead: usize = 0;
    let mut is_worth = false;
    for (code, worth) in worths {
        if *worth > listed.1 || (*worth == listed.1 && *code < listed.0) {
            ahead = ahead.saturating_add(1);
        }
        if *code == listed.0 {
            is_worth = *worth == listed.1;
        }
    }
    holds!(*rt; is_worth, line);
    same!(*rt; ahead, line, line);
}

// The codes of moves with their worths, by plain minimax at a depth behind each.
fn worths_of(alloc: Global, children: &[Child], depth: u8) -> Result<Vec<(u16, i32)>, AllocError> {
    let mut worths = Vec::new(alloc);
    for child in children {
        let plain = minimax(&child.position, Eval::Plain, depth);
        worths.push((child.code, plain.value.saturating_neg()))?;
    }
    Ok(worths)
}

// The list of so many lines has the first of the moves, ranked by their worths.
fn assert_ranked<M: Memo>(
    rt: &impl Abort,
    children: &[Child],
    worths: &[(u16, i32)],
    depth: u8,
    lines: usize,
    memo: &mut M,
) {
    let mut ranks = TestRanks::new(lines);
    for child in children {
        take_in(rt, &mut ranks, child, depth, memo);
    }
    same!(*rt; ranks.list().len(), worths.len().min(lines));
    for (line, (m, value)) in ranks.list().iter().enumerate() {
        assert_line(rt, worths, line, (m.code(), *value));
    }
}

// Each twentieth position of a game, at depths 1 and 2, and at 3 where two plies have few paths.
fn walk(rt: &impl Abort, alloc: Global, moves: &[&str]) -> Result<(), Fail> {
    let mut table = table_of(alloc, 1000)?;
    for p in each_twentieth(rt, alloc, moves)?.as_slice() {
        for below in 0..3u8 {
            if has_few(p, below, 100) {
                let children = children_of(alloc, p)?;
                let worths = worths_of(alloc, children.as_slice(), below)?;
                let (children, worths) = (children.as_slice(), worths.as_slice());
                for lines in [1usize, 4] {
                    assert_ranked(rt, children, worths, below, lines, &mut NoMemo);
                    assert_ranked(rt, children, worths, below, lines, &mut table);
                }
            }
        }
    }
    Ok(())
}

#[test]
fn lines_of_the_first_game(rt: HostRuntime) -> Result<(), Fail> {
    walk(&rt, rt.alloc(), games::first())
}
