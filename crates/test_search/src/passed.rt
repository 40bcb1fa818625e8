//! Moves that are passed near the leaves, where it is easy to pass one too many.

use crate::plain::{children_of, minimax};
use crate::positions::position;
use crate::searches::{brief, has_few, search, search_below};
use shogi_core::Position;
use shogi_eval::Eval;
use shogi_search::NoMemo;
use shogi_sfen::read_move;
use std::alloc::Global;
use std::process::Abort;
use std::test::Fail;
use test_support::random::Random;
use test_support::{holds, same};

/// Positions with the value and the best move at depth 2 under each evaluation. Another program found them; but
/// for the pawn drop its answer changes, under one evaluation at least, where the rule that a position is for is
/// left out.
const PLACES: [(&str, (i32, &str), (i32, &str)); 12] = [
    // A tie: a capture is visited first. The knight's promotion is worth as much and has the lesser code.
    (
        "4k4/9/p2p5/1p7/2G4N1/9/9/9/4K4 b g",
        (300, "2e1c+"),
        (250, "7e8d"),
    ),
    // A promotion without a capture is no quiet move.
    (
        "9/4K4/9/1N7/9/9/9/9/9 b r",
        (-400, "8d7b+"),
        (-400, "8d7b+"),
    ),
    // The rook mates without a capture.
    (
        "9/9/9/9/9/9/P1K6/6+R2/k8 b Rg",
        (30001, "3h8h"),
        (30001, "3h8h"),
    ),
    // A gold before the king mates: all squares next to the king are open before that, and out of its reach
    // after it.
    (
        "4k4/9/4P4/9/9/9/9/9/4K4 b G",
        (30001, "G*5b"),
        (30001, "G*5b"),
    ),
    // Lost on the last ply: the only piece of Black's has one way to go, and is taken there or without a move
    // after any other answer.
    (
        "9/9/9/2g6/9/2N6/9/9/8k b -",
        (-30000, "7f6d"),
        (-30000, "7f6d"),
    ),
    // Neither side has a king, and White can only drop its rook, which loses a tenth of it under Hand: the
    // silver's promotion is worth a tenth of a rook more than a move of the pawn, which is visited first.
    ("9/9/4S4/9/9/9/8P/9/9 b r", (-300, "5c4b+"), (-300, "5c4b+")),
    // A dropped pawn would mate on 9b, and is barred.
    (
        "k1K6/1p7/S8/4s4/9/9/9/9/9 b Ps",
        (30001, "9c8b+"),
        (30001, "9c8b+"),
    ),
    // The bishop attacks the gold, and the rook pins it to its king.
    (
        "9/9/9/3K1k3/9/3s3L1/5b3/3R5/3G5 b NPs",
        (500, "6h4h"),
        (500, "6h4h"),
    ),
    // The rook attacks the silver, until a pawn is dropped between them.
    (
        "9/9/9/9/1r7/9/1S7/6K2/9 b Pbsn",
        (-2300, "P*8f"),
        (-2480, "P*8f"),
    ),
    // The bishop attacks the gold, which moves away.
    (
        "9/6G2/5b3/9/9/9/9/2K6/9 b Lg",
        (-800, "3b2b"),
        (-830, "3b2b"),
    ),
    // The bishop attacks the rook, and is taken by it.
    (
        "6b1R/9/9/9/9/9/Ss7/9/3K5 b Pr",
        (1100, "1a3a+"),
        (1090, "1a3a+"),
    ),
    // The rook attacks the knight. What it gains is counted once.
    (
        "9/4b4/6N2/6r2/8K/4L4/2k6/9/9 b Pg",
        (-500, "5f5b+"),
        (-510, "5f5b+"),
    ),
];

// The search finds the value and the best move of plain minimax.
fn assert_agrees(rt: &impl Abort, p: &Position, e: Eval, depth: u8) {
    let found = search(p, e, depth, &mut NoMemo);
    same!(*rt; brief(&found), brief(&minimax(p, e, depth)), depth);
}

// The same at depths 1 and 2, and at 3 where two plies have few paths, with this value and best move at
// depth 2.
fn assert_found(rt: &impl Abort, p: &Position, e: Eval, (value, text): (i32, &str)) {
    for depth in 1..4u8 {
        if has_few(p, depth.saturating_sub(1), 1000) {
            assert_agrees(rt, p, e, depth);
        }
    }
    let found = search(p, e, 2, &mut NoMemo);
    holds!(*rt; found.value == value && found.best == read_move(text.as_bytes()), text);
}

#[test]
fn places_where_a_move_is_easily_passed(rt: HostRuntime) -> Result<(), Fail> {
    for (sfen, plain, hand) in PLACES {
        let p = position(sfen)?;
        assert_found(&rt, &p, Eval::Plain, plain);
        assert_found(&rt, &p, Eval::Hand, hand);
    }
    Ok(())
}

// Below -500 the first move of the opening position is enough: White has no answer to 1g1f that is
// worth more than 500, and each is passed. The root and its child are entered and left.
#[test]
fn every_move_passed(rt: HostRuntime) {
    let start = Position::start();
    for e in [Eval::Plain, Eval::Hand] {
        let found = search_below(&rt, &start, e, 3, -500, &mut NoMemo);
        holds!(rt; found.value >= -500 && found.value <= minimax(&start, e, 3).value);
        same!(rt; found.steps, 4);
    }
}

// One of the positions after a move of this one, by chance.
fn after_some_move(alloc: Global, p: &Position, random: &mut Random) -> Result<Position, Fail> {
    let children = children_of(alloc, p)?;
    let place = random.below(children.len().max(1) as u64) as usize;
    match children.as_slice().get(place) {
        Some(child) => Ok(child.position),
        None => Ok(*p),
    }
}

// Random games from the opening position, of 40 moves each; at depth 2 each twentieth position, and at 3
// where two plies have few paths.
#[test]
fn random_games(rt: HostRuntime) -> Result<(), Fail> {
    let mut random = Random::new(20261125);
    for _ in 0..3 {
        let mut p = Position::start();
        for at in 0..40u8 {
            for depth in 1..4u8 {
                let is_due = depth != 2 || at % 20 == 0;
                if is_due && has_few(&p, depth.saturating_sub(1), 100) {
                    for e in [Eval::Plain, Eval::Hand] {
                        assert_agrees(&rt, &p, e, depth);
                    }
                }
            }
            p = after_some_move(rt.alloc(), &p, &mut random)?;
        }
    }
    Ok(())
}
