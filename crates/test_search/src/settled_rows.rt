//! What captures and promotions at the end of a line are worth once they are settled, worked by hand.

use crate::plain::minimax;
use crate::positions::{played, position};
use crate::searches::search;
use last_ply::{last_ply, last_worth};
use shogi_core::{Move, Position};
use shogi_eval::{Eval, Node};
use shogi_moves::is_legal;
use shogi_search::{Entry, INFINITY, NoMemo};
use shogi_sfen::read_move;
use std::process::Abort;
use std::test::Fail;
use test_support::{holds, same};

/// Positions with their values at depth 1 under `Plain`, under `Hand` and under `Exchange`: the first
/// two with one best move, the third with its own.
const PLACES: [(&str, (i32, i32, &str), (i32, &str)); 18] = [
    // A guarded pawn, and a silver guarded by a gold: what takes is taken.
    (
        "4k4/4g4/4p4/9/9/9/9/4R4/4K4 b -",
        (800, 810, "5h5c+"),
        (300, "5h1h"),
    ),
    (
        "4k4/9/4g4/4s4/4P4/9/9/9/4K4 b -",
        (0, 50, "5e5d"),
        (-200, "5e5d"),
    ),
    // The lance may not take back: the gold's leaving opens the rook's way to its king.
    (
        "4k4/4r4/4g4/3s5/3P5/9/9/9/3LK3L b -",
        (-400, -350, "6e6d"),
        (-600, "6e6d"),
    ),
    // A promotion is taken.
    (
        "3gk4/9/2P6/9/9/9/9/9/4K4 b -",
        (0, 0, "7c7b+"),
        (-500, "5i4h"),
    ),
    // A king takes back, and may not where the square is covered.
    (
        "9/4k4/4p4/5S3/9/9/9/9/4K4 b -",
        (700, 710, "4d5c+"),
        (500, "4d3c+"),
    ),
    (
        "9/4k4/4p4/3S1S3/9/9/9/9/4K4 b -",
        (1200, 1210, "4d5c+"),
        (1200, "4d5c+"),
    ),
    // The other side takes on another square than the last one.
    (
        "k8/9/6p2/9/7g1/7p1/7R1/1B7/4K4 b -",
        (1500, 1510, "8h3c+"),
        (1000, "2g1g"),
    ),
    // The gold that guards the pawn is pinned by the rook.
    (
        "4k4/4g4/3p5/3S5/9/9/9/4R4/4K4 b -",
        (2300, 2360, "5h5b+"),
        (1100, "6d6c+"),
    ),
    // It might take, and would be taken by the rook behind the silver, or by the lance behind the pawn.
    (
        "4k4/4g4/3p5/3S5/9/9/9/3R5/4K4 b -",
        (1100, 1110, "6d6c+"),
        (1100, "6d6c+"),
    ),
    (
        "4k4/9/4g4/4s4/4P4/4L4/9/9/4K4 b -",
        (300, 350, "5e5d"),
        (300, "5e5d"),
    ),
    // The silver discovers a check, which the gold's capture would not answer.
    (
        "4k4/5g3/5p3/4S4/9/9/9/4R4/4K4 b -",
        (1100, 1110, "5d4c+"),
        (1100, "5d4c+"),
    ),
    // A drop is quiet, also where it is taken; under Hand it loses a tenth of the rook.
    (
        "4k4/4g4/9/9/9/9/9/9/4K4 b R",
        (400, 500, "5i4h"),
        (400, "5i4h"),
    ),
    // The rook takes a guarded silver, or promotes where nothing takes it.
    (
        "4k4/9/9/9/9/4p4/4s3R/9/4K4 b -",
        (1400, 1450, "1g5g"),
        (700, "1g1a+"),
    ),
    // The pawn that takes back promotes; the same with sides changed.
    (
        "4k4/9/9/9/9/4p4/4r4/3S5/K8 b -",
        (1400, 1500, "6h5g"),
        (-100, "6h5g"),
    ),
    (
        "8k/5s3/4R4/4P4/9/9/9/9/4K4 w -",
        (1400, 1500, "4b5c"),
        (-100, "4b5c"),
    ),
    // The pawn takes before the rook does: after the rook the silver would win it.
    (
        "6k2/9/9/4p4/4n3r/3S5/4L4/9/K8 b -",
        (100, 140, "5g5e"),
        (-500, "5g5e"),
    ),
    // A capture mates.
    (
        "3nkn3/4p4/4G4/4L4/9/9/9/9/4K4 b -",
        (30000, 30000, "5c5b"),
        (30000, "5c5b"),
    ),
    // Nothing takes, and nothing promotes.
    (
        "lnsgkgsnl/1r5b1/ppppppppp/9/9/9/PPPPPPPPP/1B5R1/LNSGKGSNL b -",
        (0, 0, "1g1f"),
        (0, "1g1f"),
    ),
];

// Whether the move, where it is legal, is worth so much as the last one.
fn is_worth(p: &Position, e: Eval, m: Option<Move>, value: i32) -> bool {
    match m {
        Some(m) => {
            let tried = m;
            is_legal(p, tried) && last_worth(p, e, m) == value
        }
        None => false,
    }
}

// The value and the best move of the position at depth 1, by plain minimax, the search and the last
// ply, and what the move is worth by itself.
fn assert_worked(rt: &impl Abort, sfen: &str, e: Eval, value: i32, text: &str) -> Result<(), Fail> {
    let p = position(sfen)?;
    let best = read_move(text.as_bytes());
    let plain = minimax(&p, e, 1);
    same!(*rt; plain.value, value, sfen);
    holds!(*rt; plain.best == best, sfen);
    let found = search(&p, e, 1, &mut NoMemo);
    same!(*rt; found.value, value, sfen);
    holds!(*rt; found.best == best, sfen);
    holds!(*rt; last_ply(&Node::of(p, e), -INFINITY, INFINITY) == Entry::Exact(value, best), sfen);
    holds!(*rt; is_worth(&p, e, best, value), sfen);
    Ok(())
}

#[test]
fn places_worked_by_hand(rt: HostRuntime) -> Result<(), Fail> {
    for (sfen, (plain, hand, text), (exchange, best)) in PLACES {
        assert_worked(&rt, sfen, Eval::Plain, plain, text)?;
        assert_worked(&rt, sfen, Eval::Hand, hand, text)?;
        assert_worked(&rt, sfen, Eval::Exchange, exchange, best)?;
    }
    Ok(())
}

// The values of a position at depths 1 to 3 under an evaluation.
fn values_of(p: &Position, e: Eval) -> [i32; 3] {
    [
        search(p, e, 1, &mut NoMemo).value,
        search(p, e, 2, &mut NoMemo).value,
        search(p, e, 3, &mut NoMemo).value,
    ]
}

// A pawn that is taken at the end of a line counts from depth 3 on, unless it is settled that the rook
// that takes it is taken.
#[test]
fn the_opening(rt: HostRuntime) {
    let p = Position::start();
    same!(rt; values_of(&p, Eval::Plain), [0, 0, 200]);
    same!(rt; values_of(&p, Eval::Exchange), [0, 0, 0]);
    holds!(rt; search(&p, Eval::Exchange, 3, &mut NoMemo).best == read_move(b"1g1f"));
}

// A usual opening, in which both rooks stand before pawns that are guarded.
#[test]
fn a_book_opening(rt: HostRuntime) {
    let mut p = Position::start();
    for text in [
        "7g7f", "3c3d", "2g2f", "8c8d", "2f2e", "8d8e", "6i7h", "4a3b",
    ] {
        p = played(&rt, &p, text);
    }
    same!(rt; values_of(&p, Eval::Plain), [1900, 0, 200]);
    same!(rt; values_of(&p, Eval::Exchange), [0, 0, 0]);
}
