//! What is known at once of a node with one ply left, in windows around its value.

use crate::plain::{children_of, minimax};
use crate::positions::{each_twentieth, position};
use last_ply::last_ply;
use shogi_core::Position;
use shogi_eval::{Eval, Node};
use shogi_search::{Entry, INFINITY};
use std::alloc::Global;
use std::process::Abort;
use std::test::Fail;
use test_support::{games, holds, same};

// The whole window; those that hold the value, narrow and wide; those that begin or end with it, narrow and
// wide; and those above and below it.
fn windows_of(value: i32) -> [(i32, i32); 9] {
    let by = |n: i32| value.saturating_add(n);
    [
        (-INFINITY, INFINITY),
        (by(-1), by(1)),
        (by(-900), by(900)),
        (value, by(1)),
        (value, by(900)),
        (by(-1), value),
        (by(-900), value),
        (by(1), by(900)),
        (by(-900), by(-1)),
    ]
}

// The entry is the value with the best move, or enough for the window and true of the value.
fn assert_known(rt: &impl Abort, p: &Position, e: Eval) {
    let plain = minimax(p, e, 1);
    let node = Node::of(*p, e);
    for (alpha, beta) in windows_of(plain.value) {
        assert!(rt; alpha < beta);
        match last_ply(&node, alpha, beta) {
            Entry::Exact(value, best) => {
                same!(*rt; value, plain.value, alpha);
                holds!(*rt; best == plain.best, alpha);
            }
            Entry::AtLeast(least) => {
                holds!(*rt; beta <= least, beta);
                holds!(*rt; least <= plain.value, beta);
            }
            Entry::AtMost(most) => {
                holds!(*rt; most <= alpha, alpha);
                holds!(*rt; plain.value <= most, alpha);
            }
        }
    }
}

// The same under each evaluation, after each eighth move too.
fn assert_known_around(rt: &impl Abort, alloc: Global, p: &Position) -> Result<(), Fail> {
    for e in [Eval::Plain, Eval::Hand, Eval::Exchange] {
        assert_known(rt, p, e);
        for (at, child) in children_of(alloc, p)?.as_slice().iter().enumerate() {
            if at % 8 == 0 {
                assert_known(rt, &child.position, e);
            }
        }
    }
    Ok(())
}

#[test]
fn positions_of_games(rt: HostRuntime) -> Result<(), Fail> {
    for p in each_twentieth(&rt, rt.alloc(), games::second())?.as_slice() {
        assert_known_around(&rt, rt.alloc(), p)?;
    }
    Ok(())
}

// Where a rule is easy to miss.
const PLACES: [&str; 22] = [
    // No king, one on either side, and nothing but a gold in hand.
    "9/9/4S4/9/9/9/8P/9/9 b r",
    "9/4K4/9/1N7/9/9/9/9/9 b r",
    "4k4/9/4p4/4P4/9/9/9/9/9 b G",
    "k8/9/9/9/9/9/9/9/9 b G",
    // A check, that of two pieces, and those of which only a drop or the king is a way out.
    "4k4/9/9/9/4r4/9/9/9/4K4 b GP",
    "4k4/9/9/9/4r4/9/9/5g3/4K4 b G",
    "rr6k/9/9/9/9/9/9/9/K8 b GP",
    "4k4/4G4/9/9/9/9/9/9/4K4 w p",
    // No legal move, in check and not.
    "4k4/4G4/4P4/9/9/9/9/9/9 w -",
    "8k/6G2/7G1/9/9/9/9/9/9 w -",
    // Mates by a drop, beside a gold that may not take and one that may, by a rook that takes nothing, by what
    // moves out of a slider's way, and by moves after which a king that is in no check has no way left.
    "4k4/9/4P4/9/9/9/9/9/4K4 b G",
    "4k4/3g5/4P4/1B7/9/9/9/9/4K4 b G",
    "4k4/3g5/4P4/9/9/9/9/9/4K4 b G",
    "9/9/9/9/9/9/P1K6/6+R2/k8 b Rg",
    "7lk/7p1/8B/9/8R/9/9/9/K8 b -",
    "3nknn2/9/4S4/4R4/9/9/9/9/4K4 b 2G",
    "8k/6+R2/8P/9/8L/9/9/9/K8 b P",
    "7nk/9/6G1p/7N1/9/9/9/9/4K4 b G",
    // A pawn's drop that would mate, gains by a pinned piece along its line and off it, and a check in which
    // some captures are legal and others are not.
    "k1K6/1p7/S8/4s4/9/9/9/9/9 b Ps",
    "4k4/9/4r4/9/3p5/4G4/9/9/4K4 b P",
    "4k4/4r4/9/9/3pp4/4S4/9/9/4K4 b N",
    "4k4/9/2p6/3Gp4/4K4/3p5/9/9/9 b 2P",
];

#[test]
fn places_of_their_own(rt: HostRuntime) -> Result<(), Fail> {
    for sfen in PLACES {
        assert_known_around(&rt, rt.alloc(), &position(sfen)?)?;
    }
    Ok(())
}

// The greatest number of legal moves known.
#[test]
fn most_moves_at_once(rt: HostRuntime) -> Result<(), Fail> {
    let p = position("R8/2K1S1SSk/4B4/9/9/9/9/9/1L1L1L3 b RBGSNLP3g3n17p")?;
    for e in [Eval::Plain, Eval::Hand, Eval::Exchange] {
        assert_known(&rt, &p, e);
    }
    Ok(())
}
