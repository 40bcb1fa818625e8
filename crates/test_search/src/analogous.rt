//! Analogous moves, pruned at depths 3 and 4: positions of random games with pieces in hand, against plain minimax.

use crate::plain::{children_of, minimax, minimax_within};
use crate::positions::position;
use crate::searches::{brief, has_few, search};
use shogi_core::Position;
use shogi_eval::Eval;
use shogi_search::{INFINITY, NoMemo};
use std::alloc::Global;
use std::process::Abort;
use std::test::Fail;
use test_support::random::Random;
use test_support::same;

/// Positions that games begin from, with few pieces, so that plain minimax is quick: sliders, kings in the
/// middle and in corners, and pieces in hand.
const BEGINNINGS: [&str; 6] = [
    "4k4/4g4/2p1p1p2/9/9/9/2P1P1P2/4G4/4K4 b Sp",
    "1r2k4/9/2p3p2/9/9/9/2P3P2/9/4K2R1 b Gs",
    "3gk4/5s3/9/4p4/9/4P4/9/3S5/4KG3 b Bn",
    "6snk/7pl/9/9/9/9/LP7/KNS6/9 b Rb",
    "4k4/1+R7/4s4/9/4n4/9/9/4G2b1/4K4 b Pg",
    "2k6/9/2l1p4/9/9/3N1P3/9/1+b7/5GK2 w Sr",
];

// The search finds the value and the best move of plain minimax, which visits every move where there are few
// paths, and else leaves a node that is worth enough.
fn assert_agrees(rt: &impl Abort, p: &Position, e: Eval, depth: u8) {
    let found = brief(&search(p, e, depth, &mut NoMemo));
    let plain = if has_few(p, depth, 20_000) {
        minimax(p, e, depth)
    } else {
        minimax_within(p, e, depth, -INFINITY, INFINITY)
    };
    same!(*rt; found, brief(&plain), depth);
}

// The position after so many moves by chance, or after fewer where the game ends.
fn after_some_moves(
    alloc: Global,
    from: &Position,
    count: u64,
    random: &mut Random,
) -> Result<Position, Fail> {
    let mut p = *from;
    for _ in 0..count {
        let children = children_of(alloc, &p)?;
        let place = random.below(children.len().max(1) as u64) as usize;
        if let Some(child) = children.as_slice().get(place) {
            p = child.position;
        }
    }
    Ok(p)
}

// So many positions of a game from each beginning, where two plies have at most so many paths, under each
// evaluation.
pub fn assert_games(
    rt: &impl Abort,
    alloc: Global,
    (seed, places): (u64, u64),
    (depth, most): (u8, u64),
) -> Result<(), Fail> {
    let mut random = Random::new(seed);
    for sfen in BEGINNINGS {
        let mut p = position(sfen)?;
        for _ in 0..places {
            let more = random.below(12).saturating_add(1);
            p = after_some_moves(alloc, &p, more, &mut random)?;
            if has_few(&p, 2, most) {
                for e in [Eval::Plain, Eval::Hand, Eval::Exchange] {
                    assert_agrees(rt, &p, e, depth);
                }
            }
        }
    }
    Ok(())
}

#[test]
fn random_games_at_depth_three(rt: HostRuntime) -> Result<(), Fail> {
    assert_games(&rt, rt.alloc(), (20261201, 4), (3, 8000))
}

#[test]
fn random_games_at_depth_four(rt: HostRuntime) -> Result<(), Fail> {
    assert_games(&rt, rt.alloc(), (20261202, 2), (4, 2000))
}

// Where a node is left early, the value and the best move of the root are those of plain minimax.
#[test]
fn plain_minimax_within_a_window(rt: HostRuntime) -> Result<(), Fail> {
    let mut random = Random::new(20261203);
    for sfen in BEGINNINGS {
        let p = after_some_moves(rt.alloc(), &position(sfen)?, 5, &mut random)?;
        for e in [Eval::Plain, Eval::Hand, Eval::Exchange] {
            for depth in 1..3u8 {
                let within = minimax_within(&p, e, depth, -INFINITY, INFINITY);
                same!(rt; brief(&within), brief(&minimax(&p, e, depth)), depth);
            }
        }
    }
    Ok(())
}
