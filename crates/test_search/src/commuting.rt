//! Moves that may change places round a reply, skipped from depth 5 on: positions of random games with
//! pieces in hand, against plain minimax.

use crate::analogous::assert_games;
use std::test::Fail;

#[test]
fn random_games_at_depth_five(rt: HostRuntime) -> Result<(), Fail> {
    assert_games(&rt, rt.alloc(), (20261204, 2), (5, 300))
}

#[test]
fn random_games_at_depth_six(rt: HostRuntime) -> Result<(), Fail> {
    assert_games(&rt, rt.alloc(), (20261205, 2), (6, 80))
}
