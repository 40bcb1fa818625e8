//! What the other side wins after a move by its best exchange on one square, worked out by hand.

use crate::boards::{position, read, square};
use shogi_core::Position;
use shogi_eval::{Eval, Node};
use shogi_moves::is_legal;
use static_exchange::{best_exchange, least_valuable_attacker};
use std::process::Abort;
use std::test::Fail;
use test_support::same;

// The material of the mover before the move and after it, and what the other side then wins: that,
// where less is asked for no less than that, and where nothing is, anything.
fn assert_wins(
    rt: &impl Abort,
    sfen: &str,
    text: &str,
    before: i32,
    after: i32,
    won: u32,
) -> Result<(), Fail> {
    let (p, m) = (position(sfen)?, read(text)?);
    assert!(rt; is_legal(&p, m), "a legal move");
    let node = Node::of(p, Eval::Exchange);
    same!(*rt; (node.score(), node.score_after(&m)), (before, after.saturating_neg()), text);
    for enough in [won.saturating_add(1), 20_000, 4_000_000_000] {
        same!(*rt; best_exchange(&p, m, enough), won, text);
    }
    for enough in [won / 2, won] {
        assert!(rt; best_exchange(&p, m, enough) >= enough, "no less");
    }
    Ok(())
}

#[test]
fn what_takes_is_taken(rt: HostRuntime) -> Result<(), Fail> {
    // A rook takes a guarded pawn, and a gold takes it: a dragon or a rook.
    let guarded = "4k4/4g4/4p4/9/9/9/9/4R4/4K4 b -";
    assert_wins(&rt, guarded, "5h5c+", 300, 800, 2300)?;
    assert_wins(&rt, guarded, "5h5c", 300, 500, 2000)?;
    // A pawn takes a silver, a gold the pawn, and nobody takes back.
    let silver = "4k4/9/4g4/4s4/4P4/9/9/9/4K4 b -";
    assert_wins(&rt, silver, "5e5d", -1000, 0, 200)?;
    // The same with a lance that may not take back: the gold that left opened a rook's check.
    let check = "4k4/4r4/4g4/3s5/3P5/9/9/9/3LK3L b -";
    assert_wins(&rt, check, "6e6d", -1400, -400, 200)?;
    // A pawn promotes, and a gold takes it.
    assert_wins(&rt, "3gk4/9/2P6/9/9/9/9/9/4K4 b -", "7c7b+", -500, 0, 700)?;
    // A rook takes a pawn that a gold guards.
    let rook = "k8/9/6p2/9/7g1/7p1/7R1/1B7/4K4 b -";
    assert_wins(&rt, rook, "2g2f", 1000, 1200, 2000)
}

#[test]
fn kings_take_where_they_may(rt: HostRuntime) -> Result<(), Fail> {
    // A king takes what promoted beside it, unless another silver guards that.
    let alone = "9/4k4/4p4/5S3/9/9/9/9/4K4 b -";
    assert_wins(&rt, alone, "4d5c+", 400, 700, 1100)?;
    let both = "9/4k4/4p4/3S1S3/9/9/9/9/4K4 b -";
    assert_wins(&rt, both, "4d5c+", 900, 1200, 0)
}

#[test]
fn other_squares_count(rt: HostRuntime) -> Result<(), Fail> {
    // A bishop takes a pawn and promotes, and a pawn takes the rook that hangs and promotes.
    let hangs = "k8/9/6p2/9/7g1/7p1/7R1/1B7/4K4 b -";
    assert_wins(&rt, hangs, "8h3c+", 1000, 1500, 2500)?;
    // A knight takes a gold and has to promote.
    let knight = "8k/9/9/p8/P8/5n3/9/4G4/K8 b -";
    assert_wins(&rt, knight, "9e9d", 200, 400, 1400)?;
    // A rook that is guarded, for a gold: 800. A silver that is not: 1000.
    let two = "8k/9/9/p3g4/P3R2p1/4P2S1/9/9/K8 b -";
    assert_wins(&rt, two, "9e9d", 900, 1100, 1000)
}

#[test]
fn exchanges_go_by_turns(rt: HostRuntime) -> Result<(), Fail> {
    // A pawn takes a pawn, a silver that, a silver that, and a gold takes last: 200, 1000, 1000.
    let gold = "8k/9/3gs4/4p4/4PS3/9/9/9/K8 b -";
    assert_wins(&rt, gold, "5e5d", -600, -400, 200)?;
    // Without the gold the first silver stands.
    let silver = "8k/9/4s4/4p4/4PS3/9/9/9/K8 b -";
    assert_wins(&rt, silver, "5e5d", 0, 200, 0)
}

#[test]
fn a_check_is_answered_first(rt: HostRuntime) -> Result<(), Fail> {
    // A rook takes a pawn. Unless that is check, a bishop takes a gold and promotes.
    let open = "5k3/9/9/4p4/4R4/9/6b2/7G1/K8 b -";
    assert_wins(&rt, open, "5e5d", 700, 900, 1500)?;
    let check = "4k4/9/9/4p4/4R4/9/6b2/7G1/K8 b -";
    assert_wins(&rt, check, "5e5d", 700, 900, 0)
}

#[test]
fn quiet_moves_are_not_answered(rt: HostRuntime) -> Result<(), Fail> {
    // A rook hangs to a pawn.
    let hangs = "8k/9/9/9/4p4/4R4/9/9/K8 b G";
    for quiet in ["G*9h", "9i9h", "5f6f"] {
        assert_wins(&rt, hangs, quiet, 1500, 1500, 0)?;
    }
    assert_wins(&rt, hangs, "5f5e", 1500, 1700, 0)
}

// What takes on the square, as USI names it.
fn assert_taker(rt: &impl Abort, sfen: &str, on: &str, text: &str) -> Result<(), Fail> {
    let p: Position = position(sfen)?;
    same!(*rt; least_valuable_attacker(&p, square(on)?), Some(read(text)?), text);
    Ok(())
}

#[test]
fn the_cheapest_takes(rt: HostRuntime) -> Result<(), Fail> {
    // Of two golds the one of less code, a silver before a gold, and a gold before a king.
    assert_taker(&rt, "4k4/9/9/4p4/3G1G3/9/9/9/4K4 b -", "5d", "4e5d")?;
    assert_taker(&rt, "4k4/9/9/4p4/3S1G3/9/9/9/4K4 b -", "5d", "6e5d")?;
    assert_taker(&rt, "4k4/9/9/4p4/4KG3/9/9/9/9 b -", "5d", "4e5d")?;
    // Of two silvers that which promotes.
    assert_taker(&rt, "4k4/9/3S5/4p4/5S3/9/9/9/4K4 b -", "5d", "6c5d+")?;
    // Not a silver that is pinned.
    assert_taker(&rt, "4r3k/9/9/9/9/5p3/4SG3/9/4K4 b -", "4f", "4g4f")?;
    // Nor a king that would stand in check.
    let guarded = position("4k4/9/4g4/4p4/4K4/9/9/9/9 b -")?;
    same!(rt; least_valuable_attacker(&guarded, square("5d")?), None);
    Ok(())
}
