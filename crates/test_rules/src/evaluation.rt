//! Material summed by hand.

use crate::boards::{board, position, read};
use shogi_core::Color::{Black, White};
use shogi_core::{Color, Hands, Kind, Position, Role};
use shogi_eval::{Eval, Node, material};
use shogi_moves::{is_legal, next_legal};
use std::process::Abort;
use std::test::Fail;
use test_support::same;

const EVALS: [Eval; 2] = [Eval::Plain, Eval::Hand];

#[test]
fn even_at_the_opening(rt: HostRuntime) {
    let start = Position::start();
    for e in EVALS {
        same!(rt; material(&start, e), 0);
        same!(rt; Node::start(e).score(), 0);
        if let Some(m) = next_legal(&start, None) {
            let node = Node::of(start, e).play(m);
            same!(rt; (node.score(), node.position().side()), (0, White));
        }
    }
}

// The material of one piece of Black's, where White holds two silvers, as the side sees it.
fn beside_two_silvers(role: Role, side: Color, e: Eval) -> Result<i32, Fail> {
    let hands = Hands::none().with(White, Kind::Silver, 2);
    let board = board(&[(Black, role, "5e")])?;
    Ok(material(&Position::new(*board.cells(), hands, side)?, e))
}

#[test]
fn values_of_pieces(rt: HostRuntime) -> Result<(), Fail> {
    for (role, points) in [
        (Role::King, 0i32),
        (Role::Pawn, 100),
        (Role::Lance, 300),
        (Role::Knight, 400),
        (Role::Silver, 500),
        (Role::Gold, 600),
        (Role::Bishop, 800),
        (Role::Rook, 1000),
        (Role::PromotedPawn, 600),
        (Role::PromotedLance, 600),
        (Role::PromotedKnight, 600),
        (Role::PromotedSilver, 600),
        (Role::Horse, 1100),
        (Role::Dragon, 1300),
    ] {
        for (e, held) in [(Eval::Plain, 1000i32), (Eval::Hand, 1100)] {
            let more = points.saturating_sub(held);
            same!(rt; beside_two_silvers(role, Black, e)?, more, role);
            same!(rt; beside_two_silvers(role, White, e)?, more.saturating_neg(), role);
        }
    }
    Ok(())
}

#[test]
fn values_in_hand(rt: HostRuntime) -> Result<(), Fail> {
    for (kind, plain, hand) in [
        (Kind::Pawn, 100, 110),
        (Kind::Lance, 300, 330),
        (Kind::Knight, 400, 440),
        (Kind::Silver, 500, 550),
        (Kind::Gold, 600, 660),
        (Kind::Bishop, 800, 880),
        (Kind::Rook, 1000, 1100),
    ] {
        let hands = Hands::none().with(Black, kind, 1);
        let p = Position::new([None; 81], hands, Black)?;
        same!(rt; (material(&p, Eval::Plain), material(&p, Eval::Hand)), (plain, hand), kind);
    }
    Ok(())
}

// The material before a move, from the mover, and after it, from the other side, under each evaluation.
fn assert_scores(
    rt: &impl Abort,
    sfen: &str,
    text: &str,
    plain: (i32, i32),
    hand: (i32, i32),
) -> Result<(), Fail> {
    let (p, m) = (position(sfen)?, read(text)?);
    assert!(rt; is_legal(&p, m), "a legal move");
    for (e, (before, after)) in [(Eval::Plain, plain), (Eval::Hand, hand)] {
        let node = Node::of(p, e);
        same!(*rt; (node.score(), node.score_after(&m)), (before, after), e);
        let played = node.play(m);
        same!(*rt; (played.score(), played.eval()), (after, e));
        same!(*rt; material(played.as_position(), e), after, e);
    }
    Ok(())
}

// A rook on 2h takes a pawn, and a promoted pawn, on 2c. Of two golds that are held one is dropped.
#[test]
fn captures_promotions_and_drops(rt: HostRuntime) -> Result<(), Fail> {
    let pawn = "4k4/9/7p1/9/9/9/9/7R1/4K4 b -";
    assert_scores(&rt, pawn, "2h2c", (900, -1100), (900, -1110))?;
    assert_scores(&rt, pawn, "2h2c+", (900, -1400), (900, -1410))?;
    let promoted = "4k4/9/7+p1/9/9/9/9/7R1/4K4 b -";
    assert_scores(&rt, promoted, "2h2c", (400, -1100), (400, -1110))?;
    let golds = "4k2l1/9/9/9/9/9/9/7S1/4K4 b 2G";
    assert_scores(&rt, golds, "G*4d", (1400, -1400), (1520, -1460))?;
    for (e, after) in [(Eval::Plain, -1400), (Eval::Hand, -1460)] {
        same!(rt; Node::of(position(golds)?, e).score_after_drop(Kind::Gold), after, e);
    }
    Ok(())
}

// The material before and after a move that is made where the node stands.
fn assert_advances(rt: &impl Abort, e: Eval, first: i32, last: i32) -> Result<(), Fail> {
    let after = position("4k4/9/9/9/9/9/2+b6/9/4K3G b Pr")?;
    let (p, m) = (position("4k4/9/6b2/9/9/9/2+R6/9/4K3G w P")?, read("3c7g+")?);
    assert!(rt; is_legal(&p, m), "a legal move");
    let mut node = Node::of(p, e);
    same!(*rt; node.score(), first, e);
    node.advance(m);
    same!(*rt; node.position(), after);
    same!(*rt; (node.score(), node.eval()), (last, e));
    Ok(())
}

// White's bishop on 3c takes a dragon on 7g and promotes: White holds a rook, and Black's pawn in
// hand, gold and king stay.
#[test]
fn a_node_continues_with_the_next(rt: HostRuntime) -> Result<(), Fail> {
    assert_advances(&rt, Eval::Plain, -1200, -1400)?;
    assert_advances(&rt, Eval::Hand, -1210, -1490)
}
