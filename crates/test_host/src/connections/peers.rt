//! Connections over a wire that does not fail.

use crate::connections::scene::{ANSWER, GO_AND_QUIT, HOST_FULL, READY, Scene, Step};
use std::test::Fail;
use test_support::holds;

// The first turn accepts both, reports to the second that the host is full, and reads the first chunk; the
// second turn reads the rest, answers, and shuts.
#[test]
fn one_is_served_and_one_is_rejected(rt: HostRuntime) -> Result<(), Fail> {
    let steps = [
        Step::Connect(GO_AND_QUIT),
        Step::Connect(&[]),
        Step::Moves(&[true, true, false, false, false, false, false, false]),
        Step::Written(0, ANSWER, true),
        Step::Written(1, HOST_FULL, true),
    ];
    Scene::new(rt.alloc(), 1, 1000)?.plays(&rt, &steps)
}

#[test]
fn two_are_served(rt: HostRuntime) -> Result<(), Fail> {
    let steps = [
        Step::Connect(GO_AND_QUIT),
        Step::Connect(GO_AND_QUIT),
        Step::Turns(8),
        Step::Written(0, ANSWER, true),
        Step::Written(1, ANSWER, true),
    ];
    Scene::new(rt.alloc(), 2, 1000)?.plays(&rt, &steps)
}

#[test]
fn one_byte_a_write(rt: HostRuntime) -> Result<(), Fail> {
    let steps = [
        Step::Connect(GO_AND_QUIT),
        Step::Connect(GO_AND_QUIT),
        Step::Narrow(0, 1),
        Step::Turns(64),
        Step::Written(0, ANSWER, true),
        Step::Written(1, ANSWER, true),
    ];
    Scene::new(rt.alloc(), 2, 1000)?.plays(&rt, &steps)
}

// A peer that finds the host full may take the text in no more than one write.
#[test]
fn a_full_host_is_reported_in_one_write(rt: HostRuntime) -> Result<(), Fail> {
    let steps = [
        Step::Connect(&[b"isready\n"]),
        Step::Connect(&[]),
        Step::Narrow(1, 4),
        Step::Turns(4),
        Step::Written(0, READY, true),
        Step::Written(1, b"info", true),
    ];
    Scene::new(rt.alloc(), 1, 1000)?.plays(&rt, &steps)
}

const TWO_DEPTHS: &[u8] = b"info depth 1 score cp 0 pv 1g1f
info depth 2 score cp 0 pv 1g1f 1a1b
bestmove 1g1f ponder 1a1b
";

// With rounds of one step the five of the search continue for turns after the peer has ended. Each of them
// moves.
#[test]
fn a_peer_that_ends_is_answered_first(rt: HostRuntime) -> Result<(), Fail> {
    let mut scene = Scene::new(rt.alloc(), 1, 1)?;
    let x = scene.connect(&[b"go depth 2\n"])?;
    let mut turns = 0usize;
    for _ in 0..64 {
        if !scene.turn() {
            break;
        }
        turns = turns.saturating_add(1);
        holds!(rt; !scene.is_shut(x) || scene.written(x) == TWO_DEPTHS);
    }
    scene.is_written(&rt, x, TWO_DEPTHS, true);
    holds!(rt; turns >= 5 && turns < 64);
    Ok(())
}

#[test]
fn a_peer_that_ends_in_a_line_is_shut(rt: HostRuntime) -> Result<(), Fail> {
    let steps = [
        Step::Connect(&[b"isready\nisrea"]),
        Step::Turns(7),
        Step::Moves(&[false]),
        Step::Written(0, READY, true),
    ];
    Scene::new(rt.alloc(), 1, 1000)?.plays(&rt, &steps)
}

// What comes after `quit` is stored and never answered, and the slot is free for the next peer.
#[test]
fn a_slot_is_used_again(rt: HostRuntime) -> Result<(), Fail> {
    let steps = [
        Step::Connect(&[b"quit\nisready\n", b"isready\n"]),
        Step::Turns(1),
        Step::Written(0, b"", true),
        Step::Connect(GO_AND_QUIT),
        Step::Turns(8),
        Step::Written(1, ANSWER, true),
        Step::Written(0, b"", true),
    ];
    Scene::new(rt.alloc(), 1, 1000)?.plays(&rt, &steps)
}

const TWO_LINES: &[u8] = b"info depth 1 multipv 1 score cp 0 pv 1g1f
info depth 1 multipv 2 score cp 0 pv 1i1h
bestmove 1g1f
";

// A connection with two lines beside one with one, over the table of both, with rounds of one step.
#[test]
fn lines_of_their_own(rt: HostRuntime) -> Result<(), Fail> {
    let steps = [
        Step::Connect(&[b"setoption name MultiPV value 2\ngo de", b"pth 1\nquit\n"]),
        Step::Connect(GO_AND_QUIT),
        Step::Turns(33),
        Step::Moves(&[false]),
        Step::Written(0, TWO_LINES, true),
        Step::Written(1, ANSWER, true),
    ];
    Scene::new(rt.alloc(), 2, 1)?.plays(&rt, &steps)
}
