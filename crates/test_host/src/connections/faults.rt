//! Calls of the wire that fail.

ghost use Rattle.std.specs.Prelude.{◌≤◌};

use crate::connections::scene::{ANSWER, GO_AND_QUIT, READY, Scene, Step};
use std::alloc::Global;
use std::process::Abort;
use std::test::Fail;
use test_support::{holds, same};

// Two peers that are to be answered alike, of whose calls the n-th from now on fails.
fn two_to_fail(alloc: Global, slots: usize, n: u64) -> Result<Scene, Fail>
    requires least { 1 ≤ slots }
    requires most { slots ≤ 1024 }
    requires n { 1 ≤ n }
{
    let mut scene = Scene::new(alloc, slots, 1000)?;
    scene.connect(GO_AND_QUIT)?;
    scene.connect(GO_AND_QUIT)?;
    scene.fail_at(n);
    Ok(scene)
}

// Calls 1 to 3 are accepts, of which the third finds nobody; call 5 is the second peer's first read.
#[test]
fn a_read_that_fails(rt: HostRuntime) -> Result<(), Fail> {
    let steps = [
        Step::Turns(1),
        Step::Written(0, b"", false),
        Step::Written(1, b"", true),
        Step::Turns(7),
        Step::Written(0, ANSWER, true),
        Step::Written(1, b"", true),
        Step::Faults(1),
    ];
    two_to_fail(rt.alloc(), 2, 5)?.plays(&rt, &steps)
}

// What a connection was written in the end, where one call of the wire may have failed.
fn check_one(rt: &impl Abort, scene: &Scene, number: u64, n: u64) {
    let written = scene.written(number);
    holds!(*rt; scene.is_shut(number), n);
    if scene.has_failed(number) {
        holds!(*rt; ANSWER.starts_with(written), n);
    } else {
        holds!(*rt; written == ANSWER, n);
    }
}

// A failed accept is made again in the next turn. A failed read or write shuts its own connection.
#[test]
fn each_call_fails_in_turn(rt: HostRuntime) -> Result<(), Fail> {
    let (mut accepts, mut others) = (0usize, 0usize);
    for n in 1..64 {
        let mut scene = two_to_fail(rt.alloc(), 2, n)?;
        scene.turn_times(8);
        check_one(&rt, &scene, 0, n);
        check_one(&rt, &scene, 1, n);
        if scene.faults() == 0 {
            break;
        }
        same!(rt; scene.faults(), 1);
        let (x, y) = (scene.has_failed(0), scene.has_failed(1));
        holds!(rt; !(x && y), n);
        if x || y {
            others = others.saturating_add(1);
        } else {
            accepts = accepts.saturating_add(1);
        }
    }
    // Two reads and a write for each of the two, and ten accepts in eight turns.
    same!(rt; (accepts, others), (10, 6));
    Ok(())
}

// With one byte a write there are many writes to fail.
#[test]
fn each_short_write_fails_in_turn(rt: HostRuntime) -> Result<(), Fail> {
    for n in 1..200 {
        let mut scene = two_to_fail(rt.alloc(), 2, n)?;
        scene.narrow(0, 1);
        scene.narrow(1, 1);
        scene.turn_times(64);
        check_one(&rt, &scene, 0, n);
        check_one(&rt, &scene, 1, n);
    }
    Ok(())
}

// A write that fails leaves the second peer, which finds the host full, without a word.
#[test]
fn a_fault_at_a_full_host(rt: HostRuntime) -> Result<(), Fail> {
    let steps = [
        Step::Turns(8),
        Step::Written(0, ANSWER, true),
        Step::Written(1, b"", true),
        Step::Failed(1, true),
    ];
    two_to_fail(rt.alloc(), 1, 3)?.plays(&rt, &steps)
}

// The least slot is visited first: the third peer has the slot that the first one left, so that its
// read, and not the second peer's, is the third call of the second turn.
#[test]
fn peers_are_visited_by_rising_slot(rt: HostRuntime) -> Result<(), Fail> {
    let before = [
        Step::Connect(&[b"quit\n"]),
        Step::Connect(&[b"isr", b"eady\n"]),
        Step::Turns(1),
        Step::Written(0, b"", true),
        Step::Written(1, b"", false),
        Step::Connect(GO_AND_QUIT),
    ];
    let after = [
        Step::Turns(8),
        Step::Failed(2, true),
        Step::Written(2, b"", true),
        Step::Failed(1, false),
        Step::Written(1, READY, true),
    ];
    let mut scene = Scene::new(rt.alloc(), 2, 1000)?;
    scene.plays(&rt, &before)?;
    scene.fail_at(3);
    scene.plays(&rt, &after)
}
