//! What one turn does at most, and peers that send much or take nothing.

use crate::connections::scene::{ANSWER, GO_AND_QUIT, READY, Scene, Step};
use std::alloc::Global;
use std::test::Fail;
use test_support::{holds, same};

/// The lines of a text, so many times over.
fn repeated(alloc: Global, text: &[u8], count: usize) -> Result<Vec<u8>, Fail> {
    let mut all = Vec::new(alloc);
    for _ in 0..count {
        all.extend_from_slice(text)?;
    }
    Ok(all)
}

#[test]
fn sixteen_are_accepted_in_a_turn(rt: HostRuntime) -> Result<(), Fail> {
    let mut scene = Scene::new(rt.alloc(), 20, 1000)?;
    for _ in 0..20 {
        scene.connect(&[b"isready\n"])?;
    }
    scene.turn();
    for number in 0..20 {
        same!(rt; scene.written(number).is_empty(), number >= 16, number);
    }
    scene.turn();
    for number in 0..20 {
        holds!(rt; scene.written(number) == READY, number);
    }
    Ok(())
}

// 513 lines of 8 bytes are 4,104 bytes, and each is answered with 8 bytes.
#[test]
fn a_read_takes_at_most_4096_bytes(rt: HostRuntime) -> Result<(), Fail> {
    let mut scene = Scene::new(rt.alloc(), 1, 1000)?;
    let sent = repeated(rt.alloc(), b"isready\n", 513)?;
    let x = scene.connect(&[sent.as_slice()])?;
    scene.turn();
    same!(rt; scene.written(x).len(), 4096);
    scene.turn();
    same!(rt; scene.written(x).len(), 4104);
    Ok(())
}

#[test]
fn one_that_takes_nothing_beside_one_that_does(rt: HostRuntime) -> Result<(), Fail> {
    let sent = repeated(rt.alloc(), b"usi\n", 1024)?;
    let steps = [
        Step::Connect(GO_AND_QUIT),
        Step::Narrow(0, 0),
        Step::Turns(7),
        Step::Moves(&[false]),
        Step::Written(1, ANSWER, true),
        Step::Written(0, b"", false),
        Step::Unread(0, 4096),
    ];
    let mut scene = Scene::new(rt.alloc(), 2, 1000)?;
    scene.connect(&[sent.as_slice(), sent.as_slice()])?;
    scene.plays(&rt, &steps)
}

// A line of 65,536 bytes is too long: the sixteenth chunk ends the session.
#[test]
fn a_line_without_end(rt: HostRuntime) -> Result<(), Fail> {
    let sent = repeated(rt.alloc(), b"x", 17 * 4096)?;
    let steps = [
        Step::Turns(32),
        Step::Written(0, b"info string line too long\n", true),
        Step::Unread(0, 4096),
    ];
    let mut scene = Scene::new(rt.alloc(), 1, 1000)?;
    scene.connect_cut(sent.as_slice(), 4096)?;
    scene.plays(&rt, &steps)
}

#[test]
fn a_thousand_connections_in_chunks_of_one_byte(rt: HostRuntime) -> Result<(), Fail> {
    let mut scene = Scene::new(rt.alloc(), 1024, 1000)?;
    for _ in 0..1024 {
        scene.connect_cut(b"isready\n", 1)?;
    }
    holds!(rt; !scene.turn_times(80));
    for number in 0..1024 {
        scene.is_written(&rt, number, READY, true);
    }
    Ok(())
}
