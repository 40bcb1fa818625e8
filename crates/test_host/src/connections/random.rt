//! Wires by chance, with fixed seeds: each connection beside a session of its own.

use crate::connections::scene::{HOST_FULL, Scene};
use shogi_search::NoMemo;
use std::alloc::Global;
use std::process::Abort;
use std::test::Fail;
use test_facade::OpaqueSession;
use test_support::holds;
use test_support::random::Random;

/// Lines that peers send.
const LINES: [&[u8]; 12] = [
    b"usi\n",
    b"isready\r\n",
    b"setoption name Depth value 1\n",
    b"go\n",
    b"go depth 2\n",
    b"position startpos moves 7g7f 3c3d\n",
    b"position sfen 4k4/9/4P4/9/9/9/9/9/9 b G 1\ngo depth 2\n",
    b"position startpos moves 1a1b\n",
    b"go infinite\n",
    b"stop\n",
    b"\n\nnonsense\n",
    b"quit\n",
];

/// A peer: its number, what it sends, and whether it takes bytes.
#[derive(Drop)]
struct Client {
    number: u64,
    sent: Vec<u8>,
    takes: bool,
}

/// Some lines, of which the last one may be cut.
fn dialogue(alloc: Global, random: &mut Random) -> Result<Vec<u8>, Fail> {
    let lines = LINES;
    let mut sent = Vec::new(alloc);
    for _ in 0..random.below(8) {
        let line = lines[random.below(12) as usize];
        sent.extend_from_slice(line)?;
    }
    if random.below(3) == 0 && !sent.is_empty() {
        sent.truncate(sent.len() - 1);
    }
    Ok(sent)
}

/// A peer with a dialogue in chunks, some of them empty, and writes of some width.
fn connected(alloc: Global, scene: &mut Scene, random: &mut Random) -> Result<Client, Fail> {
    let sent = dialogue(alloc, random)?;
    let size = 1 + random.below(24) as usize;
    let number = scene.connect_cut(sent.as_slice(), size)?;
    let width = random.below(40) as usize;
    let takes = width > 0;
    scene.narrow(number, width);
    Ok(Client {
        number,
        sent,
        takes,
    })
}

/// What a session of its own says to the bytes, without a table.
fn said_alone(alloc: Global, bytes: &[u8]) -> Result<Vec<u8>, Fail> {
    let mut session = OpaqueSession::new(alloc);
    for chunk in bytes.chunks(4096) {
        if session.wants_input() {
            session.feed(chunk)?;
            session.work(&mut NoMemo, u64::MAX)?;
        }
    }
    let mut said = Vec::new(alloc);
    said.extend_from_slice(session.output())?;
    Ok(said)
}

// A connection has a prefix of what a session of its own says, and all of it where it was served to its
// end; or it was written that the host is full.
fn check(
    rt: &impl Abort,
    alloc: Global,
    scene: &Scene,
    client: &Client,
    seed: u64,
) -> Result<bool, Fail> {
    let written = scene.written(client.number);
    let alone = said_alone(alloc, client.sent.as_slice())?;
    holds!(*rt; scene.is_shut(client.number) || !client.takes, seed);
    if written == alone.as_slice() {
        return Ok(true);
    }
    let was_cut = scene.has_failed(client.number) || !client.takes;
    let is_prefix = alone.as_slice().starts_with(written);
    holds!(*rt; was_cut && is_prefix || HOST_FULL.starts_with(written), seed);
    Ok(false)
}

/// A scene without peers, by chance.
fn empty(alloc: Global, random: &mut Random) -> Result<Scene, Fail> {
    let slots = 1 + random.below(6) as usize;
    let slice = 1 + random.below(300);
    Scene::new(alloc, slots, slice)
}

/// Some peers, and perhaps a call that fails.
fn connect_some(
    alloc: Global,
    scene: &mut Scene,
    random: &mut Random,
) -> Result<Vec<Client>, Fail> {
    let mut clients = Vec::new(alloc);
    for _ in 0..1 + random.below(6) {
        clients.push(connected(alloc, scene, random)?)?;
    }
    if random.below(2) == 0 {
        scene.fail_at(1 + random.below(80));
    }
    Ok(clients)
}

/// Turns until two of them do not move. Returns whether there were two.
fn comes_to_rest(scene: &mut Scene) -> bool {
    for _ in 0..5000 {
        if !scene.turn() && !scene.turn() {
            return true;
        }
    }
    false
}

/// How many connections have all that a session of its own says.
fn served_whole(rt: &impl Abort, alloc: Global, seed: u64) -> Result<usize, Fail> {
    let mut random = Random::new(seed);
    let mut scene = empty(alloc, &mut random)?;
    let clients = connect_some(alloc, &mut scene, &mut random)?;
    holds!(*rt; comes_to_rest(&mut scene), seed);
    let mut whole = 0usize;
    for client in clients.as_slice() {
        if check(rt, alloc, &scene, client, seed)? {
            whole = whole.saturating_add(1);
        }
    }
    Ok(whole)
}

#[test]
fn wires_by_chance(rt: HostRuntime) -> Result<(), Fail> {
    let mut whole = 0usize;
    for seed in 0..60 {
        whole = whole.saturating_add(served_whole(&rt, rt.alloc(), seed)?);
    }
    holds!(rt; whole > 100, whole);
    Ok(())
}
