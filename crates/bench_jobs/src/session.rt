//! Jobs of one front end: what it sends is answered by a session over standard streams.

use crate::digest::Digest;
use crate::game::Game;
use crate::random::Random;
use anyhow::Result;
use shogi_sfen::write_position;
use std::alloc::Global;
use usi_stdio::{Duplex, stdio};

/// The entries of the table.
const ENTRIES: usize = 4096;

/// The first ply that is analysed.
const FIRST_PLY: usize = 4;

/// Where so many plies of a game begin, of those from the first one on that is analysed.
fn first_of(game: &Game, plies: usize, random: &mut Random) -> usize {
    let starts = game.plies().saturating_sub(FIRST_PLY).saturating_sub(plies);
    random
        .below(starts.saturating_add(1))
        .saturating_add(FIRST_PLY)
}

/// So many plies of each game in turn, each position sent as the game up to it, with this `go`.
fn analyse(
    games: &[Game],
    (plies, go): (usize, &[u8]),
    random: &mut Random,
    sent: &mut Vec<u8>,
) -> Result<()> {
    for game in games {
        sent.extend_from_slice(b"usinewgame\n")?;
        let first = first_of(game, plies, random);
        for number in 0..plies {
            sent.extend_from_slice(b"position startpos moves")?;
            sent.extend_from_slice(game.moves(first.saturating_add(number)))?;
            sent.extend_from_slice(go)?;
        }
    }
    Ok(())
}

/// Takes in the answer of a session to what is sent.
fn answer(alloc: Global, sent: &[u8], digest: &mut Digest) -> Result<()> {
    let mut ends = Duplex::new(sent, Vec::new(alloc));
    stdio(alloc, &mut ends, ENTRIES)?;
    digest.take_in(ends.output.as_slice());
    Ok(())
}

/// Ten plies of each game, one after another, at depth 5.
pub fn game(alloc: Global, games: &[Game], random: &mut Random, digest: &mut Digest) -> Result<()> {
    let mut sent = Vec::new(alloc);
    analyse(games, (10, b"\ngo depth 5\n"), random, &mut sent)?;
    answer(alloc, sent.as_slice(), digest)
}

/// Five plies of each game, one after another, with four lines at depth 5.
pub fn lines(
    alloc: Global,
    games: &[Game],
    random: &mut Random,
    digest: &mut Digest,
) -> Result<()> {
    let mut sent = Vec::new(alloc);
    sent.extend_from_slice(b"setoption name MultiPV value 4\n")?;
    analyse(games, (5, b"\ngo depth 5\n"), random, &mut sent)?;
    answer(alloc, sent.as_slice(), digest)
}

/// One position out of each twelfth of each game as its SFEN, at depth 5 and 4 by turns, under each
/// evaluation by turns.
pub fn grade(
    alloc: Global,
    games: &[Game],
    random: &mut Random,
    digest: &mut Digest,
) -> Result<()> {
    let mut sent = Vec::new(alloc);
    for part in 0..12usize {
        let eval = if part % 2 == 0 {
            b"Hand\n".as_slice()
        } else {
            b"Plain\n"
        };
        sent.extend_from_slice(b"setoption name Eval value ")?;
        sent.extend_from_slice(eval)?;
        for game in games {
            let ply = game.some_ply(part, 12, random);
            sent.extend_from_slice(b"position sfen ")?;
            sent.extend_from_slice(write_position(&game.position(ply)).as_slice())?;
            let go = if part % 3 == 0 {
                b"\ngo depth 4\n"
            } else {
                b"\ngo depth 5\n"
            };
            sent.extend_from_slice(go)?;
        }
    }
    answer(alloc, sent.as_slice(), digest)
}
