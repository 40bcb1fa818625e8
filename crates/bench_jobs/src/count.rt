//! Counting sequences of moves.

use crate::digest::Digest;
use crate::game::Game;
use crate::random::Random;
use shogi_core::{Move, Position};
use shogi_moves::{next_legal, perft, play};
use shogi_sfen::read_position;

/// The position of most moves.
const MOST_MOVES: &[u8] = b"R8/2K1S1SSk/4B4/9/9/9/9/9/1L1L1L3 b RBGSNLP3g3n17p 1";

/// The legal move of this number, where there are so many.
pub fn legal_move(p: &Position, number: usize) -> Option<Move> {
    let mut reached = next_legal(p, None)?;
    for _ in 0..number {
        reached = next_legal(p, Some(reached))?;
    }
    Some(reached)
}

/// The position after one of its first twenty legal moves, or the position itself where it has none of
/// that number.
fn after_some_move(p: &Position, random: &mut Random) -> Position {
    match legal_move(p, random.below(20)) {
        Some(m) => play(p, m).unwrap_or(*p),
        None => *p,
    }
}

/// The position of most moves, after some move of it.
pub fn many_moves(random: &mut Random) -> Position {
    match read_position(MOST_MOVES) {
        Ok((p, _)) => after_some_move(&p, random),
        Err(_) => Position::start(),
    }
}

/// Takes in how many sequences of so many moves there are.
fn take_in_count(p: &Position, depth: u8, digest: &mut Digest) {
    digest.take_in_number(perft(p, depth.min(16)).unwrap_or(u64::MAX));
}

/// One position out of each of 36 parts of each game at depth 3, the position after some first move of a
/// game at depth 5, and that after some move of the position of most moves at depth 3.
pub fn count(games: &[Game], random: &mut Random, digest: &mut Digest) {
    for game in games {
        for part in 0..36usize {
            let ply = game.some_ply(part, 36, random);
            take_in_count(&game.position(ply), 3, digest);
        }
    }
    take_in_count(&after_some_move(&Position::start(), random), 5, digest);
    take_in_count(&many_moves(random), 3, digest);
}
