//! Positions by their SFEN text, and after moves by their text.

use shogi_core::Position;
use shogi_moves::play;
use shogi_sfen::{read_move, read_position};
use std::alloc::{AllocError, Global};
use std::process::Abort;
use std::test::Fail;

/// The position of an SFEN text.
pub fn position(sfen: &str) -> Result<Position, Fail> {
    let (p, _) = read_position(sfen.as_bytes())?;
    Ok(p)
}

/// The position after a legal move.
pub fn played(rt: &impl Abort, p: &Position, text: &str) -> Position {
    let m = read_move(text.as_bytes()).expect(rt, "a move");
    play(p, m).expect(rt, "a legal move")
}

/// Each twentieth position of a game, the opening position first.
pub fn each_twentieth(
    rt: &impl Abort,
    alloc: Global,
    moves: &[&str],
) -> Result<Vec<Position>, AllocError> {
    let mut reached = Vec::new(alloc);
    let mut p = Position::start();
    for (at, text) in moves.iter().enumerate() {
        if at % 20 == 0 {
            reached.push(p)?;
        }
        p = played(rt, &p, text);
    }
    Ok(reached)
}
