//! Games as they are read from standard input.

ghost use Rattle.std.specs.Prelude.{◌≤◌};

use crate::random::Random;
use anyhow::{Result, anyhow};
use shogi_core::Position;
use shogi_moves::play;
use shogi_sfen::{read_move, words};
use std::alloc::Global;

/// A game from the opening position: its moves as USI writes them, each with a blank before it, and
/// for each number of plies where the text of so many moves ends and the position after them.
#[derive(Drop)]
pub struct Game {
    text: Vec<u8>,
    ends: Vec<usize>,
    positions: Vec<Position>,
}

impl Game {
    /// How many plies it has.
    pub fn plies(&self) -> usize {
        self.positions.len().saturating_sub(1)
    }

    /// The text of its first moves, so many or all of them.
    pub fn moves(&self, plies: usize) -> &[u8] {
        let end = match self.ends.get(plies) {
            Some(end) => *end,
            None => self.text.len(),
        };
        self.text.as_slice().get(..end).unwrap_or(b"")
    }

    /// The number of plies at some place of this part of the game, of so many parts.
    pub fn some_ply(&self, part: usize, parts: usize, random: &mut Random) -> usize
        requires { 1 ≤ parts }
    {
        let plies = self.plies() / parts;
        plies
            .saturating_mul(part)
            .saturating_add(random.below(plies))
    }

    /// The position after so many plies, or the opening position where the game has fewer.
    pub fn position(&self, plies: usize) -> Position {
        match self.positions.get(plies) {
            Some(position) => *position,
            None => Position::start(),
        }
    }
}

/// The game of a line of moves.
fn read_game(alloc: Global, line: &str) -> Result<Game> {
    let mut game = Game {
        text: Vec::new(alloc),
        ends: Vec::new(alloc),
        positions: Vec::new(alloc),
    };
    let mut reached = Position::start();
    game.ends.push(0)?;
    game.positions.push(reached)?;
    let mut rest = words(line.as_bytes());
    while let Some(word) = rest.next() {
        let played = read_move(word).ok_or(anyhow!("a word is no move"))?;
        reached = play(&reached, played).ok_or(anyhow!("a move is not legal"))?;
        game.text.push(b' ')?;
        game.text.extend_from_slice(word)?;
        game.ends.push(game.text.len())?;
        game.positions.push(reached)?;
    }
    Ok(game)
}

/// The games of standard input, one a line.
pub fn read_games(rt: &HostRuntime) -> Result<Vec<Game>> {
    let mut games = Vec::new(rt.alloc());
    for line in rt.lines(rt.alloc()) {
        games.push(read_game(rt.alloc(), line?.as_str())?)?;
    }
    Ok(games)
}
