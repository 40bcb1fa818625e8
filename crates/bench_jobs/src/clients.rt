//! Many clients of one host.

use crate::count::legal_move;
use crate::digest::Digest;
use crate::game::Game;
use crate::random::Random;
use anyhow::{Result, anyhow, bail};
use session_slots::SessionId;
use shogi_core::Move;
use shogi_sfen::write_move;
use std::alloc::Global;
use test_facade::OpaqueHost;

/// The entries of the host's table.
const ENTRIES: usize = 4096;

/// The steps that a session makes at once.
const SLICE: u64 = 1000;

/// How many clients ask about each game.
const CLIENTS_OF_A_GAME: usize = 33;

/// How often each client asks.
const TURNS: usize = 30;

/// How many numbers are gone through for the questions of a client.
const NUMBERS: usize = 10_000;

/// The first ply that is asked about. No two games of the benchmark share so many.
const FIRST_PLY: usize = 8;

/// Works round by round until nothing is pending.
fn work_all(host: &mut OpaqueHost<Global>) {
    for _ in 0..u64::MAX {
        let round = host.round(SLICE);
        if round.worked == 0 && round.refused == 0 {
            break;
        }
    }
}

/// What a client asks about its game: the game up to this ply, and then the move of this code in place
/// of its own.
#[derive(Clone, Copy, Debug)]
struct Question {
    ply: usize,
    code: u16,
}

/// The question of this number about a game, where it is one: the first legal move at each ply in turn,
/// then the second at each ply, and so on. No two numbers have the same question.
fn question_of(game: &Game, number: usize) -> Option<Question> {
    let plies = game.plies().saturating_sub(FIRST_PLY).max(1);
    let ply = (number % plies).saturating_add(FIRST_PLY);
    let other = legal_move(&game.position(ply), number / plies)?;
    let tried = other;
    let code = other.code();
    let with_its_own = game.moves(ply.saturating_add(1));
    if with_its_own.ends_with(write_move(tried).as_slice()) {
        return None;
    }
    Some(Question { ply, code })
}

/// The next questions about a game, one for each turn of a client, from this number on.
fn next_questions(alloc: Global, game: &Game, number: &mut usize) -> Result<Vec<Question>> {
    let mut asked = Vec::new(alloc);
    for _ in 0..NUMBERS {
        if asked.len() == TURNS {
            return Ok(asked);
        }
        if let Some(next) = question_of(game, *number) {
            asked.push(next)?;
        }
        *number = number.saturating_add(1);
    }
    bail!("a game is too short")
}

/// A client: its session, its game, and what it asks about it, turn by turn.
#[derive(Drop)]
struct Client<'a> {
    id: SessionId,
    game: &'a Game,
    questions: Vec<Question>,
}

impl Client<'_> {
    /// What it sends at a turn: its game up to some ply, and then another move.
    fn request(&self, alloc: Global, turn: usize) -> Result<Vec<u8>> {
        let question = self.questions.get(turn);
        let Question { ply, code } = *question.ok_or(anyhow!("no question is left"))?;
        let other = Move::of_code(code).ok_or(anyhow!("a code is no move's"))?;
        let mut sent = Vec::new(alloc);
        sent.extend_from_slice(b"position startpos moves")?;
        sent.extend_from_slice(self.game.moves(ply))?;
        sent.push(b' ')?;
        sent.extend_from_slice(write_move(other).as_slice())?;
        sent.extend_from_slice(b"\ngo depth 3\n")?;
        Ok(sent)
    }
}

/// Clients of each game, some hundreds in all, who ask by turns about their games so far at depth 3,
/// each from another ply on, and a later one each time. No two ask the same.
pub fn clients(
    alloc: Global,
    games: &[Game],
    random: &mut Random,
    digest: &mut Digest,
) -> Result<()> {
    let slots = games.len().saturating_mul(CLIENTS_OF_A_GAME);
    let host = OpaqueHost::new(alloc, slots, ENTRIES);
    let mut host = host.map_err(|_| anyhow!("no memory for a host"))?;
    let mut clients = Vec::new(alloc);
    for game in games {
        let mut number = random.below(1000);
        for _ in 0..CLIENTS_OF_A_GAME {
            let id = host.open().map_err(|_| anyhow!("no room for a client"))?;
            let questions = next_questions(alloc, game, &mut number)?;
            clients.push(Client {
                id,
                game,
                questions,
            })?;
        }
    }
    for turn in 0..TURNS {
        for client in clients.as_slice() {
            let sent = client.request(alloc, turn)?;
            let fed = host.feed(client.id, sent.as_slice());
            fed.map_err(|_| anyhow!("a client is not heard"))?;
        }
        work_all(&mut host);
        for client in clients.as_slice() {
            let taken = host.take(client.id, usize::MAX);
            let taken = taken.map_err(|_| anyhow!("no memory for an answer"))?;
            digest.take_in(taken.as_slice());
        }
    }
    Ok(())
}
