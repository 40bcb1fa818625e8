//! The position that a `position` command sets.

ghost use Rattle.std.specs.Prelude.{◌≡◌, ◌+◌, ◌≤◌, ◌<◌, ◌^◌, true, false, Some, None, length};
ghost use Rattle.shogi_sfen.specs.Words.{words};
ghost use Rattle.shogi_sfen.specs.MoveTexts.{move_of_text};
ghost use Rattle.usi_texts.specs.PositionCommand.{after_legal, after_moves, after_words, position_of_startpos, position_of_sfen};

use shogi_core::Position;
use shogi_moves::play_in_place;
use shogi_sfen::{read_move, read_position, words};

/// Why a `position` line leaves the position unchanged.
#[derive(Clone, Copy, Debug, PartialEq, Eq)]
pub enum Refusal {
    /// 0 if the line has another form, 1 to 8 for the first fault of its SFEN.
    BadPosition(u8),
    /// The number, from 1, of the first word after `moves` that is no legal move there.
    IllegalMove(usize),
}

/// Makes the move that the word writes in place if it is one and legal, and returns whether it is;
/// otherwise the position stays the same.
#[tactic(auto, unfolding(crate::specs::PositionCommand::after_legal))]
fn make_legal(p: &mut Position, word: &[u8]) -> bool
    ensures made { result ≡ true → after_legal p.old (move_of_text word.now) ≡ Some p.new }
    ensures if_none { result ≡ false → after_legal p.old (move_of_text word.now) ≡ None }
    ensures unchanged { result ≡ false → p.new ≡ p.old }
{
    let Some(m) = read_move(word) else {
        return false;
    };
    play_in_place(p, m)
}

/// The position after the moves that the text writes, each legal in turn, or the first that is not.
fn after_moves(p: &Position, text: &[u8]) -> Result<Position, Refusal>
    ensures { result ≡ after_moves 1 p.now (words text.now) }
{
    // A text has no more words than bytes, so their numbers fit.
    prove!(text.len() < usize::MAX - 1);
    let mut reached = *p;
    let mut number = 1;
    let mut rest = words(text);
    while let Some(word) = rest.next() {
        if !make_legal(&mut reached, word) {
            return Err(Refusal::IllegalMove(number));
        }
        number += 1;
    }
    Ok(reached)
}

/// The position after the rest of its line: nothing, or the word `moves` followed by moves.
fn after_words(p: &Position, text: &[u8]) -> Result<Position, Refusal>
    ensures { result ≡ after_words p.now (words text.now) }
{
    let mut rest = words(text);
    match rest.next() {
        None => Ok(*p),
        Some(b"moves") => after_moves(p, rest.rest()),
        Some(_) => Err(Refusal::BadPosition(0)),
    }
}

/// The position of `position startpos ..`, by the bytes after that word. `BadPosition(0)` comes if
/// another word than `moves` follows, `IllegalMove` at the first word that is no legal move.
pub fn position_of_startpos(text: &[u8]) -> Result<Position, Refusal>
    ensures { result ≡ position_of_startpos text.now }
{
    after_words(&Position::start(), text)
}

/// The position of `position sfen ..`, by the bytes after that word. A fault of the SFEN is
/// reported before one of the words after it.
pub fn position_of_sfen(text: &[u8]) -> Result<Position, Refusal>
    ensures { result ≡ position_of_sfen text.now }
{
    match read_position(text) {
        Ok((position, end)) => {
            let (_, rest) = text.split_at(end);
            after_words(&position, rest)
        }
        Err(fault) => Err(Refusal::BadPosition(fault.number())),
    }
}
