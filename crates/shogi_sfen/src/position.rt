//! Reads a position from text.

ghost use Rattle.std.specs.Prelude.{◌≡◌, ◌≤◌, ◌↔◌, false, length, Ok, Err, IfOk};
ghost use Rattle.std.specs.Option.{option_map, option_and_then, option_copied, option_map_or};
ghost use Rattle.shogi_sfen.specs.Numbers.{is_number};
ghost use Rattle.shogi_sfen.specs.BoardTexts.{board_of};
ghost use Rattle.shogi_sfen.specs.HandTexts.{hands_of};
ghost use Rattle.shogi_sfen.specs.CappedHands.{capped};
ghost use Rattle.shogi_sfen.specs.Spelling.{SpellsValid, SpellsInvalid, LacksBoard, LacksSide, LacksHands};
ghost use Rattle.shogi_sfen.specs.Sfen.{side_of, position_at, past_number, end_of, number_of_sfen_fault};
ghost use Rattle.shogi_sfen.specs.declared.position.SfenFault.TheVariants.{BadBoard, BadSide, BadHand, Invalid};
ghost use Rattle.shogi_core.specs.declared.validity.PositionFault.{PositionFault};
ghost use Rattle.shogi_core.specs.Position.{Shogi};

use crate::board_text::{BOARD_SQUARES, read_board};
use crate::hand_text::read_hands;
use crate::number::is_number;
use crate::split::words;
use shogi_core::{Color, Hands, Piece, Position, PositionFault};

/// Why a text writes no position. Faults are looked for in this order.
#[derive(Clone, Copy, Debug, PartialEq, Eq)]
pub enum SfenFault {
    /// The first word is missing or writes no board.
    BadBoard,
    /// The second word is missing or is neither `b` nor `w`.
    BadSide,
    /// The third word is missing or writes no hands.
    BadHand,
    /// The words write a position with this fault.
    Invalid(PositionFault),
}

impl SfenFault {
    /// The number that the host gives for the fault, from 1 to 8 (own choice).
    pub fn number(self) -> u8
        ensures { result ≡ number_of_sfen_fault self }
    {
        match self {
            SfenFault::BadBoard => 1,
            SfenFault::BadSide => 2,
            SfenFault::BadHand => 3,
            SfenFault::Invalid(fault) => fault.number(),
        }
    }
}

/// The side to move that a word writes.
fn read_side(word: &[u8]) -> Option<Color>
    ensures { result ≡ side_of word.now }
{
    if word == b"b".as_slice() {
        Some(Color::Black)
    } else if word == b"w".as_slice() {
        Some(Color::White)
    } else {
        None
    }
}

/// The cells that a word writes, if there is a word.
fn board_word(word: Option<&[u8]>) -> Option<[Option<Piece>; BOARD_SQUARES]>
    ensures { result ≡ option_and_then board_of (option_copied word.entry) }
{
    match word {
        Some(word) => read_board(word),
        None => None,
    }
}

/// The side that a word writes, if there is a word.
fn side_word(word: Option<&[u8]>) -> Option<Color>
    ensures { result ≡ option_and_then side_of (option_copied word.entry) }
{
    match word {
        Some(word) => read_side(word),
        None => None,
    }
}

/// The hands that a word writes, if there is a word.
fn hand_word(word: Option<&[u8]>) -> Option<Hands>
    ensures { result ≡ option_map capped (option_and_then hands_of (option_copied word.entry)) }
{
    match word {
        Some(word) => read_hands(word),
        None => None,
    }
}

/// Whether there is a word and it is a number.
fn number_word(word: Option<&[u8]>) -> bool
    ensures { result ≡ option_map_or is_number (option_copied word.entry) false }
{
    match word {
        Some(word) => is_number(word),
        None => false,
    }
}

/// The text after its first word if that is a number, else all of it.
fn after_number(text: &[u8]) -> &[u8]
    ensures value { result.now ≡ past_number text.now }
    ensures len { length result.now ≤ length text.now }
{
    let mut rest = words(text);
    if number_word(rest.next()) {
        rest.rest()
    } else {
        text
    }
}

/// The position at the start of a text and the index after it, or its first fault.
fn position_at(text: &[u8]) -> Result<(Position, usize), SfenFault>
    ensures { result ≡ position_at text.now }
{
    let mut rest = words(text);
    let Some(cells) = board_word(rest.next()) else {
        return Err(SfenFault::BadBoard);
    };
    let Some(side) = side_word(rest.next()) else {
        return Err(SfenFault::BadSide);
    };
    let Some(hands) = hand_word(rest.next()) else {
        return Err(SfenFault::BadHand);
    };
    let position = match Position::new(cells, hands, side) {
        Ok(position) => position,
        Err(fault) => return Err(SfenFault::Invalid(fault)),
    };
    let after = after_number(rest.rest());
    Ok((position, text.len() - after.len()))
}

/// Reads the position at the start of a text (SFEN): a board, a side, hands, and an optional number
/// without effect. Returns it with the index right after the last of these words, or the first
/// fault in the order of `SfenFault`. A missing word is the fault of its place; a count in hand
/// that no set has is `TooMany`, however long it is.
pub fn read_position(text: &[u8]) -> Result<(Position, usize), SfenFault>
    ensures value { result ≡ position_at text.now }
    ensures within { IfOk result (λ found. found.1 ≤ length text.now) }
    ensures spelled { IfOk result (λ found. SpellsValid text.now found.0) }
    ensures read { (p : Shogi) → SpellsValid text.now p → result ≡ Ok (p, end_of text.now) }
    ensures bad_board { (result ≡ Err BadBoard) ↔ LacksBoard text.now }
    ensures bad_side { (result ≡ Err BadSide) ↔ LacksSide text.now }
    ensures bad_hand { (result ≡ Err BadHand) ↔ LacksHands text.now }
    ensures invalid { (f : PositionFault)
        → (result ≡ Err (Invalid f)) ↔ SpellsInvalid text.now f }
{
    position_at(text)
}
