//! The position that is asked for.

ghost use Rattle.std.specs.Prelude.{◌≡◌, option_map};
ghost use Rattle.usi_moves.specs.Asked.{asked_position, illegal_words, position_of_text, reason_of, refusal_text, refusal_words};
ghost use Rattle.usi_moves.specs.Listings.{Appends};

use itoa::Buffer;
use shogi_core::Position;
use shogi_sfen::words;
use std::alloc::{AllocError, Allocator};
use usi_texts::{Refusal, position_of_sfen, position_of_startpos};

/// The position of a text: `startpos` or an SFEN, and after it nothing or `moves` and moves. A text
/// that begins with another word is read as an SFEN, so its fault is that of `position sfen`.
pub fn position_of_text(text: &[u8]) -> Result<Position, Refusal>
    ensures { result ≡ position_of_text text.now }
{
    let mut rest = words(text);
    match rest.next() {
        Some(word) if word == b"startpos".as_slice() => position_of_startpos(rest.rest()),
        _ => position_of_sfen(text),
    }
}

/// The position of the text that `--sfen` gives, or the opening position if the option is left out.
pub fn asked_position(sfen: Option<&[u8]>) -> Result<Position, Refusal>
    ensures { result ≡ asked_position (option_map (λ text. text.now) sfen.entry) }
{
    match sfen {
        Some(text) => position_of_text(text),
        None => Ok(Position::start()),
    }
}

/// Why there is no position, in words.
fn reason_of(fault: u8) -> &'static str
    ensures { result.now ≡ reason_of fault }
{
    match fault {
        1 => "it does not begin with a board",
        2 => "the side to move is neither b nor w",
        3 => "the hands are missing or cannot be read",
        4 => "there are more pieces of a kind than a set has",
        5 => "a side has two kings",
        6 => "a side has two unpromoted pawns on a file",
        7 => "a piece stands where it can never move",
        8 => "the side that is not to move is in check",
        _ => "what follows it is not `moves` and moves",
    }
}

/// Appends which move is not legal.
fn write_illegal<A: Allocator>(out: &mut Vec<u8, A>, number: usize) -> Result<(), AllocError>
    ensures { Appends result out.old out.new (illegal_words number) }
{
    let mut buffer = Buffer::new();
    out.extend_from_slice(b"move ")?;
    out.extend_from_slice(buffer.format(number).as_bytes())?;
    out.extend_from_slice(b" is not legal")?;
    Ok(())
}

/// Appends a refusal in words.
pub(crate) fn write_reason<A: Allocator>(
    out: &mut Vec<u8, A>,
    refusal: Refusal,
) -> Result<(), AllocError>
    ensures { Appends result out.old out.new (refusal_words refusal) }
{
    match refusal {
        Refusal::BadPosition(fault) => out.extend_from_slice(reason_of(fault).as_bytes()),
        Refusal::IllegalMove(number) => write_illegal(out, number),
    }
}

/// Appends why there is no position, for standard error.
#[tactic(auto, using(crate::proofs::Appending::after_three))]
pub fn write_refusal<A: Allocator>(out: &mut Vec<u8, A>, refusal: Refusal) -> Result<(), AllocError>
    ensures { Appends result out.old out.new (refusal_text refusal) }
{
    out.extend_from_slice(b"error: --sfen: ")?;
    write_reason(out, refusal)?;
    out.extend_from_slice(b"\n\nFor more information, try '--help'.\n")?;
    Ok(())
}
