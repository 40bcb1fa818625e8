//! Reads pieces in hand from text.

ghost use Rattle.std.specs.Prelude.{◌≡◌, ◌≤◌, ◌+◌};
ghost use Rattle.std.specs.Option.{option_map};
ghost use Rattle.shogi_sfen.specs.HandTexts.{no_hands, hands_of};
ghost use Rattle.shogi_sfen.specs.declared.byte.TheConstants.{ZERO};
ghost use Rattle.shogi_sfen.specs.CappedHands.{capped, capped_digit, capped_piece, capped_from};

use crate::byte::ZERO;
use crate::letter::read_piece;
use shogi_core::{Hands, Piece};

/// The value at which a count saturates; no set has as many pieces.
pub const COUNTED_MAX: u8 = u8::MAX;

/// Appends a digit to a count, which saturates at `COUNTED_MAX`; `None` if its first digit is 0.
fn with_digit(count: Option<u8>, byte: u8) -> Option<u8>
    requires { (ZERO ≤ byte) × (byte ≤ ZERO + 9) }
    ensures { result ≡ capped_digit count byte }
{
    if count.is_none() && byte == ZERO {
        return None;
    }
    let number = count.unwrap_or(0) as u32 * 10 + (byte - ZERO) as u32;
    Some(number.min(COUNTED_MAX as u32) as u8)
}

/// Adds `count` of a piece to the hands, saturating at `COUNTED_MAX`; `None` if it cannot be held.
fn with_piece(hands: Hands, count: u8, piece: Option<Piece>) -> Option<Hands>
    ensures { result ≡ capped_piece hands count piece }
{
    let piece = piece?;
    let kind = piece.role.kind()?;
    let held = hands.count(piece.color, kind);
    Some(hands.with(piece.color, kind, held.saturating_add(count)))
}

/// The hands that items write: each an optional count and a letter.
fn read_items(word: &[u8]) -> Option<Hands>
    ensures { result ≡ capped_from no_hands None word.now }
{
    let mut hands = Hands::none();
    let mut count = None;
    for byte in word {
        if byte.is_ascii_digit() {
            match with_digit(count, *byte) {
                None => return None,
                Some(number) => count = Some(number),
            }
        } else {
            match with_piece(hands, count.unwrap_or(1), read_piece(false, *byte)) {
                None => return None,
                Some(more) => {
                    hands = more;
                    count = None;
                }
            }
        }
    }
    match count {
        None => Some(hands),
        Some(_) => None,
    }
}

/// The hands that a text writes (SFEN, pieces in hand), or `None` for any other text. A greater
/// count reads as `COUNTED_MAX`.
#[tactic(auto, unfolding(crate::specs::HandTexts::hands_of))]
pub fn read_hands(word: &[u8]) -> Option<Hands>
    ensures { result ≡ option_map capped (hands_of word.now) }
{
    if word == b"-".as_slice() {
        return Some(Hands::none());
    }
    if word.is_empty() {
        return None;
    }
    read_items(word)
}
