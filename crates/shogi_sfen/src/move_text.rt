//! Reads and writes moves as text.

ghost use Rattle.std.specs.Prelude.{◌≡◌, ◌++◌, ◌<◌, Some, length};
ghost use Rattle.shogi_sfen.specs.MoveTexts.{square_text, text_of, move_of_text};
ghost use Rattle.shogi_sfen.specs.Reading.{square_read, board_read, drop_read, short_read, long_read, move_read};

use crate::byte::{FIRST_FILE, FIRST_RANK, PLUS, STAR};
use crate::letter::{letter_of, read_kind};
use arrayvec::ArrayVec;
use shogi_core::{Kind, Move, Square};

/// The square of a digit and a letter from `a` to `i`.
fn read_square(file: u8, rank: u8) -> Option<Square>
    ensures { result ≡ square_read file rank }
{
    match (file, rank) {
        (b'1'..=b'9', b'a'..=b'i') => {
            let index = (file - b'1') as usize * 9 + (rank - b'a') as usize;
            Some(Square::of_index(index))
        }
        _ => None,
    }
}

/// The move between two squares, if both were read.
fn board_move(from: Option<Square>, to: Option<Square>, promote: bool) -> Option<Move>
    ensures { result ≡ board_read from to promote }
{
    match (from, to) {
        (Some(from), Some(to)) => Some(Move::Board { from, to, promote }),
        _ => None,
    }
}

/// The drop of a kind on a square, if both were read.
fn drop_move(kind: Option<Kind>, to: Option<Square>) -> Option<Move>
    ensures { result ≡ drop_read kind to }
{
    match (kind, to) {
        (Some(kind), Some(to)) => Some(Move::Drop { kind, to }),
        _ => None,
    }
}

/// The move of four bytes: a drop if the second is a star, else a board move.
fn read_short(bytes: &[u8]) -> Option<Move>
    requires { length bytes.now ≡ 4 }
    ensures { result ≡ short_read bytes.now }
{
    let to = read_square(bytes[2], bytes[3]);
    if bytes[1] == STAR {
        drop_move(read_kind(bytes[0]), to)
    } else {
        board_move(read_square(bytes[0], bytes[1]), to, false)
    }
}

/// The move of five bytes: a promotion, which ends with a plus.
fn read_long(bytes: &[u8]) -> Option<Move>
    requires { length bytes.now ≡ 5 }
    ensures { result ≡ long_read bytes.now }
{
    if bytes[4] != PLUS {
        return None;
    }
    let from = read_square(bytes[0], bytes[1]);
    board_move(from, read_square(bytes[2], bytes[3]), true)
}

/// The move of four or five bytes.
#[tactic(auto, unfolding(crate::specs::Reading::move_read))]
fn read_either(bytes: &[u8]) -> Option<Move>
    ensures { result ≡ move_read bytes.now }
{
    match bytes.len() {
        4 => read_short(bytes),
        5 => read_long(bytes),
        _ => None,
    }
}

/// The move that a text writes (USI, moves), such as `7g7f`, `8h2b+` or `G*5b`, or `None` for any
/// other text. The move need not be legal in any position.
pub fn read_move(bytes: &[u8]) -> Option<Move>
    ensures { result ≡ move_of_text bytes.now }
{
    read_either(bytes)
}

/// The only text of the move (USI, moves).
pub fn write_move(m: Move) -> ArrayVec<u8, 5>
    ensures text { result.items ≡ text_of m }
    ensures back { move_of_text (text_of m) ≡ Some m }
{
    // The prover needs a code for the move: its text is looked for among all codes.
    m.reveal_invariant();
    let mut text = ArrayVec::new();
    match m {
        Move::Board { from, to, promote } => {
            push_square(&mut text, from);
            push_square(&mut text, to);
            if promote {
                text.push(PLUS);
            }
        }
        Move::Drop { kind, to } => {
            text.push(letter_of(kind));
            text.push(STAR);
            push_square(&mut text, to);
        }
    }
    text
}

/// Appends the file as a digit and the rank as a letter from `a` to `i`.
fn push_square(text: &mut ArrayVec<u8, 5>, square: Square)
    requires { length text.old.items < 4 }
    ensures { text.new.items ≡ text.old.items ++ square_text square }
{
    let index = square.index();
    text.push(FIRST_FILE + (index / 9) as u8);
    text.push(FIRST_RANK + (index % 9) as u8);
}
