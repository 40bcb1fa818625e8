//! Reads a board from text.

ghost use Rattle.std.specs.Prelude.{◌≡◌, ◌≤◌, ◌<◌, ◌+◌, ◌++◌, None, IfSome, length, replicate, position, drop};
ghost use Rattle.std.specs.List.{slice_split, position_or_len};
ghost use Rattle.std.specs.Option.{option_map};
ghost use Rattle.shogi_sfen.specs.BoardTexts.{item_named, is_first_plus, rank_of, board_from, board_of, squares_of, is_slash};
ghost use Rattle.shogi_sfen.specs.Ranks.{TakesItem};
ghost use Rattle.shogi_sfen.specs.declared.board_text.TheConstants.{RANK_SQUARES, BOARD_SQUARES};

use crate::byte::{PLUS, SLASH};
use crate::letter::read_piece;
use arrayvec::ArrayVec;
use shogi_core::Piece;

/// Squares on a rank.
pub const RANK_SQUARES: usize = 9;

/// Squares on the board.
pub const BOARD_SQUARES: usize = 81;

/// An item of a rank: a number of empty squares, or a piece.
#[derive(Clone, Copy, Debug, PartialEq, Eq)]
pub enum RankItem {
    Empty(u8),
    Occupied(Piece),
}

/// The cells of a rank, from file 9 to file 1.
pub type Rank = ArrayVec<Option<Piece>, RANK_SQUARES>;

/// Whether the byte is a plus that begins an item.
fn is_first_plus(plus: bool, byte: u8) -> bool
    ensures { result ≡ is_first_plus plus byte }
{
    !plus && byte == PLUS
}

/// The item that a byte writes, with a plus right before it or not.
fn read_item(plus: bool, byte: u8) -> Option<RankItem>
    ensures { result ≡ item_named plus byte }
{
    match byte {
        b'1'..=b'9' if !plus => Some(RankItem::Empty(byte - b'0')),
        _ => {
            let piece = read_piece(plus, byte)?;
            Some(RankItem::Occupied(piece))
        }
    }
}

/// Appends `count` empty squares to a rank that has room for them.
fn push_run(rank: &mut Rank, count: u8)
    requires { length rank.old.items + count ≤ RANK_SQUARES }
    ensures { rank.new.items ≡ rank.old.items ++ replicate count None }
{
    for _ in 0..count {
        rank.push(None);
    }
}

/// Appends the squares of an item to the rank; false if there is no item or no room for it.
fn push_item(rank: &mut Rank, item: Option<RankItem>) -> bool
    ensures { TakesItem item rank.old.items rank.new.items result }
{
    match item {
        Some(RankItem::Empty(n)) => {
            let fits = rank.len() + n as usize <= RANK_SQUARES;
            if fits {
                push_run(rank, n);
            }
            fits
        }
        Some(RankItem::Occupied(piece)) => {
            let fits = !rank.is_full();
            if fits {
                rank.push(Some(piece));
            }
            fits
        }
        None => false,
    }
}

/// The nine cells of a rank, if the bytes write one.
#[tactic(auto, unfolding(crate::specs::BoardTexts::rank_of))]
fn read_rank(part: &[u8]) -> Option<Rank>
    ensures value { rank_of part.now ≡ option_map (λ rank. rank.items) result }
    ensures len { IfSome result (λ rank. length rank.items ≡ RANK_SQUARES) }
{
    let mut rank = ArrayVec::new();
    let mut plus = false;
    for byte in part {
        if is_first_plus(plus, *byte) {
            plus = true;
        } else {
            if !push_item(&mut rank, read_item(plus, *byte)) {
                return None;
            }
            plus = false;
        }
    }
    if plus || !rank.is_full() {
        return None;
    }
    Some(rank)
}

/// The cells of a board in the order of its text.
pub type BoardCells = ArrayVec<Option<Piece>, BOARD_SQUARES>;

/// The index of the first slash.
fn first_slash(text: &[u8]) -> Option<usize>
    ensures { result ≡ position is_slash text.now }
{
    text.iter().position(|byte| *byte == SLASH)
}

/// The length of the text before the first slash.
#[tactic(auto, using(crate::proofs::WordLaws::first_or_len))]
fn part_len(text: &[u8]) -> usize
    ensures value { result ≡ position_or_len is_slash text.now }
    ensures bound { result ≤ length text.now }
{
    first_slash(text).unwrap_or(text.len())
}

/// Appends the cells of a rank.
fn push_rank(squares: &mut BoardCells, rank: &[Option<Piece>])
    requires { length squares.old.items + length rank.now ≤ BOARD_SQUARES }
    ensures { squares.new.items ≡ squares.old.items ++ rank.now }
{
    for cell in rank {
        squares.push(*cell);
    }
}

/// The text after its first `count` bytes.
fn skip(text: &[u8], count: usize) -> &[u8]
    requires { count ≤ length text.now }
    ensures { result.now ≡ drop count text.now }
{
    let (_, rest) = text.split_at(count);
    rest
}

/// The cells of nine ranks, if the bytes write them.
fn read_cells(word: &[u8]) -> Option<BoardCells>
    ensures value { squares_of (slice_split is_slash word.now)
        ≡ option_map (λ s. s.items) result }
    ensures len { IfSome result (λ squares. length squares.items ≡ BOARD_SQUARES) }
{
    let mut squares = ArrayVec::new();
    let mut rest = word;
    for _ in 0..8usize {
        let len = part_len(rest);
        if len == rest.len() {
            return None;
        }
        let (part, _) = rest.split_at(len);
        let Some(rank) = read_rank(part) else {
            return None;
        };
        push_rank(&mut squares, rank.as_slice());
        rest = skip(rest, len + 1);
    }
    if part_len(rest) < rest.len() {
        return None;
    }
    let Some(last) = read_rank(rest) else {
        return None;
    };
    push_rank(&mut squares, last.as_slice());
    Some(squares)
}

/// Reorders cells from the order of a text to the index of squares.
fn arrange(squares: &[Option<Piece>]) -> [Option<Piece>; BOARD_SQUARES]
    requires { length squares.now ≡ BOARD_SQUARES }
    ensures { result ≡ board_from squares.now }
{
    let mut cells = [None; BOARD_SQUARES];
    for square in 0..BOARD_SQUARES {
        cells[square] = squares[square % 9 * 9 + (8 - square / 9)];
    }
    cells
}

/// The cells by index of a board's text (SFEN, board), or `None` for any other text.
#[tactic(auto, unfolding(crate::specs::BoardTexts::board_of))]
pub fn read_board(word: &[u8]) -> Option<[Option<Piece>; BOARD_SQUARES]>
    ensures { result ≡ board_of word.now }
{
    let squares = read_cells(word)?;
    Some(arrange(squares.as_slice()))
}
