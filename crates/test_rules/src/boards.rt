//! Squares, sets of them, boards, positions and moves by their texts.

use shogi_core::{Board, Color, Move, Piece, Position, Role, Square, Squares};
use shogi_sfen::{read_move, read_position};
use std::test::Fail;

/// The square of a name, as `5e`.
pub fn square(name: &str) -> Result<Square, Fail> {
    let [file, rank] = name.as_bytes() else {
        return Err("a name of two letters".into());
    };
    let square = Square::new(file.saturating_sub(b'0'), rank.saturating_sub(b'a' - 1));
    Ok(square.ok_or("a square")?)
}

/// The file of a square, from 1 to 9.
pub fn file_of(square: Square) -> u8 {
    (square.index() / 9) as u8 + 1
}

/// The squares of these names.
pub fn squares_of(names: &str) -> Result<Squares, Fail> {
    let mut squares = Squares::none();
    for name in names.split_whitespace() {
        squares = squares.with(square(name)?);
    }
    Ok(squares)
}

/// A piece of a side on the square of this name.
pub type Placed<'a> = (Color, Role, &'a str);

/// The board of these pieces.
pub fn board(pieces: &[Placed<'_>]) -> Result<Board, Fail> {
    let mut board = Board::of([None; 81]);
    for (color, role, name) in pieces {
        let piece = Piece {
            color: *color,
            role: *role,
        };
        board = board.put(square(name)?, Some(piece));
    }
    Ok(board)
}

/// The position of an SFEN text.
pub fn position(sfen: &str) -> Result<Position, Fail> {
    let (p, _) = read_position(sfen.as_bytes())?;
    Ok(p)
}

/// The move of a text as in USI.
pub fn read(text: &str) -> Result<Move, Fail> {
    Ok(read_move(text.as_bytes()).ok_or("a move")?)
}
