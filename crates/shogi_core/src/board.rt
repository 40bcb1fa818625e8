//! Boards of 81 cells, with masks that follow from them.

ghost use Rattle.std.specs.Prelude.{◌≡◌, ◌<◌, ◌^◌, ℕ, length, slice_set, cond, ◌==◌, not, is_none};
ghost use Rattle.shogi_core.specs.Bits.{HasBits, has_bit};
ghost use Rattle.shogi_core.specs.Cell.{is_piece_of, is_king, is_slider};
ghost use Rattle.shogi_core.specs.Masks.{own_of, is_any_king, HasPassing};
ghost use Rattle.shogi_core.specs.Movement.{piece_at};
ghost use Rattle.shogi_core.specs.Start.{start_cells};
ghost use Rattle.shogi_core.specs.Words.{board_words};

use crate::bits::{ALL_SQUARES, with, without};
use crate::cell::{is_piece_of, is_slider};
use crate::piece::{Color, Piece};
use crate::square::Square;
use crate::squares::Squares;
use crate::start::{
    START_BLACK, START_KINGS, START_SLIDERS, START_WHITE, START_WORDS, start_cells,
};
use crate::words::{board_words, cell_number, with_digit};
use std::marker::Model;

/// A board, seen as its 81 cells by index. It may be part of no valid position. Only the cells are
/// compared and hashed: masks and words follow from them.
#[derive(Clone, Copy, Debug)]
#[derive_where(PartialEq, Eq, Hash)]
pub struct Board {
    #[derive_where(skip(EqHashOrd))]
    black: u128,
    #[derive_where(skip(EqHashOrd))]
    white: u128,
    #[derive_where(skip(EqHashOrd))]
    kings: u128,
    #[derive_where(skip(EqHashOrd))]
    sliders: u128,
    #[derive_where(skip(EqHashOrd))]
    words: [u64; 7],
    cells: [Option<Piece>; 81],
}

impl Model for Board {
    ghost use Rattle.std.specs.Prelude.{List, Option};
    ghost use Rattle.shogi_core.specs.declared.piece.Piece.{Piece};
    ghost use Rattle.shogi_core.specs.declared.piece.Color.TheVariants.{Black, White};
    ghost use Rattle.shogi_core.specs.Masks.{IsBoard, own_of, kings_of, sliders_of};
    ghost use Rattle.shogi_core.specs.Words.{board_words};
    ghost use Rattle.std.proofs.Common.{ap, sym, ◌∙◌};

    ghost Value = { List (Option Piece) };

    ghost view = { λ b. b.cells };

    ghost invariant = { λ b. IsBoard b.cells b.black b.white b.kings b.sliders b.words };

    ghost inverse = { λ cells. record { cells = cells; black = own_of cells Black; white = own_of cells White; kings = kings_of cells; sliders = sliders_of cells; words = board_words cells } };

    ghost inverse_ok = { λ b h. ap (λ black. record { cells = b.cells; black = black; white = own_of b.cells White; kings = kings_of b.cells; sliders = sliders_of b.cells; words = board_words b.cells }) (sym h.1) ∙ (ap (λ white. record { cells = b.cells; black = b.black; white = white; kings = kings_of b.cells; sliders = sliders_of b.cells; words = board_words b.cells }) (sym h.2) ∙ (ap (λ kings. record { cells = b.cells; black = b.black; white = b.white; kings = kings; sliders = sliders_of b.cells; words = board_words b.cells }) (sym h.3) ∙ (ap (λ sliders. record { cells = b.cells; black = b.black; white = b.white; kings = b.kings; sliders = sliders; words = board_words b.cells }) (sym h.4) ∙ ap (λ words. record { cells = b.cells; black = b.black; white = b.white; kings = b.kings; sliders = b.sliders; words = words }) (sym h.5)))) };
}

/// Whether a king of either side stands in the cell.
fn is_any_king(cell: Option<Piece>) -> bool
    ensures { result ≡ is_any_king cell }
{
    match cell {
        None => false,
        Some(piece) => piece.role.is_king(),
    }
}

/// The mask of the squares whose cells pass the test.
fn passing_squares<F: Fn(Option<Piece>) -> bool>(cells: &[Option<Piece>; 81], test: F) -> u128
    requires { F.IsAlwaysCallable test }
    ensures { HasPassing (F.post test) cells.now result }
{
    let mut mask = 0;
    for square in 0..81 {
        if test(cells[square]) {
            mask |= 1 << square;
        }
    }
    mask
}

/// The mask with the square's bit set if `on`, else clear.
#[tactic(auto, using(crate::proofs::MaskLaws::marks))]
fn marked(mask: u128, square: Square, on: bool) -> u128
    ensures { (n : ℕ) → has_bit result n ≡ cond (n == square) on (has_bit mask n) }
{
    if on {
        with(mask, square.index())
    } else {
        without(mask, square.index())
    }
}

impl Board {
    /// The board with these cells.
    pub fn of(cells: [Option<Piece>; 81]) -> Board
        ensures { result ≡ cells }
    {
        Board {
            cells,
            black: passing_squares(&cells, |cell| is_piece_of(cell, Color::Black)),
            white: passing_squares(&cells, |cell| is_piece_of(cell, Color::White)),
            kings: passing_squares(&cells, is_any_king),
            sliders: passing_squares(&cells, is_slider),
            words: board_words(&cells),
        }
    }

    /// The opening board, with masks and words from constants.
    pub fn start() -> Board
        ensures { result ≡ start_cells }
    {
        Board {
            cells: start_cells(),
            black: START_BLACK,
            white: START_WHITE,
            kings: START_KINGS,
            sliders: START_SLIDERS,
            words: START_WORDS,
        }
    }

    /// The 81 cells, by index.
    pub fn cells(&self) -> &[Option<Piece>; 81]
        ensures { result.now ≡ self.now }
    {
        &self.cells
    }

    /// The squares with a piece of the side.
    #[tactic(auto, using(crate::proofs::MaskLaws::own_bits))]
    pub fn own(&self, color: Color) -> Squares
        ensures mask { result.bits ≡ own_of self.now color }
        ensures squares { HasBits result.bits (λ n. is_piece_of color (piece_at self.now n)) }
    {
        match color {
            Color::Black => Squares { bits: self.black },
            Color::White => Squares { bits: self.white },
        }
    }

    /// The squares with a piece of either side.
    #[tactic(auto, using(crate::proofs::LineBits::occupied_bits))]
    pub fn occupied(&self) -> Squares
        ensures { HasBits result.bits (λ n. not (is_none (piece_at self.now n))) }
    {
        self.own(Color::Black) | self.own(Color::White)
    }

    /// The empty squares.
    #[tactic(auto, using(crate::proofs::LineBits::free_bits))]
    pub fn free(&self) -> Squares
        ensures squares { HasBits result.bits (λ n. is_none (piece_at self.now n)) }
    {
        Squares {
            bits: !self.occupied().bits & ALL_SQUARES,
        }
    }

    /// The squares with a king of the side.
    #[tactic(auto, using(crate::proofs::MaskLaws::king_bits))]
    pub fn kings(&self, color: Color) -> Squares
        ensures squares { HasBits result.bits (λ n. is_king color (piece_at self.now n)) }
    {
        Squares {
            bits: self.kings & self.own(color).bits,
        }
    }

    /// The squares with a slider of either side.
    #[tactic(auto, using(crate::proofs::MaskLaws::own_bits))]
    pub fn sliders(&self) -> Squares
        ensures squares { HasBits result.bits (λ n. is_slider (piece_at self.now n)) }
    {
        Squares { bits: self.sliders }
    }

    /// All cells, packed: each word is a number in base 32 with a digit for each of twelve squares,
    /// nine in the last word.
    pub fn words(&self) -> &[u64; 7]
        ensures { result.now ≡ board_words self.now }
    {
        &self.words
    }

    /// The piece on the square, if any.
    pub fn at(&self, square: Square) -> Option<Piece>
        ensures { result ≡ piece_at self.now square }
    {
        self.cells[square.index()]
    }

    /// Puts the piece on the square (`None` empties it); all else stays.
    #[tactic(auto, using(crate::proofs::MaskLaws::own_bits))]
    pub fn set(&mut self, square: Square, piece: Option<Piece>)
        ensures { self.new ≡ slice_set self.old square piece }
    {
        let index = square.index();
        let before = self.cells[index];
        self.cells[index] = piece;
        self.black = marked(self.black, square, is_piece_of(piece, Color::Black));
        self.white = marked(self.white, square, is_piece_of(piece, Color::White));
        self.kings = marked(self.kings, square, is_any_king(piece));
        self.sliders = marked(self.sliders, square, is_slider(piece));
        self.words[index / 12] = with_digit(
            self.words[index / 12],
            index % 12,
            cell_number(before),
            cell_number(piece),
        );
    }

    /// A copy of the board with the piece on the square (`None` empties it).
    pub fn put(self, square: Square, piece: Option<Piece>) -> Board
        ensures { result ≡ slice_set self square piece }
    {
        let mut board = self;
        board.set(square, piece);
        board
    }
}
