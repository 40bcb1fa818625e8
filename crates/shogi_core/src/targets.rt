//! The squares that a piece attacks.

ghost use Rattle.std.specs.Prelude.{◌≡◌, ◌≢◌, ◌<◌, Some, true};
ghost use Rattle.shogi_core.specs.declared.piece.Color.{Color};
ghost use Rattle.shogi_core.specs.Bits.{HasBits};
ghost use Rattle.shogi_core.specs.Cell.{is_sliding_role};
ghost use Rattle.shogi_core.specs.Movement.{reaches, cell_reaches, has_slide, slides_of, straight, diagonal, forward, is_slide, HasSlides};

use crate::board::Board;
use crate::direction::Direction;
use crate::lines::{falling_squares, rising_squares, slide_squares};
use crate::piece::{Color, Piece, Role};
use crate::square::Square;
use crate::squares::Squares;
use crate::steps::step_squares;

/// The squares that slides reach along files and ranks if `first` is down, or along diagonals if it
/// is up-left: in `first` and its quarter turns.
#[inline(always)]
pub fn four_slides(board: &Board, first: Direction, from: Square) -> Squares
    requires first { first < 2 }
    ensures straight { first ≡ 0 → HasSlides result.bits board.now straight from }
    ensures diagonal { first ≡ 1 → HasSlides result.bits board.now diagonal from }
{
    let second = first.quarter_turn();
    Squares {
        bits: falling_squares(board, first.opposite(), from).bits
            | rising_squares(board, first, from).bits
            | rising_squares(board, second, from).bits
            | falling_squares(board, second.opposite(), from).bits,
    }
}

/// The squares that a slide forward reaches.
#[tactic(auto, using(crate::proofs::TargetLaws::one_way))]
fn forward_squares(board: &Board, color: Color, from: Square) -> Squares
    ensures squares { HasBits result.bits (is_slide board.now color forward from) }
{
    match color {
        Color::Black => slide_squares(board, Direction::up(), from),
        Color::White => slide_squares(board, Direction::down(), from),
    }
}

/// The direction that `four_slides` takes first for the role, which slides and is no lance.
#[inline(always)]
fn first_direction(role: Role) -> Direction
    requires sliding { is_sliding_role role ≡ true }
    requires four_ways { role ≢ Role.Lance }
    ensures range { result < 2 }
    ensures straight { result ≡ 0 → slides_of role ≡ straight }
    ensures diagonal { result ≡ 1 → slides_of role ≡ diagonal }
{
    match role {
        Role::Rook | Role::Dragon => Direction::down(),
        _ => Direction::up_left(),
    }
}

/// The squares that the piece, a slider, reaches by slides.
#[inline(never)]
fn slider_slides(board: &Board, piece: Piece, from: Square) -> Squares
    requires sliding { is_sliding_role piece.role ≡ true }
    ensures squares { HasBits result.bits (has_slide board.now piece from) }
{
    match piece.role {
        Role::Lance => forward_squares(board, piece.color, from),
        _ => four_slides(board, first_direction(piece.role), from),
    }
}

/// The squares that the piece reaches by slides. Most pieces do not slide and reach none.
#[tactic(auto, using(crate::proofs::TargetLaws::no_slides))]
fn piece_slides(board: &Board, piece: Piece, from: Square) -> Squares
    ensures squares { HasBits result.bits (has_slide board.now piece from) }
{
    if piece.role.is_sliding() {
        slider_slides(board, piece, from)
    } else {
        Squares { bits: 0 }
    }
}

impl Board {
    /// The squares that the piece would attack from `from`, whatever stands there now.
    #[tactic(auto, using(crate::proofs::TargetLaws::no_bits))]
    pub fn targets_of(&self, piece: Piece, from: Square) -> Squares
        ensures squares { HasBits result.bits (cell_reaches self.now (Some piece) from) }
    {
        step_squares(piece, from) | piece_slides(self, piece, from)
    }

    /// The squares that the piece on `from` attacks; none if `from` is empty.
    #[tactic(auto, using(crate::proofs::TargetLaws::no_bits), unfolding(crate::specs::Movement::reaches))]
    pub fn targets(&self, from: Square) -> Squares
        ensures squares { HasBits result.bits (reaches self.now from) }
    {
        from.reveal_invariant();
        match self.at(from) {
            None => Squares { bits: 0 },
            Some(piece) => self.targets_of(piece, from),
        }
    }

    /// Whether the piece on `from` has a step, a jump or a free slide to `to`; false if `from` is
    /// empty.
    pub fn reaches(&self, from: Square, to: Square) -> bool
        ensures { result ≡ reaches self.now from to }
    {
        self.targets(from).has(to)
    }
}
