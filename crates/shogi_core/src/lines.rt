//! Slides and the lines they follow.

ghost use Rattle.std.specs.Prelude.{◌<◌, ◌≤◌};
ghost use Rattle.shogi_core.specs.Bits.{HasBits};
ghost use Rattle.shogi_core.specs.Lines.{are_aligned};
ghost use Rattle.shogi_core.specs.Movement.{slides};
ghost use Rattle.shogi_core.specs.Rays.{direction_at};

use crate::bits::{highest, up_to_lowest};
use crate::board::Board;
use crate::direction::Direction;
use crate::line_table::ALIGNED;
use crate::rays::ray;
use crate::square::Square;
use crate::squares::Squares;

/// The squares aligned with the square, whatever stands between.
pub fn line_mask(from: Square) -> Squares
    ensures squares { HasBits result.bits (are_aligned from) }
{
    Squares {
        bits: ALIGNED[from.index()],
    }
}

/// The squares that a slide reaches in a direction with rising indexes.
#[tactic(auto, using(crate::proofs::LineBits::king_line_mask))]
pub fn rising_squares(board: &Board, direction: Direction, from: Square) -> Squares
    requires direction { direction < 4 }
    ensures squares { HasBits result.bits (slides board.now (direction_at direction) from) }
{
    let line = ray(direction, from).bits;
    Squares {
        bits: line & up_to_lowest(line & board.occupied().bits),
    }
}

/// The squares that a slide reaches in a direction with falling indexes.
#[tactic(auto, using(crate::proofs::LineBits::king_line_mask))]
pub fn falling_squares(board: &Board, direction: Direction, from: Square) -> Squares
    requires direction { 4 ≤ direction }
    ensures squares { HasBits result.bits (slides board.now (direction_at direction) from) }
{
    direction.reveal_invariant();
    let line = ray(direction, from).bits;
    // Bit 0 stands in for an empty line, since no line with falling indexes leads on from square 0.
    let first = highest(line & board.occupied().bits | 1);
    Squares {
        bits: line & !ray(direction, Square::of_index(first)).bits,
    }
}

/// The squares that a slide in the direction reaches, up to the first piece.
pub fn slide_squares(board: &Board, direction: Direction, from: Square) -> Squares
    ensures squares { HasBits result.bits (slides board.now (direction_at direction) from) }
{
    if direction.number() < 4 {
        rising_squares(board, direction, from)
    } else {
        falling_squares(board, direction, from)
    }
}
