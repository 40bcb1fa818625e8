//! Steps and jumps from a square.

ghost use Rattle.std.specs.Prelude.{◌≡◌, ◌<◌};
ghost use Rattle.shogi_core.specs.Bits.{HasBits};
ghost use Rattle.shogi_core.specs.Movement.{steps_of, has_step};
ghost use Rattle.shogi_core.specs.Steps.{steps_at, color_number};
ghost use Rattle.shogi_core.specs.Lines.{is_jump, is_near};

use crate::piece::{Color, Piece, Role};
use crate::square::Square;
use crate::squares::Squares;
use crate::step_table::STEPS;

// The step pattern of each role, in the order in which roles are declared: the index into `STEPS`.
const STEPS_KINDS: [usize; 14] = [1, 2, 0, 3, 4, 5, 0, 0, 5, 5, 5, 5, 6, 7];

/// The step pattern of the role, from 0 to 7.
fn steps_kind(role: Role) -> usize
    ensures steps { steps_at result ≡ steps_of role }
    ensures range { result < 8 }
{
    STEPS_KINDS[role as usize]
}

/// The number of a side: 0 for Black and 1 for White.
fn color_number(color: Color) -> usize
    ensures number { result ≡ color_number color }
    ensures range { result < 2 }
{
    match color {
        Color::Black => 0,
        Color::White => 1,
    }
}

/// The squares that the piece reaches by step or jump.
pub fn step_squares(piece: Piece, from: Square) -> Squares
    ensures squares { HasBits result.bits (has_step piece from) }
{
    Squares {
        bits: STEPS[(steps_kind(piece.role) * 2 + color_number(piece.color)) * 81 + from.index()],
    }
}

/// The squares that a piece of this side and role reaches by step or jump.
fn squares_of(color: Color, role: Role, from: Square) -> Squares
    ensures squares { HasBits result.bits (has_step (record { color = color; role = role }) from) }
{
    step_squares(Piece { color, role }, from)
}

/// The squares that a knight of either side would reach.
#[tactic(auto, using(crate::proofs::TargetLaws::no_bits))]
pub fn jump_squares(from: Square) -> Squares
    ensures squares { HasBits result.bits (is_jump from) }
{
    squares_of(Color::Black, Role::Knight, from) | squares_of(Color::White, Role::Knight, from)
}

/// The squares next to the square or a knight's jump away.
#[tactic(auto, using(crate::proofs::TargetLaws::no_bits))]
pub fn near_squares(from: Square) -> Squares
    ensures squares { HasBits result.bits (is_near from) }
{
    squares_of(Color::Black, Role::King, from) | jump_squares(from)
}
