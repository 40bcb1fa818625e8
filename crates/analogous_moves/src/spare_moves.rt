//! Squares that leave the opponent a legal reply while one of them is not attacked.

ghost use Rattle.std.specs.Prelude.{◌≡◌, true, IfSome};
ghost use Rattle.shogi_core.specs.Cell.{HasNoOtherKing, is_king};
ghost use Rattle.shogi_core.specs.Movement.{piece_at};
ghost use Rattle.shogi_core.specs.Pieces.{opponent_of};
ghost use Rattle.analogous_moves.specs.Analogies.{AreReplySquares, HasSpareMoves};
ghost use Rattle.analogous_moves.specs.SpareMoves.{IsFreeStep};

use shogi_core::bits::lowest;
use shogi_core::{Position, Square, Squares, line_mask};
use shogi_replies::{escape_squares, quiet_steps};

/// A step of a piece to an empty square.
#[derive(Clone, Copy)]
pub struct FreeStep {
    pub from: Square,
    pub to: Square,
}

/// A step of one of `pieces` to an empty square outside `taken`; `None` if there is none.
fn free_step(p: &Position, pieces: Squares, taken: Squares) -> Option<FreeStep>
    ensures { IfSome result (IsFreeStep p.now.cells pieces.bits taken.bits) }
{
    let mut left = pieces.iter();
    'pieces: while let Some(from) = left.next() {
        let steps = quiet_steps(p, from).without(taken);
        if !steps.is_empty() {
            let to = Square::of_index(lowest(steps.bits));
            return Some(FreeStep { from, to });
        }
    }
    None
}

/// Whether the opponent keeps a quiet step after any two moves of ours: three of its pieces, on no
/// line with its king and so never pinned, step to three different squares. Each move spoils at
/// most one step.
fn has_spare_moves(p: &Position, king: Square) -> bool
    ensures { result ≡ true → HasSpareMoves p.now king }
{
    let lines = line_mask(king).with(king);
    let pieces = p.as_board().own(p.side().opponent()).without(lines);
    let Some(one) = free_step(p, pieces, Squares::none()) else {
        return false
    };
    let others = pieces.except(one.from);
    let taken = Squares::none().with(one.to);
    let Some(two) = free_step(p, others, taken) else {
        return false
    };
    free_step(p, others.except(two.from), taken.with(two.to)).is_some()
}

/// The flight squares of the enemy king, only empty ones if `quiet_only`, and its own square if its
/// side has spare moves, which answer every move that gives no check.
pub fn reply_squares(p: &Position, king: Square, quiet_only: bool) -> Squares
    requires crown { is_king (opponent_of p.now.side) (piece_at p.now.cells king) ≡ true }
    requires only_king { HasNoOtherKing p.now.cells (opponent_of p.now.side) king }
    ensures { AreReplySquares quiet_only p.now king result.bits }
{
    king.reveal_invariant();
    let escapes = escape_squares(p);
    let squares = if quiet_only {
        escapes & p.as_board().free()
    } else {
        escapes
    };
    if has_spare_moves(p, king) {
        return squares.with(king);
    }
    squares
}
