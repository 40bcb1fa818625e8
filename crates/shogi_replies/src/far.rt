//! The pieces whose moves give no check and, if promotions are excluded, cannot promote, found for
//! all pieces at once.

ghost use Rattle.shogi_replies.specs.ReplyInfo.{AreNonChecking, HasAroundKings};

use shogi_core::bits::{cleared, lowest};
use shogi_core::zones::{squares_around, squares_near_zone};
use shogi_core::{Board, Color, Position, Square, Squares};

/// The squares around the kings of the side; all squares for several kings.
#[inline(always)]
fn around_kings(board: &Board, side: Color) -> Squares
    ensures { HasAroundKings board.now side result.bits }
{
    let kings = board.kings(side);
    if kings.is_empty() {
        return Squares::none();
    }
    let king = lowest(kings.bits);
    if cleared(kings.bits, king) != 0 {
        return Squares::all();
    }
    squares_around(Square::of_index(king))
}

/// Pieces of the side to move, no sliders and out of `king_view`, whose moves end too far from the
/// opponent's kings to attack them. Without `promotes`, pieces near the promotion zone are left
/// out.
#[inline(always)]
pub fn non_checking_pieces(p: &Position, king_view: Squares, promotes: bool) -> Squares
    ensures { AreNonChecking p.now king_view.bits promotes result.bits }
{
    p.reveal_invariant();
    let side = p.side();
    let board = p.as_board();
    let near = board.sliders() | king_view | around_kings(board, side.opponent());
    if promotes {
        return board.own(side).without(near);
    }
    board.own(side).without(near | squares_near_zone(side))
}
