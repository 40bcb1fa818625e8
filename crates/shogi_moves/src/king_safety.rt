//! Whether a move leaves the mover's king unattacked, found without making the move if the side has
//! a king.

ghost use Rattle.std.specs.Prelude.{◌≡◌, true};
ghost use Rattle.shogi_moves.specs.Destinations.{leaves_king_safe};
ghost use Rattle.shogi_moves.specs.Legal.{is_pseudo_legal};

use crate::after::is_checked_after;
use shogi_core::{Move, Position};

/// Whether the move leaves the mover's king unattacked; makes it on a copy of the board.
pub fn leaves_king_safe_on_copy(p: &Position, m: &Move) -> bool
    ensures { result ≡ leaves_king_safe p.now m.now }
{
    !is_checked_after(p.as_board(), p.side(), m)
}

/// Whether the pseudo-legal move leaves the mover's king unattacked: tests attacks on the square on
/// which the king then stands, with the occupied squares and enemy pieces that the move leaves. A
/// side without a king, which is never in check, takes the plain way on a copy.
#[inline(always)]
pub fn leaves_king_safe(p: &Position, m: &Move) -> bool
    requires { is_pseudo_legal p.now m.now ≡ true }
    ensures { result ≡ leaves_king_safe p.now m.now }
{
    p.reveal_invariant();
    let Some(king) = p.king(p.side()) else {
        return leaves_king_safe_on_copy(p, m)
    };
    king.reveal_invariant();
    let board = p.as_board();
    let theirs = board.own(p.side().opponent());
    match m {
        Move::Board { from, to, .. } => {
            from.reveal_invariant();
            to.reveal_invariant();
            let among = theirs.except(*to);
            let occupied = board.occupied().except(*from).with(*to);
            if from.index() == king.index() {
                return !board.is_attacked_among(*to, among, occupied);
            }
            !board.is_attacked_among(king, among, occupied)
        }
        Move::Drop { to, .. } => {
            to.reveal_invariant();
            let occupied = board.occupied().with(*to);
            !board.is_attacked_among(king, theirs, occupied)
        }
    }
}
