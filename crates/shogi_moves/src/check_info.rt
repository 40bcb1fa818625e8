//! What is known of check and pins in a position, so that most of its moves need no test of their
//! own.

ghost use Rattle.std.specs.Prelude.{true, ◌≡◌, ◌&&◌, not};
ghost use Rattle.shogi_core.specs.Attack.{in_check};
ghost use Rattle.shogi_core.specs.Bits.{has_bit};
ghost use Rattle.shogi_moves.specs.CheckInfo.{IsCheckInfoOf, is_check, squares_of};

use crate::attack::in_check;
use shogi_core::{Position, Square, Squares};

/// Whether the side to move is in check, with a set of squares that has its king's square.
#[derive(Clone, Copy, Debug)]
pub enum CheckInfo {
    /// The side to move is in check; a move of another piece answers it only on one of these
    /// squares.
    InCheck(Squares),
    /// The side to move is not in check; every pinned piece of that side stands on one of these
    /// squares.
    Free(Squares),
}

/// A position with its check info.
#[derive(Clone, Copy)]
pub struct KnownPosition<'a> {
    pub position: &'a Position,
    pub info: CheckInfo,
    ghost right: { IsCheckInfoOf info position.now },
}

/// The check info of a position in check: the king's square and the evasion squares.
#[tactic(auto, using(crate::proofs::CheckInfoLaws::check_info_answers))]
pub fn checked_info(p: &Position) -> CheckInfo
    requires { in_check p.now.cells p.now.side ≡ true }
    ensures { IsCheckInfoOf result p.now }
{
    let board = p.as_board();
    CheckInfo::InCheck(board.kings(p.side()) | board.evasion_squares(p.side()))
}

/// The check info of the position. Out of check, the squares are those of the king and of pieces
/// that may be pinned.
#[tactic(auto, using(crate::proofs::CheckInfoLaws::check_info_unpinned))]
pub fn check_info_of(p: &Position) -> CheckInfo
    ensures { IsCheckInfoOf result p.now }
{
    let board = p.as_board();
    match board.pinned(p.side()) {
        None => checked_info(p),
        Some(pinned) => CheckInfo::Free(board.kings(p.side()) | pinned),
    }
}

/// Check info without the search for pins: any piece may be pinned.
#[tactic(auto, using(crate::proofs::ExistenceLaws::check_info_rough))]
pub fn rough_check_info(p: &Position) -> CheckInfo
    ensures { IsCheckInfoOf result p.now }
{
    if in_check(p) {
        CheckInfo::InCheck(Squares::all())
    } else {
        CheckInfo::Free(Squares::all())
    }
}

impl CheckInfo {
    /// Whether the side to move is in check.
    #[inline(always)]
    pub fn is_check(&self) -> bool
        ensures { result ≡ is_check self.now }
    {
        match self {
            CheckInfo::InCheck(_) => true,
            CheckInfo::Free(_) => false,
        }
    }

    /// The squares of either variant.
    #[inline(always)]
    pub fn squares(&self) -> Squares
        ensures { result.bits ≡ squares_of self.now }
    {
        match self {
            CheckInfo::InCheck(squares) | CheckInfo::Free(squares) => *squares,
        }
    }

    /// The position with this check info, which must be that position's own.
    #[inline(always)]
    pub fn at(self, position: &Position) -> KnownPosition<'_>
        requires { IsCheckInfoOf self position.now }
        ensures { result.position.now ≡ position.now }
    {
        KnownPosition {
            position,
            info: self,
        }
    }
}

impl KnownPosition<'_> {
    /// The exact check info of a position whose info may mark more squares than needed. If that
    /// says check, the test for check is not repeated.
    pub fn full_info(&self) -> CheckInfo
        ensures { IsCheckInfoOf result self.now.position.now }
    {
        if self.info.is_check() {
            return checked_info(self.position);
        }
        check_info_of(self.position)
    }
}

/// True only if no move of the piece on `from` can leave its king attacked.
pub fn is_surely_not_pinned(info: &CheckInfo, from: Square) -> bool
    ensures { result ≡ (not (is_check info.now) && not (has_bit (squares_of info.now) from)) }
{
    !info.is_check() && !info.squares().has(from)
}
