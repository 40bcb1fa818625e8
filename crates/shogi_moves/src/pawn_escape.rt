//! Whether a king in check by a pawn drop surely has an escape square.

ghost use Rattle.std.specs.Prelude.{◌≡◌, true, false};
ghost use Rattle.std.proofs.Props.{props};
ghost use Rattle.shogi_moves.specs.Destinations.{IsWithin, is_mating_square};
ghost use Rattle.shogi_moves.specs.Escapes.{AreSafeFrom, AreKingSteps, AreEscapes, HasOpenEscape};

use shogi_core::{Board, Color, Piece, Position, Role, Square, Squares, step_squares};

/// A position with squares to which the king of the side not to move may go if a move gives it
/// check.
#[derive(Clone, Copy)]
pub struct KnownEscapes<'a> {
    pub position: &'a Position,
    pub squares: Squares,
    ghost right: { AreEscapes position.now squares.bits } by { Prim.hlevel props },
}

/// One of the `squares` that `by` does not attack; none if all are attacked.
fn first_unattacked(board: &Board, by: Color, squares: Squares) -> Squares
    ensures squares { IsWithin result.bits squares.bits }
    ensures safe { AreSafeFrom board.now by result.bits }
{
    match squares.find(|square| !board.is_attacked(by, square)) {
        None => Squares::none(),
        Some(square) => Squares::none().with(square),
    }
}

/// The squares to which the king of the side not to move steps, without those of its own pieces;
/// none if it has no king.
pub fn king_steps(p: &Position) -> Squares
    ensures { AreKingSteps p.now result.bits }
{
    let board = p.as_board();
    let side = p.side().opponent();
    let Some(king) = p.king(side) else {
        return Squares::none()
    };
    board.targets(king).without(board.own(side))
}

/// The position with one escape square of the king outside `closed`, if there is one.
fn first_escape(position: &Position, closed: Squares) -> KnownEscapes<'_>
    ensures { result.position.now ≡ position.now }
{
    position.reveal_invariant();
    let (board, side) = (position.as_board(), position.side());
    KnownEscapes {
        position,
        squares: first_unattacked(board, side, king_steps(position).without(closed)),
    }
}

impl KnownEscapes<'_> {
    /// True only if the king keeps one of the squares outside `closed` and other than `to`, and a
    /// move to `to` does not capture it.
    #[inline(always)]
    pub fn has_open(&self, closed: Squares, to: Square) -> bool
        ensures { result ≡ true → HasOpenEscape self.now.position.now closed.bits to }
    {
        to.reveal_invariant();
        let p = self.position;
        let kings = p.as_board().kings(p.side().opponent());
        if kings.is_empty() || kings.has(to) {
            return false;
        }
        !self.squares.without(closed).except(to).is_empty()
    }
}

/// True only if the king surely has an escape square after a pawn drop on `to`, which then does not
/// mate.
pub fn leaves_pawn_escape(p: &Position, to: Square) -> bool
    ensures { result ≡ true → is_mating_square p.now to ≡ false }
{
    p.reveal_invariant();
    to.reveal_invariant();
    let pawn = Piece {
        color: p.side(),
        role: Role::Pawn,
    };
    let reach = step_squares(pawn, to);
    first_escape(p, reach.with(to)).has_open(reach, to)
}
