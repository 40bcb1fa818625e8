//! Where a move comes from: a piece on the board, or one in hand.

ghost use Rattle.std.specs.Prelude.{◌≡◌};
ghost use Rattle.shogi_moves.specs.Origins.{move_to, origin_of, put_from};

use crate::after::{dropped, piece_moved};
use shogi_core::{Kind, Move, Piece, Position, Square};

/// A move without its destination: a square and whether to promote, or a kind in hand. It need not
/// be legal in any position.
#[derive(Clone, Copy, Debug)]
pub enum Origin {
    Board { from: Square, promote: bool },
    Drop { kind: Kind },
}

impl Origin {
    /// The origin of the move.
    #[inline(always)]
    pub fn of(m: &Move) -> Origin
        ensures { result ≡ origin_of m.now }
    {
        match m {
            Move::Board { from, promote, .. } => Origin::Board {
                from: *from,
                promote: *promote,
            },
            Move::Drop { kind, .. } => Origin::Drop { kind: *kind },
        }
    }

    /// The move from this origin to `to`.
    #[inline(always)]
    pub fn to(&self, to: Square) -> Move
        ensures { result ≡ move_to self.now to }
    {
        match self {
            Origin::Board { from, promote } => Move::Board {
                from: *from,
                to,
                promote: *promote,
            },
            Origin::Drop { kind } => Move::Drop { kind: *kind, to },
        }
    }

    /// The piece that a move from this origin leaves on its destination in `p`; `None` if nothing
    /// stands on the origin's square.
    #[inline(always)]
    pub fn put(&self, p: &Position) -> Option<Piece>
        ensures { result ≡ put_from p.now self.now }
    {
        match self {
            Origin::Board { from, promote } => piece_moved(p.at(*from), *promote),
            Origin::Drop { kind } => dropped(p.side(), *kind),
        }
    }
}
