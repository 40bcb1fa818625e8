//! A use of `shogi_core`.

ghost use Rattle.std.specs.Prelude.{◌≡◌, IfSome, Some};
ghost use Rattle.shogi_core.specs.Movement.{piece_at};
ghost use Rattle.shogi_core.specs.Squares.{IsOnBoard, index_of};

use shogi_core::{Piece, Position, Square};

/// The piece of the side to move on a square; none where the square is free, the other side's, or not
/// on the board.
pub fn own_piece(p: &Position, file: u8, rank: u8) -> Option<Piece>
    ensures on_board { IfSome result (λ piece. IsOnBoard file rank) }
    ensures at { IfSome result (λ piece. piece_at p.now.cells (index_of file rank) ≡ Some piece) }
    ensures own { IfSome result (λ piece. piece.color ≡ p.now.side) }
{
    let piece = p.at(Square::new(file, rank)?)?;
    if piece.color == p.side() {
        Some(piece)
    } else {
        None
    }
}
