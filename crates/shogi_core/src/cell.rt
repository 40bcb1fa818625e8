//! What stands on a square.

ghost use Rattle.std.specs.Prelude.{◌≡◌};
ghost use Rattle.shogi_core.specs.Cell.{is_piece_of, is_king, is_slider, is_pawn, is_immobile};
ghost use Rattle.shogi_core.specs.Pieces.{is_of_kind};

use crate::piece::{Color, Kind, Piece};

/// Whether a piece of the side stands in the cell.
pub fn is_piece_of(cell: Option<Piece>, color: Color) -> bool
    ensures { result ≡ is_piece_of color cell }
{
    match cell {
        None => false,
        Some(piece) => color.is_same(piece.color),
    }
}

/// Whether a king of the side stands in the cell.
pub fn is_king(cell: Option<Piece>, color: Color) -> bool
    ensures { result ≡ is_king color cell }
{
    match cell {
        None => false,
        Some(piece) => color.is_same(piece.color) && piece.role.is_king(),
    }
}

/// Whether a slider of either side stands in the cell.
pub fn is_slider(cell: Option<Piece>) -> bool
    ensures { result ≡ is_slider cell }
{
    match cell {
        None => false,
        Some(piece) => piece.role.is_sliding(),
    }
}

/// Whether an unpromoted pawn of the side stands in the cell.
pub fn is_pawn(cell: Option<Piece>, color: Color) -> bool
    ensures { result ≡ is_pawn color cell }
{
    match cell {
        None => false,
        Some(piece) => color.is_same(piece.color) && piece.role.is_pawn(),
    }
}

/// Whether a piece of the kind stands in the cell, promoted or not.
pub fn is_of_kind(cell: Option<Piece>, kind: Kind) -> bool
    ensures { result ≡ is_of_kind kind cell }
{
    match cell {
        None => false,
        Some(piece) => match piece.role.kind() {
            None => false,
            Some(other) => other.number() == kind.number(),
        },
    }
}

/// Whether what stands in the cell could never move again from the square (JSA playing rules: an
/// unpromoted pawn or lance on its last rank, a knight on its last two).
pub fn is_immobile(cell: Option<Piece>, square: usize) -> bool
    ensures { result ≡ is_immobile square cell }
{
    match cell {
        None => false,
        Some(piece) => piece.role.is_immobile(piece.color, (square % 9) as u8),
    }
}
