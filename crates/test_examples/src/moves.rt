//! A use of `shogi_moves`.

ghost use Rattle.std.specs.Prelude.{◌≡◌, ◌↔◌, IsTrue, []};
ghost use Rattle.shogi_core.specs.Attack.{in_check};
ghost use Rattle.shogi_moves.specs.LegalMoves.{legal_codes};

use shogi_core::Position;
use shogi_moves::{has_legal, in_check};

/// Whether the side to move is mated: it is in check, and no move is legal.
pub fn is_checkmate(p: &Position) -> bool
    ensures { IsTrue result
        ↔ IsTrue (in_check p.now.cells p.now.side) × (legal_codes p.now ≡ []) }
{
    in_check(p) && !has_legal(p)
}
