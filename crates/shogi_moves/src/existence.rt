//! Whether any move is legal.

ghost use Rattle.std.specs.Prelude.{◌≡◌, ◌≢◌, ◌↔◌, true, false, [], IsTrue};
ghost use Rattle.shogi_moves.specs.LegalMoves.{legal_codes, HasNoPawnDrop};

use crate::check_info::{KnownPosition, rough_check_info};
use crate::safe::{has_king_move, has_other_move};
use shogi_core::{Kind, Position};

/// Whether a pawn in hand has a legal drop.
fn has_pawn_drop(known: &KnownPosition<'_>) -> bool
    ensures some { result ≡ true → legal_codes known.now.position.now ≢ [] }
    ensures if_none { result ≡ false → HasNoPawnDrop known.now.position.now }
{
    !known.drops().legal(Kind::Pawn).is_empty()
}

/// Whether any move is legal. Out of check, drops come first, since finding them needs no piece on
/// the board; then the king, which has a move in most positions. Pins are searched for only after
/// both.
pub fn has_legal(p: &Position) -> bool
    ensures { IsTrue result ↔ (legal_codes p.now ≢ []) }
{
    let rough = rough_check_info(p).at(p);
    if !rough.info.is_check() && rough.drops().has_piece() {
        return true;
    }
    if has_king_move(p) {
        return true;
    }
    let known = rough.full_info().at(p);
    has_other_move(&known) || has_pawn_drop(&known)
}
