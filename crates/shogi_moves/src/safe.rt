//! Whether any move is safe: legal apart from mate by a pawn drop.

ghost use Rattle.std.specs.Prelude.{◌≡◌, ◌≢◌, true, false, []};
ghost use Rattle.shogi_moves.specs.Legal.{is_mated_by_drop};
ghost use Rattle.shogi_moves.specs.LegalMoves.{legal_codes, HasNoBoardMove, HasNoPieceDrop};

use crate::attack::in_check;
use crate::check_info::{KnownPosition, checked_info};
use crate::destinations::SeenKing;
use crate::drops::KnownDrops;
use shogi_core::{Kind, Position};

/// Whether the king of the side to move has a legal move.
pub fn has_king_move(p: &Position) -> bool
    ensures { result ≡ true → legal_codes p.now ≢ [] }
{
    p.reveal_invariant();
    let board = p.as_board();
    let Some(from) = p.king(p.side()) else {
        return false
    };
    from.reveal_invariant();
    let mut lifted = *board;
    lifted.set(from, None);
    let king = SeenKing {
        position: p,
        seen: &lifted,
        from,
    };
    let destinations = board.targets(from).without(board.own(p.side()));
    let Some(to) = destinations.find(|to| king.is_safe_at(to)) else {
        return false
    };
    to.reveal_invariant();
    true
}

/// Whether a piece on the board has a legal move.
fn has_board_move(known: &KnownPosition<'_>) -> bool
    ensures some { result ≡ true → legal_codes known.now.position.now ≢ [] }
    ensures if_none { result ≡ false → HasNoBoardMove known.now.position.now }
{
    let p = known.position;
    let markings = known.markings();
    let mut left = p.as_board().own(p.side()).iter();
    'pieces: while let Some(from) = left.next() {
        let destinations = markings.all_destinations(from);
        if !(destinations.non_promoting | destinations.promoting).is_empty() {
            return true;
        }
    }
    false
}

impl KnownDrops<'_> {
    /// Whether a piece in hand other than a pawn has a legal drop.
    pub fn has_piece(&self) -> bool
        ensures some { result ≡ true → legal_codes self.now.position.now ≢ [] }
        ensures if_none { result ≡ false → HasNoPieceDrop self.now.position.now }
    {
        let mut kind = Kind::Pawn;
        'kinds: while let Some(next) = kind.next() {
            if !self.safe(next).is_empty() {
                return true;
            }
            kind = next;
        }
        false
    }
}

/// Whether any move other than a pawn drop is legal.
pub fn has_other_move(known: &KnownPosition<'_>) -> bool
    ensures some { result ≡ true → legal_codes known.now.position.now ≢ [] }
    ensures board { result ≡ false → HasNoBoardMove known.now.position.now }
    ensures drops { result ≡ false → HasNoPieceDrop known.now.position.now }
{
    has_board_move(known) || known.drops().has_piece()
}

/// Whether the side to move is in check and has no safe move. The king, which most often has a
/// move, comes first.
pub fn is_mated_by_drop(p: &Position) -> bool
    ensures { result ≡ is_mated_by_drop p.now }
{
    if !in_check(p) {
        return false;
    }
    if has_king_move(p) {
        return false;
    }
    let known = checked_info(p).at(p);
    !has_other_move(&known) && known.drops().safe(Kind::Pawn).is_empty()
}
