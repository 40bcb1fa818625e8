//! Which moves are legal.

ghost use Rattle.std.specs.Prelude.{◌≡◌, ◌↔◌, IsTrue, true, false, if◌then◌else◌, Some, None};
ghost use Rattle.shogi_core.specs.Codes.{code_of};
ghost use Rattle.shogi_moves.specs.After.{after};
ghost use Rattle.shogi_moves.specs.Legal.{is_legal, is_safe, is_pseudo_legal, is_pseudo_legal_board_move, is_pseudo_legal_drop};
ghost use Rattle.shogi_moves.specs.LegalMoves.{legal_codes};
ghost use Rattle.shogi_moves.specs.Rising.{is_in};

use crate::after::{advance, apply, dropped, piece_moved};
use crate::drops::is_pawn_kind;
use crate::king_safety::leaves_king_safe;
use crate::pawn_drop::is_pawn_drop_mate;
use shogi_core::zones::may_promote;
use shogi_core::{Kind, Move, Position, Square, is_immobile, is_piece_of};

/// Whether the move of a piece on the board obeys the rules, apart from check.
fn is_pseudo_legal_board_move(p: &Position, from: Square, to: Square, promote: bool) -> bool
    ensures { result ≡ is_pseudo_legal_board_move p.now.cells p.now.side from to promote }
{
    let side = p.side();
    let piece = p.at(from);
    is_piece_of(piece, side)
        && !is_piece_of(p.at(to), side)
        && p.reaches(from, to)
        && (!promote || may_promote(piece, from, to))
        && !is_immobile(piece_moved(piece, promote), to.index())
}

/// Whether the drop obeys the rules, apart from check and mate by a pawn drop.
fn is_pseudo_legal_drop(p: &Position, kind: Kind, to: Square) -> bool
    ensures { result ≡ is_pseudo_legal_drop p.now.cells p.now.hands p.now.side kind to }
{
    let side = p.side();
    p.hand(side, kind) > 0
        && p.at(to).is_none()
        && !is_immobile(dropped(side, kind), to.index())
        && !(is_pawn_kind(kind) && p.as_board().pawns_on_file(side, to.index() / 9) > 0)
}

/// Whether the move obeys the rules, apart from check and mate by a pawn drop.
fn is_pseudo_legal(p: &Position, m: &Move) -> bool
    ensures { result ≡ is_pseudo_legal p.now m.now }
{
    match m {
        Move::Board { from, to, promote } => is_pseudo_legal_board_move(p, *from, *to, *promote),
        Move::Drop { kind, to } => is_pseudo_legal_drop(p, *kind, *to),
    }
}

/// Whether the move obeys the rules, apart from mate by a pawn drop.
#[tactic(auto, unfolding(crate::specs::Legal::is_safe))]
fn is_safe(p: &Position, m: &Move) -> bool
    ensures { result ≡ is_safe p.now m.now }
{
    is_pseudo_legal(p, m) && leaves_king_safe(p, m)
}

/// `is_legal` for a borrowed move.
#[tactic(auto, unfolding(crate::specs::Legal::is_legal))]
pub fn is_legal_move(p: &Position, m: &Move) -> bool
    ensures { result ≡ is_legal p.now m.now }
{
    is_safe(p, m) && !is_pawn_drop_mate(p, m)
}

/// Whether the move is legal (JSA playing rules): one of the side to move that obeys the rules on
/// moves, promotion and drops, leaves its king unattacked, and does not mate by a pawn drop.
/// Repetition is not judged.
#[tactic(auto, using(crate::proofs::LegalLaws::listing))]
pub fn is_legal(p: &Position, m: Move) -> bool
    ensures value { result ≡ is_legal p.now m }
    ensures listed { IsTrue result ↔ (is_in (code_of m) (legal_codes p.now) ≡ true) }
{
    let legal = is_legal_move(p, &m);
    m.reveal_invariant();
    legal
}

/// The position after the move; `None` if it is not legal.
pub fn play(p: &Position, m: Move) -> Option<Position>
    ensures { result ≡ (if is_legal p.now m then Some (after p.now m) else None) }
{
    if is_legal_move(p, &m) {
        Some(apply(p, m))
    } else {
        None
    }
}

/// Makes the move in place if it is legal, and returns whether it is; an illegal move leaves the
/// position as it was.
pub fn play_in_place(p: &mut Position, m: Move) -> bool
    ensures legal { result ≡ is_legal p.old m }
    ensures played { result ≡ true → p.new ≡ after p.old m }
    ensures unchanged { result ≡ false → p.new ≡ p.old }
{
    if !is_legal_move(p, &m) {
        return false;
    }
    advance(p, m);
    true
}
