//! How a move changes the material.

ghost use Rattle.std.specs.Prelude.{◌≡◌, ◌≤◌, ◌*◌, ◌≤ℤ◌, ◌-ℤ◌, pos, true};
ghost use Rattle.shogi_eval.specs.declared.gain.TheConstants.{PROMOTION_GAIN_MAX};
ghost use Rattle.shogi_eval.specs.declared.points.TheConstants.{PIECE_VALUE_MAX};
ghost use Rattle.shogi_moves.specs.After.{after};
ghost use Rattle.shogi_moves.specs.Legal.{is_legal};
ghost use Rattle.shogi_eval.specs.Material.{material_of, value_of_captured, taken_gain, promotion_gain, drop_gain};

use crate::eval::Eval;
use crate::points::{value_in_hand, value_of};
use shogi_core::{Kind, Move, Piece, Position, Role};

/// The most points that a promotion gains: those of a pawn.
pub const PROMOTION_GAIN_MAX: u32 = 500;

// The points that capturing each role gains, and those that promoting it gains, in the order in
// which roles are declared.
const PLAIN_GAINS: [u32; 14] = [
    0, 200, 600, 800, 1000, 1200, 1600, 2000, 700, 900, 1000, 1100, 1900, 2300,
];

const HAND_GAINS: [u32; 14] = [
    0, 210, 630, 840, 1050, 1260, 1680, 2100, 710, 930, 1040, 1150, 1980, 2400,
];

const PROMOTION_GAINS: [u32; 14] = [0, 500, 300, 200, 100, 0, 300, 300, 0, 0, 0, 0, 0, 0];

/// The points that a capture gains: the opponent loses the piece and the captor holds it.
#[tactic(auto, using(crate::proofs::RoleGains::gains))]
pub fn taken_gain(e: Eval, cell: Option<Piece>) -> u32
    ensures value { result ≡ taken_gain e cell }
    ensures range { result ≤ 2 * PIECE_VALUE_MAX }
{
    let Some(piece) = cell else { return 0 };
    match e {
        Eval::Plain | Eval::Exchange => PLAIN_GAINS[piece.role as usize],
        Eval::Hand => HAND_GAINS[piece.role as usize],
    }
}

/// The points that a move of the piece gains by promotion; 0 if it does not promote.
#[tactic(auto, using(crate::proofs::RoleGains::gains))]
pub fn promotion_gain(cell: Option<Piece>, promote: bool) -> u32
    ensures value { result ≡ promotion_gain promote cell }
    ensures range { result ≤ PROMOTION_GAIN_MAX }
{
    match cell {
        None => 0,
        Some(piece) => {
            if promote {
                PROMOTION_GAINS[piece.role as usize]
            } else {
                0
            }
        }
    }
}

/// The points that a drop gains, at most 0: the piece leaves the hand for the board.
pub fn drop_gain(e: Eval, kind: Kind) -> i32
    ensures value { result ≡ drop_gain e kind }
    ensures least { (pos 0 -ℤ pos PIECE_VALUE_MAX) ≤ℤ result }
    ensures most { result ≤ℤ pos PIECE_VALUE_MAX }
{
    match e {
        Eval::Plain | Eval::Exchange => 0,
        Eval::Hand => value_of(Role::from(kind)) as i32 - value_in_hand(e, kind) as i32,
    }
}

/// The material after a legal move, as seen by the side to move then.
#[inline(always)]
pub fn score_after(p: &Position, e: Eval, score: i32, m: &Move) -> i32
    requires legal { is_legal p.now m.now ≡ true }
    requires score { score ≡ material_of p.now e }
    ensures { result ≡ material_of (after p.now m.now) e }
{
    p.reveal_invariant();
    match m {
        Move::Board { from, to, promote } => {
            from.reveal_invariant();
            to.reveal_invariant();
            let gain = taken_gain(e, p.at(*to)) + promotion_gain(p.at(*from), *promote);
            0 - (score + gain as i32)
        }
        Move::Drop { kind, to } => {
            to.reveal_invariant();
            0 - (score + drop_gain(e, *kind))
        }
    }
}
