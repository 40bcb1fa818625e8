//! Values of pieces, and the material of a position.

ghost use Rattle.std.specs.Prelude.{◌≡◌, ◌≤◌, ◌<◌, ◌*◌, ◌≤ℤ◌, ◌-ℤ◌, pos};
ghost use Rattle.shogi_eval.specs.declared.points.TheConstants.{PIECE_VALUE_MAX, POINTS_MAX};
ghost use Rattle.shogi_eval.specs.Material.{value_of, value_in_hand, points_at, points_on_board, points_in_hand, points_of_kind, points_of, material_of};

use crate::eval::Eval;
use shogi_core::{Color, KINDS, Kind, Piece, Position, Role};

/// The greatest value of a piece: that of a dragon.
pub const PIECE_VALUE_MAX: u32 = 1300;

/// The most points that a side can have: all pieces of a set, each at its best.
pub const POINTS_MAX: u32 = 25440;

/// The points of a piece of the role on the board.
pub fn value_of(role: Role) -> u32
    ensures value { result ≡ value_of role }
    ensures range { result ≤ PIECE_VALUE_MAX }
{
    match role {
        Role::King => 0,
        Role::Pawn => 100,
        Role::Lance => 300,
        Role::Knight => 400,
        Role::Silver => 500,
        Role::Gold => 600,
        Role::Bishop => 800,
        Role::Rook => 1000,
        Role::PromotedPawn | Role::PromotedLance | Role::PromotedKnight | Role::PromotedSilver =>
            600,
        Role::Horse => 1100,
        Role::Dragon => 1300,
    }
}

/// The points of a piece of the kind in hand.
pub fn value_in_hand(e: Eval, kind: Kind) -> u32
    ensures value { result ≡ value_in_hand e kind }
    ensures range { result ≤ PIECE_VALUE_MAX }
{
    match e {
        Eval::Plain | Eval::Exchange => value_of(Role::from(kind)),
        Eval::Hand => match kind {
            Kind::Pawn => 110,
            Kind::Lance => 330,
            Kind::Knight => 440,
            Kind::Silver => 550,
            Kind::Gold => 660,
            Kind::Bishop => 880,
            Kind::Rook => 1100,
        },
    }
}

/// The points in the cell, if its piece is the side's, else 0.
fn points_at(cell: Option<Piece>, color: Color) -> u32
    ensures value { result ≡ points_at color cell }
    ensures range { result ≤ PIECE_VALUE_MAX }
{
    match cell {
        None => 0,
        Some(piece) => {
            if color.is_same(piece.color) {
                value_of(piece.role)
            } else {
                0
            }
        }
    }
}

/// The points of the side's pieces on the board.
fn points_on_board(cells: &[Option<Piece>; 81], color: Color) -> u32
    ensures value { result ≡ points_on_board cells.now color }
    ensures range { result ≤ 81 * PIECE_VALUE_MAX }
{
    let mut points = 0;
    for cell in cells {
        points += points_at(*cell, color);
    }
    points
}

/// The points of the side's pieces of the kind in hand.
fn points_of_kind(p: &Position, e: Eval, color: Color, kind: Kind) -> u32
    ensures value { result ≡ points_of_kind p.now.hands e color kind }
    ensures range { result ≤ 255 * PIECE_VALUE_MAX }
{
    p.hand(color, kind) as u32 * value_in_hand(e, kind)
}

/// The points of the side's pieces in hand.
fn points_in_hand(p: &Position, e: Eval, color: Color) -> u32
    ensures value { result ≡ points_in_hand p.now.hands e color }
    ensures range { result ≤ 7 * 255 * PIECE_VALUE_MAX }
{
    let mut points = 0;
    for kind in KINDS {
        points += points_of_kind(p, e, color, kind);
    }
    points
}

/// The points of all the side's pieces.
#[tactic(auto, using(crate::proofs::Bounds::points_within), unfolding(crate::specs::Material::points_of))]
fn points_of(p: &Position, e: Eval, color: Color) -> u32
    ensures value { result ≡ points_of p.now e color }
    ensures range { result ≤ POINTS_MAX }
{
    p.reveal_invariant();
    points_on_board(p.board().cells(), color) + points_in_hand(p, e, color)
}

/// The material of a position for the side to move: its points on the board and in hand, less the
/// opponent's, under the evaluation (own choice). Ranges from -25,440 to 25,440.
#[tactic(auto, unfolding(crate::specs::Material::material_of))]
pub fn material(p: &Position, e: Eval) -> i32
    ensures value { result ≡ material_of p.now e }
    ensures least { (pos 0 -ℤ pos POINTS_MAX) ≤ℤ result }
    ensures most { result ≤ℤ pos POINTS_MAX }
{
    let side = p.side();
    points_of(p, e, side) as i32 - points_of(p, e, side.opponent()) as i32
}
