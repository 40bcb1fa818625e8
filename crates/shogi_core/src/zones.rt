//! Promotion zones, and sets of squares by rank and file.

ghost use Rattle.std.specs.Prelude.{◌≡◌, ◌<◌, ◌/◌, nat_lt};
ghost use Rattle.shogi_core.specs.Bits.{HasBits};
ghost use Rattle.shogi_core.specs.Cell.{is_immobile};
ghost use Rattle.shogi_core.specs.Validity.{is_on_file_of_pawn, pawns_on_file};
ghost use Rattle.shogi_core.specs.Zones.{is_promotable, in_promotion_zone, may_promote, is_near_zone, is_around};

use crate::bits::ALL_SQUARES;
use crate::cell::is_pawn;
use crate::piece::{Color, Piece, Role};
use crate::position::Position;
use crate::square::Square;
use crate::squares::Squares;

// Masks of ranks, from rank 1 on or up to rank 9.
const FIRST_RANK: u128 = 4731607904558235517441;

const FIRST_TWO_RANKS: u128 = 14194823713674706552323;

const FIRST_THREE_RANKS: u128 = 33121255331907648622087;

const FIRST_FIVE_RANKS: u128 = 146679845041305301040671;

const LAST_RANK: u128 = 1211291623566908292464896;

const LAST_TWO_RANKS: u128 = 1816937435350362438697344;

const LAST_THREE_RANKS: u128 = 2119760341242089511813568;

const LAST_FIVE_RANKS: u128 = 2346877520660884816650736;

/// Whether the role has a promoted form.
pub fn is_promotable(role: Role) -> bool
    ensures { result ≡ is_promotable role }
{
    matches!(
        role,
        Role::Pawn | Role::Lance | Role::Knight | Role::Silver | Role::Bishop | Role::Rook
    )
}

/// Whether the square is on the three ranks in which the side promotes.
pub fn in_promotion_zone(color: Color, square: Square) -> bool
    ensures { result ≡ in_promotion_zone color square }
{
    match color {
        Color::Black => square.rank() < 4,
        Color::White => square.rank() > 6,
    }
}

/// Whether what stands in the cell may promote by a move between the squares.
pub fn may_promote(cell: Option<Piece>, from: Square, to: Square) -> bool
    ensures { result ≡ may_promote cell from to }
{
    match cell {
        None => false,
        Some(piece) => is_promotable(piece.role)
            && (in_promotion_zone(piece.color, from) || in_promotion_zone(piece.color, to)),
    }
}

// The squares from which a piece of Black or White could never move again, by role as declared.
const BLACK_DEAD: [u128; 14] = [
    0,
    FIRST_RANK,
    FIRST_RANK,
    FIRST_TWO_RANKS,
    0,
    0,
    0,
    0,
    0,
    0,
    0,
    0,
    0,
    0,
];

const WHITE_DEAD: [u128; 14] = [
    0,
    LAST_RANK,
    LAST_RANK,
    LAST_TWO_RANKS,
    0,
    0,
    0,
    0,
    0,
    0,
    0,
    0,
    0,
    0,
];

/// The squares from which what stands in the cell could never move again.
#[tactic(auto, using(crate::proofs::ZoneLaws::dead_bits))]
pub fn dead_squares(cell: Option<Piece>) -> Squares
    ensures squares { HasBits result.bits (λ n. is_immobile n cell) }
{
    let Some(piece) = cell else {
        return Squares { bits: 0 }
    };
    let bits = match piece.color {
        Color::Black => BLACK_DEAD[piece.role as usize],
        Color::White => WHITE_DEAD[piece.role as usize],
    };
    Squares { bits }
}

/// The squares of the side's promotion zone.
#[tactic(auto, using(crate::proofs::ZoneLaws::zone_bits))]
pub fn zone_squares(color: Color) -> Squares
    ensures squares { HasBits result.bits (in_promotion_zone color) }
{
    let bits = match color {
        Color::Black => FIRST_THREE_RANKS,
        Color::White => LAST_THREE_RANKS,
    };
    Squares { bits }
}

/// The side's promotion zone and the two ranks before it, from which a step or jump may enter it.
#[tactic(auto, using(crate::proofs::ZoneLaws::zone_bits))]
pub fn squares_near_zone(color: Color) -> Squares
    ensures squares { HasBits result.bits (is_near_zone color) }
{
    let bits = match color {
        Color::Black => FIRST_FIVE_RANKS,
        Color::White => LAST_FIVE_RANKS,
    };
    Squares { bits }
}

/// The destinations at which the piece, moving from `from`, may promote.
#[tactic(auto, using(crate::proofs::ZoneLaws::promoting_bits))]
pub fn promoting_squares(cell: Option<Piece>, from: Square) -> Squares
    ensures squares { HasBits result.bits (may_promote cell from) }
{
    let Some(piece) = cell else {
        return Squares { bits: 0 }
    };
    if !is_promotable(piece.role) {
        return Squares { bits: 0 };
    }
    let zone = zone_squares(piece.color);
    if zone.has(from) {
        return Squares { bits: ALL_SQUARES };
    }
    zone
}

// The mask of each file.
const FILES: [u128; 9] = [
    511,
    261632,
    133955584,
    68585259008,
    35115652612096,
    17979214137393152,
    9205357638345293824,
    4713143110832790437888,
    2413129272746388704198656,
];

/// The squares of the file if an unpromoted pawn of the side stands on the square, else none. Meant
/// to compile without a branch, since pawns stand among the others without order.
#[inline(always)]
#[tactic(auto, using(crate::proofs::PawnFiles::pawn_file_bits))]
fn pawn_file(p: &Position, side: Color, square: Square) -> Squares
    ensures { HasBits result.bits (is_on_file_of_pawn p.now.cells side square) }
{
    if is_pawn(p.at(square), side) {
        Squares {
            bits: FILES[square.index() / 9],
        }
    } else {
        Squares { bits: 0 }
    }
}

/// The squares of all files on which the side has an unpromoted pawn. Sliders and kings need no
/// look.
#[inline(never)]
pub fn pawn_files(p: &Position, side: Color) -> Squares
    ensures squares { HasBits result.bits
        (λ n. nat_lt 0 (pawns_on_file side (n / 9) p.now.cells)) }
{
    p.reveal_invariant();
    let board = p.as_board();
    let steppers = board.own(side).without(board.sliders() | board.kings(side));
    steppers.union(|square| pawn_file(p, side, square))
}

// The squares at most two files from each file, and at most four ranks from each rank.
const WIDE_FILES: [u128; 9] = [
    134217727,
    68719476735,
    35184372088831,
    18014398509481472,
    9223372036854513664,
    4722366482869510995968,
    2417851639229189629935616,
    2417851639194073977323520,
    2417851621214859839930368,
];

const TALL_RANKS: [u128; 9] = [
    146679845041305301040671,
    298091297987168837598783,
    600914203878895910715007,
    1206560015662350056947455,
    2417851639229258349412351,
    2413120031324700113894910,
    2403656815515583642860028,
    2384730383897350700790264,
    2346877520660884816650736,
];

/// The squares at most two files and four ranks away from the square.
#[tactic(auto, using(crate::proofs::ZoneLaws::around_bits))]
pub fn squares_around(square: Square) -> Squares
    ensures squares { HasBits result.bits (is_around square) }
{
    let index = square.index();
    Squares {
        bits: WIDE_FILES[index / 9] & TALL_RANKS[index % 9],
    }
}
