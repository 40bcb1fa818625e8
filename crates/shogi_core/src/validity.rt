//! Valid positions and their faults.

ghost use Rattle.std.specs.Prelude.{◌≡◌, count_by, nat_lt, ◌<◌};
ghost use Rattle.shogi_core.specs.Pieces.{is_of_kind, set_size};
ghost use Rattle.shogi_core.specs.Cell.{is_king, is_pawn};
ghost use Rattle.shogi_core.specs.Validity.{has_too_many, has_two_kings, has_two_pawns, has_dead_piece, has_two_pawns_on, count_of, pawns_on_file, fault_of, number_of_fault};

use crate::board::Board;
use crate::cell::{is_immobile, is_king, is_of_kind, is_pawn};
use crate::hands::Hands;
use crate::piece::{Color, KINDS, Kind, Piece};

/// Why a position is not valid. Faults are looked for in this order.
#[derive(Clone, Copy, Debug, PartialEq, Eq, Hash)]
pub enum PositionFault {
    /// More pieces of a kind than one set has, on the board and in both hands, promoted ones
    /// included.
    TooMany,
    /// A side has more than one king.
    TwoKings,
    /// A side has two unpromoted pawns on one file.
    TwoPawns,
    /// An unpromoted pawn or lance stands on its last rank, or a knight on its last two.
    DeadPiece,
    /// The king of the side that is not to move is attacked.
    KingOpen,
}

impl PositionFault {
    /// The number that the host gives for the fault, from 4 to 8 (own choice).
    pub fn number(self) -> u8
        ensures { result ≡ number_of_fault self }
    {
        match self {
            PositionFault::TooMany => 4,
            PositionFault::TwoKings => 5,
            PositionFault::TwoPawns => 6,
            PositionFault::DeadPiece => 7,
            PositionFault::KingOpen => 8,
        }
    }
}

/// The number of pieces of the kind on the board, promoted ones included.
fn count_kind(cells: &[Option<Piece>; 81], kind: Kind) -> usize
    ensures { result ≡ count_by (is_of_kind kind) cells.now }
{
    cells.iter().filter(|cell| is_of_kind(**cell, kind)).count()
}

/// The number of kings of the side on the board.
fn count_kings(cells: &[Option<Piece>; 81], color: Color) -> usize
    ensures { result ≡ count_by (is_king color) cells.now }
{
    cells.iter().filter(|cell| is_king(**cell, color)).count()
}

/// Whether a side has more than one king.
fn has_two_kings(cells: &[Option<Piece>; 81]) -> bool
    ensures { result ≡ has_two_kings cells.now }
{
    count_kings(cells, Color::Black) > 1 || count_kings(cells, Color::White) > 1
}

/// The number of unpromoted pawns of the side on the file, counted from 0.
fn count_pawns(cells: &[Option<Piece>; 81], color: Color, file: usize) -> usize
    requires { file < 9 }
    ensures { result ≡ pawns_on_file color file cells.now }
{
    let first = 9 * file;
    cells[first..first + 9]
        .iter()
        .filter(|cell| is_pawn(**cell, color))
        .count()
}

impl Board {
    /// The number of unpromoted pawns of the side on the file, counted from 0.
    pub fn pawns_on_file(&self, side: Color, file: usize) -> usize
        requires { file < 9 }
        ensures { result ≡ pawns_on_file side file self.now }
    {
        count_pawns(self.cells(), side, file)
    }
}

/// Whether there are more pieces of the kind than one set has.
fn has_too_many_of(cells: &[Option<Piece>; 81], hands: Hands, kind: Kind) -> bool
    ensures { result ≡ nat_lt (set_size kind) (count_of kind cells.now hands) }
{
    let in_hand = hands.count(Color::Black, kind) as usize
        + hands.count(Color::White, kind) as usize;
    kind.set_size() < count_kind(cells, kind) + in_hand
}

/// Whether there are more pieces of some kind than one set has.
fn has_too_many(cells: &[Option<Piece>; 81], hands: Hands) -> bool
    ensures { result ≡ has_too_many cells.now hands }
{
    KINDS
        .iter()
        .any(|kind| has_too_many_of(cells, hands, *kind))
}

/// Whether a side has two unpromoted pawns on the file.
fn has_two_pawns_on(cells: &[Option<Piece>; 81], file: usize) -> bool
    requires { file < 9 }
    ensures { result ≡ has_two_pawns_on cells.now file }
{
    count_pawns(cells, Color::Black, file) > 1 || count_pawns(cells, Color::White, file) > 1
}

/// Whether a side has two unpromoted pawns on one file.
#[tactic(auto, using(crate::proofs::Below::some_below_more, crate::proofs::Below::some_below_none, crate::proofs::Below::some_below_at))]
fn has_two_pawns(cells: &[Option<Piece>; 81]) -> bool
    ensures { result ≡ has_two_pawns cells.now }
{
    for file in 0..9 {
        if has_two_pawns_on(cells, file) {
            return true;
        }
    }
    false
}

/// Whether some piece could never move again.
#[tactic(auto, using(crate::proofs::Below::some_below_more, crate::proofs::Below::some_below_none, crate::proofs::Below::some_below_at))]
fn has_dead_piece(cells: &[Option<Piece>; 81]) -> bool
    ensures { result ≡ has_dead_piece cells.now }
{
    for square in 0..81 {
        if is_immobile(cells[square], square) {
            return true;
        }
    }
    false
}

/// The first fault of a position with these parts, if any.
#[tactic(auto, unfolding(crate::specs::Validity::fault_of))]
pub fn fault(cells: &[Option<Piece>; 81], hands: Hands, side: Color) -> Option<PositionFault>
    ensures { result ≡ fault_of (record { cells = cells.now; hands = hands; side = side }) }
{
    if has_too_many(cells, hands) {
        return Some(PositionFault::TooMany);
    }
    if has_two_kings(cells) {
        return Some(PositionFault::TwoKings);
    }
    if has_two_pawns(cells) {
        return Some(PositionFault::TwoPawns);
    }
    if has_dead_piece(cells) {
        return Some(PositionFault::DeadPiece);
    }
    if Board::of(*cells).in_check(side.opponent()) {
        return Some(PositionFault::KingOpen);
    }
    None
}
