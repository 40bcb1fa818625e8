//! The words of a board: all its cells, packed.

ghost use Rattle.std.specs.Prelude.{◌≡◌, ◌≤◌, ◌<◌, ◌+◌, ◌*◌, ◌^◌, length, map};
ghost use Rattle.shogi_core.specs.Words.{board_words, cell_number, number_in_base_32};

use crate::piece::{Color, Piece, Role};

/// A number below 32 for what stands in the cell; 0 if empty.
pub fn cell_number(cell: Option<Piece>) -> u64
    ensures number { result ≡ cell_number cell }
    ensures range { result < 32 }
{
    let Some(piece) = cell else {
        return 0;
    };
    let role = match piece.role {
        Role::King => 0,
        Role::Pawn => 1,
        Role::Lance => 2,
        Role::Knight => 3,
        Role::Silver => 4,
        Role::Gold => 5,
        Role::Bishop => 6,
        Role::Rook => 7,
        Role::PromotedPawn => 8,
        Role::PromotedLance => 9,
        Role::PromotedKnight => 10,
        Role::PromotedSilver => 11,
        Role::Horse => 12,
        Role::Dragon => 13,
    };
    match piece.color {
        Color::Black => role + 1,
        Color::White => role + 15,
    }
}

/// The word of up to twelve cells.
fn cells_word(cells: &[Option<Piece>]) -> u64
    requires { length cells.now ≤ 12 }
    ensures { result ≡ number_in_base_32 (map cell_number cells.now) }
{
    let mut word = 0;
    let mut at = cells.len();
    while at > 0 {
        at -= 1;
        word = 32 * word + cell_number(cells[at]);
    }
    word
}

/// The seven words of a board with these cells.
pub fn board_words(cells: &[Option<Piece>; 81]) -> [u64; 7]
    ensures { result ≡ board_words cells.now }
{
    [
        cells_word(&cells[0..12]),
        cells_word(&cells[12..24]),
        cells_word(&cells[24..36]),
        cells_word(&cells[36..48]),
        cells_word(&cells[48..60]),
        cells_word(&cells[60..72]),
        cells_word(&cells[72..81]),
    ]
}

/// The word with the digit at `place` changed from `out` to `put`.
pub fn with_digit(word: u64, place: usize, out: u64, put: u64) -> u64
    requires place { place < 12 }
    requires word { word < 32 ^ 12 }
    requires there { out * 32 ^ place ≤ word }
    requires digit { put < 32 }
    ensures { result + out * 32 ^ place ≡ word + put * 32 ^ place }
{
    let shift = 5 * place;
    word - (out << shift) + (put << shift)
}
