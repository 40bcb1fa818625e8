//! The opening position.

ghost use Rattle.std.specs.Prelude.{◌≡◌};
ghost use Rattle.shogi_core.specs.Start.{cell_with, start_cells};

use crate::piece::{Color, Piece, Role};

// Masks of the opening board (each side's pieces, kings, sliders) and its words.
pub const START_BLACK: u128 = 1515295121079352776950080;

pub const START_WHITE: u128 = 23676486266864887139845;

pub const START_KINGS: u128 = 17660905521152;

pub const START_SLIDERS: u128 = 1214847224462289940841729;

pub const START_WORDS: [u64; 7] = [
    600741269727100945,
    17612729810944,
    216243151395492866,
    577165541404327951,
    17612788531200,
    152066856728466434,
    3300682383377,
];

/// The roles on each side's first rank, by file.
const BACK_RANK: [Role; 9] = [
    Role::Lance,
    Role::Knight,
    Role::Silver,
    Role::Gold,
    Role::King,
    Role::Gold,
    Role::Silver,
    Role::Knight,
    Role::Lance,
];

/// A cell with a piece of this side and role.
fn cell_with(color: Color, role: Role) -> Option<Piece>
    ensures { result ≡ cell_with color role }
{
    Some(Piece { color, role })
}

/// The 81 cells of the opening board.
pub fn start_cells() -> [Option<Piece>; 81]
    ensures { result ≡ start_cells }
{
    let mut cells = [None; 81];
    for file in 0..9 {
        let first = 9 * file;
        cells[first] = cell_with(Color::White, BACK_RANK[file]);
        cells[first + 2] = cell_with(Color::White, Role::Pawn);
        cells[first + 6] = cell_with(Color::Black, Role::Pawn);
        cells[first + 8] = cell_with(Color::Black, BACK_RANK[file]);
    }
    cells[10] = cell_with(Color::White, Role::Bishop);
    cells[16] = cell_with(Color::Black, Role::Rook);
    cells[64] = cell_with(Color::White, Role::Rook);
    cells[70] = cell_with(Color::Black, Role::Bishop);
    cells
}
