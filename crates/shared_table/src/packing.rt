//! The words of a key: packing a position, and unpacking it.

ghost use Rattle.std.specs.Prelude.{◌≡◌, ◌≤◌, ◌<◌, ◌+◌, ◌-◌, ◌*◌, ◌%◌, ◌^◌, ◌++◌, length, take};
ghost use Rattle.shogi_core.specs.Steps.{color_number};
ghost use Rattle.shogi_core.specs.Words.{number_in_base_32};
ghost use Rattle.shared_table.specs.Keys.{eval_number};
ghost use Rattle.shared_table.specs.Packed.{SetsCounts, cell_of_number, cells_in, counts_of, side_of_number};

use shogi_core::{Color, Hands, KINDS, Kind, Piece, Role};
use shogi_eval::Eval;

/// The content of a square for each number from 0 to 28.
pub const CELLS: [Option<Piece>; 29] = [
    None,
    Some(Piece {
        color: Color::Black,
        role: Role::King,
    }),
    Some(Piece {
        color: Color::Black,
        role: Role::Pawn,
    }),
    Some(Piece {
        color: Color::Black,
        role: Role::Lance,
    }),
    Some(Piece {
        color: Color::Black,
        role: Role::Knight,
    }),
    Some(Piece {
        color: Color::Black,
        role: Role::Silver,
    }),
    Some(Piece {
        color: Color::Black,
        role: Role::Gold,
    }),
    Some(Piece {
        color: Color::Black,
        role: Role::Bishop,
    }),
    Some(Piece {
        color: Color::Black,
        role: Role::Rook,
    }),
    Some(Piece {
        color: Color::Black,
        role: Role::PromotedPawn,
    }),
    Some(Piece {
        color: Color::Black,
        role: Role::PromotedLance,
    }),
    Some(Piece {
        color: Color::Black,
        role: Role::PromotedKnight,
    }),
    Some(Piece {
        color: Color::Black,
        role: Role::PromotedSilver,
    }),
    Some(Piece {
        color: Color::Black,
        role: Role::Horse,
    }),
    Some(Piece {
        color: Color::Black,
        role: Role::Dragon,
    }),
    Some(Piece {
        color: Color::White,
        role: Role::King,
    }),
    Some(Piece {
        color: Color::White,
        role: Role::Pawn,
    }),
    Some(Piece {
        color: Color::White,
        role: Role::Lance,
    }),
    Some(Piece {
        color: Color::White,
        role: Role::Knight,
    }),
    Some(Piece {
        color: Color::White,
        role: Role::Silver,
    }),
    Some(Piece {
        color: Color::White,
        role: Role::Gold,
    }),
    Some(Piece {
        color: Color::White,
        role: Role::Bishop,
    }),
    Some(Piece {
        color: Color::White,
        role: Role::Rook,
    }),
    Some(Piece {
        color: Color::White,
        role: Role::PromotedPawn,
    }),
    Some(Piece {
        color: Color::White,
        role: Role::PromotedLance,
    }),
    Some(Piece {
        color: Color::White,
        role: Role::PromotedKnight,
    }),
    Some(Piece {
        color: Color::White,
        role: Role::PromotedSilver,
    }),
    Some(Piece {
        color: Color::White,
        role: Role::Horse,
    }),
    Some(Piece {
        color: Color::White,
        role: Role::Dragon,
    }),
];

/// Two words as one number, which hashers take in one write.
pub fn pair(low: u64, high: u64) -> u128
    ensures { result ≡ low + 2 ^ 64 * high }
{
    low as u128 + 0x1_0000_0000_0000_0000 * high as u128
}

/// The word of a side's hand: its counts as digits in base 32.
#[tactic(auto, unfolding(shogi_core::specs::Words::number_in_base_32))]
pub fn hand_word(hands: Hands, color: Color) -> u64
    ensures { result ≡ number_in_base_32 (counts_of hands color) }
{
    let pawns = hands.count(color, Kind::Pawn) as u64;
    let lances = hands.count(color, Kind::Lance) as u64;
    let knights = hands.count(color, Kind::Knight) as u64;
    let silvers = hands.count(color, Kind::Silver) as u64;
    let golds = hands.count(color, Kind::Gold) as u64;
    let bishops = hands.count(color, Kind::Bishop) as u64;
    let rooks = hands.count(color, Kind::Rook) as u64;
    pawns
        + 32 * (lances
            + 32 * (knights + 32 * (silvers + 32 * (golds + 32 * (bishops + 32 * rooks)))))
}

/// The word of the side to move, the evaluation and the depth.
pub fn last_word(side: Color, eval: Eval, depth: u8) -> u64
    ensures { result ≡ color_number side + 2 * (eval_number eval + 3 * depth) }
{
    let side = match side {
        Color::Black => 0,
        Color::White => 1,
    };
    let eval = match eval {
        Eval::Plain => 0,
        Eval::Hand => 1,
        Eval::Exchange => 2,
    };
    side + 2 * (eval + 3 * depth as u64)
}

/// The content of a square for the number; none from 29 up.
pub fn cell_of_number(number: u64) -> Option<Piece>
    requires { number < 32 }
    ensures { result ≡ cell_of_number number }
{
    if number < 29 {
        CELLS[number as usize]
    } else {
        None
    }
}

/// Unpacks a word onto the squares from `from` up to, not including, `end`.
pub fn place_cells(cells: &mut [Option<Piece>; 81], from: usize, end: usize, word: u64)
    requires order { from ≤ end }
    requires fits { end ≤ 81 }
    ensures { take end cells.new ≡ take from cells.old ++ cells_in (end - from) word }
{
    let mut rest = word;
    for at in from..end {
        cells[at] = cell_of_number(rest % 32);
        rest /= 32;
    }
}

/// The hands with the counts of a side unpacked from the word.
pub fn with_counts(hands: Hands, color: Color, word: u64) -> Hands
    requires { length hands ≡ 14 }
    ensures counts { SetsCounts hands color word result }
    ensures length { length result ≡ 14 }
{
    let mut counted = hands;
    let mut rest = word;
    for number in 0..7usize {
        counted = counted.with(color, KINDS[number], (rest % 32) as u8);
        rest /= 32;
    }
    counted
}

/// The side to move, unpacked from the last word.
pub fn side_of(word: u64) -> Color
    ensures { result ≡ side_of_number (word % 2) }
{
    if word % 2 == 0 {
        Color::Black
    } else {
        Color::White
    }
}
