//! Writes a position as text.

ghost use Rattle.std.specs.Prelude.{◌≡◌, ◌≤◌, ◌<◌, ◌+◌, ◌*◌, ◌++◌, [], ◌∷◌, length};
ghost use Rattle.shogi_sfen.specs.Written.{run_text, cells_text, rank_cells, rank_text, board_text, side_text, held_text, side_held_text, hands_text, position_text};
ghost use Rattle.shogi_sfen.specs.Letters.{piece_text};
ghost use Rattle.shogi_sfen.specs.declared.board_text.TheConstants.{RANK_SQUARES};
ghost use Rattle.shogi_sfen.specs.declared.position_text.TheConstants.{TEXT_BYTES};
ghost use Rattle.shogi_core.specs.Position.{count_in_hand};
ghost use Rattle.shogi_sfen.specs.Sfen.{IsReadAs};
ghost use Rattle.shogi_sfen.specs.Spelling.{SpellsAtStart};
ghost use Rattle.shogi_core.specs.declared.piece.Kind.{Kind};
ghost use Rattle.shogi_core.specs.declared.piece.Color.{Color};

use crate::board_text::{RANK_SQUARES, Rank};
use crate::byte::{PLUS, SLASH, SPACE, ZERO};
use crate::letter::{cased_for, is_promoted, letter_of, piece_letter};
use arrayvec::ArrayVec;
use shogi_core::{Board, Color, Hands, Kind, Piece, Position, Square};

/// The most bytes that a written position can have.
pub const TEXT_BYTES: usize = 256;

/// The text of a position while it is written.
pub type Text = ArrayVec<u8, TEXT_BYTES>;

/// Appends the letter of the piece, after a plus if it is promoted.
fn push_piece(text: &mut Text, piece: Piece)
    requires { length text.old.items + 2 ≤ TEXT_BYTES }
    ensures value { text.new.items ≡ text.old.items ++ piece_text piece }
    ensures len { length text.new.items ≤ length text.old.items + 2 }
{
    if is_promoted(piece.role) {
        text.push(PLUS);
    }
    text.push(piece_letter(piece));
}

/// Appends a number of empty squares as a digit, unless it is 0.
fn push_run(text: &mut Text, run: u8)
    requires room { length text.old.items + run ≤ TEXT_BYTES }
    requires run { run ≤ RANK_SQUARES }
    ensures value { text.new.items ≡ text.old.items ++ run_text run }
    ensures len { length text.new.items ≤ length text.old.items + run }
{
    if run > 0 {
        text.push(ZERO + run);
    }
}

/// The nine cells of a rank, counted from 0, from file 9 to file 1.
fn rank_cells(board: &Board, rank: usize) -> Rank
    requires { rank < RANK_SQUARES }
    ensures { result.items ≡ rank_cells board.now rank }
{
    let mut cells = ArrayVec::new();
    for i in 0..RANK_SQUARES {
        cells.push(board.at(Square::of_index((8 - i) * 9 + rank)));
    }
    cells
}

/// Appends the cells of a rank, with each maximal run of empty squares as a digit.
fn push_cells(text: &mut Text, cells: &Rank)
    requires room { length text.old.items + 18 ≤ TEXT_BYTES }
    ensures value { text.new.items ≡ text.old.items ++ cells_text 0 cells.now.items }
    ensures len { length text.new.items ≤ length text.old.items + 18 }
{
    let mut run = 0;
    for cell in cells.as_slice() {
        match cell {
            None => run += 1,
            Some(piece) => {
                push_run(text, run);
                push_piece(text, *piece);
                run = 0;
            }
        }
    }
    push_run(text, run);
}

/// Appends a rank, after a slash unless it is the first.
fn push_rank(text: &mut Text, board: &Board, rank: usize)
    requires room { length text.old.items + 19 ≤ TEXT_BYTES }
    requires rank { rank < RANK_SQUARES }
    ensures value { text.new.items ≡ text.old.items ++ rank_text board.now rank }
    ensures len { length text.new.items ≤ length text.old.items + 19 }
{
    if rank > 0 {
        text.push(SLASH);
    }
    push_cells(text, &rank_cells(board, rank));
}

/// Appends the nine ranks from a to i.
fn push_board(text: &mut Text, board: &Board)
    requires { text.old.items ≡ [] }
    ensures value { text.new.items ≡ board_text board.now }
    ensures len { length text.new.items ≤ 171 }
{
    for rank in 0..RANK_SQUARES {
        push_rank(text, board, rank);
    }
}

/// Appends a count in hand: its digits if it is over 1, and the letter; nothing if it is 0.
fn push_held(text: &mut Text, color: Color, kind: Kind, count: u8)
    requires room { length text.old.items + 3 ≤ TEXT_BYTES }
    requires small { count < 100 }
    ensures value { text.new.items ≡ text.old.items ++ held_text color kind count }
    ensures len { length text.new.items ≤ length text.old.items + 3 }
{
    if count == 0 {
        return;
    }
    if count >= 10 {
        text.push(ZERO + count / 10);
        text.push(ZERO + count % 10);
    } else if count >= 2 {
        text.push(ZERO + count);
    }
    text.push(cased_for(color, letter_of(kind)));
}

/// The kinds in the order of a text.
const KINDS_IN_TEXT: [Kind; 7] = [
    Kind::Rook,
    Kind::Bishop,
    Kind::Gold,
    Kind::Silver,
    Kind::Knight,
    Kind::Lance,
    Kind::Pawn,
];

/// Appends the hand of one side.
fn push_side_held(text: &mut Text, hands: Hands, color: Color)
    requires room { length text.old.items + 21 ≤ TEXT_BYTES }
    requires small { (kind : Kind) → count_in_hand hands color kind < 100 }
    ensures value { text.new.items ≡ text.old.items ++ side_held_text hands color }
    ensures len { length text.new.items ≤ length text.old.items + 21 }
{
    for kind in KINDS_IN_TEXT.iter() {
        push_held(text, color, *kind, hands.count(color, *kind));
    }
}

/// Appends both hands, or a hyphen if they are empty.
fn push_hands(text: &mut Text, hands: Hands)
    requires room { length text.old.items + 42 ≤ TEXT_BYTES }
    requires small { (color : Color) (kind : Kind) → count_in_hand hands color kind < 100 }
    ensures { text.new.items ≡ text.old.items ++ hands_text hands }
{
    let start = text.len();
    push_side_held(text, hands, Color::Black);
    push_side_held(text, hands, Color::White);
    if text.len() == start {
        text.push(b'-');
    }
}

/// The letter of the side to move.
fn side_letter(side: Color) -> u8
    ensures { result ∷ [] ≡ side_text side }
{
    match side {
        Color::Black => b'b',
        Color::White => b'w',
    }
}

/// The one text that is written for the position (SFEN): board, side and hands, without a move
/// number.
pub fn write_position(position: &Position) -> ArrayVec<u8, TEXT_BYTES>
    ensures text { result.items ≡ position_text position.now }
    ensures back { IsReadAs (position_text position.now) position.now }
    ensures spelled { SpellsAtStart (position_text position.now) position.now }
{
    // The prover needs a valid position: no side then holds 100 of a kind, so two digits are
    // enough.
    position.reveal_invariant();
    let mut text = ArrayVec::new();
    push_board(&mut text, &position.board());
    text.push(SPACE);
    text.push(side_letter(position.side()));
    text.push(SPACE);
    push_hands(&mut text, position.hands());
    text
}
