//! The rules by plain bodies, to compare with: lines are walked square by square, the board is
//! scanned for attacks, and each move is made to see what it leaves.

use crate::boards::file_of;
use shogi_core::{
    Board, Color, Kind, MOVE_CODE_COUNT, Move, Piece, Position, Role, Square, is_immobile,
    is_piece_of,
};

// A change of file and of rank, as Black sees the board.
type Change = (i8, i8);

const STRAIGHT: [Change; 4] = [(0, -1), (0, 1), (1, 0), (-1, 0)];

const DIAGONAL: [Change; 4] = [(1, -1), (-1, -1), (1, 1), (-1, 1)];

const AROUND: [Change; 8] = [
    (0, -1),
    (0, 1),
    (1, 0),
    (-1, 0),
    (1, -1),
    (-1, -1),
    (1, 1),
    (-1, 1),
];

const FORWARD: [Change; 1] = [(0, -1)];

const KNIGHT: [Change; 2] = [(1, -2), (-1, -2)];

const SILVER: [Change; 5] = [(0, -1), (1, -1), (-1, -1), (1, 1), (-1, 1)];

const GOLD: [Change; 6] = [(0, -1), (1, -1), (-1, -1), (1, 0), (-1, 0), (0, 1)];

fn step_changes(role: Role) -> &'static [Change] {
    match role {
        Role::King => &AROUND,
        Role::Pawn => &FORWARD,
        Role::Knight => &KNIGHT,
        Role::Silver => &SILVER,
        Role::Gold
        | Role::PromotedPawn
        | Role::PromotedLance
        | Role::PromotedKnight
        | Role::PromotedSilver => &GOLD,
        Role::Horse => &STRAIGHT,
        Role::Dragon => &DIAGONAL,
        Role::Lance | Role::Bishop | Role::Rook => &[],
    }
}

fn slide_changes(role: Role) -> &'static [Change] {
    match role {
        Role::Lance => &FORWARD,
        Role::Bishop | Role::Horse => &DIAGONAL,
        Role::Rook | Role::Dragon => &STRAIGHT,
        _ => &[],
    }
}

// Where n steps lead, if they stay on the board.
fn away(from: Square, n: u8, change: Change, color: Color) -> Option<Square> {
    let file = file_of(from) as i32 + n as i32 * change.0 as i32;
    let step = n as i32 * change.1 as i32;
    let rank = match color {
        Color::Black => from.rank() as i32 + step,
        Color::White => from.rank() as i32 - step,
    };
    if file < 1 || file > 9 || rank < 1 || rank > 9 {
        return None;
    }
    Square::new(file as u8, rank as u8)
}

fn steps(piece: Piece, from: Square, to: Square) -> bool {
    for change in step_changes(piece.role) {
        if away(from, 1, *change, piece.color) == Some(to) {
            return true;
        }
    }
    false
}

fn slides(board: &Board, piece: Piece, from: Square, to: Square) -> bool {
    for change in slide_changes(piece.role) {
        let mut is_open = true;
        for n in 1..9u8 {
            match away(from, n, *change, piece.color) {
                None => is_open = false,
                Some(square) => {
                    if is_open && square == to {
                        return true;
                    }
                    if board.at(square).is_some() {
                        is_open = false;
                    }
                }
            }
        }
    }
    false
}

/// Whether the piece on the one square goes to the other by a step, a jump or a free slide.
pub fn reaches(board: &Board, from: Square, to: Square) -> bool {
    match board.at(from) {
        None => false,
        Some(piece) => steps(piece, from, to) || slides(board, piece, from, to),
    }
}

/// Whether a piece of the side reaches the square.
pub fn is_attacked(board: &Board, by: Color, square: Square) -> bool {
    for index in 0..81 {
        let from = Square::of_index(index);
        if is_piece_of(board.at(from), by) && reaches(board, from, square) {
            return true;
        }
    }
    false
}

/// Whether a king of the side is attacked.
pub fn in_check(board: &Board, side: Color) -> bool {
    for index in 0..81 {
        let square = Square::of_index(index);
        if let Some(piece) = board.at(square) {
            if piece.role.is_king() && piece.color.is_same(side) {
                if is_attacked(board, side.opponent(), square) {
                    return true;
                }
            }
        }
    }
    false
}

fn in_promotion_zone(side: Color, square: Square) -> bool {
    match side {
        Color::Black => square.rank() <= 3,
        Color::White => square.rank() >= 7,
    }
}

fn stands_after(piece: Piece, promote: bool) -> Option<Piece> {
    Some(Piece {
        color: piece.color,
        role: if promote {
            piece.role.promoted()
        } else {
            piece.role
        },
    })
}

fn is_pseudo_legal_board_move(p: &Position, from: Square, to: Square, promote: bool) -> bool {
    let Some(piece) = p.at(from) else {
        return false;
    };
    if !piece.color.is_same(p.side()) || is_piece_of(p.at(to), p.side()) {
        return false;
    }
    if !reaches(&p.board(), from, to) {
        return false;
    }
    if promote {
        let changes = piece.role.promoted() != piece.role;
        return changes
            && (in_promotion_zone(piece.color, from) || in_promotion_zone(piece.color, to));
    }
    !is_immobile(Some(piece), to.index())
}

fn is_pseudo_legal_drop(p: &Position, kind: Kind, to: Square) -> bool {
    let side = p.side();
    let role = Role::from(kind);
    if p.hand(side, kind) == 0 || p.at(to).is_some() {
        return false;
    }
    if is_immobile(Some(Piece { color: side, role }), to.index()) {
        return false;
    }
    if role != Role::Pawn {
        return true;
    }
    for index in 0..81 {
        let square = Square::of_index(index);
        if file_of(square) == file_of(to) && p.at(square) == Some(Piece { color: side, role }) {
            return false;
        }
    }
    true
}

fn is_pseudo_legal(p: &Position, m: &Move) -> bool {
    match m {
        Move::Board { from, to, promote } => is_pseudo_legal_board_move(p, *from, *to, *promote),
        Move::Drop { kind, to } => is_pseudo_legal_drop(p, *kind, *to),
    }
}

/// The board after a move.
fn after(p: &Position, m: &Move) -> Board {
    match m {
        Move::Board { from, to, promote } => match p.at(*from) {
            None => p.board(),
            Some(piece) => p
                .board()
                .put(*from, None)
                .put(*to, stands_after(piece, *promote)),
        },
        Move::Drop { kind, to } => {
            let piece = Piece {
                color: p.side(),
                role: Role::from(*kind),
            };
            p.board().put(*to, Some(piece))
        }
    }
}

fn is_safe(p: &Position, m: &Move) -> bool {
    is_pseudo_legal(p, m) && !in_check(&after(p, m), p.side())
}

fn has_safe(p: &Position) -> bool {
    for code in 0..MOVE_CODE_COUNT {
        if let Some(m) = Move::of_code(code) {
            if is_safe(p, &m) {
                return true;
            }
        }
    }
    false
}

fn mates_by_pawn(p: &Position, m: &Move) -> bool {
    let Move::Drop {
        kind: Kind::Pawn,
        ..
    } = m
    else {
        return false;
    };
    let (side, board) = (p.side(), after(p, m));
    if !in_check(&board, side.opponent()) {
        return false;
    }
    let held = p.hand(side, Kind::Pawn).saturating_sub(1);
    let hands = p.hands().with(side, Kind::Pawn, held);
    match Position::new(*board.cells(), hands, side.opponent()) {
        Ok(q) => !has_safe(&q),
        Err(_) => false,
    }
}

/// Whether the move is legal.
pub fn is_legal(p: &Position, m: &Move) -> bool {
    is_safe(p, m) && !mates_by_pawn(p, m)
}

/// Whether the move takes a piece.
pub fn takes(p: &Position, m: &Move) -> bool {
    match m {
        Move::Board { to, .. } => p.at(*to).is_some(),
        Move::Drop { .. } => false,
    }
}
