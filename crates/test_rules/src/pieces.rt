//! Outside values: codes and indices by hand, the opening position, faults and moves of pieces of
//! the rule book.

use crate::boards::{Placed, board, file_of, square, squares_of};
use shogi_core::Color::{Black, White};
use shogi_core::{
    Board, Color, Direction, Hands, Kind, Move, Piece, Position, PositionFault, Role, Square,
    Squares, line_mask, ray,
};
use std::test::Fail;
use test_support::{holds, same};

#[test]
fn squares_by_file_and_rank(rt: HostRuntime) -> Result<(), Fail> {
    for (file, rank, index) in [(1, 1, 0), (1, 9, 8), (5, 1, 36), (9, 9, 80)] {
        let found = Square::new(file, rank).ok_or("a square")?;
        same!(rt; found.index(), index, (file, rank));
        same!(rt; (file_of(found), found.rank()), (file, rank));
    }
    for (file, rank) in [(0, 1), (1, 0), (10, 1), (1, 10)] {
        holds!(rt; Square::new(file, rank).is_none(), (file, rank));
    }
    Ok(())
}

/// Each square of a set comes once, by rising index. Behind the last there is none, however often one asks.
#[test]
fn squares_one_by_one(rt: HostRuntime) -> Result<(), Fail> {
    let squares = squares_of("5e 1a 9i 2b")?;
    let mut left = squares.iter();
    for index in [0, 10, 40, 80] {
        let next = left.next().ok_or("a square")?;
        same!(rt; next.index(), index);
    }
    holds!(rt; left.next().is_none());
    holds!(rt; left.next().is_none());
    let mut none = Squares::none().iter();
    holds!(rt; none.next().is_none());
    Ok(())
}

/// The directions by number, each with its opposite, the one a quarter turn clockwise, and the squares that lie so
/// of 5e as Black sees the board. Behind the last there is none, however often one asks.
#[test]
fn directions_one_by_one(rt: HostRuntime) -> Result<(), Fail> {
    let mut left = Direction::all();
    for (number, opposite, turned, squares) in [
        (0usize, 4usize, 2usize, "5f 5g 5h 5i"),
        (1, 5, 3, "6d 7c 8b 9a"),
        (2, 6, 4, "6e 7e 8e 9e"),
        (3, 7, 5, "6f 7g 8h 9i"),
        (4, 0, 6, "5a 5b 5c 5d"),
        (5, 1, 7, "1i 2h 3g 4f"),
        (6, 2, 0, "1e 2e 3e 4e"),
        (7, 3, 1, "1a 2b 3c 4d"),
    ] {
        let direction = left.next().ok_or("a direction")?;
        same!(rt; direction.number(), number);
        same!(rt; direction.opposite().number(), opposite);
        same!(rt; direction.quarter_turn().number(), turned);
        holds!(rt; ray(direction, Square::of_index(40)) == squares_of(squares)?, number);
    }
    holds!(rt; left.next().is_none());
    holds!(rt; left.next().is_none());
    same!(rt; Direction::down().number(), 0);
    same!(rt; Direction::up_left().number(), 1);
    same!(rt; Direction::up().number(), 4);
    Ok(())
}

/// Squares on one file, on one rank, or as many files as ranks apart.
#[test]
fn squares_on_lines(rt: HostRuntime) {
    for from in 0..81 {
        let a = Square::of_index(from);
        let lines = line_mask(a);
        for to in 0..81 {
            let b = Square::of_index(to);
            let files = file_of(a).abs_diff(file_of(b));
            let ranks = a.rank().abs_diff(b.rank());
            let aligned = from != to && (files == 0 || ranks == 0 || files == ranks);
            same!(rt; lines.has(b), aligned, (from, to));
        }
    }
}

#[test]
fn codes_of_moves(rt: HostRuntime) -> Result<(), Fail> {
    for (from, to, code) in [("1a", "1b", 2), ("1g", "1f", 982)] {
        let step = Move::Board {
            from: square(from)?,
            to: square(to)?,
            promote: false,
        };
        same!(rt; step.code(), code);
    }
    let drop = Move::Drop {
        kind: Kind::Gold,
        to: square("5b")?,
    };
    same!(rt; drop.code(), 13483);
    holds!(rt; Move::of_code(13688).is_some());
    holds!(rt; Move::of_code(13689).is_none());
    Ok(())
}

#[test]
fn opening_position(rt: HostRuntime) -> Result<(), Fail> {
    let start = Position::start();
    let back = [
        Role::Lance,
        Role::Knight,
        Role::Silver,
        Role::Gold,
        Role::King,
        Role::Gold,
        Role::Silver,
        Role::Knight,
        Role::Lance,
    ];
    let mut wanted = board(&[
        (Black, Role::Bishop, "8h"),
        (Black, Role::Rook, "2h"),
        (White, Role::Bishop, "2b"),
        (White, Role::Rook, "8b"),
    ])?;
    for (file, role) in (1..10u8).zip(back) {
        for (color, role, rank) in [
            (White, role, 1),
            (White, Role::Pawn, 3),
            (Black, Role::Pawn, 7),
            (Black, role, 9),
        ] {
            let at = Square::new(file, rank).ok_or("a square")?;
            wanted = wanted.put(at, Some(Piece { color, role }));
        }
    }
    holds!(rt; *start.board().cells() == *wanted.cells());
    same!(rt; start.side(), Black);
    same!(rt; start.hand(White, Kind::Pawn), 0);
    holds!(rt; start.reaches(square("7g")?, square("7f")?));
    Ok(())
}

/// The fault of a position of these pieces, with the pawns in Black's hand, and Black to move.
fn fault(pieces: &[Placed<'_>], pawns: u8) -> Result<Option<PositionFault>, Fail> {
    let hands = Hands::none().with(Black, Kind::Pawn, pawns);
    Ok(Position::new(*board(pieces)?.cells(), hands, Black).err())
}

#[test]
fn faults_of_positions(rt: HostRuntime) -> Result<(), Fail> {
    let king = (Black, Role::King, "5i");
    let white_king = (White, Role::King, "5a");
    let second_king = (Black, Role::King, "4i");
    let promoted = (White, Role::PromotedPawn, "3c");
    let (one, other) = ((Black, Role::Pawn, "5d"), (Black, Role::Pawn, "5f"));
    let rows: [(&[Placed<'_>], u8, Option<PositionFault>); 13] = [
        // No king on either side.
        (&[], 18, None),
        (&[king, white_king], 0, None),
        (&[], 19, Some(PositionFault::TooMany)),
        // Promoted ones count.
        (&[promoted], 17, None),
        (&[promoted], 18, Some(PositionFault::TooMany)),
        (
            &[white_king, king, second_king],
            0,
            Some(PositionFault::TwoKings),
        ),
        // The first of two.
        (&[king, second_king], 19, Some(PositionFault::TooMany)),
        (&[king, one, other], 0, Some(PositionFault::TwoPawns)),
        (
            &[(White, Role::Pawn, "5i")],
            0,
            Some(PositionFault::DeadPiece),
        ),
        (
            &[(Black, Role::Lance, "4a")],
            0,
            Some(PositionFault::DeadPiece),
        ),
        (
            &[(Black, Role::Knight, "3b")],
            0,
            Some(PositionFault::DeadPiece),
        ),
        (
            &[(White, Role::Knight, "3h")],
            0,
            Some(PositionFault::DeadPiece),
        ),
        (
            &[white_king, (Black, Role::Pawn, "5b")],
            0,
            Some(PositionFault::KingOpen),
        ),
    ];
    for (at, (pieces, pawns, wanted)) in rows.iter().enumerate() {
        same!(rt; fault(pieces, *pawns)?, *wanted, at);
    }
    let both_hands = Hands::none()
        .with(Black, Kind::Rook, 1)
        .with(White, Kind::Rook, 2);
    let fault = Position::new([None; 81], both_hands, White).err();
    same!(rt; fault, Some(PositionFault::TooMany), "both hands together");
    same!(rt; PositionFault::KingOpen.number(), 8);
    Ok(())
}

/// The squares that the piece of the side, alone on 5e, reaches, seen from its side: ranks are turned for
/// White.
fn reached(color: Color, role: Role) -> Result<Squares, Fail> {
    let board = board(&[(color, role, "5e")])?;
    let mut found = Squares::none();
    for index in 0..81 {
        let to = Square::of_index(index);
        if board.reaches(square("5e")?, to) {
            let rank = match color {
                Black => to.rank(),
                White => 10 - to.rank(),
            };
            found = found.with(Square::new(file_of(to), rank).ok_or("a square")?);
        }
    }
    Ok(found)
}

#[test]
fn moves_of_pieces_in_the_open(rt: HostRuntime) -> Result<(), Fail> {
    let gold = "5d 4d 6d 4e 6e 5f";
    let rook = "5a 5b 5c 5d 5f 5g 5h 5i 1e 2e 3e 4e 6e 7e 8e 9e";
    let bishop = "1a 2b 3c 4d 6f 7g 8h 9i 9a 8b 7c 6d 4f 3g 2h 1i";
    for (role, names) in [
        (Role::Pawn, "5d"),
        (Role::Lance, "5d 5c 5b 5a"),
        (Role::Knight, "4c 6c"),
        (Role::Silver, "5d 4d 6d 4f 6f"),
        (Role::Gold, gold),
        (Role::PromotedPawn, gold),
        (Role::PromotedLance, gold),
        (Role::PromotedKnight, gold),
        (Role::PromotedSilver, gold),
        (Role::King, "4d 5d 6d 4e 6e 4f 5f 6f"),
        (Role::Rook, rook),
        (Role::Bishop, bishop),
    ] {
        for color in [Black, White] {
            same!(rt; reached(color, role)?, squares_of(names)?, (color, role));
        }
    }
    for (role, plain, more) in [
        (Role::Dragon, rook, "4d 6d 4f 6f"),
        (Role::Horse, bishop, "5d 5f 4e 6e"),
    ] {
        for color in [Black, White] {
            same!(rt; reached(color, role)?, squares_of(plain)? | squares_of(more)?, (color, role));
        }
    }
    Ok(())
}

/// Black's rook on 5e has a pawn of its own on its file, and one of White's on its rank. A knight jumps
/// over a pawn, and nothing leaves the board.
#[test]
fn moves_at_the_edge_and_blocked(rt: HostRuntime) -> Result<(), Fail> {
    let board = board(&[
        (Black, Role::Rook, "5e"),
        (Black, Role::Pawn, "5c"),
        (White, Role::Pawn, "3e"),
        (Black, Role::Knight, "1c"),
        (Black, Role::Pawn, "1b"),
        (Black, Role::Pawn, "6a"),
    ])?;
    for (from, to, reached) in [
        ("5e", "5d", true),
        ("5e", "5c", true),
        ("5e", "5b", false),
        ("5e", "4e", true),
        ("5e", "3e", true),
        ("5e", "2e", false),
        ("1c", "2a", true),
        ("1c", "9a", false),
        ("6a", "7i", false),
        ("6a", "5i", false),
        ("4d", "4c", false),
    ] {
        same!(rt; board.reaches(square(from)?, square(to)?), reached, (from, to));
    }
    Ok(())
}

/// The squares that a piece would reach, whatever stands on its square.
fn would_reach(board: &Board, (color, role, name): Placed<'_>) -> Result<Squares, Fail> {
    Ok(board.targets_of(Piece { color, role }, square(name)?))
}

// A gold stands where the pieces are thought to stand, or a silver, and neither moves nor blocks
// for them; the first piece on the way is reached, whosever it is, and nothing behind it.
#[test]
fn moves_from_where_another_stands(rt: HostRuntime) -> Result<(), Fail> {
    let board = board(&[
        (White, Role::Gold, "5e"),
        (Black, Role::Pawn, "5c"),
        (White, Role::Pawn, "3e"),
        (White, Role::Knight, "4d"),
        (Black, Role::Silver, "7g"),
    ])?;
    for (placed, targets) in [
        (
            (Black, Role::Dragon, "5e"),
            "5d 5c 5f 5g 5h 5i 4e 3e 6e 7e 8e 9e 4d 6d 4f 6f",
        ),
        (
            (White, Role::Bishop, "5e"),
            "4d 6d 7c 8b 9a 6f 7g 4f 3g 2h 1i",
        ),
        ((Black, Role::Lance, "5e"), "5d 5c"),
        ((White, Role::Lance, "5e"), "5f 5g 5h 5i"),
        ((Black, Role::Knight, "5e"), "4c 6c"),
        ((White, Role::Knight, "5e"), "4g 6g"),
        ((White, Role::Silver, "5e"), "5f 4d 6d 4f 6f"),
        ((Black, Role::Pawn, "5e"), "5d"),
        (
            (White, Role::Horse, "7g"),
            "6f 5e 8f 9e 8h 9i 6h 5i 7f 7h 6g 8g",
        ),
    ] {
        same!(rt; would_reach(&board, placed)?, squares_of(targets)?, placed);
    }
    Ok(())
}

#[test]
fn moves_from_an_empty_square(rt: HostRuntime) -> Result<(), Fail> {
    let board = board(&[(White, Role::Pawn, "1h")])?;
    for (placed, targets) in [
        ((Black, Role::Lance, "1i"), "1h"),
        ((Black, Role::Gold, "1i"), "1h 2h 2i"),
        // A pawn on its last rank.
        ((White, Role::Pawn, "1i"), ""),
    ] {
        same!(rt; would_reach(&board, placed)?, squares_of(targets)?, placed);
    }
    Ok(())
}

// Each square is a digit in base 32, counted file by file: 1a and 2d are the lowest digits of the
// first two words, and 9i is the ninth of the last. A piece is its role's place in the list of
// roles, counted from 1 for Black and from 15 for White.
#[test]
fn words_of_boards(rt: HostRuntime) -> Result<(), Fail> {
    same!(rt; *board(&[])?.words(), [0; 7]);
    let placed = board(&[
        (Black, Role::King, "1b"),
        (Black, Role::Gold, "2c"),
        (White, Role::Dragon, "2d"),
        (White, Role::Rook, "9i"),
    ])?;
    // A king on 1b: 1 * 32. A gold on 2c: 6 * 32^11 = 6 * 36,028,797,018,963,968.
    // A dragon on 2d: 28. A rook on 9i: 22 * 32^8 = 22 * 1,099,511,627,776.
    let words = [216172782113783840, 28, 0, 0, 0, 0, 24189255811072];
    same!(rt; *placed.words(), words);
    same!(rt; *Board::of(*placed.cells()).words(), words);
    let pawn = Piece {
        color: White,
        role: Role::Pawn,
    };
    let changed = placed
        .put(square("1b")?, None)
        .put(square("2d")?, Some(pawn));
    let words = [216172782113783808, 16, 0, 0, 0, 0, 24189255811072];
    same!(rt; *changed.words(), words);
    Ok(())
}

#[test]
fn a_piece_before_a_slider_is_pinned(rt: HostRuntime) -> Result<(), Fail> {
    let king = (Black, Role::King, "5e");
    for (role, name, between) in [
        (Role::Lance, "5a", "5c"),
        (Role::Rook, "5i", "5f"),
        (Role::Dragon, "9e", "7e"),
        (Role::Dragon, "1e", "2e"),
        (Role::Bishop, "9i", "8h"),
        (Role::Bishop, "9a", "6d"),
        (Role::Horse, "2b", "4d"),
        (Role::Horse, "1i", "2h"),
    ] {
        let slider = (White, role, name);
        let pinned = board(&[king, slider, (Black, Role::Gold, between)])?.pinned(Black);
        same!(rt; pinned, Some(squares_of(between)?), slider);
        same!(rt; board(&[king, slider])?.pinned(Black), None, slider);
    }
    let white = board(&[
        (White, Role::King, "5a"),
        (White, Role::Pawn, "5d"),
        (Black, Role::Lance, "5i"),
    ])?;
    same!(rt; white.pinned(White), Some(squares_of("5d")?));
    Ok(())
}

#[test]
fn a_check_is_answered_on_its_way(rt: HostRuntime) -> Result<(), Fail> {
    let king = (Black, Role::King, "5e");
    for (role, name, answers) in [
        (Role::Rook, "5a", "5a 5b 5c 5d"),
        (Role::Horse, "9i", "9i 8h 7g 6f"),
        (Role::Lance, "5b", "5b 5c 5d"),
        (Role::Knight, "4c", "4c"),
        (Role::Gold, "5d", "5d"),
    ] {
        let board = board(&[king, (White, role, name)])?;
        same!(rt; board.evasion_squares(Black), squares_of(answers)?, role);
    }
    let shut = [king, (White, Role::Rook, "5a"), (Black, Role::Pawn, "5c")];
    holds!(rt; board(&shut)?.evasion_squares(Black).is_empty());
    Ok(())
}

#[test]
fn nothing_else_is_pinned(rt: HostRuntime) -> Result<(), Fail> {
    let king = (Black, Role::King, "5e");
    let rook = (White, Role::Rook, "5a");
    let lance = (White, Role::Lance, "5g");
    let pawn = (Black, Role::Pawn, "5c");
    let gold = (Black, Role::Gold, "5d");
    let silver = (White, Role::Silver, "5b");
    let rows: [(&[Placed<'_>], &str); 7] = [
        // A lance behind, and one between.
        (&[king, lance], ""),
        (&[king, lance, (White, Role::Dragon, "5i")], ""),
        // Two pieces between, of either side, and one of the other side.
        (&[king, rook, pawn, gold], ""),
        (&[king, rook, silver], ""),
        (&[king, rook, silver, gold], ""),
        // No slider.
        (&[king, gold, pawn], ""),
        // A piece behind the slider.
        (
            &[
                king,
                (White, Role::Rook, "5c"),
                gold,
                (Black, Role::Gold, "5a"),
            ],
            "5d",
        ),
    ];
    for (at, (pieces, pinned)) in rows.iter().enumerate() {
        same!(rt; board(pieces)?.pinned(Black), Some(squares_of(pinned)?), at);
    }
    Ok(())
}
