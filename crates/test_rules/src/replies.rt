//! Squares and pieces that show which replies there are, found by hand.

use crate::boards::{position, read, square, squares_of};
use shogi_core::Color::{Black, White};
use shogi_core::{Piece, Position, Role, Square};
use shogi_moves::{Destinations, Origin};
use shogi_replies::{
    ReplyInfo, attacks_of, king_line_mask, quiet_steps, some_escapes, unpinnable_pieces,
};
use std::test::Fail;
use test_support::{holds, same};

/// A rook on the second file leaves the king in the corner one of its three squares, one on the
/// ninth file leaves all three.
#[test]
fn some_escapes_of_a_king(rt: HostRuntime) -> Result<(), Fail> {
    let p = position("8k/9/9/9/9/9/9/9/K6R1 b -")?;
    same!(rt; some_escapes(&p), squares_of("1b")?);
    let p = position("8k/9/9/9/9/9/9/9/RK7 b -")?;
    same!(rt; some_escapes(&p), squares_of("1b 2a 2b")?);
    Ok(())
}

/// Of the five squares next to a king at the edge three are found; where one of its own pieces
/// stands it may not go.
#[test]
fn three_escapes_of_more(rt: HostRuntime) -> Result<(), Fail> {
    let next = squares_of("6a 4a 6b 5b 4b")?;
    let escapes = some_escapes(&position("4k4/9/9/9/9/9/9/9/4K4 b -")?);
    let mut found = 0u8;
    for square in 0..81usize {
        if escapes.has(Square::of_index(square)) {
            found = found.saturating_add(1);
        }
    }
    holds!(rt; found == 3 && escapes & next == escapes);
    let p = position("3gkg3/4p4/9/9/9/9/9/9/4K4 b -")?;
    same!(rt; some_escapes(&p), squares_of("6b 4b")?);
    Ok(())
}

/// A gold of the opening steps to three empty squares, and a pawn to one. A pawn that would come to stand on
/// the last rank has no such step, nor has an empty square.
#[test]
fn quiet_steps_of_pieces(rt: HostRuntime) -> Result<(), Fail> {
    let p = Position::start();
    same!(rt; quiet_steps(&p, square("4i")?), squares_of("3h 4h 5h")?);
    same!(rt; quiet_steps(&p, square("7g")?), squares_of("7f")?);
    holds!(rt; quiet_steps(&p, square("5e")?).is_empty());
    let p = position("k8/4P4/9/9/9/9/9/9/4K4 b -")?;
    holds!(rt; quiet_steps(&p, square("5b")?).is_empty());
    Ok(())
}

/// On lines with the king on 1a lie the first rank, the first file and the long diagonal, whatever
/// stands between; a side without a king has none.
#[test]
fn lines_of_a_king(rt: HostRuntime) -> Result<(), Fail> {
    let p = position("7pk/8p/9/9/4G4/9/9/9/9 b -")?;
    let lines = king_line_mask(&p, White);
    for file in 1..10u8 {
        for rank in 1..10u8 {
            let square = Square::new(file, rank).ok_or("a square")?;
            holds!(rt; lines.has(square) == (file == 1 || rank == 1 || file == rank));
        }
    }
    holds!(rt; king_line_mask(&p, Black).is_empty());
    Ok(())
}

/// Pawns far from the king are found. The gold that mates on 5b is not among them.
#[test]
fn distant_pieces(rt: HostRuntime) -> Result<(), Fail> {
    let p = position("4k4/9/3GP4/p7p/9/9/P7P/9/K8 b -")?;
    let replies = ReplyInfo::of(&p).at(&p, some_escapes(&p));
    let remote = replies.distant_pieces();
    let pawns = squares_of("9g 1g")?;
    holds!(rt; remote & pawns == pawns);
    holds!(rt; !remote.has(square("6c")?));
    Ok(())
}

/// The attacks of what stands on the square, a piece of White's, with Black to move.
fn attacks(p: &Position, name: &str) -> Result<Destinations, Fail> {
    let from = square(name)?;
    let free = unpinnable_pieces(p);
    if !free.has(from) {
        return Err("a piece that nothing pins".into());
    }
    Ok(attacks_of(p, from, p.as_board().targets(from)))
}

/// A knight of White's may promote on both its squares or stay what it is, a pawn on the last rank
/// can only promote, and a gold cannot.
#[test]
fn attacks_of_a_piece(rt: HostRuntime) -> Result<(), Fail> {
    let p = position("k8/9/9/7g1/4n4/9/9/6p2/9 b -")?;
    let knight = attacks(&p, "5e")?;
    let jumps = squares_of("6g 4g")?;
    holds!(rt; knight.non_promoting == jumps && knight.promoting == jumps);
    let pawn = attacks(&p, "3h")?;
    holds!(rt; pawn.non_promoting.is_empty() && pawn.promoting == squares_of("3i")?);
    let gold = attacks(&p, "2d")?;
    let steps = squares_of("2c 3d 1d 3e 2e 1e")?;
    holds!(rt; gold.non_promoting == steps && gold.promoting.is_empty());
    Ok(())
}

/// A move puts on its square what it moves, what that becomes by promotion, or what it drops.
#[test]
fn what_a_move_puts(rt: HostRuntime) -> Result<(), Fail> {
    let p = position("4k4/9/9/2P6/9/9/9/9/4K4 b G")?;
    let black = |role| Some(Piece { color: Black, role });
    for (text, role) in [
        ("7d7c", Role::Pawn),
        ("7d7c+", Role::PromotedPawn),
        ("G*5e", Role::Gold),
    ] {
        let m = read(text)?;
        let origin = Origin::of(&m);
        holds!(rt; origin.put(&p) == black(role), text);
        holds!(rt; origin.to(m.to()) == m, text);
    }
    Ok(())
}
