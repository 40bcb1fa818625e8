//! Moves of one sort that are passed in a row.

use crate::boards::{position, read, square, squares_of};
use shogi_core::{Move, Position, Squares};
use shogi_moves::{BoardSweep, DropSweep, check_info_of};
use shogi_replies::{MoveFilter, ReplyInfo, escape_squares};
use std::test::Fail;
use test_support::holds;

/// The first move on the board of the kind that is not passed, of some pieces, where it may end on
/// some squares, with promotion or without it alone.
fn first_of(
    p: &Position,
    capture: bool,
    pieces: Squares,
    squares: Squares,
    promotes: bool,
) -> Option<Move> {
    let mut sweep = BoardSweep::new(&check_info_of(p).at(p), capture);
    let row = MoveFilter {
        pieces,
        squares,
        promotes,
    };
    let replies = ReplyInfo::of(p).at(p, escape_squares(p));
    replies.skip_moves(capture, &row, &mut sweep);
    sweep.next(p, capture)
}

/// The same of all pieces.
fn first_left(p: &Position, capture: bool, squares: Squares, promotes: bool) -> Option<Move> {
    first_of(p, capture, Squares::all(), squares, promotes)
}

/// Each of the 30 moves of the opening position takes nothing, promotes nothing and is answered.
#[test]
fn quiet_moves_of_the_opening_position(rt: HostRuntime) {
    holds!(rt; first_left(&Position::start(), false, Squares::all(), false).is_none());
}

/// The pawn on 6e has one move, and no line of the king goes there. The next to move is the pawn on
/// 7d, which may promote; no move of it, or of the king, gives check.
#[test]
fn quiet_moves_and_a_promotion(rt: HostRuntime) -> Result<(), Fail> {
    let p = position("8k/9/9/2P6/3P2pp1/9/9/K8/9 b -")?;
    holds!(rt; first_left(&p, false, Squares::all(), false) == Some(read("7d7c")?));
    holds!(rt; first_left(&p, false, Squares::all(), true).is_none());
    holds!(rt; first_left(&p, false, Squares::none(), true) == Some(read("6e6d")?));
    Ok(())
}

/// The one capture, of 5d, gives no check, and leaves the other side two pawns with a move each.
#[test]
fn a_capture(rt: HostRuntime) -> Result<(), Fail> {
    let p = position("2k6/9/9/4p4/4P4/6p1p/9/9/K8 b -")?;
    let taken = squares_of("5d")?;
    holds!(rt; first_left(&p, true, Squares::all(), false).is_none());
    holds!(rt; first_left(&p, true, taken, false).is_none());
    holds!(rt; first_left(&p, true, Squares::all().without(taken), false) == Some(read("5e5d")?));
    Ok(())
}

/// The same with a promotion.
#[test]
fn a_capture_with_promotion(rt: HostRuntime) -> Result<(), Fail> {
    let p = position("2k6/9/4p4/4P4/9/6p1p/9/9/K8 b -")?;
    holds!(rt; first_left(&p, true, Squares::all(), false) == Some(read("5d5c")?));
    holds!(rt; first_left(&p, true, Squares::all(), true).is_none());
    Ok(())
}

/// The first move that takes nothing, does not promote and is not passed.
fn first_quiet(sfen: &str) -> Result<Option<Move>, Fail> {
    Ok(first_left(&position(sfen)?, false, Squares::all(), false))
}

/// The horse goes to 1a first, on a rank with the king. Where the king is hemmed in by its own
/// pieces, its only free square is on the file that the horse leaves, so nothing shows that
/// move. Where it is free, it is off the horse's lines on 4b and 6b, and a way out is left by the
/// checks on 3c and 5d as well; no move of the own king gives check.
#[test]
fn quiet_moves_of_a_slider(rt: HostRuntime) -> Result<(), Fail> {
    let hemmed_in = "3lkl3/3p1p3/2p4pp/9/4+B4/9/9/9/K8 b -";
    holds!(rt; first_quiet(hemmed_in)? == Some(read("5e1a")?));
    let free = "4k4/9/2p4pp/9/4+B4/9/9/9/K8 b -";
    holds!(rt; first_quiet(free)?.is_none());
    Ok(())
}

/// The gold gives check on 4b alone, and leaves the king two ways there. Where its square is left out,
/// none of its moves is passed, of which that to 2b is the first.
#[test]
fn quiet_moves_of_some_pieces(rt: HostRuntime) -> Result<(), Fail> {
    let p = position("4k4/9/6G2/9/6pp1/9/9/9/K8 b -")?;
    let others = Squares::all().except(square("3c")?);
    holds!(rt; first_left(&p, false, Squares::all(), false).is_none());
    holds!(rt; first_of(&p, false, others, Squares::all(), false) == Some(read("3c2b")?));
    Ok(())
}

/// The first drop of a pawn that is not passed.
fn first_drop(sfen: &str) -> Result<Option<Move>, Fail> {
    let p = position(sfen)?;
    let mut sweep = DropSweep::new(&check_info_of(&p).at(&p));
    let replies = ReplyInfo::of(&p).at(&p, escape_squares(&p));
    replies.skip_drops(Squares::all(), &mut sweep);
    Ok(sweep.next(&p))
}

/// On 5b a pawn gives check to the king on 5a, and on no other square. A king that is hemmed in can
/// take it, which nothing shows; one that is free may step aside.
#[test]
fn drops_of_a_pawn(rt: HostRuntime) -> Result<(), Fail> {
    let hemmed_in = "3lkl3/3p1p3/9/9/6pp1/9/9/9/K8 b P";
    holds!(rt; first_drop(hemmed_in)? == Some(read("P*5b")?));
    let free = "4k4/9/9/9/6pp1/9/9/9/K8 b P";
    holds!(rt; first_drop(free)?.is_none());
    Ok(())
}
