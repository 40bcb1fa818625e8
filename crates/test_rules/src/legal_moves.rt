//! Positions and counts that are known from elsewhere.

ghost use Rattle.std.specs.Prelude.{◌≡◌, IfOk, true};
ghost use Rattle.shogi_moves.specs.Legal.{is_legal};

use crate::boards::{position, read, square, squares_of};
use shogi_core::Color::{Black, White};
use shogi_core::{Kind, Move, Position, Squares};
use shogi_moves::{
    BoardSweep, DropSweep, check_info_of, has_legal, in_check, is_attacked, is_legal, next_legal,
    perft, play, play_in_place, takers,
};
use shogi_replies::{KnownReplies, ReplyInfo, escape_squares, king_takes};
use std::test::Fail;
use test_support::{holds, same};

/// Published numbers of sequences of moves.
#[test]
fn counts(rt: HostRuntime) -> Result<(), Fail> {
    let start = Position::start();
    let most = position("R8/2K1S1SSk/4B4/9/9/9/9/9/1L1L1L3 b RBGSNLP3g3n17p")?;
    let middle = position("l6nl/5+P1gk/2np1S3/p1p4Pp/3P2Sp1/1PPb2P1P/P5GS1/R8/LN4bKL w RGgsn5p")?;
    for (p, depth, count) in [
        (start, 0, 1),
        (start, 1, 30),
        (start, 2, 900),
        (start, 3, 25470),
        (most, 1, 593),
        (middle, 1, 207),
        (middle, 2, 28684),
    ] {
        same!(rt; perft(&p, depth), Some(count), depth);
    }
    Ok(())
}

/// JSA playing rules, check: of a side with a pinned piece, in a single and in a double check, without a
/// king, and without a move where it is not in check.
#[test]
fn checks(rt: HostRuntime) -> Result<(), Fail> {
    for (sfen, check, legal) in [
        ("4r3k/9/9/9/9/9/9/4G4/4K4 b -", false, true),
        ("4r3k/9/9/9/9/9/9/9/4K4 b P", true, true),
        ("4r3k/9/9/9/8b/9/9/9/4KG3 b P", true, true),
        ("4r3k/9/9/9/9/9/9/9/4G4 b -", false, true),
        ("8k/6G2/7G1/9/9/9/9/9/9 w -", false, false),
    ] {
        let p = position(sfen)?;
        same!(rt; (in_check(&p), has_legal(&p)), (check, legal), sfen);
    }
    let single = position("4r3k/9/9/9/9/9/9/9/4K4 b P")?;
    let (king, beside) = (square("5i")?, square("4i")?);
    holds!(rt; is_attacked(&single, king, White) && !is_attacked(&single, beside, White));
    holds!(rt; !is_attacked(&single, king, Black));
    Ok(())
}

/// The first moves by code, and a captured promoted pawn. A pawn goes one square.
#[test]
fn steps(rt: HostRuntime) -> Result<(), Fail> {
    let start = Position::start();
    let first = next_legal(&start, None).ok_or("a move")?;
    same!(rt; first, read("1g1f")?);
    let second = next_legal(&start, Some(first)).ok_or("a second move")?;
    same!(rt; second, read("1i1h")?);
    let p = position("4k4/9/9/4+p4/4P4/9/9/9/4K4 b -")?;
    let after = play(&p, read("5e5d")?).ok_or("a legal capture")?;
    same!(rt; (after.hand(Black, Kind::Pawn), after.side()), (1, White));
    holds!(rt; play(&p, read("5e5c")?).is_none());
    let mut place = p;
    holds!(rt; !play_in_place(&mut place, read("5e5c")?) && place.is_same(&p));
    holds!(rt; play_in_place(&mut place, read("5e5d")?) && place.is_same(&after));
    Ok(())
}

/// The only capture of a position, its first other move and its first drop, and an opening without
/// captures and drops.
#[test]
fn captures(rt: HostRuntime) -> Result<(), Fail> {
    let p = position("4k4/9/9/4+p4/4P4/9/9/9/4K4 b P")?;
    let known = check_info_of(&p).at(&p);
    let mut captures = BoardSweep::new(&known, true);
    holds!(rt; captures.fill(&p, true));
    same!(rt; captures.next(&p, true), Some(read("5e5d")?));
    holds!(rt; !captures.fill(&p, true) && captures.next(&p, true).is_none());
    let mut quiets = BoardSweep::new(&known, false);
    same!(rt; quiets.next(&p, false), Some(read("5i4h")?));
    let mut drops = DropSweep::new(&known);
    holds!(rt; drops.fill(&p));
    same!(rt; drops.next(&p), Some(read("P*1b")?));
    let start = Position::start();
    let known = check_info_of(&start).at(&start);
    holds!(rt; BoardSweep::new(&known, true).next(&start, true).is_none());
    let mut quiets = BoardSweep::new(&known, false);
    same!(rt; quiets.next(&start, false), Some(read("1g1f")?));
    holds!(rt; DropSweep::new(&known).next(&start).is_none());
    Ok(())
}

/// A position and a legal move.
fn legal(sfen: &str, text: &str) -> Result<(Position, Move), Fail>
    ensures { IfOk result (λ pair. is_legal pair.0 pair.1 ≡ true) }
{
    let (p, m) = (position(sfen)?, read(text)?);
    if !is_legal(&p, m) {
        return Err("a legal move".into());
    }
    Ok((p, m))
}

/// What is known of the replies to moves of the position.
fn known_replies(p: &Position) -> KnownReplies<'_>
    ensures { result.position.now ≡ p.now }
{
    ReplyInfo::of(p).at(p, escape_squares(p))
}

/// Whether it is decided without making the move that it leaves a reply.
fn leaves_reply(sfen: &str, text: &str) -> Result<bool, Fail> {
    let (p, m) = legal(sfen, text)?;
    Ok(known_replies(&p).guarantees_reply(&m))
}

/// A silver leaves the file of the king of the other side, with nothing behind it that slides, with
/// a rook that then gives check, or with a bishop elsewhere.
#[test]
fn moves_off_a_line_of_a_king(rt: HostRuntime) -> Result<(), Fail> {
    for (sfen, text, guaranteed) in [
        ("4k4/9/7pp/9/4S4/9/9/9/K3G4 b -", "5e4d", true),
        ("4k4/9/7pp/9/4S4/9/9/9/K3R4 b -", "5e4d", false),
        ("4k4/9/2p4pp/9/B1P1S4/9/9/9/K8 b -", "5e4d", true),
        ("4k4/9/7pp/9/4S4/9/9/4P4/K3R4 b -", "5e4d", true),
        ("4k4/4p4/7pp/9/4S4/9/9/9/K3R4 b -", "5e4d", true),
        // The king elsewhere, and a lance behind.
        ("4k4/9/7pp/9/4S4/9/9/9/K3R4 b -", "9i8h", true),
        ("4k4/9/7pp/9/9/9/9/4S4/K3L4 b -", "5h4g", false),
    ] {
        same!(rt; leaves_reply(sfen, text)?, guaranteed, (sfen, text));
    }
    Ok(())
}

/// A horse on the king's file gives no check on squares off the king's lines, on one on its rank and
/// on one nearer by, and gives one on another. A rook behind it gives check by each move off the file.
#[test]
fn moves_of_a_slider_off_a_line_of_a_king(rt: HostRuntime) -> Result<(), Fail> {
    let horse = "4k4/9/2p4pp/9/4+B4/9/9/9/K8 b -";
    for (sfen, text, guaranteed) in [
        (horse, "5e4d", true),
        (horse, "5e2h", true),
        (horse, "5e1a", true),
        (horse, "5e5d", true),
        (horse, "5e3c", false),
        ("4k4/9/2p4pp/9/4+B4/9/9/9/K3R4 b -", "5e4d", false),
    ] {
        same!(rt; leaves_reply(sfen, text)?, guaranteed, (sfen, text));
    }
    Ok(())
}

/// A pawn with one step shows a reply alone only with another one: the move may end before it, or
/// take it. Two that step to one square are none.
#[test]
fn moves_of_spare_pieces(rt: HostRuntime) -> Result<(), Fail> {
    for (sfen, text, guaranteed) in [
        ("4k4/9/7pp/9/7R1/9/9/9/K8 b -", "2e2d", true),
        ("4k4/9/7pp/9/7R1/9/9/9/K8 b -", "2e2c", true),
        ("4k4/9/7p1/9/7R1/9/9/9/K8 b -", "2e2d", false),
        ("4k4/9/7p1/9/7R1/9/9/9/K8 b -", "2e2c", false),
        ("4k4/9/7s1/9/7R1/9/9/9/K8 b -", "2e2d", true),
        ("4k4/9/7s1/9/7R1/9/9/9/K8 b -", "2e2c", false),
        ("4k4/8n/7p1/9/7R1/9/9/9/K8 b -", "2e2d", false),
    ] {
        same!(rt; leaves_reply(sfen, text)?, guaranteed, (sfen, text));
    }
    Ok(())
}

/// Whether it is decided without making the move that it leaves the other king a way out.
fn leaves_way_out(sfen: &str, text: &str) -> Result<bool, Fail> {
    let (p, m) = legal(sfen, text)?;
    Ok(known_replies(&p).leaves_escape(&m))
}

/// A rook gives check from afar and a silver from below, and the king may step aside. A gold
/// reaches all squares next to it. Another one opens the rank below to a rook, and a knight attacks
/// the square that is left. A bishop beside the king lets it step past, and a rook reaches the only
/// square, behind it. Where the king can only take, nothing is said; and without a king there is no
/// such square.
#[test]
fn ways_out_of_a_check(rt: HostRuntime) -> Result<(), Fail> {
    for (sfen, text, left) in [
        ("4k4/9/9/9/9/9/9/9/K7R b -", "1i1a", true),
        ("4k4/9/9/9/9/9/9/9/K8 b S", "S*5b", true),
        ("4k4/9/4P4/9/9/9/9/9/K8 b G", "G*5b", false),
        ("4k4/R1G6/6N2/9/9/9/9/9/K8 b -", "7b6a", false),
        ("4kg3/9/9/9/9/9/9/9/K8 b B", "B*6b", true),
        ("3s1s3/3gkg3/3g1g3/9/9/9/9/9/K8 b R", "R*5e", false),
        ("3lkl3/3p1p3/9/9/9/9/9/9/K8 b -", "9i8i", true),
        ("3lkl3/3pBp3/9/9/9/9/9/9/K8 b -", "9i8i", false),
        ("9/9/9/9/9/9/9/9/K7R b -", "1i1a", false),
    ] {
        same!(rt; leaves_way_out(sfen, text)?, left, sfen);
    }
    Ok(())
}

/// Whether it is decided without making the move that the other king may go on a line with the
/// square that is left, or take what is dropped.
fn leaves_way_on_line(sfen: &str, text: &str) -> Result<bool, Fail> {
    let (p, m) = legal(sfen, text)?;
    Ok(known_replies(&p).leaves_king_move(&m))
}

/// A knight gives check, and the only square that is left to the king is on the file that it
/// leaves; a rook behind it then attacks that. A gold that is dropped before the king is taken,
/// unless a pawn protects it.
#[test]
fn ways_out_on_lines_and_of_drops(rt: HostRuntime) -> Result<(), Fail> {
    for (sfen, text, left) in [
        ("3lkl3/3p1p3/9/9/4N4/9/9/9/K8 b -", "5e4c", true),
        ("3lkl3/3p1p3/9/9/4N4/9/9/9/K3R4 b -", "5e4c", false),
        ("4k4/9/9/9/9/9/9/9/K8 b G", "G*5b", true),
        ("4k4/9/4P4/9/9/9/9/9/K8 b G", "G*5b", false),
    ] {
        same!(rt; leaves_way_on_line(sfen, text)?, left, sfen);
    }
    Ok(())
}

/// Whether it is decided without making the move that the other king may take what moves.
fn lets_king_take(sfen: &str, text: &str) -> Result<bool, Fail> {
    let (p, m) = legal(sfen, text)?;
    Ok(king_takes(&p, &m))
}

/// A gold goes before the king and attacks all squares next to it, and the king may take it, be it
/// that it took a pawn there, or was dropped. A knight, or a rook behind it, protects the gold; and
/// the king does not reach a rook that gives check from afar.
#[test]
fn pieces_that_a_king_takes(rt: HostRuntime) -> Result<(), Fail> {
    for (sfen, text, taken) in [
        ("4k4/9/4G4/9/9/9/9/9/K8 b -", "5c5b", true),
        ("4k4/4p4/4G4/9/9/9/9/9/K8 b -", "5c5b", true),
        ("4k4/9/4G4/5N3/9/9/9/9/K8 b -", "5c5b", false),
        ("4k4/9/9/9/9/9/9/9/K8 b G", "G*5b", true),
        ("4k4/9/9/5N3/9/9/9/9/K8 b G", "G*5b", false),
        ("4k4/9/4G4/9/9/9/9/9/K3R4 b -", "5c5b", false),
        ("4k4/9/9/9/9/9/9/9/K7R b -", "1i1a", false),
    ] {
        same!(rt; lets_king_take(sfen, text)?, taken, sfen);
    }
    Ok(())
}

/// A gold below a pawn may take it, and a lance something on its way. The other gold and the king
/// are far from all that could be taken, and are left out.
#[test]
fn pieces_that_may_take(rt: HostRuntime) -> Result<(), Fail> {
    let p = position("4k4/4p4/4G4/9/9/4G4/9/8L/K8 b -")?;
    same!(rt; takers(&p, p.as_board().own(Black)), squares_of("5c 1h")?);
    holds!(rt; takers(&p, Squares::none()).is_empty());
    Ok(())
}
