//! Mates by checks of which the length, the keys and the line are known from elsewhere.

use crate::boards::{position, read};
use mate_search::{MOVES_MAX, Memo, append_keys, append_line, is_mated, shortest};
use shogi_core::Move;
use std::alloc::Global;
use std::test::Fail;
use test_support::holds;

/// Whether the moves are those of the text.
fn are(moves: &[Move], text: &str) -> Result<bool, Fail> {
    let mut number: usize = 0;
    for word in text.split_whitespace() {
        let m = read(word)?;
        if moves.get(number) != Some(&m) {
            return Ok(false);
        }
        number = number.saturating_add(1);
    }
    Ok(number == moves.len())
}

/// Whether the shortest mate of at most five moves takes so many, with these keys and this line.
fn is_solved(alloc: Global, sfen: &str, n: u8, keys: &str, line: &str) -> Result<bool, Fail> {
    let p = position(sfen)?;
    let n = n.min(MOVES_MAX);
    let mut memo = Memo::new(alloc);
    let mut found = Vec::new(alloc);
    append_keys(&mut found, &p, n.saturating_sub(1), &mut memo)?;
    let mut played = Vec::new(alloc);
    append_line(&mut played, &p, n, &mut memo)?;
    let least = shortest(&p, 5, &mut (), &mut memo);
    Ok(least == Some(n) && are(&found, keys)? && are(&played, line)?)
}

/// Whether there is no mate in so many moves or fewer.
fn has_none(alloc: Global, sfen: &str, most: u8) -> Result<bool, Fail> {
    let mut memo = Memo::new(alloc);
    Ok(shortest(&position(sfen)?, most.min(MOVES_MAX), &mut (), &mut memo).is_none())
}

/// A gold that a pawn protects, at the king's head.
#[test]
fn gold_at_the_head(rt: HostRuntime) -> Result<(), Fail> {
    holds!(rt; is_solved(rt.alloc(), "4k4/9/4P4/9/9/9/9/9/9 b G", 1, "G*5b", "G*5b")?);
    Ok(())
}

/// A dropped pawn may not mate; a lance may.
#[test]
fn a_pawn_and_a_lance(rt: HostRuntime) -> Result<(), Fail> {
    holds!(rt; has_none(rt.alloc(), "7nk/9/7G1/9/9/9/9/9/9 b P", 3)?);
    holds!(rt; is_solved(rt.alloc(), "7nk/9/7G1/9/9/9/9/9/9 b L", 1, "L*1b", "L*1b")?);
    Ok(())
}

/// A rook from afar has seven keys where nothing can come between; a pawn in the other side's hand makes it
/// three plies, of which the interposition is one.
#[test]
fn interpositions_count(rt: HostRuntime) -> Result<(), Fail> {
    let alone = "R*3a R*4a R*5a R*6a R*7a R*8a R*9a";
    holds!(rt; is_solved(rt.alloc(), "8k/9/7G1/9/9/9/9/9/9 b R", 1, alone, "R*3a")?);
    holds!(rt; is_solved(rt.alloc(), "8k/9/7G1/9/9/9/9/9/9 b Rp", 2, "R*1b", "R*1b 1a2a 1b2b+")?);
    Ok(())
}

/// The attacker's own king is in check, from which the mate would not save it.
#[test]
fn a_check_is_answered_first(rt: HostRuntime) -> Result<(), Fail> {
    holds!(rt; is_solved(rt.alloc(), "4k4/9/4P4/9/9/9/9/9/4K4 b G", 1, "G*5b", "G*5b")?);
    holds!(rt; has_none(rt.alloc(), "4k4/9/4P4/9/9/9/9/9/r3K4 b G", 2)?);
    Ok(())
}

/// Without a king there is no check.
#[test]
fn no_king(rt: HostRuntime) -> Result<(), Fail> {
    holds!(rt; has_none(rt.alloc(), "9/9/4P4/9/9/9/9/9/4K4 b G", 2)?);
    Ok(())
}

/// A side that has no move and is in no check is not mated: after 2b2c+ here, which `go` takes for a win.
#[test]
fn stalemate_is_no_mate(rt: HostRuntime) -> Result<(), Fail> {
    let mut memo = Memo::new(rt.alloc());
    holds!(rt; !is_mated(&position("8k/6G2/7G1/9/9/9/9/9/9 w -")?, 1, &mut memo));
    holds!(rt; is_mated(&position("8k/8G/7G1/9/9/9/9/9/9 w -")?, 0, &mut memo));
    holds!(rt; has_none(rt.alloc(), "8k/7R1/6S2/9/9/9/9/9/9 b -", 1)?);
    Ok(())
}

/// A bishop mates promoted or not: two keys.
#[test]
fn promoting_or_not(rt: HostRuntime) -> Result<(), Fail> {
    let sfen = "5S1kp/6+bn+p/5GbPG/9/9/9/9/9/9 b G2rg3s3n4l15p";
    holds!(rt; is_solved(rt.alloc(), sfen, 1, "4a3b 4a3b+ 4c3b", "4a3b")?);
    Ok(())
}

/// A silver is dropped, then a rook promotes: three plies, one key each.
#[test]
fn three_plies(rt: HostRuntime) -> Result<(), Fail> {
    let sfen = "9/7RR/8l/8k/9/7l1/9/9/9 b S2b4g3s4n2l18p";
    holds!(rt; is_solved(rt.alloc(), sfen, 2, "S*2e", "S*2e 1d1e 2b2d+")?);
    Ok(())
}

/// Five plies. In the second problem a move that gives no check, 2a4c+, mates as quickly, and is no key.
#[test]
fn five_plies(rt: HostRuntime) -> Result<(), Fail> {
    let sfen = "4sb1p1/4+pk1S1/9/9/6S2/9/9/9/9 b BG2r3gs4n4l16p";
    holds!(rt; is_solved(rt.alloc(), sfen, 3, "B*3a", "B*3a 4b4c G*4d 4c3b 4d3c")?);
    let quiet = "3Gpk1B1/9/9/5G3/9/9/9/9/9 b GNL2rbg4s3n3l17p";
    holds!(rt; is_solved(rt.alloc(), quiet, 3, "G*4b", "G*4b 4a4b 4d4c 4b3a 2a3b+")?);
    holds!(rt; has_none(rt.alloc(), quiet, 2)?);
    Ok(())
}

/// None in five plies, in the opening position and where a piece is given.
#[test]
fn no_mate(rt: HostRuntime) -> Result<(), Fail> {
    holds!(rt; has_none(rt.alloc(), "lnsgkgsnl/1r5b1/ppppppppp/9/9/9/PPPPPPPPP/1B5R1/LNSGKGSNL b -", 3)?);
    Ok(())
}

/// A knight opens the file of a rook and gives check as well, on two squares: neither a move between nor
/// the capture of the knight answers both checks.
#[test]
fn double_check(rt: HostRuntime) -> Result<(), Fail> {
    let sfen = "3gkg3/9/2S3S2/4N4/9/9/9/4R4/9 b -";
    holds!(rt; is_solved(rt.alloc(), sfen, 1, "5d4b+ 5d6b+", "5d4b+")?);
    Ok(())
}

/// A gold steps aside, and the rook behind it gives check; or it steps in front of the king, which the
/// rook then keeps from taking it.
#[test]
fn discovered_check(rt: HostRuntime) -> Result<(), Fail> {
    let sfen = "7lk/9/8G/9/9/9/9/8R/9 b -";
    holds!(rt; is_solved(rt.alloc(), sfen, 1, "1c1b 1c2c", "1c1b")?);
    Ok(())
}

/// A silver gives check backwards, and would give none promoted.
#[test]
fn only_unpromoted(rt: HostRuntime) -> Result<(), Fail> {
    let sfen = "6S2/8l/8k/8p/9/9/9/9/7L1 b -";
    holds!(rt; is_solved(rt.alloc(), sfen, 1, "3a2b", "3a2b")?);
    Ok(())
}

/// The attacker takes the knight that gives it check, and mates. A silver that stands before the king
/// may not take it.
#[test]
fn a_key_answers_a_check(rt: HostRuntime) -> Result<(), Fail> {
    let sfen = "4lnl2/5k3/5n3/4SG3/4K4/9/9/9/9 b -";
    holds!(rt; is_solved(rt.alloc(), sfen, 1, "4d4c", "4d4c")?);
    Ok(())
}

/// With all other pieces in its hand the mated side has nothing to put between a king and the gold
/// beside it.
#[test]
fn a_full_hand(rt: HostRuntime) -> Result<(), Fail> {
    let sfen = "4k4/9/4P4/9/9/9/9/9/9 b G2r2b3g4s4n4l17p";
    holds!(rt; is_solved(rt.alloc(), sfen, 1, "G*5b", "G*5b")?);
    Ok(())
}

/// A quiet promotion wins in three plies here; by checks there is nothing in nine.
#[test]
fn only_a_quiet_move_wins(rt: HostRuntime) -> Result<(), Fail> {
    holds!(rt; has_none(rt.alloc(), "4k4/9/9/4P4/9/9/9/9/9 b G", 5)?);
    Ok(())
}

/// A pawn may be dropped to give check where it does not mate: three plies, and five.
#[test]
fn a_pawn_gives_check(rt: HostRuntime) -> Result<(), Fail> {
    let three = "7k1/6R2/6gB1/3np1+P2/9/9/9/9/9 b P";
    holds!(rt; is_solved(rt.alloc(), three, 2, "P*2b", "P*2b 2a1a 3b3a+")?);
    let five = "3p2k2/3+P5/6Gp1/3g5/7R1/9/9/9/9 b Pg";
    holds!(rt; is_solved(rt.alloc(), five, 3, "P*3b", "P*3b 3a2a 2e2c 2a1a 2c2b+")?);
    Ok(())
}

/// Seven plies in a position of a game.
#[test]
fn seven_plies(rt: HostRuntime) -> Result<(), Fail> {
    let sfen = "2+N2B1nl/3S1+Sgg1/p2+B1pk2/1p2p1ppp/P1Pp5/1PK1nRP2/L2P4P/5+l2+l/1GGsr4 b SN2P2p";
    let line = "4f4c 3b4c 4b4c 3c4c 6c5c 4c3c N*4e";
    holds!(rt; is_solved(rt.alloc(), sfen, 4, "4f4c 4f4c+", line)?);
    holds!(rt; has_none(rt.alloc(), sfen, 3)?);
    Ok(())
}

/// Nine plies, by White.
#[test]
fn nine_plies(rt: HostRuntime) -> Result<(), Fail> {
    let p = position(
        "1+P1g3nl/5gk2/1S+L6/p2+r3pp/1R2Ppp2/P2+b3PP/6P2/2P2NK2/L2+p1P1NL w GSNbg2s4p",
    )?;
    let mut memo = Memo::new(rt.alloc());
    holds!(rt; shortest(&p, 5, &mut (), &mut memo) == Some(5));
    let mut played = Vec::new(rt.alloc());
    append_line(&mut played, &p, 5, &mut memo)?;
    let line = "6f4h 3h4h S*4g 4h4g B*5f 4g4h 6d6h 4h3i 5f3h+";
    holds!(rt; are(&played, line)?);
    Ok(())
}

/// The rook is dropped beside the king, and the pawns in the other hand come to nothing.
#[test]
fn one_interposition_of_two(rt: HostRuntime) -> Result<(), Fail> {
    let sfen = "8k/9/7G1/9/9/9/9/9/9 b R2p";
    holds!(rt; is_solved(rt.alloc(), sfen, 2, "R*1b", "R*1b 1a2a 1b2b+")?);
    Ok(())
}
