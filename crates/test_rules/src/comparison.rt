//! The bodies by masks against the plain ones, on worked positions and on those of a played game.

ghost use Rattle.std.specs.Prelude.{true, false};
ghost use Rattle.shogi_moves.specs.Sweeps.{IsBoardSweep, IsDropSweep};

use crate::boards::{position, read};
use crate::plain;
use shogi_core::Color::{Black, White};
use shogi_core::{MOVE_CODE_COUNT, Move, Position, Square};
use shogi_moves::{
    BoardSweep, DropSweep, Walk, check_info_of, has_legal, in_check, is_legal, next_legal, perft,
    play,
};
use std::process::Abort;
use std::test::Fail;
use test_support::{games, holds, same};

// The next move of that sweep in which the move is to come.
fn next_matching(
    p: &Position,
    m: &Move,
    captures: &mut BoardSweep,
    quiets: &mut BoardSweep,
    drops: &mut DropSweep,
) -> Option<Move>
    requires captures { IsBoardSweep p.now true captures.old }
    requires quiets { IsBoardSweep p.now false quiets.old }
    requires drops { IsDropSweep p.now drops.old }
    ensures captures { IsBoardSweep p.now true captures.new }
    ensures quiets { IsBoardSweep p.now false quiets.new }
    ensures drops { IsDropSweep p.now drops.new }
{
    match m {
        Move::Drop { .. } => drops.next(p),
        Move::Board { .. } => {
            if plain::takes(p, m) {
                captures.next(p, true)
            } else {
                quiets.next(p, false)
            }
        }
    }
}

// Each of all moves is judged alike, and the walk over all moves and the sweeps over the captures,
// the other moves on the board and the drops give the legal ones of their sort in the order of
// codes.
fn assert_moves(rt: &impl Abort, p: &Position, at: usize) {
    let mut walk = Walk::new(p);
    let known = check_info_of(p).at(p);
    let mut captures = BoardSweep::new(&known, true);
    let mut quiets = BoardSweep::new(&known, false);
    let mut drops = DropSweep::new(&known);
    let mut passed = None;
    let mut count: u64 = 0;
    for code in 0..MOVE_CODE_COUNT {
        let m = Move::of_code(code).expect(rt, "a move");
        let legal = plain::is_legal(p, &m);
        same!(*rt; is_legal(p, m), legal, (at, code));
        if !legal {
            continue;
        }
        count = count.saturating_add(1);
        passed = next_legal(p, passed);
        let swept = next_matching(p, &m, &mut captures, &mut quiets, &mut drops);
        let wanted = Some(m);
        holds!(*rt; passed == wanted && walk.next() == wanted && swept == wanted, (at, code));
    }
    holds!(*rt; next_legal(p, passed).is_none() && walk.next().is_none(), at);
    holds!(*rt; captures.next(p, true).is_none() && quiets.next(p, false).is_none(), at);
    holds!(*rt; drops.next(p).is_none(), at);
    same!(*rt; has_legal(p), passed.is_some(), at);
    same!(*rt; perft(p, 1), Some(count), at);
}

// Each square is reached and attacked alike, and each side is in check alike.
fn assert_attacks(rt: &impl Abort, p: &Position, at: usize) {
    let board = p.board();
    for to in 0..81 {
        let to = Square::of_index(to);
        for from in 0..81 {
            let from = Square::of_index(from);
            holds!(*rt; p.reaches(from, to) == plain::reaches(&board, from, to), at);
        }
        for color in [Black, White] {
            let is_attacked = plain::is_attacked(&board, color, to);
            same!(*rt; board.is_attacked(color, to), is_attacked, at);
        }
    }
    for color in [Black, White] {
        same!(*rt; board.in_check(color), plain::in_check(&board, color), at);
    }
    same!(*rt; in_check(p), plain::in_check(&board, p.side()), at);
}

fn assert_same(rt: &impl Abort, p: &Position, at: usize) {
    assert_moves(rt, p, at);
    assert_attacks(rt, p, at);
}

const WORKED: [&str; 14] = [
    "4k4/9/4P4/9/9/9/9/9/9 b G",
    "4k4/4G4/4P4/9/9/9/9/9/9 w -",
    "7nk/9/7G1/9/9/9/9/9/9 b P",
    "8k/9/7G1/9/9/9/9/9/9 b P",
    "4k4/9/9/9/9/9/4P4/9/4K4 b P",
    "k8/4P4/9/9/9/9/9/9/4K4 b -",
    "8l/1l+R2P3/p2pBG1pp/kps1p4/Nn1P2G2/P1P1P2PP/1PS6/1KSG3+r1/LN2+p3L w Sbgn3p",
    "9/9/9/9/9/9/9/9/9 b G4P",
    "4k4/9/4G4/9/9/9/9/9/9 w G",
    "8k/6G2/7G1/9/9/9/9/9/9 w -",
    "4r3k/9/9/9/8b/9/9/9/4KG3 b P",
    "4r3k/9/9/9/9/9/9/4G4/4K4 b PL",
    "R8/2K1S1SSk/4B4/9/9/9/9/9/1L1L1L3 b RBGSNLP3g3n17p",
    "l6nl/5+P1gk/2np1S3/p1p4Pp/3P2Sp1/1PPb2P1P/P5GS1/R8/LN4bKL w RGgsn5p",
];

#[test]
fn worked_positions(rt: HostRuntime) -> Result<(), Fail> {
    for (at, sfen) in WORKED.iter().enumerate() {
        assert_same(&rt, &position(sfen)?, at);
    }
    let mut p = Position::start();
    for (at, text) in ["7g7f", "3c3d", "8h2b+", "3a2b"].iter().enumerate() {
        p = play(&p, read(text)?).ok_or("a legal move")?;
        assert_same(&rt, &p, at);
    }
    Ok(())
}

#[test]
fn played_positions(rt: HostRuntime) -> Result<(), Fail> {
    let mut p = Position::start();
    for (at, text) in games::first().iter().enumerate() {
        assert_same(&rt, &p, at);
        p = play(&p, read(text)?).ok_or("a legal move")?;
    }
    holds!(rt; !has_legal(&p), "the end of the game");
    assert_same(&rt, &p, 101);
    Ok(())
}
