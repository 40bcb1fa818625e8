//! Whether there is a mate by checks.

ghost use Rattle.std.specs.Prelude.{◌≡◌, ◌≢◌, ◌≤◌, ◌<◌};
ghost use Rattle.shogi_moves.specs.Escapes.{AreEscapes};
ghost use Rattle.mate_search.specs.Mates.{is_mated, mates};
ghost use Rattle.mate_search.specs.declared.by_checks.TheConstants.{MOVES_MAX};

use crate::memo::Memo;
use crate::stages::Stage;
use shogi_core::{Position, Squares};
use shogi_moves::{apply, has_legal, in_check};
use shogi_replies::{ReplyInfo, escape_squares};
use std::alloc::Allocator;

/// The most moves of the attacker that may be asked for: 15 plies (own choice). It bounds the stack.
pub const MOVES_MAX: u8 = 8;

/// Squares to which the king may go if no move of the attacker is to follow the next one. Otherwise none:
/// a way out is then no end.
pub fn last_escapes(p: &Position, after: u8) -> Squares
    ensures escapes { AreEscapes p.now result.bits }
    ensures if_last { after ≢ 0 → result.bits ≡ 0 }
{
    if after == 0 {
        escape_squares(p)
    } else {
        Squares::none()
    }
}

/// Whether the side to move is in check and, whatever it replies, mated by checks in at most n further
/// moves of the other side.
#[cycle(mates)]
pub fn is_mated<A: Allocator>(q: &Position, n: u8, memo: &mut Memo<A>) -> bool
    requires { n ≤ MOVES_MAX }
    ensures { result ≡ is_mated q.now n }
{
    if !in_check(q) {
        return false;
    }
    if n == 0 {
        return !has_legal(q);
    }
    let mut stage = Stage::first(q);
    'replies: while let Some(m) = stage.next(q) {
        let next = apply(q, m);
        if !mates(&next, n, memo) {
            return false;
        }
    }
    true
}

/// Whether one of the moves that give check mates with at most n - 1 moves after it.
#[cycle(mates)]
fn has_key<A: Allocator>(p: &Position, n: u8, memo: &mut Memo<A>) -> bool
    requires least { 1 ≤ n }
    requires most { n ≤ MOVES_MAX }
    ensures { result ≡ mates p.now n }
{
    let replies = ReplyInfo::of(p).at(p, last_escapes(p, n - 1));
    let mut stage = Stage::first(p);
    'moves: loop {
        stage.skip_unmating(&replies);
        let Some(m) = stage.next(p) else {
            return false;
        };
        let next = apply(p, m);
        if is_mated(&next, n - 1, memo) {
            return true;
        }
    }
}

/// Whether the side to move mates by checks in at most n moves of its own. Each level takes three calls
/// and some 5 KB of stack.
#[cycle(mates)]
pub fn mates<A: Allocator>(p: &Position, n: u8, memo: &mut Memo<A>) -> bool
    requires { n ≤ MOVES_MAX }
    ensures { result ≡ mates p.now n }
{
    if n == 0 {
        return false;
    }
    // A last move is found about as fast as an entry.
    if n == 1 {
        return has_key(p, n, memo);
    }
    let known = memo.known(p);
    if let Some(answer) = known.answer(n) {
        return answer;
    }
    let answer = has_key(p, n, memo);
    memo.note(known.with(n, answer));
    answer
}
