//! The shortest mate by checks, its keys and its main line.

ghost use Rattle.std.specs.Prelude.{◌≡◌, ◌<◌, ◌≤◌, ◌≤ℤ◌, ◌*◌, ◌-◌, ℕ, suc, true, IfSome};
ghost use Rattle.std.specs.Option.{option_map};
ghost use Rattle.shogi_core.specs.Codes.{code_of};
ghost use Rattle.shogi_moves.specs.Legal.{is_legal};
ghost use Rattle.mate_search.specs.Mates.{IsMainLine, IsShortestWithin, first_key, line, longest_defence, mates, shortest};
ghost use Rattle.mate_search.specs.declared.by_checks.TheConstants.{MOVES_MAX};
ghost use Rattle.minimax.specs.Minimax.{value};
ghost use Rattle.minimax.specs.declared.bounds.TheConstants.{MATE};
ghost use Rattle.shogi_eval.specs.declared.eval.Eval.{Eval};

use crate::by_checks::{MOVES_MAX, is_mated, last_escapes, mates};
use crate::memo::Memo;
use crate::stages::Stage;
use shogi_core::{Move, Position};
use shogi_moves::{Walk, advance};
use shogi_replies::ReplyInfo;
use std::alloc::Allocator;

/// Who is told while a mate is sought. What it does has no part in the answer.
pub trait MateProgress {
    /// This first move does not mate with at most n moves after it.
    fn failed(&mut self, m: &Move, n: u8);
}

/// Nobody is told.
impl MateProgress for () {
    fn failed(&mut self, _m: &Move, _n: u8) {}
}

/// Whether the side to move mates by checks in one move and at most n after it, which tells each first
/// move that fails.
fn mates_telling<P: MateProgress, A: Allocator>(
    p: &Position,
    n: u8,
    progress: &mut P,
    memo: &mut Memo<A>,
) -> bool
    requires { n < MOVES_MAX }
    ensures { result ≡ mates p.now (suc n) }
{
    let replies = ReplyInfo::of(p).at(p, last_escapes(p, n));
    let mut stage = Stage::first(p);
    'moves: loop {
        stage.skip_unmating(&replies);
        let Some(m) = stage.next(p) else {
            return false;
        };
        let mut next = *p;
        let played = &m;
        advance(&mut next, *played);
        if is_mated(&next, n, memo) {
            return true;
        }
        progress.failed(played, n);
    }
}

/// In how few moves the side to move mates by checks, if in at most so many. A mate in n moves is a win
/// under each evaluation at 2 n - 1 plies, and its main line has so many, the last of which mates. Told
/// is each first move that fails, for one move more at a time.
#[tactic(auto, using(crate::proofs::ValueLaws::mate_wins, crate::proofs::ValueLaws::mates_more))]
pub fn shortest<P: MateProgress, A: Allocator>(
    p: &Position,
    most: u8,
    progress: &mut P,
    memo: &mut Memo<A>,
) -> Option<u8>
    requires { most ≤ MOVES_MAX }
    ensures found { result ≡ shortest p.now most }
    ensures least { IsShortestWithin p.now most result }
    ensures lasting { IfSome result (λ n. (m : ℕ) → n ≤ m → mates p.now m ≡ true) }
    ensures main { IfSome result (λ n. IsMainLine p.now n (line p.now n)) }
    ensures wins { IfSome result (λ n. (e : Eval) → MATE ≤ℤ value p.now e (2 * n - 1)) }
{
    let mut n: u8 = 0;
    'numbers: while n < most {
        let found = mates_telling(p, n, progress, memo);
        n += 1;
        if found {
            return Some(n);
        }
    }
    None
}

/// The key of least code: the first move that mates with at most n moves after it.
pub fn first_key<A: Allocator>(p: &Position, n: u8, memo: &mut Memo<A>) -> Option<Move>
    requires { n ≤ MOVES_MAX }
    ensures key { option_map code_of result ≡ first_key p.now n }
    ensures legal { IfSome result (λ m. is_legal p.now m ≡ true) }
{
    let mut walk = Walk::new(p);
    'moves: while let Some(m) = walk.next() {
        let mut next = *p;
        let played = &m;
        advance(&mut next, *played);
        if is_mated(&next, n, memo) {
            return Some(*played);
        }
    }
    None
}

/// The reply of least code after which there is no mate in fewer than n further moves.
pub fn longest_defence<A: Allocator>(q: &Position, n: u8, memo: &mut Memo<A>) -> Option<Move>
    requires { n ≤ MOVES_MAX }
    ensures defence { option_map code_of result ≡ longest_defence q.now n }
    ensures legal { IfSome result (λ m. is_legal q.now m ≡ true) }
{
    let fewer = n.saturating_sub(1);
    let mut walk = Walk::new(q);
    'replies: while let Some(m) = walk.next() {
        let mut next = *q;
        let played = &m;
        advance(&mut next, *played);
        if !mates(&next, fewer, memo) {
            return Some(*played);
        }
    }
    None
}
