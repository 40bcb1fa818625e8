//! The keys and the main line of a mate by checks, as lists of moves.

ghost use Rattle.std.specs.Prelude.{◌≤◌};
ghost use Rattle.mate_search.specs.Mates.{AppendsMoves, keys, line};
ghost use Rattle.mate_search.specs.declared.by_checks.TheConstants.{MOVES_MAX};

use crate::by_checks::is_mated;
use crate::memo::Memo;
use crate::solution::{first_key, longest_defence};
use shogi_core::{Move, Position};
use shogi_moves::{Walk, advance};
use std::alloc::{AllocError, Allocator};

/// Appends the keys: the moves that mate with at most n moves after them, in the order of codes. On an
/// error a front of them was appended.
pub fn append_keys<A: Allocator>(
    out: &mut Vec<Move, A>,
    p: &Position,
    n: u8,
    memo: &mut Memo<A>,
) -> Result<(), AllocError>
    requires { n ≤ MOVES_MAX }
    ensures { AppendsMoves result out.old out.new (keys p.now n) }
{
    let mut walk = Walk::new(p);
    'moves: while let Some(m) = walk.next() {
        let mut next = *p;
        let played = &m;
        advance(&mut next, *played);
        if is_mated(&next, n, memo) {
            out.push(*played)?;
        }
    }
    Ok(())
}

/// Appends the main line of a mate in n moves: the first key, the reply that holds out longest, and so
/// on. On an error a front of it was appended.
pub fn append_line<A: Allocator>(
    out: &mut Vec<Move, A>,
    p: &Position,
    n: u8,
    memo: &mut Memo<A>,
) -> Result<(), AllocError>
    requires { n ≤ MOVES_MAX }
    ensures { AppendsMoves result out.old out.new (line p.now n) }
{
    let mut now = *p;
    let mut left = n;
    'moves: while left > 0 {
        left -= 1;
        let Some(key) = first_key(&now, left, memo) else {
            return Ok(());
        };
        let played = &key;
        advance(&mut now, *played);
        out.push(*played)?;
        let Some(reply) = longest_defence(&now, left, memo) else {
            return Ok(());
        };
        let answered = &reply;
        advance(&mut now, *answered);
        out.push(*answered)?;
    }
    Ok(())
}
