//! What `mate` prints of a position.

ghost use Rattle.std.specs.Prelude.{◌≡◌, ◌≤◌, ◌*◌, ◌-◌, IfOk, Some, cond, decimal, length, map, nat_lt};
ghost use Rattle.shogi_core.specs.Codes.{code_of};
ghost use Rattle.mate_search.specs.Mates.{keys, line};
ghost use Rattle.mate_search.specs.declared.by_checks.TheConstants.{MOVES_MAX};
ghost use Rattle.usi_moves.specs.Listings.{Appends};
ghost use Rattle.usi_moves.specs.Solutions.{AppendsLists, AppendsNode, found_text, key_lists, keys_line, keys_text, length_text, mate_text, none_text, verdict_text, word_of, move_words};

use itoa::Buffer;
use mate_search::{
    MateProgress, Memo, append_keys, append_line, first_key, longest_defence, shortest,
};
use shogi_core::{Move, Position};
use shogi_moves::advance;
use shogi_sfen::write_move;
use std::alloc::{AllocError, Allocator};

/// What is asked of a position.
#[derive(Clone, Copy, Debug, PartialEq, Eq)]
pub struct MateOptions {
    /// The most moves of the attacker.
    pub most: u8,
    /// Whether the main line is told.
    pub line: bool,
    /// Whether the keys along it are told.
    pub keys: bool,
}

/// Appends a move behind a blank.
#[tactic(auto, using(crate::proofs::Appending::after_two))]
fn write_word<A: Allocator>(out: &mut Vec<u8, A>, m: &Move) -> Result<(), AllocError>
    ensures { Appends result out.old out.new (word_of (code_of m.now)) }
{
    m.reveal_invariant();
    let text = write_move(*m);
    out.extend_from_slice(b" ")?;
    out.extend_from_slice(text.as_slice())?;
    Ok(())
}

/// Appends moves, each behind a blank.
fn write_words<A: Allocator>(out: &mut Vec<u8, A>, moves: &[Move]) -> Result<(), AllocError>
    ensures { Appends result out.old out.new (move_words (map code_of moves.now)) }
{
    for m in moves {
        write_word(out, m)?;
    }
    Ok(())
}

/// Appends the main line.
#[tactic(auto, using(crate::proofs::SolutionLaws::listed))]
fn write_line<A: Allocator + Copy>(
    alloc: A,
    out: &mut Vec<u8, A>,
    p: &Position,
    n: u8,
    memo: &mut Memo<A>,
) -> Result<(), AllocError>
    requires { n ≤ MOVES_MAX }
    ensures { Appends result out.old out.new (move_words (line p.now n)) }
{
    let mut moves = Vec::new(alloc);
    append_line(&mut moves, p, n, memo)?;
    write_words(out, moves.as_slice())
}

/// Appends the line of the keys.
#[tactic(auto, using(crate::proofs::Appending::after_three))]
fn write_keys_line<A: Allocator>(out: &mut Vec<u8, A>, moves: &[Move]) -> Result<(), AllocError>
    ensures { Appends result out.old out.new (keys_line (map code_of moves.now)) }
{
    out.extend_from_slice(b"keys")?;
    write_words(out, moves)?;
    out.extend_from_slice(b"\n")?;
    Ok(())
}

/// 1 for more than one move, and else 0.
fn one_if_several(moves: &[Move]) -> usize
    ensures value { result ≡ cond (nat_lt 1 (length moves.now)) 1 0 }
    ensures most { result ≤ 1 }
{
    if moves.len() > 1 { 1 } else { 0 }
}

/// Appends the line of the keys with n moves after them, and tells 1 for more than one key, and else 0.
#[tactic(auto, using(crate::proofs::SolutionLaws::listed, crate::proofs::SolutionLaws::several_listed))]
fn write_node<A: Allocator + Copy>(
    alloc: A,
    out: &mut Vec<u8, A>,
    p: &Position,
    n: u8,
    memo: &mut Memo<A>,
) -> Result<usize, AllocError>
    requires { n ≤ MOVES_MAX }
    ensures node { AppendsNode result out.old out.new (keys p.now n) }
    ensures most { IfOk result (λ several. several ≤ 1) }
{
    let mut moves = Vec::new(alloc);
    append_keys(&mut moves, p, n, memo)?;
    write_keys_line(out, moves.as_slice())?;
    Ok(one_if_several(moves.as_slice()))
}

/// Appends the keys of each of the attacker's positions on the main line, and tells how many of these
/// have more than one.
fn write_key_lists<A: Allocator + Copy>(
    alloc: A,
    out: &mut Vec<u8, A>,
    p: &Position,
    n: u8,
    memo: &mut Memo<A>,
) -> Result<usize, AllocError>
    requires { n ≤ MOVES_MAX }
    ensures { AppendsLists result out.old out.new (key_lists p.now n) }
{
    let mut several: usize = 0;
    let mut now = *p;
    let mut left = n;
    'moves: while left > 0 {
        left -= 1;
        several += write_node(alloc, out, &now, left, memo)?;
        let Some(key) = first_key(&now, left, memo) else {
            return Ok(several);
        };
        let played = &key;
        advance(&mut now, *played);
        let Some(reply) = longest_defence(&now, left, memo) else {
            return Ok(several);
        };
        let answered = &reply;
        advance(&mut now, *answered);
    }
    Ok(several)
}

/// Appends in how many positions there is more than one key.
fn write_verdict<A: Allocator>(out: &mut Vec<u8, A>, several: usize) -> Result<(), AllocError>
    ensures { Appends result out.old out.new (verdict_text several) }
{
    if several == 0 {
        return out.extend_from_slice(b"unique\n");
    }
    if several == 1 {
        return out.extend_from_slice(b"1 node with more than one key\n");
    }
    let mut buffer = Buffer::new();
    out.extend_from_slice(buffer.format(several).as_bytes())?;
    out.extend_from_slice(b" nodes with more than one key\n")
}

/// Appends the keys along the main line, and the verdict.
#[tactic(auto, using(crate::proofs::Appending::after_two))]
fn write_keys<A: Allocator + Copy>(
    alloc: A,
    out: &mut Vec<u8, A>,
    p: &Position,
    n: u8,
    memo: &mut Memo<A>,
) -> Result<(), AllocError>
    requires { n ≤ MOVES_MAX }
    ensures { Appends result out.old out.new (keys_text (key_lists p.now n)) }
{
    let several = write_key_lists(alloc, out, p, n, memo)?;
    write_verdict(out, several)
}

/// Appends the number of plies of n moves of the attacker.
fn write_plies<A: Allocator>(out: &mut Vec<u8, A>, n: u8) -> Result<(), AllocError>
    requires least { 1 ≤ n }
    requires most { n ≤ MOVES_MAX }
    ensures { Appends result out.old out.new (decimal (2 * n - 1)) }
{
    let plies = 2 * n - 1;
    let mut buffer = Buffer::new();
    out.extend_from_slice(buffer.format(plies).as_bytes())
}

/// Appends the length and, if it is asked for, the main line.
fn write_length<A: Allocator + Copy>(
    alloc: A,
    out: &mut Vec<u8, A>,
    p: &Position,
    n: u8,
    with_line: bool,
    memo: &mut Memo<A>,
) -> Result<(), AllocError>
    requires least { 1 ≤ n }
    requires most { n ≤ MOVES_MAX }
    ensures { Appends result out.old out.new (length_text p.now n with_line) }
{
    out.extend_from_slice(b"mate ")?;
    write_plies(out, n)?;
    if with_line {
        write_line(alloc, out, p, n, memo)?;
    }
    out.extend_from_slice(b"\n")
}

/// Appends that there is none.
#[tactic(auto, using(crate::proofs::Appending::after_three))]
fn write_none<A: Allocator>(out: &mut Vec<u8, A>, most: u8) -> Result<(), AllocError>
    requires least { 1 ≤ most }
    requires most { most ≤ MOVES_MAX }
    ensures { Appends result out.old out.new (none_text most) }
{
    out.extend_from_slice(b"no mate in ")?;
    write_plies(out, most)?;
    out.extend_from_slice(b" plies by checks\n")?;
    Ok(())
}

/// Appends a mate that was found.
fn write_found<A: Allocator + Copy>(
    alloc: A,
    out: &mut Vec<u8, A>,
    p: &Position,
    n: u8,
    options: MateOptions,
    memo: &mut Memo<A>,
) -> Result<(), AllocError>
    requires least { 1 ≤ n }
    requires most { n ≤ MOVES_MAX }
    ensures { Appends result out.old out.new (found_text p.now options (Some n)) }
{
    write_length(alloc, out, p, n, options.line, memo)?;
    if options.keys {
        write_keys(alloc, out, p, n, memo)?;
    }
    Ok(())
}

/// Appends the length of the shortest mate by checks of at most so many moves of the attacker, at least
/// 1, and what else is asked for: its main line, and the keys of each of the attacker's positions on it.
/// Or that there is no such mate. On an error a front of it was appended. Told is each first move that
/// fails. The memo may be one that served other positions.
pub fn write_mate<A: Allocator + Copy, P: MateProgress>(
    alloc: A,
    out: &mut Vec<u8, A>,
    p: &Position,
    options: MateOptions,
    progress: &mut P,
    memo: &mut Memo<A>,
) -> Result<(), AllocError>
    requires least { 1 ≤ options.most }
    requires most { options.most ≤ MOVES_MAX }
    ensures { Appends result out.old out.new (mate_text p.now options) }
{
    match shortest(p, options.most, progress, memo) {
        Some(n) => write_found(alloc, out, p, n, options, memo),
        None => write_none(out, options.most),
    }
}
