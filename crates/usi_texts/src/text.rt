//! The lines that a session writes. Each call appends to `out`; `AllocError` comes if memory runs
//! out, and may leave part of the text appended.

ghost use Rattle.std.specs.Prelude.{◌++◌};
ghost use Rattle.usi_texts.specs.Texts.{Writes, usi_reply, mate_not_implemented_reply, bad_position_line, illegal_move_line, size_text, score_text, moves_text, head_text, pv_text, info_with, info_text, numbered_info_text, bestmove_line};

use crate::options::write_options;
use crate::parts::write_parts;
use crate::setup::Setup;
use itoa::Buffer;
use minimax::MATE;
use shogi_core::Move;
use shogi_sfen::write_move;
use std::alloc::{AllocError, Allocator};

/// The least absolute value of a mate score.
const MATE_MIN: u32 = MATE as u32;

/// Appends the answer to `usi`: the program's name, its options under the setup, and `usiok` (USI,
/// usi).
pub fn write_usi<A: Allocator>(out: &mut Vec<u8, A>, setup: &Setup) -> Result<(), AllocError>
    ensures { Writes result out.old out.new (usi_reply setup.now) }
{
    out.extend_from_slice(b"id name Shared Shogi Host\nid author Shared Shogi Host Team\n")?;
    write_options(out, setup)?;
    out.extend_from_slice(b"usiok\n")?;
    Ok(())
}

/// Appends the answer to `go mate`: there is no mate solver (USI, checkmate).
pub fn write_mate_not_implemented<A: Allocator>(out: &mut Vec<u8, A>) -> Result<(), AllocError>
    ensures { Writes result out.old out.new mate_not_implemented_reply }
{
    out.extend_from_slice(b"checkmate notimplemented\n")
}

/// Appends that a `position` line sets no position: 0 for its form, 1 to 8 for the first fault of
/// its SFEN.
pub fn write_bad_position<A: Allocator>(out: &mut Vec<u8, A>, fault: u8) -> Result<(), AllocError>
    ensures { Writes result out.old out.new (bad_position_line fault) }
{
    let mut buffer = Buffer::new();
    let digits = buffer.format(fault).as_bytes();
    write_parts(out, &[b"info string bad position ", digits, b"\n"])
}

/// Appends that the word of this number after `moves`, from 1, is no legal move.
pub fn write_illegal_move<A: Allocator>(
    out: &mut Vec<u8, A>,
    number: usize,
) -> Result<(), AllocError>
    ensures { Writes result out.old out.new (illegal_move_line number) }
{
    let mut buffer = Buffer::new();
    let digits = buffer.format(number).as_bytes();
    write_parts(out, &[b"info string illegal move ", digits, b"\n"])
}

/// Appends a score after its sign: centipawns, or from `MATE_MIN` up the plies to mate, `depth`
/// less the excess of `size` over it.
fn write_size<A: Allocator>(
    out: &mut Vec<u8, A>,
    sign: &[u8],
    depth: u8,
    size: u32,
) -> Result<(), AllocError>
    ensures { Writes result out.old out.new (size_text sign.now depth size) }
{
    let mut buffer = Buffer::new();
    if size < MATE_MIN {
        let digits = buffer.format(size).as_bytes();
        return write_parts(out, &[b"cp ", sign, digits]);
    }
    let plies = u32::from(depth).saturating_sub(size - MATE_MIN);
    let digits = buffer.format(plies).as_bytes();
    write_parts(out, &[b"mate ", sign, digits])
}

/// Appends a score at a depth, with its sign (USI, info, score).
fn write_score<A: Allocator>(out: &mut Vec<u8, A>, depth: u8, value: i32) -> Result<(), AllocError>
    ensures { Writes result out.old out.new (score_text depth value) }
{
    let sign: &[u8] = if value < 0 { b"-" } else { b"" };
    write_size(out, sign, depth, value.unsigned_abs())
}

/// Appends each move after a space.
fn write_moves<A: Allocator>(out: &mut Vec<u8, A>, moves: &[Move]) -> Result<(), AllocError>
    ensures { Writes result out.old out.new (moves_text moves.now) }
{
    for m in moves {
        let text = write_move(*m);
        write_parts(out, &[b" ", text.as_slice()])?;
    }
    Ok(())
}

/// Appends the start of an info line: its depth, and a word with its digits.
fn write_head<A: Allocator>(
    out: &mut Vec<u8, A>,
    depth: u8,
    word: &[u8],
    number: &[u8],
) -> Result<(), AllocError>
    ensures { Writes result out.old out.new (head_text depth (word.now ++ number.now)) }
{
    let mut buffer = Buffer::new();
    let digits = buffer.format(depth).as_bytes();
    write_parts(out, &[b"info depth ", digits, word, number, b" score "])
}

/// Appends the pv of an info line, to its end.
fn write_pv<A: Allocator>(out: &mut Vec<u8, A>, moves: &[Move]) -> Result<(), AllocError>
    ensures { Writes result out.old out.new (pv_text moves.now) }
{
    out.extend_from_slice(b" pv")?;
    write_moves(out, moves)?;
    out.extend_from_slice(b"\n")?;
    Ok(())
}

/// Appends an info line with a score and a pv at a depth, after a word and digits that say which
/// pv.
#[tactic(auto, using(crate::proofs::Appends::after_three))]
fn write_info_for<A: Allocator>(
    out: &mut Vec<u8, A>,
    word: &[u8],
    number: &[u8],
    depth: u8,
    value: i32,
    moves: &[Move],
) -> Result<(), AllocError>
    ensures { Writes result out.old out.new (info_with word.now number.now depth value moves.now) }
{
    write_head(out, depth, word, number)?;
    write_score(out, depth, value)?;
    write_pv(out, moves)?;
    Ok(())
}

/// Appends an info line with a score and a pv at a depth (USI, info).
pub fn write_info<A: Allocator>(
    out: &mut Vec<u8, A>,
    depth: u8,
    value: i32,
    moves: &[Move],
) -> Result<(), AllocError>
    ensures { Writes result out.old out.new (info_text depth value moves.now) }
{
    write_info_for(out, b"", b"", depth, value, moves)
}

/// Appends an info line with a score at a depth and the pv of this number among several, from 1
/// (USI, info, multipv).
pub fn write_numbered_info<A: Allocator>(
    out: &mut Vec<u8, A>,
    depth: u8,
    number: u8,
    value: i32,
    moves: &[Move],
) -> Result<(), AllocError>
    ensures { Writes result out.old out.new (numbered_info_text depth number value moves.now) }
{
    let mut buffer = Buffer::new();
    let digits = buffer.format(number).as_bytes();
    write_info_for(out, b" multipv ", digits, depth, value, moves)
}

/// Appends the move to play and the reply to ponder on, or `resign` if no move is legal (USI,
/// bestmove).
pub fn write_bestmove<A: Allocator>(
    out: &mut Vec<u8, A>,
    best: &Option<Move>,
    ponder: &Option<Move>,
) -> Result<(), AllocError>
    ensures { Writes result out.old out.new (bestmove_line best.now ponder.now) }
{
    let Some(best) = best else {
        return out.extend_from_slice(b"bestmove resign\n");
    };
    let best = write_move(*best);
    let Some(ponder) = ponder else {
        return write_parts(out, &[b"bestmove ", best.as_slice(), b"\n"]);
    };
    let ponder = write_move(*ponder);
    write_parts(
        out,
        &[
            b"bestmove ",
            best.as_slice(),
            b" ponder ",
            ponder.as_slice(),
            b"\n",
        ],
    )
}
