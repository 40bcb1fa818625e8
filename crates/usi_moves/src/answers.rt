//! What `mate` answers to lines with a position each.

ghost use Rattle.std.specs.Prelude.{◌≤◌, ◌++◌, codes, decimal};
ghost use Rattle.mate_search.specs.declared.by_checks.TheConstants.{MOVES_MAX};
ghost use Rattle.usi_lines.specs.Seen.{line_of};
ghost use Rattle.usi_moves.specs.Asked.{refusal_words};
ghost use Rattle.usi_moves.specs.Listings.{Appends};
ghost use Rattle.usi_moves.specs.MateAnswers.{AppendsAnswer, bad_line_text, number_words, too_long_words};

use crate::asked::{position_of_text, write_reason};
use crate::solutions::{MateOptions, write_mate};
use itoa::Buffer;
use mate_search::{MateProgress, Memo};
use std::alloc::{AllocError, Allocator};
use usi_lines::Line;
use usi_texts::Refusal;

/// Appends which line is bad.
#[tactic(auto, using(crate::proofs::Appending::after_three))]
fn write_number<A: Allocator>(out: &mut Vec<u8, A>, number: u64) -> Result<(), AllocError>
    ensures { Appends result out.old out.new (number_words number) }
{
    let mut buffer = Buffer::new();
    out.extend_from_slice(b"error: line ")?;
    out.extend_from_slice(buffer.format(number).as_bytes())?;
    out.extend_from_slice(b": ")?;
    Ok(())
}

/// Appends that a line has no position.
#[tactic(auto, using(crate::proofs::Appending::after_three))]
fn write_refused<A: Allocator>(
    out: &mut Vec<u8, A>,
    number: u64,
    refusal: Refusal,
) -> Result<(), AllocError>
    ensures { Appends result out.old out.new (bad_line_text number (refusal_words refusal)) }
{
    write_number(out, number)?;
    write_reason(out, refusal)?;
    out.extend_from_slice(b"\n")?;
    Ok(())
}

/// Appends that a line is too long.
#[tactic(auto, using(crate::proofs::Appending::after_three))]
fn write_too_long<A: Allocator>(out: &mut Vec<u8, A>, number: u64) -> Result<(), AllocError>
    ensures { Appends result out.old out.new (bad_line_text number too_long_words) }
{
    write_number(out, number)?;
    out.extend_from_slice(b"it is too long, and nothing behind it is read")?;
    out.extend_from_slice(b"\n")?;
    Ok(())
}

/// Appends the answer to the line of this number: what `write_mate` appends for its position, or why it
/// has none, and nothing if it is empty. Tells whether it is bad. On an error a front of the answer was appended.
pub fn write_answer<A: Allocator + Copy, P: MateProgress>(
    alloc: A,
    out: &mut Vec<u8, A>,
    number: u64,
    line: Line<'_>,
    options: MateOptions,
    progress: &mut P,
    memo: &mut Memo<A>,
) -> Result<bool, AllocError>
    requires least { 1 ≤ options.most }
    requires most { options.most ≤ MOVES_MAX }
    ensures { AppendsAnswer result out.old out.new options number (line_of line.entry) }
{
    let Line::Text(text) = line else {
        write_too_long(out, number)?;
        return Ok(true);
    };
    if text.is_empty() {
        return Ok(false);
    }
    match position_of_text(text) {
        Ok(p) => {
            write_mate(alloc, out, &p, options, progress, memo)?;
            Ok(false)
        }
        Err(refusal) => {
            write_refused(out, number, refusal)?;
            Ok(true)
        }
    }
}
