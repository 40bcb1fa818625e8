//! The runs that seek mates by checks.

ghost use Rattle.std.specs.Prelude.{◌≡◌, ◌≤◌, ◌||◌, IfErr, IfOk, OnErr, OnOk, option_map};
ghost use Rattle.mate_search.specs.declared.by_checks.TheConstants.{MOVES_MAX};
ghost use Rattle.usi_lines.specs.Seen.{line_of};
ghost use Rattle.usi_moves.specs.Asked.{position_of_text};
ghost use Rattle.usi_app.specs.Mates.{AreAnswers, IsInputAnswered, IsAnsweredInPart, IsChunkAnswered, IsChunkCutShort, IsLineAnswered, IsLineCutShort, IsSolution, IsSolving, answers_status};

use crate::counts::{NOT_ACCEPTED, OUT_OF_MEMORY, complain, refuse};
use crate::runs::{DONE, FAULT, print_out};
use crate::teller::Teller;
use mate_search::{MateProgress, Memo};
use std::alloc::Allocator;
use std::rt::Clock;
use usi_lines::{Line, LineBuffer};
use usi_moves::{MateOptions, position_of_text, write_answer, write_mate};
use usi_stdio::{FrontEnd, StdioFault, write_out};

/// The most bytes of one read (own choice).
const CHUNK_MAX: usize = 4_096;

/// How many lines were answered, and whether one of them was bad.
#[derive(Clone, Copy, Debug, PartialEq, Eq)]
struct Answered {
    lines: u64,
    bad: bool,
}

/// Whether one of them holds.
fn either(a: bool, b: bool) -> bool
    ensures { result ≡ (a || b) }
{
    a || b
}

/// Answers a line, and writes the answer. `OutOfMemory` comes also after 2^64 - 1 lines.
#[tactic(auto, using(crate::proofs::Exchanges::prefix_none))]
fn answer_line<A: Allocator + Copy, P: MateProgress, T: FrontEnd>(
    alloc: A,
    progress: &mut P,
    memo: &mut Memo<A>,
    front_end: &mut T,
    options: MateOptions,
    line: Line<'_>,
    answered: &mut Answered,
) -> Result<(), StdioFault>
    requires least { 1 ≤ options.most }
    requires most { options.most ≤ MOVES_MAX }
    ensures ok { OnOk result (IsLineAnswered options (line_of line.entry) answered.old answered.new
        (T.report front_end.old) (T.report front_end.new)) }
    ensures err { IfErr result (IsLineCutShort options (line_of line.entry) answered.old
        (T.report front_end.old) (T.report front_end.new)) }
{
    let Some(number) = answered.lines.checked_add(1) else {
        return Err(StdioFault::OutOfMemory);
    };
    let mut out = Vec::new(alloc);
    let Ok(bad) = write_answer(alloc, &mut out, number, line, options, progress, memo) else {
        return Err(StdioFault::OutOfMemory);
    };
    write_out(front_end, out.as_slice())?;
    answered.lines = number;
    answered.bad = either(answered.bad, bad);
    Ok(())
}

/// Takes a chunk, and answers the lines that end in it, each before the next.
#[tactic(auto, using(crate::proofs::Answering::part_none))]
fn answer_chunk<A: Allocator + Copy, P: MateProgress, T: FrontEnd>(
    alloc: A,
    progress: &mut P,
    memo: &mut Memo<A>,
    front_end: &mut T,
    options: MateOptions,
    lines: &mut LineBuffer<A>,
    chunk: &[u8],
    answered: &mut Answered,
) -> Result<(), StdioFault>
    requires least { 1 ≤ options.most }
    requires most { options.most ≤ MOVES_MAX }
    ensures ok { OnOk result (IsChunkAnswered options chunk.now answered.old lines.old
        answered.new lines.new (T.report front_end.old) (T.report front_end.new)) }
    ensures err { IfErr result (IsChunkCutShort options chunk.now answered.old lines.old
        (T.report front_end.old) (T.report front_end.new)) }
{
    if lines.feed(chunk).is_err() {
        return Err(StdioFault::OutOfMemory);
    }
    'lines: while let Some(line) = lines.next_line() {
        answer_line(alloc, progress, memo, front_end, options, line, answered)?;
        lines.drop_line();
    }
    Ok(())
}

/// Answers the lines of the input, each before more is read. Tells whether one of them is bad.
fn answer_all<A: Allocator + Copy, P: MateProgress, T: FrontEnd>(
    alloc: A,
    progress: &mut P,
    memo: &mut Memo<A>,
    front_end: &mut T,
    options: MateOptions,
) -> Result<bool, StdioFault>
    requires least { 1 ≤ options.most }
    requires most { options.most ≤ MOVES_MAX }
    ensures ok { IfOk result
        (IsInputAnswered options (T.report front_end.old) (T.report front_end.new)) }
    ensures err { OnErr result
        (IsAnsweredInPart options (T.report front_end.old) (T.report front_end.new)) }
{
    let mut lines = LineBuffer::new(alloc);
    let mut answered = Answered {
        lines: 0,
        bad: false,
    };
    let mut chunk = [0u8; CHUNK_MAX];
    'chunks: for _reads in 0..u64::MAX {
        let Ok(n) = front_end.read(&mut chunk) else {
            return Err(StdioFault::ReadFailed);
        };
        if n == 0 {
            // The last line may have no LF.
            let end = b"\n";
            answer_chunk(
                alloc,
                progress,
                memo,
                front_end,
                options,
                &mut lines,
                end,
                &mut answered,
            )?;
            return Ok(answered.bad);
        }
        let (given, _) = chunk.split_at(n);
        answer_chunk(
            alloc,
            progress,
            memo,
            front_end,
            options,
            &mut lines,
            given,
            &mut answered,
        )?;
    }
    Err(StdioFault::ReadFailed)
}

/// The status of a run that answered lines; standard error is told of a fault.
fn status_of_answers<E: Eprint>(errors: &E, ended: &Result<bool, StdioFault>) -> u8
    ensures { result ≡ answers_status ended.now }
{
    match ended {
        Ok(false) => DONE,
        Ok(true) => NOT_ACCEPTED,
        Err(fault) => {
            let _ = eprintln!(errors; "usi_host: {fault}");
            FAULT
        }
    }
}

/// Answers the lines of the input. Gives the status, and tells standard error of a fault.
fn solve_lines<E: Eprint, A: Allocator + Copy, P: MateProgress, T: FrontEnd>(
    errors: &E,
    alloc: A,
    progress: &mut P,
    memo: &mut Memo<A>,
    front_end: &mut T,
    options: MateOptions,
) -> u8
    requires least { 1 ≤ options.most }
    requires most { options.most ≤ MOVES_MAX }
    ensures { AreAnswers options (T.report front_end.old) (T.report front_end.new) result }
{
    let ended = answer_all(alloc, progress, memo, front_end, options);
    status_of_answers(errors, &ended)
}

/// Tells the shortest mate in the position of a text. Gives the status, and tells standard error of a
/// fault.
fn solve_text<E: Eprint, A: Allocator + Copy, P: MateProgress, T: FrontEnd>(
    errors: &E,
    alloc: A,
    progress: &mut P,
    memo: &mut Memo<A>,
    front_end: &mut T,
    sfen: &[u8],
    options: MateOptions,
) -> u8
    requires least { 1 ≤ options.most }
    requires most { options.most ≤ MOVES_MAX }
    ensures { IsSolution (position_of_text sfen.now) options
        (T.report front_end.old) (T.report front_end.new) result }
{
    let p = match position_of_text(sfen) {
        Ok(p) => p,
        Err(refusal) => return refuse(errors, alloc, refusal),
    };
    let mut text = Vec::new(alloc);
    match write_mate(alloc, &mut text, &p, options, progress, memo) {
        Ok(()) => print_out(errors, front_end, text.as_slice()),
        Err(_) => complain(errors, OUT_OF_MEMORY, FAULT),
    }
}

/// Tells the shortest mate by checks over a front end: in the position of a text, or, without one, in
/// that of each line that the front end gives. Gives the status, and tells standard error of a fault; and
/// if `tells` is set, at most once a second, which first move does not mate.
pub fn solving<E: Eprint + Clock, A: Allocator + Copy, T: FrontEnd>(
    errors: &E,
    alloc: A,
    front_end: &mut T,
    sfen: Option<&[u8]>,
    options: MateOptions,
    tells: bool,
) -> u8
    requires least { 1 ≤ options.most }
    requires most { options.most ≤ MOVES_MAX }
    ensures { IsSolving (option_map (λ text. text.now) sfen.entry) options
        (T.report front_end.old) (T.report front_end.new) result }
{
    let mut teller = Teller::new(errors, tells);
    let mut memo = Memo::new(alloc);
    match sfen {
        Some(text) => solve_text(
            errors,
            alloc,
            &mut teller,
            &mut memo,
            front_end,
            text,
            options,
        ),
        None => solve_lines(errors, alloc, &mut teller, &mut memo, front_end, options),
    }
}
