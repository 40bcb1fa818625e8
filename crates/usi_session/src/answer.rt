//! The answers to commands.

ghost use Rattle.std.specs.Prelude.{◌≡◌, ◌≤◌, IfOk, OnOk};
ghost use Rattle.usi_lines.specs.Seen.{meaning_of, line_of};
ghost use Rattle.usi_lines.specs.declared.options.TheConstants.{DEPTH_MIN, DEPTH_MAX};
ghost use Rattle.usi_lines.specs.Options.{IsInRange};
ghost use Rattle.usi_texts.specs.Options.{AreInRange};
ghost use Rattle.usi_session.specs.Answer.{GivesAnswer, allowed_depth, depth_of_go, answer_eval, answer_position, answer_bestmove, answer_stop, answer_ponderhit};
ghost use Rattle.usi_session.specs.GoTaskView.{Answers, AnswersLine, BeginsGo, EndsIdle};

use crate::go_request::GoRequest;
use crate::go_task::GoTask;
use crate::state::{HeldBestmove, State};
use shogi_core::Position;
use shogi_eval::Eval;
use shogi_moves::next_legal;
use std::alloc::{AllocError, Allocator};
use usi_lines::{Command, Hold, Line, read_command};
use usi_texts::{
    Refusal, position_of_sfen, position_of_startpos, write_bad_position, write_bestmove,
    write_illegal_move, write_mate_not_implemented, write_usi,
};

/// The depth, capped at the setup's greatest.
fn allowed_depth(state: &State, depth: u8) -> u8
    ensures { result ≡ allowed_depth state.now depth }
{
    depth.min(state.setup.max_depth)
}

/// The depth of a `go`: its own, or else the option's, capped at the setup's greatest.
fn depth_of_go(state: &State, depth: Option<u8>) -> u8
    ensures { result ≡ depth_of_go state.now depth }
{
    allowed_depth(state, depth.unwrap_or(state.options.depth))
}

/// Sets the evaluation if the setup offers it; otherwise does nothing.
fn answer_eval(state: &mut State, eval: Eval)
    ensures { state.new ≡ (answer_eval state.old eval).state }
{
    if state.setup.offers(eval) {
        state.options.eval = eval;
    }
}

/// Takes the new position, or writes why the command was refused and keeps the old one.
fn answer_position<A: Allocator>(
    out: &mut Vec<u8, A>,
    state: &mut State,
    outcome: Result<Position, Refusal>,
) -> Result<(), AllocError>
    ensures { GivesAnswer result (answer_position state.old outcome) out.old out.new state.new }
{
    match outcome {
        Ok(position) => {
            state.position = position;
            Ok(())
        }
        Err(Refusal::BadPosition(fault)) => write_bad_position(out, fault),
        Err(Refusal::IllegalMove(number)) => write_illegal_move(out, number),
    }
}

/// Writes the bestmove, or holds it. A bestmove held before is dropped.
pub fn write_or_hold<A: Allocator>(
    out: &mut Vec<u8, A>,
    state: &mut State,
    bestmove: HeldBestmove,
) -> Result<(), AllocError>
    ensures { GivesAnswer result (answer_bestmove state.old bestmove) out.old out.new state.new }
{
    match bestmove.until {
        Hold::Nothing => {
            write_bestmove(out, &bestmove.best, &bestmove.ponder)?;
            state.held = None;
        }
        Hold::UntilStop | Hold::UntilHit => state.held = Some(bestmove),
    }
    Ok(())
}

/// Starts a `go`, or answers at once if no move is legal.
fn answer_go<A: Allocator + Copy>(
    alloc: A,
    out: &mut Vec<u8, A>,
    state: &mut State,
    depth: u8,
    hold: Hold,
) -> Result<Option<GoTask<A>>, AllocError>
    requires options { AreInRange state.old.options }
    requires least { DEPTH_MIN ≤ depth }
    requires most { depth ≤ DEPTH_MAX }
    ensures begun { BeginsGo state.old depth hold out.old out.new state.new result }
    ensures options { OnOk result (state.new.options ≡ state.old.options) }
    ensures alive { OnOk result (state.new.is_over ≡ state.old.is_over) }
{
    let Some(first) = next_legal(&state.position, None) else {
        let bestmove = HeldBestmove {
            best: None,
            ponder: None,
            until: hold,
        };
        write_or_hold(out, state, bestmove)?;
        return Ok(None);
    };
    let go_request = GoRequest {
        position: state.position,
        eval: state.options.eval,
        multi_pv: state.options.multi_pv,
        depth,
        hold,
    };
    let go_task = GoTask::start(alloc, go_request, first)?;
    Ok(Some(go_task))
}

/// Writes the held bestmove, if any, and holds none afterwards.
fn answer_stop<A: Allocator>(out: &mut Vec<u8, A>, state: &mut State) -> Result<(), AllocError>
    ensures { GivesAnswer result (answer_stop state.old state.old.held) out.old out.new state.new }
{
    let Some(held) = &state.held else {
        return Ok(());
    };
    write_bestmove(out, &held.best, &held.ponder)?;
    state.held = None;
    Ok(())
}

/// Writes the held bestmove if `ponderhit` releases it.
fn answer_ponderhit<A: Allocator>(out: &mut Vec<u8, A>, state: &mut State) -> Result<(), AllocError>
    ensures { GivesAnswer result
        (answer_ponderhit state.old state.old.held) out.old out.new state.new }
{
    let Some(held) = &state.held else {
        return Ok(());
    };
    match held.until {
        Hold::UntilHit => answer_stop(out, state),
        Hold::UntilStop | Hold::Nothing => Ok(()),
    }
}

/// Answers a command, or starts a `go`.
pub fn answer<A: Allocator + Copy>(
    alloc: A,
    out: &mut Vec<u8, A>,
    state: &mut State,
    command: Command<'_>,
) -> Result<Option<GoTask<A>>, AllocError>
    requires options { AreInRange state.old.options }
    requires range { IsInRange (meaning_of command) }
    ensures begun { Answers state.old (meaning_of command.entry) out.old out.new state.new result }
    ensures over { IfOk result (EndsIdle state.old state.new) }
    ensures options { OnOk result (AreInRange state.new.options) }
{
    match command {
        Command::Usi => write_usi(out, &state.setup)?,
        Command::IsReady => out.extend_from_slice(b"readyok\n")?,
        Command::SetDepth(depth) => state.options.depth = allowed_depth(state, depth),
        Command::SetEval(eval) => answer_eval(state, eval),
        Command::SetLines(multi_pv) => state.options.multi_pv = multi_pv,
        Command::NewGame => {
            state.position = Position::start();
            state.held = None;
        }
        Command::Startpos(text) => answer_position(out, state, position_of_startpos(text))?,
        Command::Sfen(text) => answer_position(out, state, position_of_sfen(text))?,
        Command::BadPosition => write_bad_position(out, 0)?,
        Command::Go { depth, hold } => {
            let depth = depth_of_go(state, depth);
            return answer_go(alloc, out, state, depth, hold);
        }
        Command::GoMate => {
            write_mate_not_implemented(out)?;
            state.held = None;
        }
        Command::Stop => answer_stop(out, state)?,
        Command::PonderHit => answer_ponderhit(out, state)?,
        Command::GameOver => state.held = None,
        Command::Quit => {
            state.held = None;
            state.is_over = true;
        }
        Command::Other => {}
    }
    Ok(None)
}

/// Answers a line, or starts its `go`. A line that is too long ends the session.
pub fn answer_line<A: Allocator + Copy>(
    alloc: A,
    out: &mut Vec<u8, A>,
    state: &mut State,
    line: Line<'_>,
) -> Result<Option<GoTask<A>>, AllocError>
    requires options { AreInRange state.old.options }
    ensures begun { AnswersLine state.old (line_of line.entry) out.old out.new state.new result }
    ensures over { IfOk result (EndsIdle state.old state.new) }
    ensures options { OnOk result (AreInRange state.new.options) }
{
    match line {
        Line::Text(text) => answer(alloc, out, state, read_command(text)),
        Line::TooLong => {
            out.extend_from_slice(b"info string line too long\n")?;
            state.held = None;
            state.is_over = true;
            Ok(None)
        }
    }
}
