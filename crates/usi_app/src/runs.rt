//! The runs over a front end: a session, a script, and a text to print.

ghost use Rattle.std.specs.Prelude.{◌≡◌, ◌≤◌};
ghost use Rattle.session_slots.specs.declared.limits.TheConstants.{SESSIONS_MAX};
ghost use Rattle.shared_table.specs.declared.table.TheConstants.{CAPACITY_MAX};
ghost use Rattle.usi_app.specs.Runs.{IsPrint, IsReplay, IsReplayOn, IsSession, ended_status, replay_status};

use std::alloc::Allocator;
use usi_replay::{ReplayFault, replay_with_setup};
use usi_stdio::{FrontEnd, StdioFault, stdio_with_setup, write_out};
use usi_texts::Setup;

/// Exit status of success.
pub const DONE: u8 = 0;

/// Exit status of a fault.
pub const FAULT: u8 = 1;

/// Exit status of a script with a bad line.
const BAD_SCRIPT: u8 = 3;

/// The exit status of a run; a fault is written to standard error.
fn status_of_run<E: Eprint>(errors: &E, ended: &Result<(), StdioFault>) -> u8
    ensures { result ≡ ended_status ended.now }
{
    match ended {
        Ok(()) => DONE,
        Err(fault) => {
            let _ = eprintln!(errors; "usi_host: {fault}");
            FAULT
        }
    }
}

/// The exit status of a script that was not replayed.
fn status_of(fault: &ReplayFault) -> u8
    ensures { result ≡ replay_status fault.now }
{
    match fault {
        ReplayFault::BadScript { .. } => BAD_SCRIPT,
        _ => FAULT,
    }
}

/// Serves one session under `setup`, with a table of `entries` entries. Returns 0, or 1 after a
/// fault, which is written to standard error.
pub fn session<E: Eprint, A: Allocator + Copy, T: FrontEnd>(
    errors: &E,
    alloc: A,
    setup: Setup,
    front_end: &mut T,
    entries: usize,
) -> u8
    requires least { 1 ≤ entries }
    requires most { entries ≤ CAPACITY_MAX }
    ensures { IsSession setup entries
        (T.report front_end.old) (T.report front_end.new) result }
{
    let ended = stdio_with_setup(alloc, setup, front_end, entries);
    status_of_run(errors, &ended)
}

/// Replays a script, which the front end gives and whose output it takes, with sessions under
/// `setup`. Returns 0, 3 for a bad script, or 1 after another fault; a fault is written to standard
/// error.
pub fn script<E: Eprint, A: Allocator + Copy, T: FrontEnd>(
    errors: &E,
    alloc: A,
    setup: Setup,
    front_end: &mut T,
    slots: usize,
    entries: usize,
    slice: u64,
) -> u8
    requires least_slots { 1 ≤ slots }
    requires most_slots { slots ≤ SESSIONS_MAX }
    requires least_entries { 1 ≤ entries }
    requires most_entries { entries ≤ CAPACITY_MAX }
    requires least_slice { 1 ≤ slice }
    ensures run { IsReplay setup slots (T.report front_end.old) (T.report front_end.new) result }
    ensures host { IsReplayOn setup slots entries slice
        (T.report front_end.old) (T.report front_end.new) result }
{
    match replay_with_setup(alloc, setup, front_end, slots, entries, slice) {
        Ok(()) => DONE,
        Err(fault) => {
            let _ = eprintln!(errors; "usi_host: {fault}");
            status_of(&fault)
        }
    }
}

/// Writes a text and flushes it. Returns 0, or 1 after a fault, which is written to standard error.
pub fn print_out<E: Eprint, T: FrontEnd>(errors: &E, front_end: &mut T, text: &[u8]) -> u8
    ensures { IsPrint text.now (T.report front_end.old) (T.report front_end.new) result }
{
    let ended = write_out(front_end, text);
    status_of_run(errors, &ended)
}
