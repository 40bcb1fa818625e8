//! Replay of a script that comes from a front end.

ghost use Rattle.std.specs.Prelude.{◌≤◌, [], OnOk, IfOk, IfErr};
ghost use Rattle.usi_texts.specs.Setup.{default_setup};
ghost use Rattle.usi_replay.specs.Replayed.{GivesAllIn, IsAnswerOn, Leaves, ReadsBy, Recites, Replays, ReplaysAsked, ReplaysOn, TakesAll};
ghost use Rattle.usi_replay.specs.Sessions.{HasOpenedNone};
ghost use Rattle.session_slots.specs.declared.limits.TheConstants.{SESSIONS_MAX};
ghost use Rattle.shared_table.specs.declared.table.TheConstants.{CAPACITY_MAX};

use crate::fault::ReplayFault;
use crate::playback::Playback;
use host_core::Host;
use std::alloc::Allocator;
use std::hash::{BuildHasher, BuildHasherDefault, FoldHasher};
use usi_lines::first_line;
use usi_session::CHUNK_MAX;
use usi_stdio::{FrontEnd, write_out};
use usi_texts::Setup;

/// Reads all bytes to the end of the input.
fn read_all<A: Allocator, T: FrontEnd>(
    alloc: A,
    front_end: &mut T,
) -> Result<Vec<u8, A>, ReplayFault>
    ensures read { IfOk result (GivesAllIn (T.report front_end.old) (T.report front_end.new)) }
    ensures kept { TakesAll (T.report front_end.old) (T.report front_end.new) [] }
    ensures calls { ReadsBy (T.report front_end.old).calls (T.report front_end.new).calls result }
{
    let mut bytes = Vec::new(alloc);
    let mut chunk = [0u8; CHUNK_MAX];
    'chunks: for _reads in 0..u64::MAX {
        let Ok(n) = front_end.read(&mut chunk) else {
            return Err(ReplayFault::ReadFailed);
        };
        if n == 0 {
            return Ok(bytes);
        }
        let (given, _) = chunk.split_at(n);
        if bytes.extend_from_slice(given).is_err() {
            return Err(ReplayFault::OutOfMemory);
        }
    }
    Err(ReplayFault::ReadFailed)
}

/// The output of a script that the host plays, and the host after it.
fn output_of<S: BuildHasher + Drop, A: Allocator + Copy>(
    alloc: A,
    host: Host<S, A>,
    script: &[u8],
    slice: u64,
) -> Result<(Host<S, A>, Vec<u8, A>), ReplayFault>
    requires unused { HasOpenedNone host }
    requires least_slice { 1 ≤ slice }
    ensures { IsAnswerOn slice host script.now result }
{
    let mut playback = Playback {
        alloc,
        slice,
        host,
        transcripts: Vec::new(alloc),
    };
    let mut rest = script;
    let mut number: u64 = 0;
    'lines: while let Some(first) = first_line(rest) {
        number += 1;
        let Ok(good) = playback.play_line(first.line) else {
            return Err(ReplayFault::OutOfMemory);
        };
        if !good {
            return Err(ReplayFault::BadScript { line: number });
        }
        rest = first.rest;
    }
    let Ok(out) = playback.finish() else {
        return Err(ReplayFault::OutOfMemory);
    };
    Ok((playback.host, out))
}

/// `replay_with_setup` with the default setup.
pub fn replay<A: Allocator + Copy, T: FrontEnd>(
    alloc: A,
    front_end: &mut T,
    slots: usize,
    entries: usize,
    slice: u64,
) -> Result<(), ReplayFault>
    requires least_slots { 1 ≤ slots }
    requires most_slots { slots ≤ SESSIONS_MAX }
    requires least_entries { 1 ≤ entries }
    requires most_entries { entries ≤ CAPACITY_MAX }
    requires least_slice { 1 ≤ slice }
    ensures ok { OnOk result
        (Replays default_setup slots (T.report front_end.old) (T.report front_end.new)) }
    ensures host { OnOk result (ReplaysAsked default_setup slots entries slice
        (T.report front_end.old) (T.report front_end.new)) }
    ensures err { IfErr result
        (Leaves default_setup slots (T.report front_end.old) (T.report front_end.new)) }
    ensures calls { Recites default_setup slots
        (T.report front_end.old).calls (T.report front_end.new).calls result }
{
    replay_with_setup(alloc, Setup::new(), front_end, slots, entries, slice)
}

/// Replays a script of many sessions under a setup, over one host of at most `slots` sessions, from
/// 1 to 1,024, with a common table of `entries` entries, from 1 to 1,000,000. In each round every
/// pending session continues by at most `slice` search steps, at least 1. Lines are those of a USI
/// stream; an unfinished last line is ignored (own choice, as the whole form of scripts):
///
/// - an empty line is skipped;
/// - `+A`, with a letter from `A` to `Z`, opens a session under the name `A`, or refuses it if all
///   slots are taken;
/// - `A text` sends a line to the session `A` once it has answered all earlier ones;
/// - `-A` closes the session `A` once it has answered all, and frees the name.
///
/// Any other line is bad, as is one that opens a name in use or uses one that is not.
///
/// For each `+` line in script order, the output has the line `== A` and all replies to the lines
/// sent to this session, or the line `refused 1`. Neither `entries` nor `slice` changes the output.
/// The whole script is read and answered before anything is written; writing takes no memory and
/// ends with a flush.
///
/// `OutOfMemory`, `ReadFailed` and `BadScript`, with the number of the first bad line from 1, leave
/// nothing written. `WriteFailed`, also for a failed flush or a write that took nothing, leaves a
/// prefix of the output written.
pub fn replay_with_setup<A: Allocator + Copy, T: FrontEnd>(
    alloc: A,
    setup: Setup,
    front_end: &mut T,
    slots: usize,
    entries: usize,
    slice: u64,
) -> Result<(), ReplayFault>
    requires least_slots { 1 ≤ slots }
    requires most_slots { slots ≤ SESSIONS_MAX }
    requires least_entries { 1 ≤ entries }
    requires most_entries { entries ≤ CAPACITY_MAX }
    requires least_slice { 1 ≤ slice }
    ensures ok { OnOk result
        (Replays setup slots (T.report front_end.old) (T.report front_end.new)) }
    ensures host { OnOk result (ReplaysAsked setup slots entries slice
        (T.report front_end.old) (T.report front_end.new)) }
    ensures err { IfErr result
        (Leaves setup slots (T.report front_end.old) (T.report front_end.new)) }
    ensures calls { Recites setup slots
        (T.report front_end.old).calls (T.report front_end.new).calls result }
{
    let hasher = BuildHasherDefault::<FoldHasher>::new();
    let Ok(host) = Host::with_setup(alloc, setup, slots, entries, hasher) else {
        return Err(ReplayFault::OutOfMemory);
    };
    match replay_on(alloc, host, front_end, slice) {
        Ok(_host) => Ok(()),
        Err(fault) => Err(fault),
    }
}

/// Replays a script as `replay_with_setup` does, over a host that has opened no session yet, with
/// any table, and under its setup. Returns the host with the sessions open whose names are in use.
/// After a fault the host is gone.
pub fn replay_on<S: BuildHasher + Drop, A: Allocator + Copy, T: FrontEnd>(
    alloc: A,
    host: Host<S, A>,
    front_end: &mut T,
    slice: u64,
) -> Result<Host<S, A>, ReplayFault>
    requires unused { HasOpenedNone host }
    requires least_slice { 1 ≤ slice }
    ensures ok { IfOk result
        (λ after. ReplaysOn slice host after (T.report front_end.old) (T.report front_end.new)) }
    ensures err { IfErr result (Leaves host.setup host.slots.max
        (T.report front_end.old) (T.report front_end.new)) }
    ensures calls { Recites host.setup host.slots.max
        (T.report front_end.old).calls (T.report front_end.new).calls result }
{
    let script = read_all(alloc, front_end)?;
    let (host, out) = output_of(alloc, host, script.as_slice(), slice)?;
    match write_out(front_end, out.as_slice()) {
        Ok(()) => Ok(host),
        Err(_) => Err(ReplayFault::WriteFailed),
    }
}
