//! Rounds, output, input, opening and closing of the sessions of a host.

ghost use Rattle.std.specs.Prelude.{◌≡◌, ◌≤◌, ℕ, false, IfOk, OnOk};
ghost use Rattle.session_slots.specs.Slots.{find};
ghost use Rattle.host_core.specs.ById.{pending_of};
ghost use Rattle.usi_replay.specs.Playback.{IsSameButForMade};
ghost use Rattle.usi_replay.specs.Sessions.{KeepsRepliesDue, KeepsAllBut, MovesToTranscript, OwesRepliesTo, IsOpenedAs, IsClosedAs, NeedFewerWorks, RunsBy};

use crate::transcript::Transcript;
use host_core::{Host, HostFault};
use session_slots::SessionId;
use std::alloc::{AllocError, Allocator};
use std::hash::BuildHasher;

/// One round: every pending session continues by at most `slice` search steps.
pub fn work_round<S: BuildHasher, A: Allocator + Copy>(
    host: &mut Host<S, A>,
    slice: u64,
) -> Result<(), AllocError>
    requires { 1 ≤ slice }
    ensures due { OnOk result (KeepsRepliesDue host.old host.new) }
    ensures fewer { OnOk result (NeedFewerWorks host.old host.new) }
    ensures run { RunsBy slice host.old host.new }
{
    if host.round(slice).refused != 0 {
        return Err(AllocError);
    }
    Ok(())
}

/// Makes rounds until the session has nothing pending.
pub fn settle<S: BuildHasher, A: Allocator + Copy>(
    host: &mut Host<S, A>,
    id: SessionId,
    slice: u64,
) -> Result<(), AllocError>
    requires { 1 ≤ slice }
    ensures due { OnOk result (KeepsRepliesDue host.old host.new) }
    ensures settled { OnOk result (pending_of (find host.new.slots id) ≡ false) }
    ensures run { OnOk result (RunsBy slice host.old host.new) }
{
    'rounds: while host.pending(id) {
        work_round(host, slice)?;
    }
    Ok(())
}

/// Moves the session's queued bytes into its transcript. `pass` never fails: the session is open
/// and has these bytes queued.
pub fn take_output<S: BuildHasher, A: Allocator + Copy>(
    host: &mut Host<S, A>,
    id: SessionId,
    transcript: &mut Transcript<A>,
) -> Result<(), AllocError>
    ensures others { OnOk result (KeepsAllBut host.old host.new id) }
    ensures collected { OnOk result
        (MovesToTranscript host.old host.new id transcript.old transcript.new) }
    ensures rest { OnOk result (IsSameButForMade transcript.old transcript.new) }
    ensures run { OnOk result ((slice : ℕ) → RunsBy slice host.old host.new) }
{
    let Some(bytes) = host.output(id) else {
        return Ok(());
    };
    transcript.append(bytes)?;
    let n = bytes.len();
    if host.pass(id, n).is_err() {
        return Err(AllocError);
    }
    Ok(())
}

/// Feeds a chunk of at most 4,096 bytes, or drops it if the session is over.
pub fn feed<S: BuildHasher, A: Allocator + Copy>(
    host: &mut Host<S, A>,
    id: SessionId,
    chunk: &[u8],
) -> Result<(), AllocError>
    ensures others { OnOk result (KeepsAllBut host.old host.new id) }
    ensures fed { OnOk result
        (OwesRepliesTo (find host.old.slots id) (find host.new.slots id) chunk.now) }
    ensures run { OnOk result ((slice : ℕ) → RunsBy slice host.old host.new) }
{
    if host.is_over(id) {
        return Ok(());
    }
    if host.feed(id, chunk).is_err() {
        return Err(AllocError);
    }
    Ok(())
}

/// Opens a session; `None` if the host has no room for one.
pub fn open<S: BuildHasher, A: Allocator + Copy>(
    host: &mut Host<S, A>,
) -> Result<Option<SessionId>, AllocError>
    ensures opened { IfOk result (λ id. IsOpenedAs host.old id host.new) }
    ensures run { OnOk result ((slice : ℕ) → RunsBy slice host.old host.new) }
{
    match host.open() {
        Ok(id) => Ok(Some(id)),
        Err(HostFault::Full) => Ok(None),
        Err(_) => Err(AllocError),
    }
}

/// Closes the session, if there is one.
pub fn close<S: BuildHasher, A: Allocator + Copy>(host: &mut Host<S, A>, id: Option<SessionId>)
    ensures closed { IsClosedAs host.old id host.new }
    ensures run { (slice : ℕ) → RunsBy slice host.old host.new }
{
    if let Some(id) = id {
        let _closed = host.close(id);
    }
}
