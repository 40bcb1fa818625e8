//! A session's part in the events that name it.

ghost use Rattle.std.specs.Prelude.{◌≡◌, false, take, IsErrOf};
ghost use Rattle.usi_session.specs.Due.{is_pending, EndsSearches};
ghost use Rattle.usi_session.specs.Known.{TakesNoStep};
ghost use Rattle.host_core.specs.Events.{Worked};
ghost use Rattle.host_core.specs.Seen.{as_outcome, done_of, passed_of};
ghost use Rattle.host_core.specs.Sessions.{Feeds, Works, Takes};
ghost use Rattle.host_core.specs.declared.event.HostFault.TheVariants.{OutOfMemory};

use crate::event::HostFault;
use shogi_search::Memo;
use std::alloc::Allocator;
use usi_session::{CHUNK_MAX, Session};

/// Stores the bytes, if the session may be fed.
pub fn feed<A: Allocator + Copy>(session: &mut Session<A>, chunk: &[u8]) -> Result<(), HostFault>
    ensures { Feeds chunk.now session.old (done_of result) session.new }
{
    if chunk.len() > CHUNK_MAX || !session.wants_input() {
        return Err(HostFault::NotReady);
    }
    match session.feed(chunk) {
        Ok(()) => Ok(()),
        Err(_) => Err(HostFault::OutOfMemory),
    }
}

/// Continues by at most `budget` steps. With nothing pending, the session and the memo are left as
/// they are.
pub fn work<A: Allocator + Copy, M: Memo>(
    session: &mut Session<A>,
    memo: &mut M,
    budget: u64,
) -> Result<u64, HostFault>
    ensures works { Works budget session.old (as_outcome Worked result) session.new }
    ensures idle { is_pending session.old ≡ false → memo.new ≡ memo.old }
    ensures told { EndsSearches M.called memo.old memo.new session.old session.new }
    ensures known { TakesNoStep M.answers M.called memo.old result session.old session.new }
    ensures capacity { M.capacity memo.new ≡ M.capacity memo.old }
{
    if !session.pending() {
        return Ok(0);
    }
    match session.work(memo, budget) {
        Ok(steps) => Ok(steps),
        Err(_) => Err(HostFault::OutOfMemory),
    }
}

/// Drops the first n queued bytes.
pub fn pass<A: Allocator + Copy>(session: &mut Session<A>, n: usize) -> Result<(), HostFault>
    ensures taken { Takes n session.old (passed_of (take n session.old.queued) result) session.new }
    ensures no_memory { IsErrOf result OutOfMemory → ⊥ }
{
    if n > session.output().len() {
        return Err(HostFault::NotReady);
    }
    session.take(n);
    Ok(())
}
