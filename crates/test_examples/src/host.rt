//! A use of `host_core`.

ghost use Rattle.std.specs.Prelude.{IfOk, IsSome};
ghost use Rattle.session_slots.specs.Slots.{find};

use host_core::{Host, HostFault};
use session_slots::SessionId;
use std::alloc::Allocator;
use std::hash::BuildHasher;

/// Opens a session and feeds it. Where the bytes are refused, the session is closed again.
pub fn open_and_feed<S: BuildHasher, A: Allocator + Copy>(
    host: &mut Host<S, A>,
    bytes: &[u8],
) -> Result<SessionId, HostFault>
    ensures { IfOk result (λ id. IsSome (find host.new.slots id)) }
{
    let id = host.open()?;
    match host.feed(id, bytes) {
        Ok(()) => Ok(id),
        Err(fault) => {
            let _closed = host.close(id);
            Err(fault)
        }
    }
}
