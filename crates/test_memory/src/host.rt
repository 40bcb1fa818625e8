//! How a host answers events.

use host_core::{HostFault, Outcome};
use session_slots::SessionId;
use std::alloc::Allocator;
use std::test::Fail;

/// Whether an event was refused for memory.
pub fn is_refused<A: Allocator>(outcome: &Outcome<A>) -> bool {
    matches!(outcome, Outcome::Refused(HostFault::OutOfMemory))
}

/// The id of the session that was opened.
pub fn opened<A: Allocator>(outcome: &Outcome<A>) -> Result<SessionId, Fail> {
    match outcome {
        Outcome::Opened(id) => Ok(*id),
        _ => Err("a session is opened".into()),
    }
}

/// Whether the event was done, without an answer of its own.
pub fn is_done<A: Allocator>(outcome: &Outcome<A>) -> bool {
    matches!(outcome, Outcome::Done | Outcome::Worked(_))
}

/// Whether these bytes were given.
pub fn gave<A: Allocator>(outcome: &Outcome<A>, bytes: &[u8]) -> bool {
    matches!(outcome, Outcome::Gave(given) if given.as_slice() == bytes)
}
