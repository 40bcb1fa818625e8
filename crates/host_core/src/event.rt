//! Requests to a host, and its answers.

ghost use Rattle.std.specs.Prelude.{◌≡◌};
ghost use Rattle.host_core.specs.declared.event.HostFault.TheVariants.{OutOfMemory};

use crate::bytes::Bytes;
use session_slots::SessionId;
use std::alloc::{AllocError, Allocator};

/// Why a host did not do what it was asked. Nothing changed, unless `Event::Work` says otherwise.
#[derive(Clone, Copy, Debug, PartialEq, Eq)]
pub enum HostFault {
    /// The host is full, or has no id left.
    Full,
    /// Out of memory.
    OutOfMemory,
    /// No session is open under the id: it was never given out, or its session was closed.
    UnknownSession,
    /// The session wants no input, the chunk is too long, or fewer bytes are queued than were asked
    /// for.
    NotReady,
}

impl From<AllocError> for HostFault {
    ghost from_gives = { λ _ fault. fault ≡ OutOfMemory };

    fn from(_error: AllocError) -> HostFault {
        HostFault::OutOfMemory
    }
}

/// A request to a host. Refusals are listed in the order in which they are checked.
#[derive(Clone, Copy, Debug)]
pub enum Event<'a> {
    /// Opens a new session. Answered `Opened`, or refused `Full` or `OutOfMemory`.
    Open,
    /// Stores bytes for a session, and answers none yet. Answered `Done`; or refused
    /// `UnknownSession`, `NotReady` if the session wants no input or the chunk has more than 4,096
    /// bytes, or `OutOfMemory`.
    Feed(SessionId, &'a [u8]),
    /// Lets a session answer its pending lines, with at most this many steps of search. Answered
    /// `Worked` with the steps made, 0 if nothing was pending; or refused `UnknownSession` or
    /// `OutOfMemory`. After `OutOfMemory` the session still owes the same replies, but some may be
    /// queued now, and the table may have changed.
    Work(SessionId, u64),
    /// Hands out this many queued bytes of a session. Answered `Gave`; or refused `UnknownSession`,
    /// `NotReady` if fewer are queued, or `OutOfMemory`.
    Take(SessionId, usize),
    /// Closes a session, and drops whatever was queued or pending. Answered `Done`, or refused
    /// `UnknownSession`.
    Close(SessionId),
}

/// The answer of a host to an event.
#[derive(Drop)]
pub enum Outcome<A: Allocator> {
    /// The id of the new session.
    Opened(SessionId),
    /// The bytes were stored, or the session was closed.
    Done,
    /// The steps of search made.
    Worked(u64),
    /// The bytes taken from the queue.
    Gave(Bytes<A>),
    /// Why nothing was done.
    Refused(HostFault),
}
