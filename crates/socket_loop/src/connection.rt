//! The connections that a loop holds.

use session_slots::SessionId;

/// A connection's number on its wire, and its session's id.
#[derive(Clone, Copy, Debug, PartialEq, Eq)]
pub struct Link {
    pub number: u64,
    pub id: SessionId,
}

/// A connection in a loop.
#[derive(Clone, Copy, Debug, PartialEq, Eq)]
pub struct Connection {
    pub link: Link,
    /// Reading from the connection has ended.
    pub has_ended: bool,
    /// The connection was shut; the turn removes it at its end.
    pub is_shut: bool,
}
