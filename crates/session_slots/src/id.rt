//! Ids of sessions.

/// The id of a session, unique within one `Slots` even if a slot is used again.
#[derive(Clone, Copy, Debug, PartialEq, Eq)]
pub struct SessionId {
    /// The slot of the session. A vacant slot is used again.
    pub slot: usize,
    /// The number of sessions opened before this one.
    pub generation: u64,
}
