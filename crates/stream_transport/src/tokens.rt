//! The poll tokens that name no connection. Connections have lower numbers.

/// The listener of the wire.
pub const LISTENER: u64 = u64::MAX;

/// A listener watched beside it, such as the status socket's.
pub const WATCHED: u64 = u64::MAX - 1;
