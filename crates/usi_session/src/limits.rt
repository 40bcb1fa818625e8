//! Limits of a session's input and output (own choice).

/// The most bytes of one `feed`.
pub const CHUNK_MAX: usize = 4096;

/// A session wants no input while this many bytes, or more, are queued.
pub const QUEUE_FULL: usize = 65_536;
