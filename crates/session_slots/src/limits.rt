//! The limit of open sessions (own choice).

/// The most sessions open at a time.
pub const SESSIONS_MAX: usize = 1024;
