//! Faults of a replay.

use thiserror::Error;

/// The fault that ended a replay.
#[derive(Debug, PartialEq, Eq, Drop, Error)]
pub enum ReplayFault {
    /// Out of memory, before anything was written.
    #[error("out of memory")]
    OutOfMemory,
    /// A read failed, or 18,446,744,073,709,551,615 reads did not reach the end. Nothing was
    /// written.
    #[error("read failed")]
    ReadFailed,
    /// A write or flush failed, or a write took nothing. A prefix of the output was written.
    #[error("write failed")]
    WriteFailed,
    /// The first bad line of the script, counted from 1. Nothing was written.
    #[error("bad script line {line}")]
    BadScript { line: u64 },
}
