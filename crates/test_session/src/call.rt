//! Calls of a front end.

use std::alloc::Allocator;

/// A call of a front end with what came of it: a read that gave these bytes, a write of which these
/// were taken, a flush, and each of them where it failed.
#[derive(Drop)]
pub enum Call<A: Allocator> {
    Read(Vec<u8, A>),
    Write(Vec<u8, A>),
    Flush,
    FailedRead,
    FailedWrite,
    FailedFlush,
}
