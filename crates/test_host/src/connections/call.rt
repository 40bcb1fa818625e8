//! Calls of a wire.

use std::alloc::Allocator;
use transport::WireFault;

/// A call of a wire: an accept with its answer, a read of a connection, of so many bytes at most, a
/// write of these bytes to one, a shut of one, and a wait with its answer.
#[derive(Drop)]
pub enum Call<A: Allocator> {
    Accept(Result<Option<u64>, WireFault>),
    Read(u64, usize),
    Write(u64, Vec<u8, A>),
    Shut(u64),
    Wait(bool, Result<(), WireFault>),
}
