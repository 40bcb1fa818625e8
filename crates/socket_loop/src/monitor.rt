//! Who is shown the turns of a loop.

use crate::turn::{Loop, Turn};
use host_core::Host;
use std::alloc::Allocator;
use std::hash::BuildHasher;

/// Is shown each turn of a host, and what it left, before the wait that follows.
pub trait Monitor<W, S: BuildHasher, A: Allocator + Copy> {
    /// A turn was taken, of this host, these connections and this wire.
    fn after_turn(&mut self, turn: &Turn, host: &Host<S, A>, connections: &Loop<A>, wire: &W);
}

/// A monitor that looks at nothing.
#[derive(Clone, Copy, Debug, PartialEq, Eq)]
pub struct NoMonitor;

impl<W, S: BuildHasher, A: Allocator + Copy> Monitor<W, S, A> for NoMonitor {
    fn after_turn(&mut self, _turn: &Turn, _host: &Host<S, A>, _connections: &Loop<A>, _wire: &W) {}
}

/// A monitor that may be absent.
impl<W, S: BuildHasher, A: Allocator + Copy, M: Monitor<W, S, A>> Monitor<W, S, A> for Option<M> {
    fn after_turn(&mut self, turn: &Turn, host: &Host<S, A>, connections: &Loop<A>, wire: &W) {
        if let Some(monitor) = self {
            monitor.after_turn(turn, host, connections, wire);
        }
    }
}
