//! Turn after turn.

ghost use Rattle.socket_loop.specs.Links.{links_of};
ghost use Rattle.socket_loop.specs.Turns.{Fits, Over};
ghost use Rattle.socket_loop.specs.Promises.{ServesTurns};

use crate::monitor::Monitor;
use crate::turn::Loop;
use host_core::Host;
use std::alloc::Allocator;
use std::hash::BuildHasher;
use transport::{Wire, WireFault};

/// Takes `turns` turns, shows each to the monitor, and waits after each, the last one too. If the turn did
/// not move, the wait lasts until something may be ready; otherwise it does not block. A wait that fails
/// ends the loop with its fault.
/// Each connection of the loop is accepted from this wire and each session opened in this host.
pub fn serve<W: Wire, S: BuildHasher, A: Allocator + Copy, M: Monitor<W, S, A>>(
    host: &mut Host<S, A>,
    links: &mut Loop<A>,
    wire: &mut W,
    monitor: &mut M,
    turns: u64,
) -> Result<(), WireFault>
    requires fits { Fits (links_of links.old.held) (W.bound wire.old) host.old }
    ensures all { Over W.Wire (ServesTurns links.old.slice turns result)
        links.old host.old wire.old links.new host.new wire.new }
    ensures fits { Fits (links_of links.new.held) (W.bound wire.new) host.new }
{
    for _ in 0..turns {
        let turn = links.turn(host, wire);
        monitor.after_turn(&turn, host, links, wire);
        wire.wait(!turn.moved)?;
    }
    Ok(())
}
