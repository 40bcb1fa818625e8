//! A use of `socket_loop`.

ghost use Rattle.std.specs.Prelude.{◌≡◌, true, false};
ghost use Rattle.socket_loop.specs.Turns.{Fits, any_pending};
ghost use Rattle.transport.specs.Moves.{StaysKnown};
ghost use Rattle.socket_loop.specs.Links.{links_of};

use host_core::Host;
use socket_loop::Loop;
use std::alloc::Allocator;
use std::hash::BuildHasher;
use transport::Wire;

/// Turns until nothing moves, and at most so often. Returns whether it is still.
pub fn turn_until_still<W: Wire, S: BuildHasher, A: Allocator + Copy>(
    turns: &mut Loop<A>,
    host: &mut Host<S, A>,
    wire: &mut W,
    most: u64,
) -> bool
    requires fits { Fits (links_of turns.old.held) (W.bound wire.old) host.old }
    ensures settled { result ≡ true → any_pending host.new (links_of turns.new.held) ≡ false }
    ensures known { StaysKnown (W.report wire.old) (W.report wire.new) }
    ensures fits { Fits (links_of turns.new.held) (W.bound wire.new) host.new }
{
    'turns: for _ in 0..most {
        if !turns.turn(host, wire).moved {
            return true;
        }
    }
    false
}
