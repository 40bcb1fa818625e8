//! A use of `socket_loop`.

ghost use Rattle.std.specs.Prelude.{◌≡◌, [], Err};
ghost use Rattle.transport.specs.declared.wire.WireFault.TheVariants.{Device};

use host_core::Host;
use socket_loop::{Loop, NoMonitor, serve};
use std::alloc::Allocator;
use std::fs::Files;
use std::hash::BuildHasher;
use std::net::Net;
use stream_transport::{MioBinder, MioWire};
use transport::WireFault;

/// Makes a socket at the path, and serves those who connect for so many turns.
pub fn serve_at<R: Files + Net, S: BuildHasher, A: Allocator + Copy>(
    rt: &R,
    alloc: A,
    host: &mut Host<S, A>,
    path: &str,
    turns: u64,
) -> Result<(), WireFault>
    ensures unnamed { path.now ≡ [] → result ≡ Err Device }
{
    let mut wire = MioWire::bind(&mut MioBinder::new(rt), alloc, path)?;
    let mut connections = Loop::new(alloc, 1000)?;
    serve(host, &mut connections, &mut wire, &mut NoMonitor, turns)
}
