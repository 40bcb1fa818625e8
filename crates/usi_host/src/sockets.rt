//! The sockets of a host.

use socket_loop::{Limits, Process, StatusListener, StatusSocket};
use std::alloc::Global;
use std::time::{SystemTime, UNIX_EPOCH};
use std::{fs, process};
use stream_transport::{MioBinder, MioWire};
use transport::WireFault;
use usi_app::{ServeFault, socket_fault, status_fault};

/// The seconds since 1970 began (UTC), or 0 if no clock tells them.
fn seconds_now(rt: &HostRuntime) -> u64 {
    let Ok(now) = SystemTime::now(rt) else {
        return 0;
    };
    match now.duration_since(UNIX_EPOCH) {
        Ok(passed) => passed.as_secs(),
        Err(_) => 0,
    }
}

/// Whether a socket may be made at the path, as far as what stands there tells.
fn is_free(rt: &HostRuntime, path: &str) -> bool {
    !path.is_empty() && fs::symlink_metadata(rt, path).is_err()
}

/// A socket at the path, and who listens there.
fn bound(rt: &HostRuntime, socket: &str) -> Result<MioWire<Global>, ServeFault> {
    match MioWire::bind(&mut MioBinder::new(rt), rt.alloc(), socket) {
        Ok(wire) => Ok(wire),
        Err(WireFault::Device) => Err(socket_fault(rt, socket)),
        Err(WireFault::OutOfMemory) => Err(ServeFault::OutOfMemory),
    }
}

/// A socket for the status at the path, which is not that of the other socket.
fn told(
    rt: &HostRuntime,
    socket: &str,
    path: &str,
    limits: Limits,
) -> Result<StatusListener<Global>, ServeFault> {
    if path == socket {
        return Err(ServeFault::StatusTaken);
    }
    let process = Process {
        pid: process::id(rt.process()),
        started: seconds_now(rt),
    };
    match StatusListener::bind(&mut MioBinder::new(rt), rt.alloc(), path, process, limits) {
        Ok(listener) => Ok(listener),
        Err(WireFault::Device) => Err(status_fault(rt, path)),
        Err(WireFault::OutOfMemory) => Err(ServeFault::OutOfMemory),
    }
}

/// The socket of the status, which a wire watches.
fn watched(
    listener: StatusListener<Global>,
    wire: &mut MioWire<Global>,
) -> Result<StatusSocket<Global>, ServeFault> {
    match StatusSocket::over(listener, wire) {
        Ok(watch) => Ok(watch),
        Err(WireFault::Device) => Err(ServeFault::StatusFailed),
        Err(WireFault::OutOfMemory) => Err(ServeFault::OutOfMemory),
    }
}

/// The socket for the status, if there is one, and then the other socket. What stands at the path of
/// that one is looked at first, so that a path that is taken leaves no file behind. No file is removed.
pub(crate) fn opened(
    rt: &HostRuntime,
    socket: &str,
    status: &Option<String>,
    limits: Limits,
) -> Result<(MioWire<Global>, Option<StatusSocket<Global>>), ServeFault> {
    if !is_free(rt, socket) {
        return Err(socket_fault(rt, socket));
    }
    match status {
        None => Ok((bound(rt, socket)?, None)),
        Some(path) => {
            let listener = told(rt, socket, path.as_str(), limits)?;
            let mut wire = bound(rt, socket)?;
            let watch = watched(listener, &mut wire)?;
            Ok((wire, Some(watch)))
        }
    }
}
