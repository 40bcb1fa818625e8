//! Why a host on a socket ended early, or never began.

ghost use Rattle.std.specs.Prelude.{◌≡◌};
ghost use Rattle.usi_app.specs.ServeFaults.{of_host, of_wire, serve_complaint, serve_status, IsOfSocket, IsOfStatus};

use crate::runs::FAULT;
use host_core::HostFault;
use mio::net::UnixStream;
use std::fs;
use std::fs::Files;
use std::io::ErrorKind;
use std::net::Net;
use std::os::unix::fs::FileTypeExt;
use transport::WireFault;

/// Why a host on a socket ended early, or never began.
#[derive(Clone, Copy, Debug, PartialEq, Eq)]
pub enum ServeFault {
    /// Memory ran out.
    OutOfMemory,
    /// The system gave no random seed.
    ReadFailed,
    /// The socket could not be made, or waiting for it failed.
    SocketFailed,
    /// The socket could not be made: a process listens at the path.
    SocketTaken,
    /// The socket could not be made: nobody listens at the socket at the path, as after a host that
    /// has ended.
    SocketLeft,
    /// The status socket could not be made.
    StatusFailed,
    /// The status socket could not be made: a process listens at the path.
    StatusTaken,
    /// The status socket could not be made: nobody listens at the socket at the path.
    StatusLeft,
}

impl From<HostFault> for ServeFault {
    ghost from_gives = { λ old fault. fault ≡ of_host old };

    fn from(_fault: HostFault) -> ServeFault {
        ServeFault::OutOfMemory
    }
}

impl From<WireFault> for ServeFault {
    ghost from_gives = { λ old fault. fault ≡ of_wire old };

    fn from(fault: WireFault) -> ServeFault {
        match fault {
            WireFault::Device => ServeFault::SocketFailed,
            WireFault::OutOfMemory => ServeFault::OutOfMemory,
        }
    }
}

/// Whether the file at the path is a socket.
fn is_socket<R: Files>(rt: &R, path: &str) -> bool {
    match fs::symlink_metadata(rt, path) {
        Ok(found) => found.file_type().is_socket(),
        Err(_) => false,
    }
}

/// Why no socket could be made at the path. If a socket stands there, connecting to it without
/// waiting tells whether a process listens; the connection is closed at once.
pub fn socket_fault<R: Files + Net>(rt: &R, path: &str) -> ServeFault
    ensures { IsOfSocket result }
{
    if !is_socket(rt, path) {
        return ServeFault::SocketFailed;
    }
    match UnixStream::connect(rt, path) {
        Ok(_) => ServeFault::SocketTaken,
        Err(error) => match error.kind() {
            ErrorKind::WouldBlock => ServeFault::SocketTaken,
            ErrorKind::ConnectionRefused => ServeFault::SocketLeft,
            _ => ServeFault::SocketFailed,
        },
    }
}

/// Why no status socket could be made at the path.
pub fn status_fault<R: Files + Net>(rt: &R, path: &str) -> ServeFault
    ensures { IsOfStatus result }
{
    match socket_fault(rt, path) {
        ServeFault::SocketTaken => ServeFault::StatusTaken,
        ServeFault::SocketLeft => ServeFault::StatusLeft,
        _ => ServeFault::StatusFailed,
    }
}

impl ServeFault {
    /// The exit status: 1 for each fault.
    pub fn status(self) -> u8
        ensures { result ≡ serve_status self }
    {
        FAULT
    }

    /// The text for standard error, with its LF.
    pub fn complaint(self) -> &'static str
        ensures { result.now ≡ serve_complaint self }
    {
        match self {
            ServeFault::OutOfMemory => "usi_host: out of memory\n",
            ServeFault::ReadFailed => "usi_host: read failed\n",
            ServeFault::SocketFailed => "usi_host: socket failed\n",
            ServeFault::SocketTaken => {
                "usi_host: socket failed: a process listens at it; end it, or take another path\n"
            }
            ServeFault::SocketLeft => {
                "usi_host: socket failed: nobody listens at it; remove it, and start again\n"
            }
            ServeFault::StatusFailed => "usi_host: status socket failed\n",
            ServeFault::StatusTaken => {
                "usi_host: status socket failed: a process listens at it; take another path\n"
            }
            ServeFault::StatusLeft => {
                "usi_host: status socket failed: nobody listens at it; remove it, and start again\n"
            }
        }
    }
}
