//! A wire over any listener and its streams, and over a Unix socket.
#![tactic(auto)]

mod connection;
mod kept;
mod laws;
mod lingering;
mod listener;
mod places;
mod readiness;
mod sockets;
mod system;
mod tokens;
mod wire;

pub use laws::numbers;
pub use listener::{ByteStream, Listener, ListenerCall, Ready, StreamCall, StreamFault};
pub use sockets::{MioListener, MioWire, SocketListener, SocketStream};
pub use system::{Binder, Endpoint, MioBinder, Socket, Watcher};
pub use tokens::{LISTENER, WATCHED};
pub use wire::{StreamWire, Traffic, WireCall};
