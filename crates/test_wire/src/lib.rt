//! A wire in memory, for tests; and streams and a listener in memory, which tell all.
#![tactic(auto)]

mod listener;
mod memory;
mod peer;
mod returns;
mod socket;
mod stream;
#[cfg(test)]
mod tests;

pub use listener::MemoryListener;
pub use memory::MemoryWire;
pub use socket::{
    BinderStep, EndpointCall, MemoryBinder, MemoryDoor, MemoryEndpoint, MemorySocket,
};
pub use stream::{MemoryStream, Plan};
