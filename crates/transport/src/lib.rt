//! Wires: numbered connections that no read or write waits for.
#![tactic(auto)]

mod wire;

pub use wire::{Got, Wire, WireFault};
