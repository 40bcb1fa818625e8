//! Replay of scripts with many sessions over one host.
#![tactic(auto)]

mod fault;
mod playback;
mod script_line;
mod sessions;
mod streams;
mod transcript;

pub use fault::ReplayFault;
pub use streams::{replay, replay_on, replay_with_setup};
