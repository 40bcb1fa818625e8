//! Many sessions over one table, one event at a time.
#![tactic(auto)]

mod bestmoves;
mod bytes;
mod event;
mod host;
mod laws;
mod notes;
mod on_session;
mod round;
mod runs;

pub use bytes::Bytes;
pub use event::{Event, HostFault, Outcome};
pub use host::Host;
pub use laws::{isolation, sharing};
pub use notes::Activity;
pub use round::Round;
