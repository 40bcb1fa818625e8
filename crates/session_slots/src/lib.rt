//! Open sessions of any type, each under an id that is never used again.
#![tactic(auto)]

mod id;
mod limits;
mod slot;
mod slots;

pub use id::SessionId;
pub use limits::SESSIONS_MAX;
pub use slots::{SlotFault, Slots};
