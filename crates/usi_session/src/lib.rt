//! One USI session: bytes in, bytes out.
#![tactic(auto)]

mod answer;
mod depth;
mod go_request;
mod go_task;
mod laws;
mod limits;
mod phase;
mod pv_walk;
mod queue;
mod session;
mod state;

pub use laws::numbers;
pub use limits::{CHUNK_MAX, QUEUE_FULL};
pub use session::{Session, SessionFault};
pub use usi_texts::{Setup, SetupFault};
