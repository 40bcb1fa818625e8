//! A USI session for programs in C, or in what calls C.
#![tactic(auto)]

mod calls;
mod hand;
mod handle;
mod laws;
mod loose;
mod opened;
mod setup;
mod status;

pub use calls::{
    UsiAnswer, UsiLook, usi_close, usi_feed, usi_look, usi_open, usi_open_with_setup, usi_take,
    usi_work,
};
pub use handle::UsiSession;
pub use laws::{numbers, replies_by_calls};
pub use setup::{USI_EVAL_EXCHANGE, USI_EVAL_HAND, USI_EVAL_PLAIN};
pub use status::{
    USI_CLOSED, USI_DEPTH_ABOVE_MAX, USI_DEPTH_OUT_OF_RANGE, USI_IS_OPEN, USI_LINES_OUT_OF_RANGE,
    USI_MAX_DEPTH_OUT_OF_RANGE, USI_NOT_WANTED, USI_OK, USI_OUT_OF_MEMORY, USI_OUT_OF_RANGE,
    USI_TOO_LONG, USI_UNKNOWN_EVAL,
};
