//! One session over any front end.
#![tactic(auto)]

mod front_end;
mod streams;

pub use front_end::{CallKind, Duplex, FrontEnd};
pub use streams::{SLICE, StdioFault, stdio, stdio_on, stdio_with_setup, write_out};
