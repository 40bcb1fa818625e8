//! The runs of the program `usi_host`; each returns the exit status.
#![tactic(auto)]

mod counts;
mod files;
mod mates;
mod runs;
mod serve_fault;
mod teller;

pub use counts::{complain, counting, listing};
pub use files::warn_of_files;
pub use mates::solving;
pub use runs::{DONE, print_out, script, session};
pub use serve_fault::{ServeFault, socket_fault, status_fault};
