//! The arguments of the command line, read as a job.
#![tactic(auto)]

mod arguments;
mod given;
mod grammar;
mod help;
mod host;
mod refusal;
mod setup;
mod unread;
mod values;
mod version;

pub use arguments::{ArgumentsFault, Job, read_arguments};
pub use given::asked;
pub use host::HostOptions;
pub use refusal::{complaint, status};
pub use setup::{Evaluation, SetupOptions};
pub use unread::unread_arguments;
pub use version::version_text;
