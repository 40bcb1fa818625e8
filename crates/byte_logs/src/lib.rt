//! Byte logs that only clauses read.
#![tactic(auto)]

mod log;

pub use log::Bytes;
