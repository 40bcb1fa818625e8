//! Minimax at a fixed depth: definitions of a position's value and best move, and of what a search
//! knows of them on the way and at the end. `specs` has the definitions, `proofs` their laws.
#![tactic(auto)]

mod bounds;
mod entry;

pub use bounds::{INFINITY, MATE, SEARCH_DEPTH_MAX};
pub use entry::Entry;
