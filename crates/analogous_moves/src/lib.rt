//! The method of analogies: moves three or four plies before the end that a known refutation also
//! refutes, found on squares without searching them.
//!
//! After a move of ours has failed low to a reply, `AnalogousMoves::of` asks what we could do if we
//! had passed and the opponent had made that reply. A threat is a move of ours from there that gains
//! more than the bound allows, or leaves the opponent no reply. If we have none, the reply also
//! refutes each drop and quiet move that changes nothing this rests on.
#![tactic(auto)]

mod moves;
mod passed_reply;
mod spare_moves;

pub use moves::{AnalogousMoves, DropSquares};
