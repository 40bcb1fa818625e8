//! The texts of a session: each line that it writes, its options, and the position of a `position` line.
#![tactic(auto)]

mod options;
mod parts;
mod position_command;
mod setup;
mod text;

pub use options::Options;
pub use position_command::{Refusal, position_of_sfen, position_of_startpos};
pub use setup::{DEPTH_DEFAULT, MULTI_PV_DEFAULT, Setup, SetupFault};
pub use text::{
    write_bad_position, write_bestmove, write_illegal_move, write_info, write_mate_not_implemented,
    write_numbered_info, write_usi,
};
