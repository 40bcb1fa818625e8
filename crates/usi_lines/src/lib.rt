//! Lines of a USI byte stream, and the command of each.
#![tactic(auto)]

mod buffer;
mod command;
mod first;
mod keywords;
mod line;
mod options;
mod read;
mod room;

pub use buffer::{LineBuffer, LineFault};
pub use command::{Command, Hold};
pub use first::{FirstLine, first_line};
pub use line::{LINE_FEED, LINE_MAX, Line, cut_line};
pub use options::{DEPTH_MAX, DEPTH_MIN, MULTI_PV_MAX, MULTI_PV_MIN};
pub use read::read_command;
pub use room::give_back_room;
