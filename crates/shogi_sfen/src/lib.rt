//! Words, moves and positions as texts of USI and SFEN.
#![tactic(auto)]

mod board_text;
mod byte;
mod hand_text;
mod laws;
mod letter;
mod move_text;
mod number;
mod position;
mod position_text;
mod split;
mod word;

pub use laws::characters;
pub use move_text::{read_move, write_move};
pub use number::read_number;
pub use position::{SfenFault, read_position};
pub use position_text::write_position;
pub use split::words;
pub use word::Words;
