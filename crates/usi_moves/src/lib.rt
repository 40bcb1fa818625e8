//! Texts of a position's legal moves, perft counts, and mates by checks.
#![tactic(auto)]

mod answers;
mod asked;
mod solutions;
mod texts;

pub use answers::write_answer;
pub use asked::{asked_position, position_of_text, write_refusal};
pub use solutions::{MateOptions, write_mate};
pub use texts::{CountFault, Progress, write_moves, write_perft};
