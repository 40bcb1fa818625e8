//! Mates by checks: whether the side to move mates within so many moves, each of which gives check.
#![tactic(auto)]

mod by_checks;
mod listing;
mod memo;
mod solution;
mod stages;

pub use by_checks::{MOVES_MAX, is_mated, mates};
pub use listing::{append_keys, append_line};
pub use memo::{MEMO_MAX, Memo};
pub use solution::{MateProgress, first_key, longest_defence, shortest};
