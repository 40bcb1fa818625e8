//! Evaluation of positions by material.
#![tactic(auto)]

mod eval;
mod gain;
mod losses;
mod node;
mod points;

pub use eval::Eval;
pub use gain::{PROMOTION_GAIN_MAX, drop_gain, promotion_gain, taken_gain};
pub use losses::loss_of_drops;
pub use node::Node;
pub use points::{POINTS_MAX, material, value_of};
