//! What is certain after a legal move before it is made: that the opponent has a legal reply, or
//! may capture something.
//!
//! `ReplyInfo` holds what shows of most moves that they give no check and leave a reply, and
//! `KnownReplies` joins it with its position; `far` finds pieces of which every move does.
//! `escapes` finds squares to which a king in check may go. `skips` moves a sweep past moves of a
//! `move_filter` that surely leave a reply. `threats` are captures that stay possible after most
//! moves.
#![tactic(auto)]

mod escapes;
mod far;
mod move_filter;
mod replies;
mod skips;
mod threats;

pub use escapes::{escape_squares, king_takes, some_escapes};
pub use move_filter::MoveFilter;
pub use replies::{KnownReplies, ReplyInfo, has_two, king_line_mask, quiet_steps};
pub use threats::{attacks_of, squares_between, unpinnable_pieces};
