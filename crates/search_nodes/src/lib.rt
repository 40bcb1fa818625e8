//! The nodes of a search by alpha-beta: the order of their moves, and which are pruned.
//!
//! A `Frame` is a node under a window, while a search goes through its moves (`frame`). Their
//! order is `MovePicker`: some moves first (`priority_moves`, the last of them from `counter_moves`), then
//! captures, then the other moves, each by rising code. Moves that cannot matter are pruned in
//! `pruning`, by the window of `window`; two plies before the end one by one in `asked_move` and in
//! bulk in `pre_frontier`, by a `threat` and the rest of `reply_cache`. What a node is worth is
//! `value` of `minimax`.
#![tactic(auto)]

mod asked_move;
mod counter_moves;
mod frame;
mod move_picker;
mod pairs;
mod pre_frontier;
mod priority_moves;
mod pruning;
mod reply_cache;
mod threat;
mod window;

pub use counter_moves::CounterMoves;
pub use frame::{Frame, NodeState, leaf};
pub use move_picker::MovePicker;
pub use pairs::Refutations;
pub use priority_moves::PriorityMoves;
pub use reply_cache::ReplyCache;
pub use threat::{Threat, Threats};
