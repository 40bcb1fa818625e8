//! Minimax at a fixed depth, over any memo and in slices.
//!
//! `Stack::step` is alpha-beta over the frames of `search_nodes`, from the root down; `Search`
//! counts its steps in slices, and its contracts say what it promises. Values and best moves are
//! those of `minimax`. A step enters a node, leaves a node, or settles one without entering it: a
//! child by the memo or by mate distance, a child or the root if at most one ply is left. `Ranks`
//! keeps the best moves of a root for MultiPV.
#![tactic(auto)]

mod found;
mod full_search;
mod memo;
mod ranks;
mod sliced_search;
mod stack;

pub use found::Found;
pub use full_search::search;
pub use memo::{Memo, NoMemo};
pub use minimax::{Entry, INFINITY, MATE, SEARCH_DEPTH_MAX};
pub use ranks::{MULTI_PV_MAX, Ranks};
pub use sliced_search::Search;
