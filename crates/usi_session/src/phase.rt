//! The phase of a running `go` within a depth.

use crate::pv_walk::PvWalk;
use shogi_core::Move;
use shogi_search::Ranks;

/// A root move whose child is searched, and the ranks of the moves before it.
#[derive(Drop)]
pub struct Child {
    pub root_move: Move,
    pub ranks: Ranks,
}

/// The ranks of all root moves, and the number of lines done.
#[derive(Drop)]
pub struct Listed {
    pub ranks: Ranks,
    pub lines_done: u8,
}

/// A walk along the pv of a line; with several lines, also the list of them.
#[derive(Drop)]
pub struct PvLine {
    pub walk: PvWalk,
    pub listed: Option<Listed>,
}

/// With several lines, the root moves are ranked first; then the pv of each line is walked.
#[derive(Drop)]
pub enum Phase {
    /// The child of a root move is searched for the worth of the move.
    AtMove(Child),
    /// The pv of a line is walked; when the walk ends, the line is whole.
    AtLine(PvLine),
}
