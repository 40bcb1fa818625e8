//! The state of a session between two lines.

use shogi_core::{Move, Position};
use usi_lines::Hold;
use usi_texts::{Options, Setup};

/// A `bestmove` that is held back, and until when.
#[derive(Clone, Copy, Debug, PartialEq, Eq)]
pub struct HeldBestmove {
    pub best: Option<Move>,
    pub ponder: Option<Move>,
    pub until: Hold,
}

/// The position, the options, the held `bestmove`, and whether the session is over. No command
/// changes the setup.
#[derive(Clone, Copy, Debug)]
pub struct State {
    pub position: Position,
    pub options: Options,
    pub setup: Setup,
    pub held: Option<HeldBestmove>,
    pub is_over: bool,
}
