//! The request of a `go`.

use shogi_core::Position;
use shogi_eval::Eval;
use usi_lines::Hold;

/// The request of a `go`: position, evaluation, number of lines, depth in plies, and what its
/// bestmove is held until.
#[derive(Clone, Copy, Debug)]
pub struct GoRequest {
    pub position: Position,
    pub eval: Eval,
    pub multi_pv: u8,
    pub depth: u8,
    pub hold: Hold,
}
