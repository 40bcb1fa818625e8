//! Worked rows that tests name: what a fresh session is sent, and what it answers. All rows stand in the
//! files of the crate `test_rows`.

use std::alloc::{AllocError, Global};

/// What a fresh session is sent, and the parts of its answer, one after another.
#[derive(Clone, Copy, Debug)]
pub struct Row {
    pub sent: &'static str,
    pub answer: &'static [&'static str],
}

/// The answer to `usi`.
pub const USI: &str = "id name Shared Shogi Host
id author Shared Shogi Host Team
option name Depth type spin default 3 min 1 max 16
option name Eval type combo default Plain var Plain var Hand
option name MultiPV type spin default 1 min 1 max 8
usiok
";

pub(crate) const READY: &str = "readyok\n";

/// What is said of the opening position at depth 1.
pub const INFO_ONE: &str = "info depth 1 score cp 0 pv 1g1f\n";

pub(crate) const BEST_ONE: &str = "bestmove 1g1f\n";

/// What `go depth 1` says of the opening position.
pub const INFO_AND_BEST_ONE: &str = "info depth 1 score cp 0 pv 1g1f\nbestmove 1g1f\n";

const INFO_TWO: &str = "info depth 1 score cp 0 pv 1g1f
info depth 2 score cp 0 pv 1g1f 1a1b
";

pub(crate) const BEST_TWO: &str = "bestmove 1g1f ponder 1a1b\n";

/// What `go` says of the opening position at depths 1 to 3.
pub const INFO_THREE: &str = "info depth 1 score cp 0 pv 1g1f
info depth 2 score cp 0 pv 1g1f 1a1b
info depth 3 score cp 200 pv 7g7f 4c4d 8h4d
";

/// The same where a piece in hand is worth a tenth more.
const INFO_THREE_BY_HAND: &str = "info depth 1 score cp 0 pv 1g1f
info depth 2 score cp 0 pv 1g1f 1a1b
info depth 3 score cp 210 pv 7g7f 4c4d 8h4d
";

pub(crate) const BEST_THREE: &str = "bestmove 7g7f ponder 4c4d\n";

/// The opening position at depth 3, as a front end on another system sends it.
pub const CUT: Row = Row {
    sent: "position startpos\r\ngo depth 3\r\n",
    answer: &[INFO_THREE, BEST_THREE],
};

/// The program's stored run.
pub const STORED: Row = Row {
    sent: "usi\nisready\nposition startpos moves 7g7f\nquit\nisready\n",
    answer: &[USI, READY],
};

/// The opening position at depths 1 to 3.
pub const SLICED: [Row; 3] = [
    Row {
        sent: "go depth 1\n",
        answer: &[INFO_ONE, BEST_ONE],
    },
    Row {
        sent: "go depth 2\n",
        answer: &[INFO_TWO, BEST_TWO],
    },
    Row {
        sent: "go depth 3\nisready\n",
        answer: &[INFO_THREE, BEST_THREE, READY],
    },
];

/// The opening position at depth 3.
pub const OPENING: Row = Row {
    sent: "position startpos\ngo depth 3\n",
    answer: &[INFO_THREE, BEST_THREE],
};

/// The same with pieces in hand that are worth more.
pub const OPENING_BY_HAND: Row = Row {
    sent: "setoption name Eval value hand\nsetoption name Eval value Hand\nusinewgame\ngo\n",
    answer: &[INFO_THREE_BY_HAND, BEST_THREE],
};

/// The parts, one after another.
pub fn joined(alloc: Global, parts: &[&str]) -> Result<String, AllocError> {
    let mut text = String::new(alloc);
    for part in parts {
        text.push_str(part)?;
    }
    Ok(text)
}
