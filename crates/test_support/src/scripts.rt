//! Worked scripts that tests name: their lines, and what is written for them. All scripts stand in a file of
//! the crate `test_rows`.

use crate::rows::INFO_AND_BEST_ONE;

/// A script, the most sessions that may be open, and the parts of its output.
#[derive(Clone, Copy, Debug)]
pub struct Script {
    pub text: &'static str,
    pub slots: usize,
    pub output: &'static [&'static str],
}

const DEPTH_THREE: &str = "info depth 1 score cp 0 pv 1g1f
info depth 2 score cp 0 pv 1g1f 1a1b
info depth 3 score cp 200 pv 7g7f 4c4d 8h4d
bestmove 7g7f ponder 4c4d
";

/// A search to depth 1 and one to depth 3.
pub const TWO_SESSIONS: Script = Script {
    text: "+A\n+B\nA go depth 1\nB go depth 3\nA quit\nB quit\n",
    slots: 2,
    output: &["== A\n", INFO_AND_BEST_ONE, "== B\n", DEPTH_THREE],
};

/// A name that is refused, and one that is used again.
pub const REFUSED_AND_AGAIN: Script = Script {
    text: "+A\n+B\nB usi\n-B\nA setoption name Depth value 1\n-A\n+A\nA go\n-A\n",
    slots: 1,
    output: &["== A\n", "== B\n", "refused 1\n", "== A\n", DEPTH_THREE],
};

/// Two sessions without a search.
pub const TWO_READY: Script = Script {
    text: "+Z\n+A\nA isready\nZ usinewgame\nA isready\n",
    slots: 2,
    output: &["== Z\n", "== A\n", "readyok\n", "readyok\n"],
};
