//! Worked rows of `go` with several lines: what a fresh session is sent, and what it answers.

use crate::rows::{BEST_TWO, Row};

/// What two lines say of the opening position at depth 1: no move gains or loses anything there.
pub const TWO_AT_ONE: &str = "info depth 1 multipv 1 score cp 0 pv 1g1f
info depth 1 multipv 2 score cp 0 pv 1i1h
";

// At depth 2 neither, and 1a1b is White's move of least code.
const TWO_AT_TWO: &str = "info depth 2 multipv 1 score cp 0 pv 1g1f 1a1b
info depth 2 multipv 2 score cp 0 pv 1i1h 1a1b
";

// White's king has two moves: after either one a gold mates it.
const KING_OF_TWO_MOVES: &str = "info depth 1 multipv 1 score cp -1200 pv 5a4a
info depth 1 multipv 2 score cp -1200 pv 5a6a
info depth 2 multipv 1 score mate -2 pv 5a4a G*4b
info depth 2 multipv 2 score mate -2 pv 5a6a G*6b
bestmove 5a4a ponder G*4b
";

/// The opening position at depth 2 with two lines.
pub const TWO_PLIES: Row = Row {
    sent: "setoption name MultiPV value 2\ngo depth 2\n",
    answer: &[TWO_AT_ONE, TWO_AT_TWO, BEST_TWO],
};

/// A mate, then a promotion that costs the pawn one ply later, then the drops that do not.
pub const THREE_OF_A_MATE: Row = Row {
    sent: "setoption name MultiPV value 3\nposition sfen 4k4/9/4P4/9/9/9/9/9/9 b G 1\ngo depth 2\n",
    answer: &[
        "info depth 1 multipv 1 score mate 1 pv G*5b
info depth 1 multipv 2 score cp 1200 pv 5c5b+
info depth 1 multipv 3 score cp 700 pv 5c5b
info depth 2 multipv 1 score mate 1 pv G*5b
info depth 2 multipv 2 score cp 700 pv G*1a 5a4a
info depth 2 multipv 3 score cp 700 pv G*1b 5a4a
bestmove G*5b
",
    ],
};

/// A king that has fewer moves than there are lines.
pub const MORE_LINES_THAN_MOVES: Row = Row {
    sent: "setoption name MultiPV value 9\nposition sfen 4k4/9/4G4/9/9/9/9/9/9 w G 1\ngo depth 2\n",
    answer: &[KING_OF_TWO_MOVES],
};
