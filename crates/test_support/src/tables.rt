//! Rows and scripts, each by a call: what names one itself is proved with its text.

use crate::pv_lines::{MORE_LINES_THAN_MOVES, THREE_OF_A_MATE, TWO_PLIES};
use crate::rows::{self, CUT, OPENING, OPENING_BY_HAND, Row, STORED};
use crate::scripts::{REFUSED_AND_AGAIN, Script, TWO_READY, TWO_SESSIONS};

pub fn opening() -> Row {
    OPENING
}

pub fn opening_by_hand() -> Row {
    OPENING_BY_HAND
}

pub fn sliced() -> [Row; 3] {
    rows::SLICED
}

pub fn cut() -> Row {
    CUT
}

pub fn stored() -> Row {
    STORED
}

pub fn two_plies() -> Row {
    TWO_PLIES
}

pub fn three_of_a_mate() -> Row {
    THREE_OF_A_MATE
}

pub fn more_lines_than_moves() -> Row {
    MORE_LINES_THAN_MOVES
}

pub fn two_sessions() -> Script {
    TWO_SESSIONS
}

pub fn refused_and_again() -> Script {
    REFUSED_AND_AGAIN
}

pub fn two_ready() -> Script {
    TWO_READY
}
