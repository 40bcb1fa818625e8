//! What a line of the job `measure` asks for.

use shogi_core::{Position, PositionFault};
use shogi_eval::Eval;
use shogi_sfen::{SfenFault, read_number, read_position, words};
use std::fmt;

/// The greatest depth.
const DEPTH_MAX: u32 = 16;

/// The most entries of a table.
const ENTRIES_MAX: u32 = 1_000_000;

/// The longest lines that a session is sent, in bytes.
const LINES_MAX: usize = 4000;

/// What a line asks for.
#[derive(Clone, Copy, Debug)]
pub enum Request<'a> {
    /// Count the sequences of so many legal moves.
    Perft {
        depth: u8,
        position: Position,
    },
    /// Search for the value and the best move under an evaluation, over a new table of so many entries, or
    /// over none where they are 0.
    Search {
        depth: u8,
        entries: usize,
        eval: Eval,
        position: Position,
    },
    /// Count the steps of a session over such a table. It is sent these lines, each but the last ended by `;`.
    Steps {
        entries: usize,
        lines: &'a [u8],
    },
}

/// Why a line could not be answered.
#[derive(Clone, Copy, Debug, PartialEq, Eq)]
pub enum Refusal {
    /// The first word is no request.
    UnknownWord,
    /// A depth is missing, or is not a number from 0 to 16.
    BadDepth,
    /// A number of entries is missing, or is not a number from 0 to 1,000,000.
    BadEntries,
    /// The position has this fault.
    BadPosition(SfenFault),
    /// Words follow the request.
    FurtherWords,
    /// A session cannot be sent so much.
    TooLong,
    /// The line is not UTF-8.
    NotText,
    /// There is no memory for the table.
    OutOfMemory,
}

impl fmt::Display for Refusal {
    fn fmt<W: fmt::Write>(&self, f: &mut fmt::Formatter<W>) -> fmt::Result {
        let reason = match self {
            Refusal::UnknownWord => "the first word is none of `perft`, `search`, `steps`",
            Refusal::BadDepth => "the depth is not a number from 0 to 16",
            Refusal::BadEntries => "the entries are not a number from 0 to 1000000",
            Refusal::BadPosition(fault) => fault_reason(*fault),
            Refusal::FurtherWords => "words follow the request",
            Refusal::TooLong => "the lines have more than 4000 bytes",
            Refusal::NotText => "it is not UTF-8",
            Refusal::OutOfMemory => "there is no memory for the table",
        };
        write!(f, "{reason}")
    }
}

/// Why a position is refused.
fn fault_reason(fault: SfenFault) -> &'static str {
    match fault {
        SfenFault::BadBoard => "the position is neither `startpos` nor begins with a board",
        SfenFault::BadSide => "the side to move is neither `b` nor `w`",
        SfenFault::BadHand => "the hands are missing or cannot be read",
        SfenFault::Invalid(PositionFault::TooMany) =>
            "there are more pieces of a kind than a set has",
        SfenFault::Invalid(PositionFault::TwoKings) => "a side has two kings",
        SfenFault::Invalid(PositionFault::TwoPawns) => "a side has two unpromoted pawns on a file",
        SfenFault::Invalid(PositionFault::DeadPiece) => "a piece stands where it can never move",
        SfenFault::Invalid(PositionFault::KingOpen) => "the side that is not to move is in check",
    }
}

/// The number of a word, where there is one and it is at most `most`.
fn read_up_to(word: Option<&[u8]>, most: u32) -> Option<u32> {
    let number = read_number(word?, most.saturating_add(1))?;
    if number > most { None } else { Some(number) }
}

fn read_depth(word: Option<&[u8]>) -> Result<u8, Refusal> {
    match read_up_to(word, DEPTH_MAX) {
        Some(depth) => Ok(depth.min(DEPTH_MAX) as u8),
        None => Err(Refusal::BadDepth),
    }
}

fn read_entries(word: Option<&[u8]>) -> Result<usize, Refusal> {
    match read_up_to(word, ENTRIES_MAX) {
        Some(entries) => Ok(entries as usize),
        None => Err(Refusal::BadEntries),
    }
}

/// The evaluation whose name begins the text, and what follows; `Plain` where none does.
fn read_eval(text: &[u8]) -> (Eval, &[u8]) {
    let mut rest = words(text);
    match rest.next() {
        Some(b"Plain") => (Eval::Plain, rest.rest()),
        Some(b"Hand") => (Eval::Hand, rest.rest()),
        Some(b"Exchange") => (Eval::Exchange, rest.rest()),
        _ => (Eval::Plain, text),
    }
}

/// The position, where no word stands in the text after it.
fn alone(position: Position, text: &[u8]) -> Result<Position, Refusal> {
    match words(text).next() {
        Some(_) => Err(Refusal::FurtherWords),
        None => Ok(position),
    }
}

/// The position that ends a line: `startpos` or an SFEN, and the opening position where there is none.
fn read_place(text: &[u8]) -> Result<Position, Refusal> {
    let mut rest = words(text);
    match rest.next() {
        None => Ok(Position::start()),
        Some(b"startpos") => alone(Position::start(), rest.rest()),
        Some(_) => match read_position(text) {
            Ok((position, end)) => alone(position, text.get(end..).unwrap_or(b"")),
            Err(fault) => Err(Refusal::BadPosition(fault)),
        },
    }
}

/// The request of a line, its depth at most 16 and its entries at most 1,000,000, or why it has none: the
/// first fault from the left.
pub fn read(line: &str) -> Result<Request<'_>, Refusal> {
    let mut rest = words(line.as_bytes());
    match rest.next() {
        Some(b"perft") => {
            let depth = read_depth(rest.next())?;
            let position = read_place(rest.rest())?;
            Ok(Request::Perft { depth, position })
        }
        Some(b"search") => {
            let depth = read_depth(rest.next())?;
            let entries = read_entries(rest.next())?;
            let (eval, place) = read_eval(rest.rest());
            let position = read_place(place)?;
            Ok(Request::Search {
                depth,
                entries,
                eval,
                position,
            })
        }
        Some(b"steps") => {
            let entries = read_entries(rest.next())?;
            let lines = rest.rest();
            if lines.len() > LINES_MAX {
                return Err(Refusal::TooLong);
            }
            Ok(Request::Steps { entries, lines })
        }
        _ => Err(Refusal::UnknownWord),
    }
}

#[cfg(test)]
mod tests;
