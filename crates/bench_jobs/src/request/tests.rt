use super::{Refusal, Request, read};
use Refusal::{BadDepth, BadEntries, BadPosition, FurtherWords, UnknownWord};
use SfenFault::{BadBoard, BadHand, BadSide, Invalid};
use shogi_core::{Position, PositionFault};
use shogi_eval::Eval;
use shogi_sfen::{SfenFault, write_position};
use std::process::Abort;
use std::test::Fail;

const START: &str = "lnsgkgsnl/1r5b1/ppppppppp/9/9/9/PPPPPPPPP/1B5R1/LNSGKGSNL b -";

const KINGS: &str = "4k4/9/9/9/9/9/9/9/4K4 w 2Pb";

/// Lines with their depth, their entries, if they are of a search, and their position.
const REQUESTS: [(&str, u8, Option<usize>, &str); 16] = [
    ("perft 0", 0, None, START),
    ("perft 16", 16, None, START),
    ("perft 00000000000000000000000000000007", 7, None, START),
    ("  perft  3  ", 3, None, START),
    ("\tperft\t3\t startpos \t", 3, None, START),
    ("perft 2 4k4/9/9/9/9/9/9/9/4K4 w 2Pb", 2, None, KINGS),
    ("perft 2 4k4/9/9/9/9/9/9/9/4K4 w bPP 17", 2, None, KINGS),
    (
        "perft 2\t4k4/9/9/9/9/9/9/9/4K4\tw\t2Pb\t000 ",
        2,
        None,
        KINGS,
    ),
    ("search 0 0", 0, Some(0), START),
    ("search 16 1", 16, Some(1), START),
    ("search 3 1000000", 3, Some(1_000_000), START),
    (
        "search 3 000000000000000000000001000000",
        3,
        Some(1_000_000),
        START,
    ),
    ("search 3 4096 startpos", 3, Some(4096), START),
    ("search\t3\t \t0\tstartpos\t", 3, Some(0), START),
    ("search 3 9 4k4/9/9/9/9/9/9/9/4K4 w 2Pb", 3, Some(9), KINGS),
    (
        "search 3 9 4k4/9/9/9/9/9/9/9/4K4 w 2Pb 1",
        3,
        Some(9),
        KINGS,
    ),
];

/// Lines that are refused; of several faults the first one from the left counts.
const REFUSED: [(&str, Refusal); 48] = [
    ("", UnknownWord),
    (" \t ", UnknownWord),
    ("Perft 3", UnknownWord),
    ("perft3", UnknownWord),
    ("go depth 3", UnknownWord),
    ("3 perft", UnknownWord),
    ("perft", BadDepth),
    ("perft 17", BadDepth),
    ("perft 999999999999999999999999999999", BadDepth),
    ("perft -1", BadDepth),
    ("perft +3", BadDepth),
    ("perft 3.0", BadDepth),
    ("perft startpos", BadDepth),
    ("search", BadDepth),
    ("search 17 0", BadDepth),
    ("search x 0", BadDepth),
    ("search 3", BadEntries),
    ("search 3 1000001", BadEntries),
    ("search 3 999999999999999999999999999999", BadEntries),
    ("search 3 -1", BadEntries),
    ("search 3 startpos", BadEntries),
    ("steps", BadEntries),
    ("steps 1000001 go depth 3", BadEntries),
    ("perft 3 0", BadPosition(BadBoard)),
    ("perft 3 Startpos", BadPosition(BadBoard)),
    ("perft 3 9/9/9/9/9/9/9/9 b -", BadPosition(BadBoard)),
    (
        "search 3 0 sfen 9/9/9/9/9/9/9/9/9 b -",
        BadPosition(BadBoard),
    ),
    ("perft 3 9/9/9/9/9/9/9/9/9", BadPosition(BadSide)),
    ("search 3 0 9/9/9/9/9/9/9/9/9 W -", BadPosition(BadSide)),
    ("perft 3 9/9/9/9/9/9/9/9/9 b", BadPosition(BadHand)),
    ("search 3 0 9/9/9/9/9/9/9/9/9 b 0P", BadPosition(BadHand)),
    (
        "perft 3 9/9/9/9/9/9/9/9/9 b 19P",
        BadPosition(Invalid(PositionFault::TooMany)),
    ),
    (
        "perft 3 4k4/9/9/9/9/9/9/9/3KK4 b -",
        BadPosition(Invalid(PositionFault::TwoKings)),
    ),
    (
        "perft 3 4k4/9/9/4P4/9/4P4/9/9/4K4 b -",
        BadPosition(Invalid(PositionFault::TwoPawns)),
    ),
    (
        "perft 3 4k4/9/9/9/9/9/9/9/4p3K b -",
        BadPosition(Invalid(PositionFault::DeadPiece)),
    ),
    (
        "perft 3 4k4/4P4/9/9/9/9/9/9/9 b -",
        BadPosition(Invalid(PositionFault::KingOpen)),
    ),
    ("search 3 0 exchange startpos", BadPosition(BadBoard)),
    ("search 3 0 Hand Plain startpos", BadPosition(BadBoard)),
    ("perft 3 Hand startpos", BadPosition(BadBoard)),
    ("perft 3 startpos 1", FurtherWords),
    ("search 3 0 startpos moves 7g7f", FurtherWords),
    ("perft 3 9/9/9/9/9/9/9/9/9 b - moves", FurtherWords),
    ("search 3 0 9/9/9/9/9/9/9/9/9 b - 1 1", FurtherWords),
    ("search 17 1000001 9 b", BadDepth),
    ("search 16 1000001 9 b", BadEntries),
    ("search 16 1000000 9 b", BadPosition(BadBoard)),
    ("perft 17 startpos more", BadDepth),
    (
        "perft 16 9/9/9/9/9/9/9/9/9 b 19P more",
        BadPosition(Invalid(PositionFault::TooMany)),
    ),
];

fn is_written(p: &Position, text: &str) -> bool {
    write_position(p).as_slice() == text.as_bytes()
}

// Whether the request is this one.
fn is_wanted(request: &Request<'_>, wanted: (u8, Option<usize>), text: &str) -> bool {
    match request {
        Request::Perft { depth, position } => {
            (*depth, None) == wanted && is_written(position, text)
        }
        Request::Search {
            depth,
            entries,
            position,
            ..
        } => (*depth, Some(*entries)) == wanted && is_written(position, text),
        Request::Steps { .. } => false,
    }
}

// Whether the line asks for this.
fn asks(line: &str, wanted: (u8, Option<usize>), text: &str) -> bool {
    match read(line) {
        Ok(request) => is_wanted(&request, wanted, text),
        Err(_) => false,
    }
}

#[test]
fn requests_of_lines(rt: HostRuntime) {
    for (line, depth, entries, position) in REQUESTS {
        assert!(rt; asks(line, (depth, entries), position), "for {line:?}");
    }
}

/// Searches with their evaluation, each of the position of two kings.
const EVALUATIONS: [(&str, Eval); 6] = [
    ("search 3 9 4k4/9/9/9/9/9/9/9/4K4 w 2Pb", Eval::Plain),
    ("search 3 9 Plain 4k4/9/9/9/9/9/9/9/4K4 w 2Pb", Eval::Plain),
    ("search 3 9 Hand 4k4/9/9/9/9/9/9/9/4K4 w 2Pb", Eval::Hand),
    (
        "search 3 9 Exchange 4k4/9/9/9/9/9/9/9/4K4 w 2Pb",
        Eval::Exchange,
    ),
    (
        "search\t3\t9\tHand\t4k4/9/9/9/9/9/9/9/4K4 w 2Pb",
        Eval::Hand,
    ),
    (
        "search 3 9  Exchange  4k4/9/9/9/9/9/9/9/4K4 w 2Pb 1",
        Eval::Exchange,
    ),
];

#[test]
fn evaluations_of_lines(rt: HostRuntime) -> Result<(), Fail> {
    for (line, wanted) in EVALUATIONS {
        assert!(rt; asks(line, (3, Some(9)), KINGS), "for {line:?}");
        match read(line) {
            Ok(Request::Search { eval, .. }) => assert!(rt; eval == wanted, "for {line:?}"),
            _ => return Err(Fail::from("a search")),
        }
    }
    Ok(())
}

// Whether the line is refused so.
fn is_refused(line: &str, wanted: Refusal) -> bool {
    match read(line) {
        Ok(_) => false,
        Err(refusal) => refusal == wanted,
    }
}

#[test]
fn refused_lines(rt: HostRuntime) {
    for (line, wanted) in REFUSED {
        assert!(rt; is_refused(line, wanted), "for {line:?}");
    }
}
