//! Worked texts and what they say, from the formats' own examples.

use crate::boards::{position, read};
use shogi_core::{Color, Kind, Position};
use shogi_sfen::{read_move, read_number, read_position, words, write_move, write_position};
use std::test::Fail;
use test_support::{holds, same};

/// The opening position.
const START: &str = "lnsgkgsnl/1r5b1/ppppppppp/9/9/9/PPPPPPPPP/1B5R1/LNSGKGSNL b -";

/// A position with White to move, and a number after it.
const MIDDLE_GAME: &str =
    "8l/1l+R2P3/p2pBG1pp/kps1p4/Nn1P2G2/P1P1P2PP/1PS6/1KSG3+r1/LN2+p3L w Sbgn3p 124";

#[test]
fn moves_of_texts(rt: HostRuntime) -> Result<(), Fail> {
    for (text, code) in [
        ("1a1b", 2),
        ("1g1f", 982),
        ("7g7f", (60 * 81 + 59) * 2),
        ("8h2b+", (70 * 81 + 10) * 2 + 1),
        ("G*5b", 13_483),
        ("1a1a", 0),
        ("5e5e+", (40 * 81 + 40) * 2 + 1),
        ("R*9i", 13_688),
    ] {
        let m = read(text)?;
        let again = m;
        same!(rt; again.code(), code);
        same!(rt; write_move(m).as_slice(), text.as_bytes());
    }
    Ok(())
}

#[test]
fn texts_of_no_move(rt: HostRuntime) {
    for text in [
        "7g7", "7g7f++", "p*5e", "K*5e", "0a1a", "7g7f=", "7g7j", "G*5j", "",
    ] {
        holds!(rt; read_move(text.as_bytes()).is_none());
    }
}

#[test]
fn words_and_the_rest(rt: HostRuntime) -> Result<(), Fail> {
    let mut rest = words(b" \tgo  depth\t3 ");
    same!(rt; rest.next().ok_or("a word")?, b"go".as_slice());
    same!(rt; rest.rest(), b"  depth\t3 ".as_slice());
    same!(rt; rest.next().ok_or("a word")?, b"depth".as_slice());
    same!(rt; rest.next().ok_or("a word")?, b"3".as_slice());
    holds!(rt; rest.next().is_none());
    same!(rt; rest.rest(), b" ".as_slice());
    Ok(())
}

#[test]
fn numbers_of_any_length(rt: HostRuntime) {
    same!(rt; read_number(b"007", 16), Some(7));
    same!(rt; read_number(b"18446744073709551617", 16), Some(16));
    same!(rt; read_number(b"", 16), None);
    same!(rt; read_number(b"1x", 16), None);
}

#[test]
fn ends_of_positions(rt: HostRuntime) -> Result<(), Fail> {
    for (text, index) in [
        ("9/9/9/9/9/9/9/9/9 b - 12 moves", 24),
        ("9/9/9/9/9/9/9/9/9 b - moves", 21),
        (" 9/9/9/9/54/9/9/9/9 b\tPP1G2P", 28),
        (MIDDLE_GAME, 78),
    ] {
        let (_, end) = read_position(text.as_bytes())?;
        same!(rt; end, index);
    }
    Ok(())
}

#[test]
fn positions_of_texts(rt: HostRuntime) -> Result<(), Fail> {
    holds!(rt; position(START)? == Position::start());
    let held = position("9/9/9/9/54/9/9/9/9 b PP1G2P2p")?;
    same!(rt; held.hand(Color::Black, Kind::Pawn), 4);
    same!(rt; held.hand(Color::White, Kind::Pawn), 2);
    same!(rt; held.hand(Color::Black, Kind::Gold), 1);
    Ok(())
}

#[test]
fn texts_of_positions(rt: HostRuntime) -> Result<(), Fail> {
    for (text, written) in [
        (START, START),
        (
            MIDDLE_GAME,
            "8l/1l+R2P3/p2pBG1pp/kps1p4/Nn1P2G2/P1P1P2PP/1PS6/1KSG3+r1/LN2+p3L w Sbgn3p",
        ),
        ("9/9/9/9/54/9/9/9/9 b PP1G2P", "9/9/9/9/9/9/9/9/9 b G4P"),
        ("9/9/9/9/9/9/9/9/9 w - 12 moves", "9/9/9/9/9/9/9/9/9 w -"),
        ("9/9/9/9/9/9/9/9/9 b 2b18Pr", "9/9/9/9/9/9/9/9/9 b 18Pr2b"),
    ] {
        same!(rt;
            write_position(&position(text)?).as_slice(),
            written.as_bytes()
        );
    }
    Ok(())
}

// The text of no words; the other faults are rows of the program `test_rows`.
#[test]
fn an_empty_text(rt: HostRuntime) {
    same!(rt; read_position(b"").err().map(|fault| fault.number()), Some(1));
}
