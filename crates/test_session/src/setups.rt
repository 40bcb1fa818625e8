//! Sessions under setups of their own.

use crate::rows::assert_answer;
use shogi_eval::Eval;
use shogi_search::NoMemo;
use std::alloc::Global;
use std::process::Abort;
use std::test::Fail;
use test_facade::OpaqueSession;
use test_support::rows::Row;

// More steps than any of these sessions makes.
const ENOUGH: u64 = 1_000_000;

// The session answers the row.
fn assert_says(
    rt: &impl Abort,
    alloc: Global,
    mut session: OpaqueSession<Global>,
    row: Row,
) -> Result<(), Fail> {
    session.feed(row.sent.as_bytes())?;
    session.work(&mut NoMemo, ENOUGH)?;
    assert_answer(rt, alloc, &row, session.output())
}

#[test]
fn usi_shows_the_setup(rt: HostRuntime) -> Result<(), Fail> {
    let alloc = rt.alloc();
    let session = OpaqueSession::under(alloc, 2, 4, 3, Eval::Exchange)?;
    let row = Row {
        sent: "usi\n",
        answer: &[
            "id name Shared Shogi Host\nid author Shared Shogi Host Team\n",
            "option name Depth type spin default 2 min 1 max 4\n",
            "option name Eval type combo default Exchange var Plain var Hand var Exchange\n",
            "option name MultiPV type spin default 3 min 1 max 8\nusiok\n",
        ],
    };
    assert_says(&rt, alloc, session, row)?;
    let session = OpaqueSession::under(alloc, 16, 16, 8, Eval::Hand)?;
    let row = Row {
        sent: "usi\n",
        answer: &[
            "id name Shared Shogi Host\nid author Shared Shogi Host Team\n",
            "option name Depth type spin default 16 min 1 max 16\n",
            "option name Eval type combo default Hand var Plain var Hand\n",
            "option name MultiPV type spin default 8 min 1 max 8\nusiok\n",
        ],
    };
    assert_says(&rt, alloc, session, row)
}

// The greatest depth is two plies: `Depth` is held to it, and so is the depth that a `go` names.
#[test]
fn depths_are_held_to_the_greatest(rt: HostRuntime) -> Result<(), Fail> {
    let alloc = rt.alloc();
    let session = OpaqueSession::under(alloc, 1, 2, 1, Eval::Plain)?;
    let row = Row {
        sent: "go\nsetoption name Depth value 9\ngo\nsetoption name Depth value 1\ngo depth 16\ngo\n",
        answer: &[
            "info depth 1 score cp 0 pv 1g1f\nbestmove 1g1f\n",
            "info depth 1 score cp 0 pv 1g1f\ninfo depth 2 score cp 0 pv 1g1f 1a1b\n",
            "bestmove 1g1f ponder 1a1b\n",
            "info depth 1 score cp 0 pv 1g1f\ninfo depth 2 score cp 0 pv 1g1f 1a1b\n",
            "bestmove 1g1f ponder 1a1b\n",
            "info depth 1 score cp 0 pv 1g1f\nbestmove 1g1f\n",
        ],
    };
    assert_says(&rt, alloc, session, row)
}

// A pawn takes a silver that a gold guards: 1,000 for Black, and 200 less where the gold takes back. Any
// other move leaves Black 1,000 behind. With two lines at depth 1 each move is what it is worth, and the walks
// have no ply to go.
#[test]
fn captures_are_settled_with_several_lines(rt: HostRuntime) -> Result<(), Fail> {
    let alloc = rt.alloc();
    let session = OpaqueSession::under(alloc, 1, 1, 2, Eval::Exchange)?;
    let row = Row {
        sent: "position sfen 4k4/9/4g4/4s4/4P4/9/9/9/4K4 b - 1
go
setoption name Eval value Plain
go
setoption name Eval value Exchange
setoption name MultiPV value 1
go
",
        answer: &[
            "info depth 1 multipv 1 score cp -200 pv 5e5d\n",
            "info depth 1 multipv 2 score cp -1000 pv 5i4h\nbestmove 5e5d\n",
            "info depth 1 multipv 1 score cp 0 pv 5e5d\n",
            "info depth 1 multipv 2 score cp -1000 pv 5i4h\nbestmove 5e5d\n",
            "info depth 1 score cp -200 pv 5e5d\nbestmove 5e5d\n",
        ],
    };
    assert_says(&rt, alloc, session, row)
}

// A setup of another evaluation does not offer `Exchange`: it is passed over, and what was set stays. Under
// `Hand` the silver is worth 550 in hand.
#[test]
fn an_evaluation_that_is_not_offered_is_passed_over(rt: HostRuntime) -> Result<(), Fail> {
    let alloc = rt.alloc();
    let session = OpaqueSession::under(alloc, 1, 16, 1, Eval::Plain)?;
    let row = Row {
        sent: "position sfen 4k4/9/4g4/4s4/4P4/9/9/9/4K4 b - 1
setoption name Eval value Exchange
go
setoption name Eval value Hand
setoption name Eval value Exchange
go
",
        answer: &[
            "info depth 1 score cp 0 pv 5e5d\nbestmove 5e5d\n",
            "info depth 1 score cp 50 pv 5e5d\nbestmove 5e5d\n",
        ],
    };
    assert_says(&rt, alloc, session, row)
}
