//! Lists of the best moves, worked by hand.

ghost use Rattle.std.specs.Prelude.{◌≡◌};
ghost use Rattle.shogi_core.specs.Codes.{code_of};
ghost use Rattle.shogi_moves.specs.Rising.{is_in};
ghost use Rattle.shogi_search.specs.Ranked.{codes_in};

use shogi_core::Move;
use shogi_search::{MULTI_PV_MAX, Ranks};
use std::marker::Model;
use std::process::Abort;
use test_support::{holds, same};

// Whether the list has the move.
fn has(pairs: &[(Move, i32)], m: &Move) -> bool
    ensures { result ≡ is_in (code_of m.now) (codes_in pairs.now) }
{
    for pair in pairs {
        if m.code() == pair.0.code() {
            return true;
        }
    }
    false
}

/// A list of the best moves, on 1 to 8 lines. What its contracts say stays within.
#[derive(Drop)]
pub struct TestRanks {
    ranks: Ranks,
}

impl Model for TestRanks {
    ghost Value = { Unit };

    ghost view = { λ _. tt };
}

impl TestRanks {
    pub fn new(lines: usize) -> TestRanks {
        TestRanks {
            ranks: Ranks::new(lines.clamp(1, MULTI_PV_MAX)),
        }
    }

    pub fn list(&self) -> &[(Move, i32)] {
        self.ranks.list()
    }

    pub fn move_alpha(&self) -> Option<i32> {
        self.ranks.move_alpha()
    }

    /// Ends the test where the move is listed.
    pub fn offer<R: Abort>(&mut self, rt: &R, m: Move, value: i32) {
        assert!(*rt; !has(self.ranks.list(), &m));
        self.ranks.offer(m, value);
    }
}

// The list has the moves of these codes with these values, in this order.
fn assert_list(rt: &impl Abort, ranks: &TestRanks, wanted: &[(u16, i32)]) {
    let list = ranks.list();
    same!(*rt; list.len(), wanted.len());
    for ((m, value), wanted) in list.iter().zip(wanted) {
        same!(*rt; (m.code(), *value), *wanted);
    }
}

// The list after the moves of these codes are offered with these values.
fn assert_offered(rt: &impl Abort, lines: usize, offers: &[(u16, i32)], wanted: &[(u16, i32)]) {
    let mut ranks = TestRanks::new(lines);
    assert_list(rt, &ranks, &[]);
    for (code, value) in offers {
        let m = Move::of_code(*code).expect(rt, "a move");
        ranks.offer(rt, m, *value);
    }
    assert_list(rt, &ranks, wanted);
}

// Greater values come first, and of equal ones lesser codes.
#[test]
fn order(rt: HostRuntime) {
    let wanted = [(7000, 200), (10, 100), (30, 100), (2, -50)];
    for offers in [
        [(7000, 200), (10, 100), (30, 100), (2, -50)],
        [(2, -50), (30, 100), (10, 100), (7000, 200)],
        [(30, 100), (7000, 200), (2, -50), (10, 100)],
        [(10, 100), (2, -50), (7000, 200), (30, 100)],
    ] {
        assert_offered(&rt, 8, &offers, &wanted);
        assert_offered(&rt, 4, &offers, &wanted);
        assert_offered(&rt, 3, &offers, &wanted[..3]);
        assert_offered(&rt, 2, &offers, &wanted[..2]);
        assert_offered(&rt, 1, &offers, &wanted[..1]);
    }
}

// Of nine moves the least one goes, wherever it was offered.
#[test]
fn eight_of_nine(rt: HostRuntime) {
    let wanted = [
        (9, 30000),
        (8, 8),
        (7, 7),
        (6, 6),
        (5, 5),
        (4, 4),
        (3, 3),
        (2, 2),
    ];
    let offers = [
        (5, 5),
        (4, 4),
        (1, -30016),
        (6, 6),
        (3, 3),
        (7, 7),
        (2, 2),
        (8, 8),
        (9, 30000),
    ];
    assert_offered(&rt, 8, &offers, &wanted);
    assert_offered(&rt, MULTI_PV_MAX, &offers, &wanted);
}

// The value on the last line after each offer: none until every line has a move, and then these.
fn assert_thresholds(rt: &impl Abort, lines: usize, offers: &[(u16, i32)], wanted: &[i32]) {
    let mut ranks = TestRanks::new(lines);
    same!(*rt; ranks.move_alpha(), None);
    let mut left = wanted.iter();
    for (at, (code, value)) in offers.iter().enumerate() {
        let m = Move::of_code(*code).expect(rt, "a move");
        ranks.offer(rt, m, *value);
        let wanted = if at + 1 < lines {
            None
        } else {
            left.next().copied()
        };
        holds!(*rt; ranks.move_alpha() == wanted, at);
    }
}

// Nine moves, four of them worth the same, on one to eight lines.
#[test]
fn thresholds(rt: HostRuntime) {
    let offers = [
        (2, -50),
        (30, 100),
        (10, 100),
        (7000, 200),
        (40, 100),
        (5, -60),
        (6, 300),
        (8, 250),
        (9, 100),
    ];
    assert_thresholds(
        &rt,
        1,
        &offers,
        &[-50, 100, 100, 200, 200, 200, 300, 300, 300],
    );
    assert_thresholds(&rt, 2, &offers, &[-50, 100, 100, 100, 100, 200, 250, 250]);
    assert_thresholds(&rt, 3, &offers, &[-50, 100, 100, 100, 100, 200, 200]);
    assert_thresholds(&rt, 4, &offers, &[-50, 100, 100, 100, 100, 100]);
    assert_thresholds(&rt, 5, &offers, &[-50, -50, 100, 100, 100]);
    assert_thresholds(&rt, 6, &offers, &[-60, -50, 100, 100]);
    assert_thresholds(&rt, 7, &offers, &[-60, -50, 100]);
    assert_thresholds(&rt, 8, &offers, &[-60, -50]);
}
