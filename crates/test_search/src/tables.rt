//! What a search leaves in a table, and what it finds there.

use crate::plain::children_of;
use crate::positions::position;
use crate::searches::search;
use shared_table::{SharedTable, TableFault};
use shogi_core::{Move, Position};
use shogi_eval::Eval;
use shogi_search::{Entry, Memo, NoMemo};
use std::alloc::Global;
use std::hash::{BuildHasherDefault, FoldHasher};
use std::process::Abort;
use std::test::Fail;
use test_support::{holds, same};

/// A table with a hash without a seed.
pub type TestTable = SharedTable<BuildHasherDefault<FoldHasher>, Global>;

/// A table of so many entries, 1 to 1,000,000.
pub fn table_of(alloc: Global, entries: usize) -> Result<TestTable, TableFault> {
    let hasher = BuildHasherDefault::<FoldHasher>::new();
    SharedTable::new(alloc, entries.clamp(1, 1_000_000), hasher)
}

/// Two kings and two pawns, far apart.
pub const TWO_PAWNS: &str = "4k4/4p4/9/9/9/9/9/4P4/4K4 b -";

/// White's king in a corner behind three pieces of its own, each on a line with it, and Black's alone.
const HEMMED_IN: &str = "7gk/7sp/9/9/9/9/9/9/4K4 b -";

/// Notes what a search finds, to a depth of at most 16.
pub fn note_search<M: Memo>(memo: &mut M, p: &Position, depth: u8) {
    let depth = depth.min(16);
    let found = shogi_search::search(p, Eval::Plain, depth, &mut NoMemo);
    memo.note(p, Eval::Plain, depth, Entry::Exact(found.value, found.best));
}

/// The steps of a search of the root where each child is known: it is entered, those of its children
/// that are not left out are answered, and it is left.
fn steps_over_children(alloc: Global, root: &Position, depth: u8) -> Result<u64, Fail> {
    let mut table = table_of(alloc, 100000)?;
    for child in children_of(alloc, root)?.as_slice() {
        search(&child.position, Eval::Plain, depth, &mut table);
    }
    Ok(search(root, Eval::Plain, depth.saturating_add(1), &mut table).steps)
}

// So many moves of the root are legal, and over known children all of these are answered. A root of depth 1
// is answered at once, and at depths 2 and 3 the table is not asked for the children.
fn assert_answered(
    rt: &impl Abort,
    alloc: Global,
    root: &Position,
    count: usize,
    depths: u8,
) -> Result<(), Fail> {
    same!(*rt; children_of(alloc, root)?.len(), count);
    for depth in 0..depths {
        let wanted = match depth {
            0 => 1,
            1 | 2 => search(root, Eval::Plain, depth.saturating_add(1), &mut NoMemo).steps,
            _ => (count as u64).saturating_add(2),
        };
        same!(*rt; steps_over_children(alloc, root, depth)?, wanted, depth);
    }
    Ok(())
}

#[test]
fn children_searched_before(rt: HostRuntime) -> Result<(), Fail> {
    assert_answered(&rt, rt.alloc(), &Position::start(), 30, 4)?;
    assert_answered(&rt, rt.alloc(), &position(TWO_PAWNS)?, 5, 8)?;
    assert_answered(&rt, rt.alloc(), &position(HEMMED_IN)?, 5, 4)
}

/// How many entries a search one ply deeper left of the positions after each move.
fn left_of(alloc: Global, root: &Position, depth: u8) -> Result<usize, Fail> {
    let mut table = table_of(alloc, 100000)?;
    search(root, Eval::Plain, depth.saturating_add(1), &mut table);
    let mut entries = 0usize;
    for child in children_of(alloc, root)?.as_slice() {
        let is_left = table.peek(&child.position, Eval::Plain, depth).is_some();
        entries = entries.saturating_add(usize::from(is_left));
    }
    Ok(entries)
}

/// What a search at depth 3 leaves of the positions after each move is exact, and of the best move it is
/// left.
fn assert_exactly_left(rt: &impl Abort, alloc: Global, root: &Position) -> Result<(), Fail> {
    let mut table = table_of(alloc, 100000)?;
    let found = search(root, Eval::Plain, 3, &mut table);
    let best = found.best.map(|m| m.code()).ok_or("a move")?;
    for child in children_of(alloc, root)?.as_slice() {
        match table.peek(&child.position, Eval::Plain, 2) {
            Some(Entry::Exact(value, _)) => {
                holds!(*rt; child.code != best || value.saturating_neg() == found.value);
            }
            left => holds!(*rt; child.code != best && left.is_none(), child.code),
        }
    }
    Ok(())
}

// Of the nodes of depth 1 only a root is noted, and of depth 2 those that are known exactly. At depths 3 and
// 4 a root may prune moves.
#[test]
fn children_left_in_the_table(rt: HostRuntime) -> Result<(), Fail> {
    let (start, pawns) = (Position::start(), position(TWO_PAWNS)?);
    for (root, deepest, count) in [
        (start, 4u8, 30usize),
        (pawns, 7, 5),
        (position(HEMMED_IN)?, 4, 5),
    ] {
        same!(rt; left_of(rt.alloc(), &root, 1)?, 0);
        assert_exactly_left(&rt, rt.alloc(), &root)?;
        for depth in 4..=deepest {
            same!(rt; left_of(rt.alloc(), &root, depth)?, count, depth);
        }
    }
    Ok(())
}

// What is lost is cheap to search at every depth: White's king on 5a with Black's gold before it on a pawn, and
// one in no check that has no move.
#[test]
fn notes_at_every_depth(rt: HostRuntime) -> Result<(), Fail> {
    for sfen in ["4k4/4G4/4P4/9/9/9/9/9/9 w -", "8k/6G2/7G1/9/9/9/9/9/9 w -"] {
        let p = position(sfen)?;
        let mut table = table_of(rt.alloc(), 17)?;
        for depth in 0..=16u8 {
            note_search(&mut table, &p, depth);
            same!(rt; table.len(), usize::from(depth).saturating_add(1));
        }
        for depth in 0..=16u8 {
            let lost = Some(Entry::Exact((-30000i32).saturating_sub(i32::from(depth)), None));
            same!(rt; table.peek(&p, Eval::Plain, depth), lost);
            same!(rt; table.probe(&p, Eval::Plain, depth), lost);
        }
    }
    Ok(())
}

// Two pawns in hand, and one that may be taken at once: each evaluation has its own values, whichever
// was asked first over the same table, and of any capacity.
#[test]
fn two_evaluations_over_one_table(rt: HostRuntime) -> Result<(), Fail> {
    let p = position("4k4/9/9/9/4p4/4P4/9/9/4K4 b 2P")?;
    for capacity in [1, 4096] {
        let mut table = table_of(rt.alloc(), capacity)?;
        for (e, value) in [
            (Eval::Plain, 400),
            (Eval::Hand, 430),
            (Eval::Plain, 400),
            (Eval::Hand, 430),
        ] {
            let found = search(&p, e, 1, &mut table);
            same!(rt; found.value, value);
            holds!(rt; table.peek(&p, e, 1) == Some(Entry::Exact(value, found.best)));
        }
    }
    Ok(())
}

#[test]
fn tables_of_every_size(rt: HostRuntime) -> Result<(), Fail> {
    let start = Position::start();
    for capacity in [
        1usize, 2, 3, 1000, 4096, 65536, 100000, 499999, 500000, 500001, 999999, 1000000,
    ] {
        let mut table = table_of(rt.alloc(), capacity)?;
        holds!(rt; table.len() == 0 && table.probe(&start, Eval::Plain, 1).is_none());
        note_search(&mut table, &start, 1);
        same!(rt; table.peek(&start, Eval::Plain, 1), Some(Entry::Exact(0, Move::of_code(982))));
    }
    Ok(())
}
