//! A shared table: what it stores, forgets and finds, and its size.

use crate::positions::position;
use crate::searches::search;
use crate::tables::note_search;
use linked_list_allocator::LocalHeap;
use lru::DefaultHasher;
use shared_table::{SharedTable, TableFault, TableKey};
use shogi_core::{Color, Hands, KINDS, Move, Piece, Position, Role};
use shogi_eval::Eval;
use shogi_search::{Entry, Memo};
use std::alloc::Allocator;
use std::hash::BuildHasher;
use std::test::Fail;
use test_support::{holds, same};

// The depth of a key, from its last word.
fn depth_of(key: &TableKey) -> u64 {
    key.words()[9] / 6
}

// The depths of the entries, from the most recently used, as decimal digits.
fn depths<S: BuildHasher, A: Allocator>(table: &SharedTable<S, A>) -> u64 {
    let mut digits: u64 = 0;
    for (key, _) in table.entries() {
        digits = digits.saturating_mul(10).saturating_add(depth_of(key));
    }
    digits
}

#[test]
fn the_least_recently_used_drops_out(rt: HostRuntime) -> Result<(), Fail> {
    let p = Position::start();
    let mut table = SharedTable::new(rt.alloc(), 2, DefaultHasher::new())?;
    same!(rt; table.probe(&p, Eval::Plain, 0), None);
    note_search(&mut table, &p, 0);
    note_search(&mut table, &p, 1);
    same!(rt; depths(&table), 10);
    same!(rt; table.probe(&p, Eval::Plain, 0), Some(Entry::Exact(0, None)));
    same!(rt; depths(&table), 1);
    note_search(&mut table, &p, 2);
    same!(rt; depths(&table), 20);
    same!(rt; search(&p, Eval::Plain, 2, &mut table).steps, 0);
    same!(rt; (depths(&table), table.len()), (20, 2));
    same!(rt; table.peek(&p, Eval::Plain, 1), None);
    same!(rt; table.peek(&p, Eval::Plain, 0), Some(Entry::Exact(0, None)));
    same!(rt; table.peek(&p, Eval::Plain, 2), Some(Entry::Exact(0, Move::of_code(982))));
    same!(rt; depths(&table), 20);
    note_search(&mut table, &p, 1);
    same!(rt; depths(&table), 12);
    same!(rt; table.probe(&p, Eval::Plain, 0), None);
    note_search(&mut table, &p, 2);
    same!(rt; depths(&table), 21);
    same!(rt; table.refused(), 0);
    Ok(())
}

/// All promoted pieces, at the ends of the words, with all else in hand: White to move.
const PROMOTED: &str = "+b7+P/9/3+p3+L1/7+N1/9/2+l3+S2/2+n3+B2/9/+r+s3+R3 w 3G2SL9Pg2nl7p";

// The words by a script that knows only the rule: digits in base 32, the first the lowest.
#[test]
fn words_of_keys(rt: HostRuntime) -> Result<(), Fail> {
    let start = TableKey::of(&Position::start(), Eval::Plain, 3);
    same!(rt; start.words(), [
            600741269727100945,
            17612729810944,
            216243151395492866,
            577165541404327951,
            17612788531200,
            152066856728466434,
            3300682383377,
            0,
            0,
            18
        ]);
    let late = TableKey::of(&position(PROMOTED)?, Eval::Hand, 16);
    same!(rt; late.words(), [
            360287970189639689,
            432345564227567627,
            504403158265495565,
            828662331436171264,
            864691128455135232,
            936748722493063193,
            30786325577755,
            3211305,
            1050663,
            99
        ]);
    Ok(())
}

// What a key was made of is had again.
#[test]
fn keys_are_had_again(rt: HostRuntime) -> Result<(), Fail> {
    for p in [Position::start(), position(PROMOTED)?] {
        for eval in [Eval::Plain, Eval::Hand] {
            let key = TableKey::of(&p, eval, 200);
            holds!(rt; key.position() == p);
            same!(rt; (key.eval(), depth_of(&key)), (eval, 200));
        }
    }
    Ok(())
}

// A key, and those that differ from it in one square, in one count, in the side, in the evaluation or in
// the depth.
#[test]
fn keys_that_differ(rt: HostRuntime) -> Result<(), Fail> {
    let p = position(PROMOTED)?;
    let key = TableKey::of(&p, Eval::Plain, 3);
    holds!(rt; key.is_same(&TableKey::of(&p, Eval::Plain, 3)));
    holds!(rt; !key.is_same(&TableKey::of(&p, Eval::Plain, 4)));
    holds!(rt; !key.is_same(&TableKey::of(&p, Eval::Hand, 3)));
    let cells = *p.board().cells();
    for index in 0..81usize {
        let mut others = cells;
        others[index] = match cells[index] {
            Some(_) => None,
            None => Some(Piece {
                color: Color::White,
                role: Role::King,
            }),
        };
        let other = Position::new(others, p.hands(), Color::White)?;
        holds!(rt; !key.is_same(&TableKey::of(&other, Eval::Plain, 3)), index);
    }
    for color in [Color::Black, Color::White] {
        for kind in KINDS {
            let count = p.hand(color, kind);
            let fewer = if count > 0 { count - 1 } else { 1 };
            let cells = if count > 0 { cells } else { [None; 81] };
            let (had, has) = (
                Position::new(cells, p.hands(), Color::White)?,
                Position::new(cells, p.hands().with(color, kind, fewer), Color::White)?,
            );
            let same = TableKey::of(&had, Eval::Plain, 3).is_same(&TableKey::of(
                &has,
                Eval::Plain,
                3,
            ));
            holds!(rt; !same);
        }
    }
    let turned = Position::new(cells, p.hands(), Color::Black)?;
    holds!(rt; !key.is_same(&TableKey::of(&turned, Eval::Plain, 3)));
    Ok(())
}

// A full table takes at most 200 bytes an entry, the room in the map included.
#[test]
fn bytes_of_a_full_table(rt: HostRuntime) -> Result<(), Fail> {
    let heap = LocalHeap::new(rt.alloc(), 4096 * 256)?;
    let mut table = SharedTable::new(&heap, 4096, DefaultHasher::new())?;
    let hands = Hands::none();
    'fill: for black in 0..81usize {
        for white in 0..81usize {
            let mut cells = [None; 81];
            cells[black] = Some(Piece {
                color: Color::Black,
                role: Role::Gold,
            });
            cells[white] = Some(Piece {
                color: Color::White,
                role: Role::Silver,
            });
            note_search(&mut table, &Position::new(cells, hands, Color::Black)?, 0);
            if table.len() == 4096 {
                break 'fill;
            }
        }
    }
    same!(rt; (table.len(), table.refused()), (4096, 0));
    holds!(rt; heap.used() <= 4096 * 200, heap.used());
    Ok(())
}

// A note that finds no memory stores nothing and is counted, and one of a key that is there needs none.
#[test]
fn refused_memory(rt: HostRuntime) -> Result<(), Fail> {
    let p = Position::start();
    let (mut unmade, mut dropped, mut kept) = (false, false, false);
    for blocks in 0..80usize {
        let heap = LocalHeap::new(rt.alloc(), blocks * 32)?;
        match SharedTable::new(&heap, 2, DefaultHasher::new()) {
            Err(fault) => {
                same!(rt; fault, TableFault::OutOfMemory);
                unmade = true;
            }
            Ok(mut table) => {
                note_search(&mut table, &p, 0);
                note_search(&mut table, &p, 1);
                let len = table.len();
                same!(rt; table.refused().saturating_add(len as u64), 2);
                if depths(&table) == 10 && len == 2 {
                    kept = true;
                } else {
                    dropped = true;
                }
                note_search(&mut table, &p, 0);
                if table.len() > 0 {
                    same!(rt; table.peek(&p, Eval::Plain, 0), Some(Entry::Exact(0, None)));
                }
            }
        }
    }
    holds!(rt; unmade && dropped && kept, unmade);
    Ok(())
}
