//! A table that is filled with 1,000,000 positions, and one that may not grow beyond the half.

use crate::refusals::Memory;
use crate::tables::assert_answers;
use shogi_core::{Color, Hands, Kind, Piece, Position, PositionFault, Role};
use shogi_eval::Eval;
use shogi_search::{Entry, Memo, NoMemo, search};
use std::test::Fail;
use test_facade::{SeedlessTable, table_of};
use test_support::{FailingAllocator, holds, same};

type FailingTable<'a> = SeedlessTable<&'a Memory>;

const ENTRIES: usize = 1_000_000;

// One of 6,412,500 positions: the two kings, and what Black has in hand.
fn position(number: usize) -> Result<Position, PositionFault> {
    let mut hands = Hands::none();
    let mut rest = number;
    for (kind, most) in [
        (Kind::Pawn, 18u8),
        (Kind::Lance, 4),
        (Kind::Knight, 4),
        (Kind::Silver, 4),
        (Kind::Gold, 4),
        (Kind::Bishop, 2),
        (Kind::Rook, 2),
    ] {
        let counts = usize::from(most) + 1;
        hands = hands.with(Color::Black, kind, (rest % counts) as u8);
        rest /= counts;
    }
    let mut cells = [None; 81];
    cells[rest % 60] = Some(Piece {
        color: Color::White,
        role: Role::King,
    });
    cells[80] = Some(Piece {
        color: Color::Black,
        role: Role::King,
    });
    Position::new(cells, hands, Color::Black)
}

// Notes the values of so many positions.
fn fill(table: &mut FailingTable<'_>, count: usize) {
    for number in 0..count {
        if let Ok(p) = position(number) {
            let found = search(&p, Eval::Plain, 0, &mut NoMemo);
            table.note(&p, Eval::Plain, 0, Entry::Exact(found.value, found.best));
        }
    }
}

#[test]
fn a_full_table_keeps_its_room(rt: HostRuntime) -> Result<(), Fail> {
    let memory = FailingAllocator::new(rt.alloc());
    let mut table = table_of(&memory, ENTRIES)?;
    let empty = memory.held();
    fill(&mut table, ENTRIES);
    same!(rt; table.len(), ENTRIES);
    let full = memory.held();
    println!(rt; "a table of {ENTRIES} entries: {empty} bytes empty, {full} full")?;
    assert_answers(&rt, rt.alloc(), &mut table)?;
    same!(rt; (table.len(), memory.held()), (ENTRIES, full));
    drop(table);
    same!(rt; memory.held(), 0);
    Ok(())
}

#[test]
fn a_table_that_may_not_grow_on_loses_notes_alone(rt: HostRuntime) -> Result<(), Fail> {
    let memory = FailingAllocator::new(rt.alloc());
    let mut table = table_of(&memory, ENTRIES)?;
    fill(&mut table, ENTRIES / 2);
    same!(rt; table.len(), ENTRIES / 2);
    let half = memory.held();
    memory.refuse_from(1);
    fill(&mut table, ENTRIES);
    same!(rt; (table.len(), memory.held()), (ENTRIES / 2, half));
    holds!(rt; memory.refused() > 0);
    assert_answers(&rt, rt.alloc(), &mut table)?;
    same!(rt; (table.len(), memory.held()), (ENTRIES / 2, half));
    Ok(())
}
