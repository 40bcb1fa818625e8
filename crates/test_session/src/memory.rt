//! Over memory that refuses nothing, no call says that it was refused.

use std::alloc::Global;
use std::process::Abort;
use std::test::Fail;
use test_facade::{OpaqueSession, table_of};
use test_support::{FailingAllocator, holds, same};

// The first steps of a search to this depth, with so many lines.
fn assert_begins(rt: &impl Abort, alloc: Global, depth: u64, lines: u64) -> Result<(), Fail> {
    let text = format!(in alloc; "setoption name MultiPV value {lines}\ngo depth {depth}\n")?;
    let memory = FailingAllocator::new(alloc);
    let mut table = table_of(&memory, 4096)?;
    let mut session = OpaqueSession::new(&memory);
    session.feed(text.as_bytes())?;
    for _ in 0..4 {
        session.work(&mut table, 500)?;
    }
    holds!(*rt; memory.asked() > 0 && session.output().starts_with(b"info depth 1 "), depth);
    same!(*rt; (memory.refused(), table.refused()), (0, 0), depth);
    Ok(())
}

// Each depth, with one line and with the most.
#[test]
fn searches_to_every_depth_begin(rt: HostRuntime) -> Result<(), Fail> {
    for depth in 1..17u64 {
        for lines in [1, 8] {
            assert_begins(&rt, rt.alloc(), depth, lines)?;
        }
    }
    Ok(())
}
