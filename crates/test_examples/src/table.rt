//! A use of `shared_table`.

ghost use Rattle.std.specs.Prelude.{◌≡◌, ◌≤◌};
ghost use Rattle.minimax.specs.Minimax.{value, best};

use shared_table::SharedTable;
use shogi_core::Position;
use shogi_eval::Eval;
use shogi_search::{Found, search};
use std::alloc::Allocator;
use std::hash::BuildHasher;

/// Searches twice over one table. What the first search left there can't change what the second finds.
pub fn search_twice<S: BuildHasher, A: Allocator + Clone>(
    p: &Position,
    e: Eval,
    depth: u8,
    table: &mut SharedTable<S, A>,
) -> (Found, Found)
    requires { depth ≤ 16 }
    ensures first { result.0.value ≡ value p.now e depth }
    ensures second { result.1.value ≡ value p.now e depth }
    ensures best { result.0.best ≡ result.1.best }
{
    let first = search(p, e, depth, table);
    let second = search(p, e, depth, table);
    (first, second)
}
