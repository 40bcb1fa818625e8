//! A use of `shogi_search`.

ghost use Rattle.std.specs.Prelude.{◌≡◌, ◌≤◌, IfSome};
ghost use Rattle.minimax.specs.Minimax.{value, best};

use shogi_core::Position;
use shogi_eval::Eval;
use shogi_search::{Found, NoMemo, Search};

/// A search in slices of 1,000 steps, and at most so many of them; none where that is not enough.
pub fn search_in_slices(p: &Position, e: Eval, depth: u8, slices: u64) -> Option<Found>
    requires { depth ≤ 16 }
    ensures value { IfSome result (λ found. found.value ≡ value p.now e depth) }
    ensures best { IfSome result (λ found. found.best ≡ best p.now e depth) }
{
    let mut search = Search::start(p, e, depth);
    'slices: for _ in 0..slices {
        let found = search.advance(&mut NoMemo, 1000);
        if found.is_some() {
            return found;
        }
    }
    None
}
