//! A search in one call.

ghost use Rattle.std.specs.Prelude.{◌≡◌, ◌≤◌, ◌*◌, ◌≤ℤ◌, ◌<ℤ◌, true, [], ◌↔◌, ◌⊎◌, IfSome, IsNone};
ghost use Rattle.shogi_moves.specs.Legal.{is_legal};
ghost use Rattle.shogi_moves.specs.LegalMoves.{legal_codes};
ghost use Rattle.minimax.specs.Entries.{IsExactly, IsEnoughBelow};
ghost use Rattle.minimax.specs.Minimax.{value, best, tree_size, lost_value, negated};
ghost use Rattle.minimax.specs.declared.bounds.TheConstants.{SEARCH_DEPTH_MAX, INFINITY};
ghost use Rattle.shogi_search.specs.Progress.{IsFoundBelow, untouched, untouched_below};
ghost use Rattle.shogi_search.specs.SearchCalls.{CallsOfWhole, TellsRoot};

use crate::found::Found;
use crate::memo::Memo;
use crate::sliced_search::Search;
use shogi_core::Position;
use shogi_eval::Eval;

/// The value of a position under an evaluation at a depth from 0 to 16, and its best move, by
/// alpha-beta over any memo. It takes at most four steps for each node of the full tree, and none
/// if the memo answers the root exactly.
pub fn search<M: Memo>(p: &Position, e: Eval, d: u8, memo: &mut M) -> Found
    requires { d ≤ SEARCH_DEPTH_MAX }
    ensures value { result.value ≡ value p.now e d }
    ensures least { lost_value SEARCH_DEPTH_MAX ≤ℤ result.value }
    ensures most { result.value ≤ℤ negated (lost_value SEARCH_DEPTH_MAX) }
    ensures best { result.best ≡ best p.now e d }
    ensures if_none { IsNone result.best ↔ ((d ≡ 0) ⊎ (legal_codes p.now ≡ [])) }
    ensures legal { IfSome result.best (λ m. is_legal p.now m ≡ true) }
    ensures steps { result.steps ≤ 4 * tree_size p.now d }
    ensures known { IsExactly (M.answers memo.old p.now e d) → result.steps ≡ 0 }
    ensures calls { CallsOfWhole M.called memo.old memo.new result }
    ensures told { TellsRoot M.called memo.old memo.new (untouched p.now e d) result }
    ensures capacity { M.capacity memo.new ≡ M.capacity memo.old }
{
    p.reveal_invariant();
    let mut search = Search::start(p, e, d);
    if let Some(found) = search.advance(memo, u64::MAX) {
        return found;
    }
    'slices: loop {
        if let Some(found) = search.advance(memo, u64::MAX) {
            return found;
        }
    }
}
