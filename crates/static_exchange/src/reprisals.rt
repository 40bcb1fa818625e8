//! What the other side wins after a move that ends a line.

ghost use Rattle.std.specs.Prelude.{◌≡◌, ◌≤◌, ◌<◌, Some, true};
ghost use Rattle.shogi_core.specs.Codes.{code_of};
ghost use Rattle.shogi_moves.specs.Legal.{is_legal};
ghost use Rattle.shogi_eval.specs.Exchange.{is_quiet};
ghost use Rattle.static_exchange.specs.Reprisals.{IsReprisal, IsEnough};

use crate::exchanges::best_won;
use shogi_core::{Move, Position};

/// Whether the move takes nothing and does not promote.
pub fn is_quiet(p: &Position, m: &Move) -> bool
    ensures { result ≡ is_quiet p.now (Some m.now) }
{
    match m {
        Move::Board { to, promote, .. } => !*promote && p.at(*to).is_none(),
        Move::Drop { .. } => true,
    }
}

/// What the other side wins, in points under `Eval::Exchange`, by its best exchange on one square
/// after the legal move, and 0 after a quiet one. The result is exact below `enough`, and otherwise at
/// least `enough` (own choice).
pub fn best_exchange(p: &Position, m: Move, enough: u32) -> u32
    requires { is_legal p.now m ≡ true }
    ensures below { result < enough → IsReprisal p.now (code_of m) result }
    ensures enough { enough ≤ result → IsEnough p.now (code_of m) enough }
{
    m.reveal_invariant();
    if is_quiet(p, &m) {
        return 0;
    }
    match m {
        Move::Board { from, to, promote } => best_won(p, from, to, promote, enough),
        Move::Drop { .. } => 0,
    }
}
