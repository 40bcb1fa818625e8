//! The threshold that a move has to beat.

ghost use Rattle.std.specs.Prelude.{◌≡◌, ◌≤ℤ◌};
ghost use Rattle.minimax.specs.Window.{move_alpha, code_at};
ghost use Rattle.minimax.specs.declared.bounds.TheConstants.{INFINITY};
ghost use Rattle.minimax.specs.Minimax.{negated};

use shogi_core::Move;

/// The best value so far, less one if the code is below the best move's, since an equal worth then
/// suffices.
pub(crate) fn move_alpha_at(best_value: i32, best_move: &Option<Move>, code: u16) -> i32
    requires { negated INFINITY ≤ℤ best_value }
    ensures { result ≡ move_alpha best_value (code_at best_move.now) code }
{
    match best_move {
        Some(best) if code < best.code() => best_value - 1,
        _ => best_value,
    }
}
