//! A use of `shogi_eval`.

ghost use Rattle.std.specs.Prelude.{◌≡◌, pos, ◌-ℤ◌, true};
ghost use Rattle.shogi_eval.specs.Material.{material_of};
ghost use Rattle.shogi_moves.specs.After.{after};
ghost use Rattle.shogi_moves.specs.Legal.{is_legal};

use shogi_core::{Move, Position};
use shogi_eval::{Eval, Node};

/// The material after a legal move under an evaluation, as the side that made it sees it.
pub fn score_of_mover(p: &Position, e: Eval, m: Move) -> i32
    requires { is_legal p.now m ≡ true }
    ensures { result ≡ pos 0 -ℤ material_of (after p.now m) e }
{
    -Node::of(*p, e).play(m).score()
}
