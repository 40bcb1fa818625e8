//! The worth of a move that ends a line.

ghost use Rattle.std.specs.Prelude.{◌≡◌, ◌≤ℤ◌, true};
ghost use Rattle.shogi_core.specs.Codes.{code_of};
ghost use Rattle.shogi_moves.specs.Legal.{is_legal};
ghost use Rattle.minimax.specs.Minimax.{lost_value, worth};
ghost use Rattle.minimax.specs.declared.bounds.TheConstants.{MATE};

use crate::frontier::FrontierNode;
use minimax::{INFINITY, MATE};
use shogi_core::{Move, Position};
use shogi_eval::{Eval, Node};
use shogi_moves::{apply, has_legal};

/// The worth to its mover, in points, of a legal move that ends a line (own choice): `MATE` if the
/// opponent has no legal reply, otherwise the material, under `Eval::Exchange` after the opponent's
/// best exchange.
pub fn last_worth(p: &Position, e: Eval, m: Move) -> i32
    requires { is_legal p.now m ≡ true }
    ensures value { result ≡ worth p.now e 0 (code_of m) }
    ensures least { lost_value 0 ≤ℤ result }
    ensures most { result ≤ℤ MATE }
{
    p.reveal_invariant();
    m.reveal_invariant();
    if !has_legal(&apply(p, m)) {
        return MATE;
    }
    let node = Node::of(*p, e);
    let frontier = FrontierNode::of(&node);
    frontier.scored(&m).score_above(-INFINITY)
}
