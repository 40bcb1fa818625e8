//! Moves of a position that replies refute.

ghost use Rattle.std.specs.Prelude.{◌≡◌, ◌≤◌, ℕ, true};
ghost use Rattle.shogi_core.specs.Position.{Shogi};
ghost use Rattle.shogi_eval.specs.declared.eval.Eval.{Eval};
ghost use Rattle.commuting_moves.specs.Refuted.{AreRefuted, IsLostWith, IsRefuted};

use crate::{Refutation, have_free_squares, reveal_squares};
use shogi_core::Move;

/// How many moves of a position are kept.
pub const REFUTED_MAX: usize = 32;

/// The first moves of a position that were refuted, by their codes, each with the code of the reply:
/// after both, the side of the move is worth no more than the bound.
#[derive(Clone, Copy, Debug)]
pub struct RefutedMoves {
    pub moves: [u16; REFUTED_MAX],
    pub replies: [u16; REFUTED_MAX],
    pub len: usize,
    pub bound: i32,
}

impl RefutedMoves {
    /// An empty list.
    pub fn none() -> RefutedMoves
        ensures { (p : Shogi) (e : Eval) (d : ℕ) → AreRefuted p e d result }
    {
        RefutedMoves {
            moves: [0; REFUTED_MAX],
            replies: [0; REFUTED_MAX],
            len: 0,
            bound: i32::MIN,
        }
    }

    /// Keeps one more move with the reply that refutes it, if there is room.
    pub fn keep(&mut self, m: &Move, refutation: &Refutation)
        ensures { (p : Shogi) (e : Eval) (d : ℕ) → AreRefuted p e d self.old
            → IsRefuted p e d m.now refutation.now.reply refutation.now.bound
            → AreRefuted p e d self.new }
    {
        if self.len >= REFUTED_MAX {
            return;
        }
        m.reveal_invariant();
        refutation.reply.reveal_invariant();
        self.moves[self.len] = m.code();
        self.replies[self.len] = refutation.reply.code();
        self.len += 1;
        if self.bound < refutation.bound {
            self.bound = refutation.bound;
        }
    }

    /// Whether the move is kept with that reply, and no kept one leaves its side more than alpha.
    fn has(&self, m: &Move, reply: &Move, alpha: i32) -> bool
        ensures { result ≡ true → (p : Shogi) (e : Eval) (d : ℕ) → AreRefuted p e d self.now
            → IsRefuted p e d m.now reply.now alpha }
    {
        if self.bound > alpha {
            return false;
        }
        m.reveal_invariant();
        reply.reveal_invariant();
        let (code, reply_code) = (m.code(), reply.code());
        let mut n = 0;
        'moves: while n < self.len && n < REFUTED_MAX {
            if self.moves[n] == code && self.replies[n] == reply_code {
                return true;
            }
            n += 1;
        }
        false
    }

    /// True only if the other move, when it is legal after the move and the reply, is worth no more than
    /// alpha there: the reply refutes it without the move, and the move may come last as well.
    pub fn serves_after(&self, m: &Move, reply: &Move, other: &Move, alpha: i32) -> bool
        ensures { result ≡ true → IsLostWith self.now m.now reply.now other.now alpha }
    {
        if !self.has(other, reply, alpha) {
            return false;
        }
        reveal_squares(m);
        reveal_squares(reply);
        reveal_squares(other);
        have_free_squares(m, reply, other)
    }
}
