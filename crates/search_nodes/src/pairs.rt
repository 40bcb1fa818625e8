//! Moves that replies refute at a node, for the nodes after another move and the same reply.

ghost use Rattle.std.specs.Prelude.{◌≡◌, ◌<◌, ◌-◌, ℕ, true, IfSome};
ghost use Rattle.shogi_core.specs.Position.{Shogi};
ghost use Rattle.shogi_eval.specs.declared.eval.Eval.{Eval};
ghost use Rattle.commuting_moves.specs.Refuted.{AreRefuted};
ghost use Rattle.search_nodes.specs.Pairs.{AreRefutations};

use crate::frame::{Frame, NodeState};
use analogous_moves::AnalogousMoves;
use commuting_moves::{Refutation, RefutedMoves};
use minimax::Entry;
use shogi_core::Move;

/// The least depth of a node whose refuted moves are kept: at lesser ones that costs more than it saves.
const PAIRS_DEPTH_MIN: u8 = 5;

/// What was found of replies that refute moves of a node.
#[derive(Clone, Copy)]
pub enum Refutations {
    /// Nothing.
    None,
    /// Quiet moves that one reply refutes, by analogy.
    Analogous(AnalogousMoves),
    /// Moves that were gone through, each with its own reply.
    Pairs(RefutedMoves),
}

/// The moves that are kept with their replies.
fn kept_of(found: &Refutations) -> RefutedMoves
    ensures { (p : Shogi) (e : Eval) (d : ℕ) → AreRefutations p e d found.now
        → AreRefuted p e (d - 2) result }
{
    match found {
        Refutations::Pairs(kept) => *kept,
        _ => RefutedMoves::none(),
    }
}

impl Frame {
    ghost use Rattle.search_nodes.specs.Refuted.{IsRefutedAfter, IsRefutedAt, Refutes};
    ghost use Rattle.search_nodes.specs.Visits.{IsCurrent};
    ghost use Rattle.search_nodes.specs.Changes.{EndsVisit, KeepsMoves};
    ghost use Rattle.search_nodes.specs.Frames.{IsConclusiveAfter, IsTrueAfter};

    /// The reply that cut this node off, as one that refutes the move to the node, if the node is cut off
    /// and its parent keeps refuted moves.
    #[inline(always)]
    pub fn refutation(&self) -> Option<Refutation>
        requires deep { 1 < self.now.depth }
        ensures { IfSome result (Refutes self.now) }
    {
        if self.depth < PAIRS_DEPTH_MIN - 1 {
            return None;
        }
        let NodeState::CutOff(value) = self.state else {
            return None;
        };
        let reply = self.best_move?;
        reply.reveal_invariant();
        let bound = value.checked_neg()?;
        Some(Refutation { reply, bound })
    }

    /// Keeps a move with the reply that refutes it, if this node keeps such moves and the move is worth no
    /// more than the best one.
    #[inline(never)]
    fn keep_refuted(&mut self, m: &Move, refutation: &Refutation)
        requires { IsRefutedAt self.old m.now refutation.now }
        ensures { KeepsMoves self.old self.new }
    {
        if refutation.bound > self.best_value || self.depth < PAIRS_DEPTH_MIN {
            return;
        }
        let mut kept = kept_of(&self.refutations);
        kept.keep(m, refutation);
        self.refutations = Refutations::Pairs(kept);
    }

    /// Takes in what is known of the current move, and keeps the reply that refutes it, if there is one.
    #[inline(always)]
    pub fn back_up_with(&mut self, current: &Move, entry: &Entry, refutation: Option<Refutation>)
        requires deep { 1 < self.old.depth }
        requires current { IsCurrent self.old.state current.now }
        requires truth { IsTrueAfter self.old current.now entry.now }
        requires conclusive { IsConclusiveAfter self.old current.now entry.now }
        requires refuted { IfSome refutation (IsRefutedAt self.old current.now) }
        ensures { EndsVisit self.old self.new }
    {
        if let Some(refutation) = &refutation {
            self.keep_refuted(current, refutation);
        }
        self.back_up(current, entry);
    }

    /// True only if the other move, when all three are legal in turn from here, is worth no more than alpha
    /// after the move and the reply, since the reply refutes it here.
    #[inline(never)]
    pub fn is_refuted_after(&self, m: &Move, reply: &Move, other: &Move, alpha: i32) -> bool
        ensures { result ≡ true → IsRefutedAfter self.now m.now reply.now other.now alpha }
    {
        let Refutations::Pairs(kept) = &self.refutations else {
            return false;
        };
        kept.serves_after(m, reply, other, alpha)
    }
}
