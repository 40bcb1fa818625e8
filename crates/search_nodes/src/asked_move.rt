//! Pruning one move at depth 2: whether it provably fails low.

ghost use Rattle.std.specs.Prelude.{◌≡◌, ◌≤◌, ◌<◌, true};
ghost use Rattle.shogi_replies.specs.Threats.{IsTaken};
ghost use Rattle.search_nodes.specs.Frames.{HasReply, IsLost, FailsLowIfTaken, IsLostWhere, IsWorthAtMost};
ghost use Rattle.search_nodes.specs.ReplyCache.{IsReplyCacheOf};
ghost use Rattle.search_nodes.specs.Threats.{GainsAtLeast, LeavesCaptures, TakesAfter};
ghost use Rattle.search_nodes.specs.declared.frame.NodeState.TheVariants.{AwaitingChild};
ghost use Rattle.std.proofs.Props.{props};

use crate::frame::Frame;
use crate::reply_cache::ReplyCache;
use crate::threat::gain_if_left;
use shogi_core::{Move, Squares};
use shogi_eval::taken_gain;
use shogi_moves::Origin;
use shogi_replies::{KnownReplies, king_takes};

/// A node of depth 2 that has picked a move, with what is known of the opponent's replies.
#[derive(Drop)]
pub(crate) struct AskedMove<'a> {
    pub frame: &'a Frame,
    pub current: &'a Move,
    pub cache: &'a mut ReplyCache,
    ghost last: { frame.now.depth ≡ 2 },
    ghost asked: { frame.now.state ≡ AwaitingChild current.now },
    ghost found: { IsReplyCacheOf frame.now.node cache.now } by { Prim.hlevel props },
}

impl<'a> AskedMove<'a> {
    ghost use Rattle.search_nodes.specs.PreFrontier.{StaysAsked};

    /// The replies as far as they are known, without escapes.
    #[inline(always)]
    #[tactic(auto, using(shogi_core::proofs::TargetLaws::no_bits))]
    fn known(&self) -> KnownReplies<'_>
        ensures { result.position.now ≡ self.now.frame.now.node.position }
    {
        let p = self.frame.node.as_position();
        self.cache.replies.at(p, Squares::none())
    }

    /// Whether, without making the move, the opponent is sure to have a legal reply: one that
    /// exists if no check is given, or a king move out of the check.
    fn is_answered(&mut self) -> bool
        ensures some { result ≡ true → HasReply self.old.frame.now self.old.current.now }
        ensures unchanged { StaysAsked self.old self.new }
    {
        self.cache.look_ahead(self.frame);
        self.current.reveal_invariant();
        if self.known().guarantees_reply(self.current) {
            return true;
        }
        let escapes = self.cache.look_for_escapes(self.frame);
        let p = self.frame.node.as_position();
        self.cache
            .replies
            .at(p, escapes)
            .leaves_escape(self.current)
    }

    /// An upper bound of the move's worth, if the opponent has a legal reply: any such reply keeps
    /// the opponent's material, except for what a drop may cost.
    #[inline(always)]
    fn most_after(&self) -> i32
        ensures { HasReply self.now.frame.now self.now.current.now
            → IsWorthAtMost self.now.frame.now self.now.current.now result }
    {
        self.current.reveal_invariant();
        self.frame.loss_after() - self.frame.node.score_after(self.current)
    }

    /// Whether the move fails low if the opponent gains at least `gain` after it.
    #[inline(always)]
    fn fails_low_by(&self, gain: u32) -> bool
        requires { gain ≤ 4000 }
        ensures { result ≡ true
            → GainsAtLeast self.now.frame.now.node.position
            self.now.frame.now.node.eval self.now.current.now gain
            → IsLost self.now.frame.now self.now.current.now }
    {
        let (node, current) = (&self.frame.node, self.current);
        current.reveal_invariant();
        0 - node.score_after(current) - gain as i32 <= self.frame.move_alpha(current)
    }

    /// What the opponent gains at least by a threat that the move leaves, or by capturing on its
    /// destination, if the move gives no check; 0 if neither is certain.
    #[inline(always)]
    fn gain_after(&self) -> u32
        ensures gain { 0 < result → TakesAfter self.now.frame.now.node.position
            self.now.frame.now.node.eval self.now.current.now result }
        ensures fits { result ≤ 4000 }
    {
        let Some(threats) = &self.cache.threats else {
            return 0;
        };
        let (node, current) = (&self.frame.node, self.current);
        current.reveal_invariant();
        let put = Origin::of(current).put(node.as_position());
        let retake = if threats.takes.has(current.to()) {
            taken_gain(node.eval(), put)
        } else {
            0
        };
        gain_if_left(&threats.greatest, current, put, retake)
    }

    /// Whether a threat or a recapture refutes the move, if it gives no check.
    #[inline(always)]
    fn fails_low_by_threat(&self) -> bool
        ensures { result ≡ true → IsLostWhere self.now.frame.now self.now.current.now }
    {
        let gain = self.gain_after();
        if gain == 0 {
            return false;
        }
        self.fails_low_by(gain)
    }

    /// Whether an unpinnable piece of the opponent, or its king, is sure to capture on the move's
    /// destination. False until threats were looked for.
    fn is_retaken(&self) -> bool
        ensures taken { result ≡ true
            → ∥ IsTaken self.now.frame.now.node.position self.now.current.now ∥₁ }
        ensures plain { result ≡ true → LeavesCaptures self.now.frame.now.node.eval }
    {
        let Some(threats) = &self.cache.threats else {
            return false;
        };
        let current = self.current;
        current.reveal_invariant();
        if threats.takes.has(current.to()) {
            if self.known().discovers_no_check(current) {
                return true;
            }
        }
        king_takes(self.frame.node.as_position(), current)
    }

    /// Whether, without making the move, the opponent is sure to have a legal reply, a recapture
    /// included.
    fn has_reply(&mut self) -> bool
        ensures some { result ≡ true → HasReply self.old.frame.now self.old.current.now }
        ensures unchanged { StaysAsked self.old self.new }
    {
        if self.is_answered() {
            return true;
        }
        self.cache.look_for_threats(self.frame);
        self.is_retaken()
    }

    /// Whether the move fails low if the opponent captures on its destination.
    fn fails_low_if_taken(&self) -> bool
        ensures { result ≡ true → FailsLowIfTaken self.now.frame.now self.now.current.now }
    {
        let (node, current) = (&self.frame.node, self.current);
        current.reveal_invariant();
        let put = Origin::of(current).put(node.as_position());
        self.fails_low_by(taken_gain(node.eval(), put))
    }

    /// Whether the move provably fails low, without being made, since it is recaptured or leaves a
    /// threat.
    fn is_lost_under_threat(&mut self) -> bool
        ensures lost { result ≡ true → IsLost self.old.frame.now self.old.current.now }
        ensures unchanged { StaysAsked self.old self.new }
    {
        self.cache.look_for_threats(self.frame);
        if self.cache.threats.is_none() {
            return false;
        }
        self.cache.look_ahead(self.frame);
        if self.fails_low_if_taken() && self.is_retaken() {
            return true;
        }
        if !self.fails_low_by_threat() {
            return false;
        }
        self.current.reveal_invariant();
        self.known().guarantees_reply(self.current)
    }

    /// Whether the move provably fails low, without being made.
    #[inline(always)]
    pub(crate) fn is_lost(&mut self) -> bool
        ensures lost { result ≡ true → IsLost self.old.frame.now self.old.current.now }
        ensures unchanged { StaysAsked self.old self.new }
        ensures found { IsReplyCacheOf self.old.frame.now.node self.new.cache.now }
    {
        if self.most_after() > self.frame.move_alpha(self.current) {
            return self.is_lost_under_threat();
        }
        self.has_reply()
    }
}
