//! What is pruned at a node of depth 2, 3 or 4: moves that surely are not worth enough.

ghost use Rattle.std.specs.Prelude.{◌≡◌, ◌≤ℤ◌, ◌<ℤ◌, pos, true, false};
ghost use Rattle.minimax.specs.declared.bounds.TheConstants.{INFINITY};
ghost use Rattle.analogous_moves.specs.Analogies.{IsQuietMove};

use crate::asked_move::AskedMove;
use crate::frame::{Frame, NodeState};
use crate::pairs::Refutations;
use crate::pre_frontier::PreFrontier;
use crate::reply_cache::ReplyCache;
use analogous_moves::AnalogousMoves;
use shogi_core::Move;
use shogi_eval::loss_of_drops;

// How many replies to moves of a node are tried for refuting others.
const ANALOGY_TRIES_MAX: u8 = 8;

impl Frame {
    ghost use Rattle.search_nodes.specs.Frames.{IsLost, PrunesAnalogous, RepliesLoseAtMost};
    ghost use Rattle.search_nodes.specs.ReplyCache.{IsFoundAt, IsPreFrontier};
    ghost use Rattle.search_nodes.specs.Changes.{IsSame, KeepsMoves, AsksFor, PrunesFiltered};

    /// The most that a reply takes from the material of its side: what a drop of the other side may
    /// lose.
    #[inline(always)]
    pub(crate) fn loss_after(&self) -> i32
        ensures loss { RepliesLoseAtMost self.now result }
        ensures least { pos 0 ≤ℤ result }
        ensures most { result ≤ℤ pos 100 }
    {
        let p = self.node.as_position();
        loss_of_drops(p, p.side().opponent(), self.node.eval())
    }

    /// Turns to the quiet moves if no capture is left, or to the drops if no quiet board move is left.
    #[inline(always)]
    pub(crate) fn turn_from(&mut self, capture: bool)
        ensures { PrunesFiltered self.old self.new }
    {
        self.picker.turn_from(self.node.as_position(), capture);
    }

    /// Whether it is known that the side to move is in check.
    pub(crate) fn is_checked(&self) -> bool {
        self.picker.is_checked(self.node.as_position())
    }

    /// Prunes the next moves of a node two plies before the end.
    #[inline(always)]
    fn prune_in_bulk(&mut self, cache: &mut ReplyCache)
        requires next { self.old.state ≡ NodeState.Expanding }
        requires at { IsPreFrontier self.old cache.old }
        ensures pruned { PrunesFiltered self.old self.new }
        ensures at { IsPreFrontier self.new cache.new }
    {
        let mut node = PreFrontier { frame: self, cache };
        node.prune_in_bulk();
    }

    /// Whether it is certain that the current move of such a node is not worth enough.
    #[inline(always)]
    fn is_lost(&self, current: &Move, cache: &mut ReplyCache) -> bool
        requires asked { self.now.state ≡ NodeState.AwaitingChild current.now }
        requires at { IsPreFrontier self.now cache.old }
        ensures lost { result ≡ true → IsLost self.now current.now }
        ensures at { IsPreFrontier self.now cache.new }
    {
        let mut asked = AskedMove {
            frame: self,
            current,
            cache,
        };
        asked.is_lost()
    }

    /// Asks for the answer of the next move of a node at depth 2, if there is one. Prunes the moves that
    /// provably fail low.
    fn next_unpruned(&mut self, cache: &mut ReplyCache) -> Option<Move>
        requires next { self.old.state ≡ NodeState.Expanding }
        requires at { IsPreFrontier self.old cache.old }
        ensures asks { AsksFor result self.old self.new }
        ensures at { IsPreFrontier self.new cache.new }
    {
        'moves: loop {
            self.prune_in_bulk(cache);
            let Some(current) = self.pick_move() else {
                return None;
            };
            if !self.is_lost(&current, cache) {
                return Some(current);
            }
            self.fail_low();
        }
    }

    /// Whether the reply was the last one that was tried for refuting moves.
    fn was_tried(&self, reply: &Move) -> bool {
        match &self.analogy_reply {
            Some(tried) => tried == reply,
            None => false,
        }
    }

    /// Whether moves were found that one reply refutes.
    fn has_analogous(&self) -> bool {
        matches!(self.refutations, Refutations::Analogous(_))
    }

    /// Looks for moves that the reply holds to at most this value, unless too many replies were tried.
    fn look_for_analogous(&mut self, reply: &Option<Move>, most: i32)
        requires deep { PrunesAnalogous self.old }
        requires most { most <ℤ INFINITY }
        ensures { KeepsMoves self.old self.new }
    {
        let Some(reply) = reply else {
            return;
        };
        if self.has_analogous()
            || self.analogy_tries >= ANALOGY_TRIES_MAX
            || self.was_tried(reply)
        {
            return;
        }
        self.analogy_tries += 1;
        self.analogy_reply = Some(*reply);
        if let Some(analogous) = AnalogousMoves::of(&self.node, *reply, most, self.depth) {
            self.refutations = Refutations::Analogous(analogous);
        }
    }

    /// Whether the current move takes nothing and does not promote.
    fn is_quiet(&self, current: &Move) -> bool
        ensures { result ≡ true → IsQuietMove self.now.node.position current.now }
    {
        match current {
            Move::Board { to, promote, .. } => {
                !*promote && self.node.as_position().at(*to).is_none()
            }
            Move::Drop { .. } => true,
        }
    }

    /// Whether analogous moves are looked for there: at depths 3 and 4.
    #[inline(always)]
    fn prunes_analogous(&self) -> bool
        ensures { result ≡ true → PrunesAnalogous self.now }
    {
        self.depth == 3 || self.depth == 4
    }

    /// Prunes the current move if it is a quiet one that the reply to an earlier move refutes as well, since
    /// it changes nothing that this reply relies on. Returns whether it did.
    fn prune_analogous(&mut self, current: &Move, reply: &Option<Move>) -> bool
        requires asked { self.old.state ≡ NodeState.AwaitingChild current.now }
        ensures next { result ≡ true → self.new.state ≡ NodeState.Expanding }
        ensures asked { result ≡ false → self.new.state ≡ self.old.state }
        ensures picker { self.new.picker ≡ self.old.picker }
        ensures unchanged { IsSame self.old self.new }
    {
        if !self.prunes_analogous() || !self.is_quiet(current) {
            return false;
        }
        if !self.has_move && self.best_move.is_none() {
            return false;
        }
        let move_alpha = self.move_alpha(current);
        self.look_for_analogous(reply, move_alpha);
        current.reveal_invariant();
        let Refutations::Analogous(analogous) = &self.refutations else {
            return false;
        };
        if analogous.most > move_alpha || !analogous.has(current) {
            return false;
        }
        self.fail_low();
        true
    }

    /// Prunes the next moves that are analogous: those of the piece, or the drops of the kind, that is under
    /// way, up to the first that is not.
    fn prune_analogous_row(&mut self)
        requires next { self.old.state ≡ NodeState.Expanding }
        ensures { PrunesFiltered self.old self.new }
    {
        let Some(code) = self.picker.quiet_code() else {
            return;
        };
        if !self.prunes_analogous() || !self.has_analogous() {
            return;
        }
        let move_alpha = self.move_alpha_at(code);
        let Refutations::Analogous(analogous) = &self.refutations else {
            return;
        };
        if analogous.most <= move_alpha {
            self.picker
                .skip_analogous(self.node.as_position(), analogous);
        }
    }

    /// Asks for the answer of the next move from depth 3 on, and prunes analogous moves.
    fn next_unrefuted(&mut self, reply: &Option<Move>) -> Option<Move>
        requires next { self.old.state ≡ NodeState.Expanding }
        ensures { AsksFor result self.old self.new }
    {
        'moves: while let Some(current) = self.pick_move() {
            if !self.prune_analogous(&current, reply) {
                return Some(current);
            }
            self.prune_analogous_row();
        }
        None
    }

    /// Asks for the answer of the next move, if there is one. Depth 2 prunes moves that provably fail low.
    /// Depths 3 and 4 prune quiet moves that the reply refutes too: the best move of the child before, or
    /// the move that cut it off. Only depth 2 looks at the opponent's replies.
    #[inline(always)]
    pub fn next_move(&mut self, cache: &mut ReplyCache, reply: Option<Move>) -> Option<Move>
        requires next { self.old.state ≡ NodeState.Expanding }
        requires found { IsFoundAt self.old cache.old }
        ensures asks { AsksFor result self.old self.new }
        ensures found { IsFoundAt self.new cache.new }
    {
        if self.depth == 2 {
            return self.next_unpruned(cache);
        }
        self.next_unrefuted(&reply)
    }
}
