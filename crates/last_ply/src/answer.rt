//! The entry that answers a search of a node with one ply left.

ghost use Rattle.std.specs.Prelude.{◌≡◌, ◌≤ℤ◌, ◌<ℤ◌, IfSome, IsNone, true, false};
ghost use Rattle.minimax.specs.Entries.{IsConclusive};
ghost use Rattle.minimax.specs.Minimax.{IsTrueEntry};
ghost use Rattle.last_ply.specs.LastPly.{base_of, HasNoMate, IsNoLoss, IsTrueOf, NodeHasScore, NodeScoresAtMost};

use crate::frontier::FrontierNode;
use crate::moving_piece::MovingPiece;
use minimax::{Entry, MATE};
use shogi_core::bits::lowest;
use shogi_eval::Node;
use shogi_moves::has_legal;

/// A node with one ply left, and the window of its search.
#[derive(Clone, Copy)]
struct WindowedNode<'a> {
    frontier: &'a FrontierNode<'a>,
    alpha: i32,
    beta: i32,
    ghost wide: { alpha <ℤ beta },
}

impl MovingPiece<'_> {
    /// Whether the piece has a legal quiet move (no capture, no promotion), which scores the node's
    /// material.
    fn has_quiet_move(&self) -> bool
        ensures { result ≡ true → NodeHasScore self.now.frontier.now.node.now
            (base_of self.now.frontier.now.node.now) }
    {
        let from = self.from;
        from.reveal_invariant();
        let ends = self.destinations().non_promoting;
        let quiet = ends.without(self.frontier.foe);
        if quiet.is_empty() {
            return false;
        }
        let _to = lowest(quiet.bits);
        true
    }
}

impl FrontierNode<'_> {
    /// Whether a piece on the board has a legal quiet move, which scores the node's material.
    fn has_quiet_move(&self) -> bool
        ensures { result ≡ true → NodeHasScore self.now.node.now
            (base_of self.now.node.now) }
    {
        let mut left = self.movable().iter();
        'pieces: while let Some(from) = left.next() {
            if self.moving_piece(from).has_quiet_move() {
                return true;
            }
        }
        false
    }
}

impl WindowedNode<'_> {
    /// The entry that answers the window if some legal move mates.
    fn mate_entry(&self) -> Option<Entry>
        ensures truth { IfSome result (IsTrueOf self.now.frontier.now.node.now) }
        ensures conclusive { IfSome result (IsConclusive self.now.alpha self.now.beta) }
        ensures if_none { IsNone result → HasNoMate self.now.frontier.now.node.now.position }
    {
        if !self.frontier.has_mate() {
            return None;
        }
        if self.beta <= MATE {
            return Some(Entry::AtLeast(MATE));
        }
        if self.alpha >= MATE {
            return Some(Entry::AtMost(self.alpha));
        }
        match self.frontier.first_mate() {
            None => None,
            Some(m) => {
                m.reveal_invariant();
                Some(Entry::Exact(MATE, Some(m)))
            }
        }
    }

    /// The entry that answers the window, if no legal move scores more than `most` or `most` is at
    /// least beta.
    fn resolve(&self, most: i32) -> Entry
        requires all { most <ℤ self.now.beta
            → NodeScoresAtMost self.now.frontier.now.node.now most }
        requires some { self.now.alpha <ℤ most
            → NodeHasScore self.now.frontier.now.node.now most }
        requires lost { IsNoLoss self.now.frontier.now.node.now.position most }
        ensures truth { IsTrueOf self.now.frontier.now.node.now result }
        ensures conclusive { IsConclusive self.now.alpha self.now.beta result }
    {
        if most >= self.beta {
            return Entry::AtLeast(most);
        }
        if let Some(entry) = self.mate_entry() {
            return entry;
        }
        if most <= self.alpha {
            return Entry::AtMost(most);
        }
        match self.frontier.first_with(most) {
            None => unreachable!(),
            Some(m) => {
                m.reveal_invariant();
                Entry::Exact(most, Some(m))
            }
        }
    }

    /// The entry from the scores of all legal moves. Without a quiet move on the board only drops
    /// may be legal, which may all score less than the material.
    fn resolve_by_enumeration(&self) -> Entry
        ensures truth { IsTrueOf self.now.frontier.now.node.now result }
        ensures conclusive { IsConclusive self.now.alpha self.now.beta result }
    {
        if !has_legal(self.frontier.node.as_position()) {
            return Entry::Exact(-MATE - 1, None);
        }
        self.resolve(self.frontier.best_score_of_all(self.alpha))
    }

    /// The entry from captures and promotions alone. All moves are scored only if the node's
    /// material exceeds alpha, no capture or promotion scores more, and no quiet move on the board
    /// reaches it.
    fn resolve_by_pieces(&self) -> Entry
        ensures truth { IsTrueOf self.now.frontier.now.node.now result }
        ensures conclusive { IsConclusive self.now.alpha self.now.beta result }
    {
        let base = self.frontier.node.score();
        let most = self.frontier.best_score(self.alpha, self.beta);
        if base > self.alpha && most <= base && !self.frontier.has_quiet_move() {
            return self.resolve_by_enumeration();
        }
        self.resolve(most)
    }
}

/// The entry of the node at depth 1 that answers the window (own choice): exact with the best move
/// of least code, at least beta, or at most alpha. The value without a legal move is `-MATE - 1`.
pub fn last_ply(node: &Node, alpha: i32, beta: i32) -> Entry
    requires open { alpha <ℤ beta }
    ensures truth { IsTrueEntry node.now.position node.now.eval 1 result }
    ensures conclusive { IsConclusive alpha beta result }
{
    let frontier = FrontierNode::of(node);
    let windowed = WindowedNode {
        frontier: &frontier,
        alpha,
        beta,
    };
    windowed.resolve_by_pieces()
}
