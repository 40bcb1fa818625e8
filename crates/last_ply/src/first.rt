//! The legal move of least code that mates or has a given score.

ghost use Rattle.std.specs.Prelude.{◌≡◌, ◌≤ℤ◌, ◌<ℤ◌, ℤ, true, false, IfSome, IsNone};
ghost use Rattle.shogi_core.specs.Codes.{code_of};
ghost use Rattle.shogi_moves.specs.Destinations.{IsWithin};
ghost use Rattle.minimax.specs.Entries.{IsConclusive};
ghost use Rattle.last_ply.specs.LastPly.{BoardMoveScores, HasNoMate, IsFirstFrom, IsFirstMate, IsFirstToScore, IsTrueOf, NodeHasScore, NodeScoresAtMost, NoneGains, NoneScores, NoneScoresAmong, NoneScoresFrom, ScoresElse};
ghost use Rattle.last_ply.specs.FrontierNodes.{is_legal_to, OthersScoreElse};

use crate::frontier::FrontierNode;
use crate::mates::MateSearch;
use crate::moving_piece::MovingPiece;
use minimax::{Entry, INFINITY, MATE};
use shogi_core::zones::promoting_squares;
use shogi_core::{Move, Square, Squares};
use shogi_moves::Walk;

impl MovingPiece<'_> {
    /// Whether the piece's move to the square is legal and has the score.
    fn is_gain(&self, to: Square, promote: bool, score: i32) -> bool
        ensures legal { result ≡ true → is_legal_to self.now to promote ≡ true }
        ensures scores { result ≡ true
            → BoardMoveScores self.now.frontier.now.node.now score self.now.from to promote }
        ensures other { result ≡ false
            → ScoresElse self.now.frontier.now.node.now score self.now.from to promote }
    {
        let raw = self.raw_to(to, promote);
        if raw < score {
            return false;
        }
        if !self.is_end(to, promote) {
            return false;
        }
        self.scored_to(to, promote, raw).scores(score)
    }

    /// The squares at which the piece's move may have the score. A score above the node's material
    /// needs a capture or a promotion.
    fn ends_scoring(&self, score: i32) -> Squares
        ensures { NoneScoresAmong self.now.frontier.now.node.now score self.now.from result.bits }
    {
        let from = self.from;
        from.reveal_invariant();
        let node = self.frontier.node;
        if score <= node.score() {
            return self.targets;
        }
        let zone = promoting_squares(node.as_position().at(from), from);
        self.targets & (self.frontier.foe | zone)
    }

    /// The piece's legal move of least code with the score.
    fn first_to_score(&self, score: i32) -> Option<Move>
        ensures some { IfSome result (λ m. IsFirstFrom self.now.frontier.now.node.now
            score self.now.from (code_of m)) }
        ensures if_none { IsNone result
            → NoneScoresFrom self.now.frontier.now.node.now score self.now.from }
    {
        let from = self.from;
        let mut left = self.ends_scoring(score).iter();
        'ends: while let Some(to) = left.next() {
            if self.is_gain(to, false, score) {
                return Some(Move::Board {
                    from,
                    to,
                    promote: false,
                });
            }
            if self.is_gain(to, true, score) {
                return Some(Move::Board {
                    from,
                    to,
                    promote: true,
                });
            }
        }
        None
    }
}

impl FrontierNode<'_> {
    /// The legal move of least code that mates.
    pub fn first_mate(&self) -> Option<Move>
        ensures some { IfSome result (λ m. IsFirstMate self.now.node.now.position (code_of m)) }
        ensures if_none { IsNone result → HasNoMate self.now.node.now.position }
    {
        let mate_search = MateSearch::of(self);
        let mut walk = Walk::new(self.node.as_position());
        'moves: while let Some(m) = walk.next() {
            if mate_search.mates_past(&m) {
                return Some(m);
            }
        }
        None
    }

    /// The pieces with a move that may have the score. A score above the material needs a capture
    /// or a promotion.
    fn pieces_scoring(&self, score: i32) -> Squares
        ensures within { IsWithin result.bits self.now.own.bits }
        ensures others { OthersScoreElse self.now score result.bits }
    {
        if score <= self.node.score() {
            return self.movable();
        }
        self.gainers(score - 1)
    }

    /// The legal move on the board of least code with the score.
    fn first_on_board(&self, score: i32) -> Option<Move>
        ensures some { IfSome result (λ m. IsFirstToScore self.now.node.now score (code_of m)) }
        ensures if_none { IsNone result → NoneGains self.now.node.now score }
    {
        let mut left = self.pieces_scoring(score).iter();
        'pieces: while let Some(from) = left.next() {
            if let Some(m) = self.moving_piece(from).first_to_score(score) {
                return Some(m);
            }
        }
        None
    }

    /// The legal move of least code with the score. Pieces are tried first: drops have greater
    /// codes, and none scores more than the material.
    pub fn first_with(&self, score: i32) -> Option<Move>
        ensures some { IfSome result (λ m. IsFirstToScore self.now.node.now score (code_of m)) }
        ensures if_none { IsNone result → NoneScores self.now.node.now score }
    {
        let base = self.node.score();
        if score >= base {
            let found = self.first_on_board(score);
            if found.is_some() || score > base {
                return found;
            }
        }
        let mut walk = Walk::new(self.node.as_position());
        'moves: while let Some(m) = walk.next() {
            if self.scored(&m).scores(score) {
                return Some(m);
            }
        }
        None
    }

    /// The greatest score of all legal moves, or `floor` if none exceeds it.
    pub fn best_score_of_all(&self, floor: i32) -> i32
        ensures least { floor ≤ℤ result }
        ensures all { NodeScoresAtMost self.now.node.now result }
        ensures some { floor <ℤ result → NodeHasScore self.now.node.now result }
    {
        let mut best = floor;
        let mut walk = Walk::new(self.node.as_position());
        'moves: while let Some(m) = walk.next() {
            best = self.scored(&m).score_above(best);
        }
        best
    }
}
