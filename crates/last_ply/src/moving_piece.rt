//! A piece of the side to move with its destinations and the scores of its moves.

ghost use Rattle.std.specs.Prelude.{◌≡◌, true};
ghost use Rattle.shogi_moves.specs.Destinations.{is_own, AreAllDestinations};
ghost use Rattle.last_ply.specs.LastPly.{IsReach, RawScoresTo};

use crate::frontier::FrontierNode;
use crate::scored_move::ScoredMove;
use shogi_core::{Move, Square, Squares};
use shogi_eval::{promotion_gain, taken_gain};
use shogi_moves::{Destinations, OwnPiece};

/// A piece of the side to move with the squares that it reaches, without those of its own side's
/// pieces.
#[derive(Clone, Copy)]
pub struct MovingPiece<'a> {
    pub frontier: &'a FrontierNode<'a>,
    pub from: Square,
    pub targets: Squares,
    ghost own: { is_own frontier.now.node.now.position from ≡ true },
    ghost reach: { IsReach frontier.now.node.now.position from targets.bits },
}

impl FrontierNode<'_> {
    /// The piece of the side to move on `from`.
    #[inline(always)]
    pub fn moving_piece(&self, from: Square) -> MovingPiece<'_>
        requires { is_own self.now.node.now.position from ≡ true }
        ensures frontier { result.frontier.now ≡ self.now }
        ensures from { result.from ≡ from }
    {
        MovingPiece {
            frontier: self,
            from,
            targets: self.targets(from),
        }
    }
}

impl MovingPiece<'_> {
    ghost use Rattle.last_ply.specs.FrontierNodes.{is_legal_to};

    /// The piece's legal destinations.
    pub fn destinations(&self) -> Destinations
        ensures { AreAllDestinations self.now.frontier.now.node.now.position self.now.from result }
    {
        let from = self.from;
        from.reveal_invariant();
        let piece = OwnPiece {
            known: &self.frontier.known,
            from,
        };
        piece.legal_destinations(self.targets)
    }

    /// The material after the piece's move to the square, for the mover, if the move is legal.
    pub fn raw_to(&self, to: Square, promote: bool) -> i32
        ensures { RawScoresTo self.now.frontier.now.node.now result self.now.from to promote }
    {
        let from = self.from;
        from.reveal_invariant();
        to.reveal_invariant();
        let node = self.frontier.node;
        let p = node.as_position();
        let gain = taken_gain(node.eval(), p.at(to)) + promotion_gain(p.at(from), promote);
        node.score() + gain as i32
    }

    /// Whether the piece's move to the square is legal.
    #[inline(never)]
    pub fn is_end(&self, to: Square, promote: bool) -> bool
        ensures { result ≡ is_legal_to self.now to promote }
    {
        let from = self.from;
        from.reveal_invariant();
        to.reveal_invariant();
        let square = self.targets & Squares::none().with(to);
        let piece = OwnPiece {
            known: &self.frontier.known,
            from,
        };
        let ends = piece.legal_destinations(square);
        if promote {
            ends.promoting.has(to)
        } else {
            ends.non_promoting.has(to)
        }
    }

    /// The piece's legal move to the square, with `raw` as its material score.
    #[inline(always)]
    pub fn scored_to(&self, to: Square, promote: bool, raw: i32) -> ScoredMove<'_>
        requires legal { is_legal_to self.now to promote ≡ true }
        requires raw { RawScoresTo self.now.frontier.now.node.now raw self.now.from to promote }
        ensures node { result.node.now ≡ self.now.frontier.now.node.now }
        ensures current { result.current ≡ Move.Board self.now.from to promote }
    {
        let from = self.from;
        from.reveal_invariant();
        to.reveal_invariant();
        ScoredMove {
            node: self.frontier.node,
            current: Move::Board { from, to, promote },
            raw,
        }
    }
}
