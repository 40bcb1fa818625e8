//! What is known of the opponent's replies at a node of depth 2.

ghost use Rattle.std.specs.Prelude.{◌≡◌};
ghost use Rattle.shogi_moves.specs.Escapes.{AreEscapes};
ghost use Rattle.shogi_eval.specs.Evaluated.{Evaluated};
ghost use Rattle.shogi_eval.specs.declared.eval.Eval.{Eval};

use crate::frame::Frame;
use crate::threat::{Threats, threats_of};
use shogi_core::{Position, Squares};
use shogi_replies::{ReplyInfo, escape_squares};

/// The opponent's replies at a node of depth 2, computed when first needed. One cache serves a
/// whole search, since only the frame on top has depth 2.
#[derive(Clone, Copy)]
pub struct ReplyCache {
    pub replies: ReplyInfo,
    /// Set once `replies` is that of the position.
    pub has_replies: bool,
    /// Flight squares of the opponent's king.
    pub escapes: Option<Squares>,
    /// Captures and promotions that the opponent may make after most moves.
    pub threats: Option<Threats>,
}

impl ReplyCache {
    ghost use Rattle.search_nodes.specs.ReplyCache.{IsReplyCacheOf, StaysTrue};

    /// Nothing is computed yet for the position.
    pub fn unknown(p: &Position) -> ReplyCache
        ensures { (e : Eval) → IsReplyCacheOf (record { position = p.now; eval = e }) result }
    {
        ReplyCache {
            replies: ReplyInfo::unknown(p),
            has_replies: false,
            escapes: None,
            threats: None,
        }
    }

    /// Computes which moves are sure to have a reply.
    pub(crate) fn look_ahead(&mut self, frame: &Frame)
        ensures { StaysTrue frame.now.node self.old self.new }
    {
        if !self.has_replies {
            self.replies = ReplyInfo::of(frame.node.as_position());
            self.has_replies = true;
        }
    }

    /// Computes the flight squares of the opponent's king.
    pub(crate) fn look_for_escapes(&mut self, frame: &Frame) -> Squares
        ensures escapes { IsReplyCacheOf frame.now.node self.old
            → AreEscapes frame.now.node.position result.bits }
        ensures unchanged { StaysTrue frame.now.node self.old self.new }
    {
        if let Some(squares) = self.escapes {
            return squares;
        }
        let squares = escape_squares(frame.node.as_position());
        self.escapes = Some(squares);
        squares
    }

    /// The flight squares of the opponent's king, or none if they are not computed yet.
    #[inline(always)]
    #[tactic(auto, using(shogi_core::proofs::TargetLaws::no_bits))]
    pub(crate) fn known_escapes(&self) -> Squares
        ensures { (node : Evaluated) → IsReplyCacheOf node self.now
            → AreEscapes node.position result.bits }
    {
        match self.escapes {
            Some(squares) => squares,
            None => Squares::none(),
        }
    }

    /// Computes the opponent's threats once a move has failed low, or if the material is below
    /// beta. Otherwise the first move may cut off without them.
    pub(crate) fn look_for_threats(&mut self, frame: &Frame)
        ensures { StaysTrue frame.now.node self.old self.new }
    {
        if self.threats.is_none() && (frame.has_move || frame.node.score() < frame.beta) {
            self.threats = threats_of(frame.node.as_position(), frame.node.eval());
        }
    }
}
