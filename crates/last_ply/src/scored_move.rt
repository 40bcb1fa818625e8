//! A legal move and its score.

ghost use Rattle.std.specs.Prelude.{◌≡◌, ◌≤ℤ◌, ◌<ℤ◌, true, false};
ghost use Rattle.shogi_core.specs.Codes.{code_of};
ghost use Rattle.shogi_core.specs.Validity.{IsValid};
ghost use Rattle.shogi_moves.specs.Legal.{is_legal};
ghost use Rattle.shogi_moves.specs.LegalMoves.{legal_codes};
ghost use Rattle.shogi_moves.specs.Rising.{is_in};
ghost use Rattle.shogi_eval.specs.Exchange.{resolves_captures};
ghost use Rattle.last_ply.specs.LastPly.{raw_of, score_of, Scores};

use crate::frontier::FrontierNode;
use shogi_core::Move;
use shogi_eval::Node;
use static_exchange::best_exchange;

/// A legal move of a node. `raw` is the material after it in points, for its mover, before any
/// exchange.
#[derive(Clone, Copy)]
pub struct ScoredMove<'a> {
    pub node: &'a Node,
    pub current: Move,
    pub raw: i32,
    ghost valid: { IsValid node.now.position },
    ghost legal: { is_legal node.now.position current ≡ true },
    ghost listed: { is_in (code_of current) (legal_codes node.now.position) ≡ true },
    ghost value: { raw ≡ raw_of node.now (code_of current) },
}

impl FrontierNode<'_> {
    /// The legal move of the node, ready to be scored.
    pub fn scored(&self, m: &Move) -> ScoredMove<'_>
        requires { is_legal self.now.node.now.position m.now ≡ true }
        ensures node { result.node.now ≡ self.now.node.now }
        ensures current { result.current ≡ m.now }
    {
        m.reveal_invariant();
        ScoredMove {
            node: self.node,
            current: *m,
            raw: 0 - self.node.score_after(m),
        }
    }
}

impl ScoredMove<'_> {
    /// The score after the opponent's best exchange, which `raw` does not include, if it exceeds
    /// `floor`; `floor` otherwise. The exchange is counted exactly only up to the difference.
    #[inline(never)]
    fn settled_above(&self, floor: i32) -> i32
        requires resolves_captures { resolves_captures self.now.node.now.eval ≡ true }
        requires above { floor <ℤ self.now.raw }
        ensures least { floor ≤ℤ result }
        ensures at { score_of self.now.node.now (code_of self.now.current) ≤ℤ result }
        ensures exact { floor <ℤ result
            → result ≡ score_of self.now.node.now (code_of self.now.current) }
    {
        let m = self.current;
        m.reveal_invariant();
        let enough = self.raw.abs_diff(floor);
        let lost = best_exchange(self.node.as_position(), m, enough);
        if lost < enough {
            self.raw - lost as i32
        } else {
            floor
        }
    }

    /// The move's score if it exceeds `floor`; `floor` otherwise.
    #[inline(always)]
    pub fn score_above(&self, floor: i32) -> i32
        ensures least { floor ≤ℤ result }
        ensures at { score_of self.now.node.now (code_of self.now.current) ≤ℤ result }
        ensures exact { floor <ℤ result
            → result ≡ score_of self.now.node.now (code_of self.now.current) }
    {
        if self.raw <= floor {
            return floor;
        }
        if self.node.eval().resolves_captures() {
            self.settled_above(floor)
        } else {
            self.raw
        }
    }

    /// Whether the move scores exactly `score`, at most `raw`, after the opponent's best exchange.
    #[inline(never)]
    fn settles_at(&self, score: i32) -> bool
        requires resolves_captures { resolves_captures self.now.node.now.eval ≡ true }
        requires below { score ≤ℤ self.now.raw }
        ensures scores { result ≡ true
            → Scores self.now.node.now score (code_of self.now.current) }
        ensures other { result ≡ false
            → Scores self.now.node.now score (code_of self.now.current) → ⊥ }
    {
        let m = self.current;
        m.reveal_invariant();
        let lost = self.raw.abs_diff(score);
        best_exchange(self.node.as_position(), m, lost + 1) == lost
    }

    /// Whether the move scores exactly `score`.
    #[inline(always)]
    pub fn scores(&self, score: i32) -> bool
        ensures scores { result ≡ true
            → Scores self.now.node.now score (code_of self.now.current) }
        ensures other { result ≡ false
            → Scores self.now.node.now score (code_of self.now.current) → ⊥ }
    {
        if self.raw < score {
            return false;
        }
        if self.node.eval().resolves_captures() {
            self.settles_at(score)
        } else {
            self.raw == score
        }
    }
}
