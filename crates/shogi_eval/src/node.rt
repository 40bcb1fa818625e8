//! Positions with their material, as a search plays through them.

ghost use Rattle.std.specs.Prelude.{◌≡◌, ◌≤ℤ◌, true, ◌-ℤ◌, pos};
ghost use Rattle.shogi_eval.specs.declared.points.TheConstants.{POINTS_MAX};
ghost use Rattle.shogi_core.specs.Codes.{code_of};
ghost use Rattle.shogi_core.specs.Start.{start};
ghost use Rattle.shogi_core.specs.Validity.{IsValid};
ghost use Rattle.shogi_moves.specs.After.{after, after_code};
ghost use Rattle.shogi_moves.specs.Legal.{is_legal};
ghost use Rattle.shogi_eval.specs.Evaluated.{IsMaterialAfterDrops, material_after};
ghost use Rattle.shogi_eval.specs.Material.{material_of};

use crate::eval::Eval;
use crate::gain::{drop_gain, score_after};
use crate::points::material;
use shogi_core::{Kind, Move, Position};
use shogi_moves::advance;
use std::marker::Model;

/// A position with an evaluation and its material, which each move updates; seen as the position
/// and the evaluation.
#[derive(Clone, Copy, Debug)]
pub struct Node {
    position: Position,
    eval: Eval,
    score: i32,
}

impl Model for Node {
    ghost use Rattle.std.specs.Prelude.{◌≡◌, ℤ};
    ghost use Rattle.std.proofs.Common.{ap, sym};
    ghost use Rattle.shogi_eval.specs.Evaluated.{Evaluated};
    ghost use Rattle.shogi_eval.specs.Material.{material_of};

    ghost Value = { Evaluated };

    ghost view = { λ n. record { position = n.position; eval = n.eval } };

    ghost invariant = { λ n. n.score ≡ material_of n.position n.eval };

    ghost inverse = { λ v. record { position = v.position; eval = v.eval; score = material_of v.position v.eval } };

    ghost inverse_ok = { λ n h. ap (λ (s : ℤ). record { position = n.position; eval = n.eval; score = s }) (sym h) };
}

impl Node {
    /// The node of a position under an evaluation.
    pub fn of(position: Position, e: Eval) -> Node
        ensures position { result.position ≡ position }
        ensures eval { result.eval ≡ e }
    {
        let score = material(&position, e);
        Node {
            position,
            eval: e,
            score,
        }
    }

    /// The node of the opening position, whose material is 0.
    #[tactic(auto, using(crate::proofs::Opening::start_even))]
    pub fn start(e: Eval) -> Node
        ensures position { result.position ≡ start }
        ensures eval { result.eval ≡ e }
    {
        Node {
            position: Position::start(),
            eval: e,
            score: 0,
        }
    }

    /// A copy of the position.
    pub fn position(&self) -> Position
        ensures { result ≡ self.now.position }
    {
        self.position
    }

    /// A reference to the position.
    pub fn as_position(&self) -> &Position
        ensures { result.now ≡ self.now.position }
    {
        &self.position
    }

    /// The evaluation.
    pub fn eval(&self) -> Eval
        ensures { result ≡ self.now.eval }
    {
        self.eval
    }

    /// A copy of the node with a legal move played, under the same evaluation.
    pub fn play(&self, m: Move) -> Node
        requires { is_legal self.now.position m ≡ true }
        ensures after { result.position ≡ after self.now.position m }
        ensures by_code { result.position ≡ after_code self.now.position (code_of m) }
        ensures eval { result.eval ≡ self.now.eval }
        ensures valid { IsValid (after self.now.position m) }
    {
        let mut next = *self;
        next.advance(m);
        next
    }

    /// Plays a legal move, under the same evaluation.
    pub fn advance(&mut self, m: Move)
        requires { is_legal self.old.position m ≡ true }
        ensures after { self.new.position ≡ after self.old.position m }
        ensures by_code { self.new.position ≡ after_code self.old.position (code_of m) }
        ensures eval { self.new.eval ≡ self.old.eval }
        ensures valid { IsValid (after self.old.position m) }
    {
        self.score = score_after(&self.position, self.eval, self.score, &m);
        advance(&mut self.position, m);
    }

    /// The material after a legal move, as seen by the side to move then. The move is not played.
    #[inline(always)]
    pub fn score_after(&self, m: &Move) -> i32
        requires { is_legal self.now.position m.now ≡ true }
        ensures { result ≡ material_after self.now m.now }
    {
        score_after(&self.position, self.eval, self.score, m)
    }

    /// The material after a legal drop of the kind on any square, as seen by the side to move then.
    #[inline(always)]
    pub fn score_after_drop(&self, kind: Kind) -> i32
        ensures { IsMaterialAfterDrops self.now kind result }
    {
        let p = self.as_position();
        p.reveal_invariant();
        0 - (self.score() + drop_gain(self.eval(), kind))
    }

    /// The material of the position for the side to move (see `material`).
    pub fn score(&self) -> i32
        ensures value { result ≡ material_of self.now.position self.now.eval }
        ensures least { (pos 0 -ℤ pos POINTS_MAX) ≤ℤ result }
        ensures most { result ≤ℤ pos POINTS_MAX }
    {
        self.position.reveal_invariant();
        self.score
    }
}
