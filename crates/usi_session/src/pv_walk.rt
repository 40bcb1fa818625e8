//! A walk along a pv, ply by ply.

ghost use Rattle.std.specs.Prelude.{◌≡◌, ◌≤◌, ◌<◌, ◌+◌, ◌-◌};
ghost use Rattle.minimax.specs.Minimax.{value, best, pv_cost};
ghost use Rattle.shogi_moves.specs.After.{after};
ghost use Rattle.usi_lines.specs.declared.options.TheConstants.{DEPTH_MAX};
ghost use Rattle.usi_session.specs.Walked.{walk_from, walk_by, cost_after, walk_roots, roots_after};

use arrayvec::ArrayVec;
use shogi_core::{Move, Position};
use shogi_eval::Eval;
use shogi_moves::apply;
use shogi_search::Found;
use std::marker::Model;
use usi_lines::DEPTH_MAX;

/// The most moves of a pv: one per ply.
const PV_MAX: usize = DEPTH_MAX as usize;

/// A walk along a pv: the moves so far, the position after them, and the plies left. The value is
/// known from the start, or once the first search has ended.
#[derive(Drop)]
pub struct PvWalk {
    eval: Eval,
    at: Position,
    plies: u8,
    value: Option<i32>,
    moves: ArrayVec<Move, PV_MAX>,
}

impl Model for PvWalk {
    ghost use Rattle.usi_session.specs.Walked.{Walked, IsPvWalk, walk_of};

    ghost Value = { Walked };

    ghost view = { λ w. walk_of w.eval w.at w.plies w.moves.items w.value };

    ghost invariant = { λ w. IsPvWalk w.plies w.moves.items w.value };
}

impl PvWalk {
    /// A walk that begins at a position, with `plies` to go.
    pub fn new(p: &Position, eval: Eval, plies: u8) -> PvWalk
        requires some { 0 < plies }
        requires most { plies ≤ DEPTH_MAX }
        ensures { result ≡ walk_from p.now eval plies }
    {
        PvWalk {
            eval,
            at: *p,
            plies,
            value: None,
            moves: ArrayVec::new(),
        }
    }

    /// A walk that has made a move of known worth; `plies` are left after it.
    pub fn after(played: Move, next: &Position, eval: Eval, plies: u8, worth: i32) -> PvWalk
        requires most { plies < DEPTH_MAX }
        ensures { result ≡ walk_by played next.now eval plies worth }
    {
        let mut moves = ArrayVec::new();
        moves.push(played);
        PvWalk {
            eval,
            at: *next,
            plies,
            value: Some(worth),
            moves,
        }
    }

    /// Advances one ply by the result of a search of the current position. If no move is legal, the
    /// pv is whole.
    pub fn follow(&mut self, found: &Found)
        requires some { 0 < self.old.plies }
        requires value { found.now.value ≡ value self.old.at self.old.eval self.old.plies }
        requires best { found.now.best ≡ best self.old.at self.old.eval self.old.plies }
        ensures unchanged { self.new ≡ record self.old {
          at = self.new.at;
          plies = self.new.plies;
        } }
        ensures fewer { self.new.plies < self.old.plies }
        ensures cost { pv_cost self.new.at self.new.eval self.new.plies ≤ cost_after self.old }
        ensures roots { walk_roots self.new ≡ roots_after self.old }
    {
        self.value = Some(self.value.unwrap_or(found.value));
        match found.best {
            None => self.plies = 0,
            Some(m) => {
                let played = m;
                self.moves.push(m);
                self.at = apply(&self.at, played);
                self.plies -= 1;
            }
        }
    }

    /// The position after the moves so far.
    pub fn at(&self) -> &Position
        ensures { result.now ≡ self.now.at }
    {
        &self.at
    }

    /// The evaluation that the walk searches by.
    pub fn eval(&self) -> Eval
        ensures { result ≡ self.now.eval }
    {
        self.eval
    }

    /// The plies left.
    pub fn plies(&self) -> u8
        ensures plies { result ≡ self.now.plies }
        ensures most { self.now.plies ≤ DEPTH_MAX }
    {
        self.plies
    }

    /// The pv, once it is whole.
    pub fn moves(&self) -> &[Move]
        requires whole { self.now.plies ≡ 0 }
        ensures { result.now ≡ self.now.pv }
    {
        self.moves.as_slice()
    }

    /// The value of the pv, once it is whole. It is known then, so 0 is never returned for a
    /// missing one.
    pub fn value(&self) -> i32
        requires whole { self.now.plies ≡ 0 }
        ensures { result ≡ self.now.value }
    {
        self.value.unwrap_or(0)
    }
}
