//! The legal moves of a position in the order of their codes.

ghost use Rattle.std.specs.Prelude.{◌≡◌, ◌≤◌, true, Some, IfSome};
ghost use Rattle.shogi_core.specs.declared.moves.TheConstants.{FIRST_DROP};
ghost use Rattle.shogi_moves.specs.Legal.{is_legal};
ghost use Rattle.shogi_moves.specs.LegalMoves.{IsNextAbove, legal_above, legal_codes};
ghost use Rattle.shogi_moves.specs.Rising.{IsRising};
ghost use Rattle.shogi_moves.specs.Sweeps.{IsPlace, codes_at};
ghost use Rattle.shogi_moves.specs.Walks.{TakesNext};

use crate::check_info::{CheckInfo, KnownPosition, check_info_of};
use crate::next::{KeptDestinations, kept_at, least_board};
use crate::sweep::DropSweep;
use shogi_core::{Move, Position, Square};
use std::marker::Model;

/// The state of a walk: at the board moves from a code on, with the destinations of a piece; or at
/// the drops, whose squares are found only once no board move is left.
#[derive(Clone, Copy)]
pub enum Place {
    Board(CheckInfo, u16, KeptDestinations),
    Drops(DropSweep),
}

/// The legal moves of a position still to come, in the order of codes. Contracts see the position
/// and the list of those codes.
#[derive(Drop)]
pub struct Walk {
    position: Position,
    place: Place,
}

impl Model for Walk {
    ghost use Rattle.shogi_moves.specs.Sweeps.{IsPlace, codes_at};
    ghost use Rattle.shogi_moves.specs.Walks.{Remaining};

    ghost Value = { Remaining };

    ghost view = { λ w. record {
      position = w.position;
      codes = codes_at w.position w.place;
    } };

    ghost invariant = { λ w. IsPlace w.position w.place };
}

/// The place after a move, or at the first move if there is none.
#[inline(always)]
fn place_behind(p: &Position, passed: Option<Move>) -> Place
    ensures place { IsPlace p.now result }
    ensures codes { codes_at p.now result ≡ legal_above p.now passed }
{
    let known = check_info_of(p).at(p);
    let Some(m) = passed else {
        return Place::Board(known.info, 0, kept_at(&known, Square::of_index(0)))
    };
    m.reveal_invariant();
    match m {
        Move::Board { from, .. } => Place::Board(known.info, m.code_above(), kept_at(&known, from)),
        Move::Drop { kind, to } => Place::Drops(DropSweep::above(&known, kind, to)),
    }
}

impl Place {
    /// Takes the next legal move at or after the place, which goes on past it.
    #[inline(always)]
    fn next(&mut self, p: &Position) -> Option<Move>
        requires { IsPlace p.now self.old }
        ensures place { IsPlace p.now self.new }
        ensures next { TakesNext result (codes_at p.now self.old) (codes_at p.now self.new) }
        ensures above { IfSome result (λ m. codes_at p.now self.new ≡ legal_above p.now (Some m)) }
        ensures legal { IfSome result (λ m. is_legal p.now m ≡ true) }
    {
        match self {
            Place::Drops(sweep) => sweep.next(p),
            Place::Board(info, code, kept) => {
                let known = info.at(p);
                if let Some(m) = least_board(&known, *code, kept) {
                    *code = m.code_above();
                    return Some(m);
                }
                let mut sweep = DropSweep::new(&known);
                let found = sweep.next(p);
                *self = Place::Drops(sweep);
                found
            }
        }
    }
}

impl Walk {
    /// A walk over all legal moves of the position.
    pub fn new(p: &Position) -> Walk
        ensures position { result.position ≡ p.now }
        ensures codes { result.codes ≡ legal_codes p.now }
    {
        Walk {
            position: *p,
            place: place_behind(p, None),
        }
    }

    /// Takes the next legal move; `None` if none is left.
    #[inline(always)]
    pub fn next(&mut self) -> Option<Move>
        ensures position { self.new.position ≡ self.old.position }
        ensures next { TakesNext result self.old.codes self.new.codes }
        ensures legal { IfSome result (λ m. is_legal self.old.position m ≡ true) }
    {
        self.place.next(&self.position)
    }
}

/// The legal move of least code above that of `after`, or the first one if `after` is `None`;
/// `None` if no further move is legal. Starting with `None` and passing each result on gives each
/// legal move once, in the order of codes (own choice).
#[tactic(auto, using(crate::proofs::LegalLaws::legal_rising))]
pub fn next_legal(p: &Position, after: Option<Move>) -> Option<Move>
    ensures next { IsNextAbove p.now after result }
    ensures legal { IfSome result (λ m. is_legal p.now m ≡ true) }
    ensures rising { IsRising (legal_codes p.now) }
{
    place_behind(p, after).next(p)
}
