//! Counter moves: the last refutations, by the move refuted.

ghost use Rattle.std.specs.Prelude.{◌≡◌, ◌<◌, ◌≤◌, slice_index, slice_set};
ghost use Rattle.shogi_core.specs.Same.{role_number};
ghost use Rattle.search_nodes.specs.CounterMoves.{place_of};
ghost use Rattle.search_nodes.specs.declared.counter_moves.TheConstants.{PLACES};

use shogi_core::{Color, Move, Position, Role};

/// Two sides, fourteen roles and 81 squares.
const PLACES: usize = 2268;

/// For each side, role and destination the code of the move that last refuted such a move.
#[derive(Clone, Copy)]
pub struct CounterMoves {
    pub codes: [u16; PLACES],
}

/// The number of a role, 0 to 13.
fn number_of(role: Role) -> usize
    ensures value { result ≡ role_number role }
    ensures range { result ≤ 13 }
{
    role as usize
}

/// The index of the move `m` that led to `p`.
fn place_of(p: &Position, m: &Move) -> usize
    ensures value { result ≡ place_of p.now m.now }
    ensures range { result < PLACES }
{
    let to = m.to();
    to.reveal_invariant();
    let number = match p.at(to) {
        Some(piece) => number_of(piece.role),
        None => 0,
    };
    let side = match p.side() {
        Color::Black => 0,
        Color::White => 14,
    };
    (side + number) * 81 + to.index()
}

impl CounterMoves {
    /// No counter moves: each entry is 0, the code of no legal move.
    pub fn none() -> CounterMoves {
        CounterMoves { codes: [0; PLACES] }
    }

    /// The code of the move that last refuted a move like `m`, which led to `p`; 0 if none did.
    pub fn reply_to(&self, p: &Position, m: &Move) -> u16
        ensures { result ≡ slice_index self.now.codes (place_of p.now m.now) }
    {
        self.codes[place_of(p, m)]
    }

    /// Records `code` as the refutation of the move `m`, which led to `p`.
    pub fn keep(&mut self, p: &Position, m: &Move, code: u16)
        ensures { self.new.codes ≡ slice_set self.old.codes (place_of p.now m.now) code }
    {
        self.codes[place_of(p, m)] = code;
    }
}
