//! Moves and their codes.

ghost use Rattle.std.specs.Prelude.{◌≡◌, ◌<◌, ◌≤◌, ◌+◌, ◌↔◌, IsNone, IfSome, Some};
ghost use Rattle.shogi_core.specs.declared.moves.TheConstants.{MOVE_CODE_COUNT};
ghost use Rattle.shogi_core.specs.Codes.{code_of, move_of, kind_at};
ghost use Rattle.shogi_core.specs.Moves.{end_of};

use crate::piece::Kind;
use crate::square::Square;

/// The number of all moves; codes are the numbers below it (own choice).
pub const MOVE_CODE_COUNT: u16 = 13689;

/// The lowest code of a drop; lower codes are of board moves.
pub const FIRST_DROP: u16 = 13122;

/// The number of codes for moves from one square of the board.
pub const SQUARE_CODES: u16 = 162;

/// A move on the board or a drop. It need not be legal in any position.
#[derive(Clone, Copy, Debug, PartialEq, Eq, Hash)]
pub enum Move {
    Board {
        from: Square,
        to: Square,
        promote: bool,
    },
    Drop {
        kind: Kind,
        to: Square,
    },
}

/// Any move, to fill tables with at first.
impl Default for Move {
    fn default() -> Move {
        Move::Board {
            from: Square::default(),
            to: Square::default(),
            promote: false,
        }
    }
}

/// The kind with this number, from 0 to 6.
fn kind_at(n: usize) -> Kind
    ensures { result ≡ kind_at n }
{
    match n {
        0 => Kind::Pawn,
        1 => Kind::Lance,
        2 => Kind::Knight,
        3 => Kind::Silver,
        4 => Kind::Gold,
        5 => Kind::Bishop,
        _ => Kind::Rook,
    }
}

impl Move {
    /// The destination of the move.
    #[inline(always)]
    pub fn to(&self) -> Square
        ensures { result ≡ end_of self.now }
    {
        match self {
            Move::Board { to, .. } => *to,
            Move::Drop { to, .. } => *to,
        }
    }

    /// The code, from 0 to 13,688 (own choice): board moves by origin, destination and promotion,
    /// then drops by kind and destination.
    #[tactic(auto, using(crate::proofs::CodesBack::codes_back))]
    pub fn code(self) -> u16
        ensures code { result ≡ code_of self }
        ensures range { result < MOVE_CODE_COUNT }
        ensures back { move_of result ≡ Some self }
    {
        match self {
            Move::Board { from, to, promote } => {
                let squares = from.index() * 81 + to.index();
                (squares * 2 + if promote { 1 } else { 0 }) as u16
            }
            Move::Drop { kind, to } => FIRST_DROP + (kind.number() * 81 + to.index()) as u16,
        }
    }

    /// The code plus one.
    pub fn code_above(&self) -> u16
        ensures code { result ≡ code_of self.now + 1 }
        ensures range { result ≤ MOVE_CODE_COUNT }
    {
        self.code() + 1
    }

    /// Tells the prover that the code belongs to this move alone; does nothing at run time.
    #[tactic(auto, using(crate::proofs::CodesBack::codes_back))]
    pub fn reveal_invariant(&self)
        ensures range { code_of self.now < MOVE_CODE_COUNT }
        ensures back { move_of (code_of self.now) ≡ Some self.now }
    {
        match self {
            Move::Board { from, to, .. } => {
                from.reveal_invariant();
                to.reveal_invariant();
            }
            Move::Drop { to, .. } => to.reveal_invariant(),
        }
    }

    /// The move with this code, or `None` from 13,689 on.
    pub fn of_code(code: u16) -> Option<Move>
        ensures value { result ≡ move_of code }
        ensures if_none { IsNone result ↔ (MOVE_CODE_COUNT ≤ code) }
        ensures back { IfSome result (λ m. code_of m ≡ code) }
    {
        if code < FIRST_DROP {
            let squares = code as usize / 2;
            return Some(Move::Board {
                from: Square::of_index(squares / 81),
                to: Square::of_index(squares % 81),
                promote: code % 2 == 1,
            });
        }
        if code < MOVE_CODE_COUNT {
            let drop = (code - FIRST_DROP) as usize;
            return Some(Move::Drop {
                kind: kind_at(drop / 81),
                to: Square::of_index(drop % 81),
            });
        }
        None
    }
}
