//! The position after a move.

ghost use Rattle.std.specs.Prelude.{◌≡◌, ◌<◌, ◌-◌, ◌+◌, true};
ghost use Rattle.shogi_core.specs.Attack.{in_check};
ghost use Rattle.shogi_core.specs.Codes.{code_of};
ghost use Rattle.shogi_core.specs.Validity.{IsValid};
ghost use Rattle.shogi_moves.specs.After.{after, after_code, piece_moved, dropped, cells_after, with_captured};
ghost use Rattle.shogi_moves.specs.Legal.{is_legal, is_safe};

use shogi_core::{Board, Color, Hands, Kind, Move, Piece, Position, Role, Square};

/// A piece as it stands after its move: promoted if `promote`, else unchanged. An empty cell stays
/// empty.
pub fn piece_moved(cell: Option<Piece>, promote: bool) -> Option<Piece>
    ensures { result ≡ piece_moved promote cell }
{
    match cell {
        None => None,
        Some(piece) => {
            let role = if promote {
                piece.role.promoted()
            } else {
                piece.role
            };
            Some(Piece {
                color: piece.color,
                role,
            })
        }
    }
}

/// The piece that a drop of the kind puts on the board, unpromoted.
pub fn dropped(color: Color, kind: Kind) -> Option<Piece>
    ensures { result ≡ dropped color kind }
{
    Some(Piece {
        color,
        role: Role::from(kind),
    })
}

/// Makes a move of `side` on the board, in place.
pub fn move_on(board: &mut Board, side: Color, m: &Move)
    ensures { board.new ≡ cells_after board.old side m.now }
{
    match m {
        Move::Board { from, to, promote } => {
            let piece = board.at(*from);
            board.set(*from, None);
            board.set(*to, piece_moved(piece, *promote));
        }
        Move::Drop { kind, to } => board.set(*to, dropped(side, *kind)),
    }
}

/// Whether a king of `side` is attacked after its move, which is made on a copy.
pub fn is_checked_after(board: &Board, side: Color, m: &Move) -> bool
    ensures { result ≡ in_check (cells_after board.now side m.now) side }
{
    let mut next = *board;
    move_on(&mut next, side, m);
    next.in_check(side)
}

/// The hands after the side to move captured `cell`, as its unpromoted kind. A king goes to no
/// hand, and an empty cell adds nothing.
fn with_captured(p: &Position, cell: Option<Piece>) -> Hands
    ensures { result ≡ with_captured p.now.hands p.now.side cell }
{
    p.reveal_invariant();
    let hands = p.hands();
    let Some(piece) = cell else { return hands };
    let Some(kind) = piece.role.kind() else {
        return hands
    };
    hands.with(p.side(), kind, hands.count(p.side(), kind) + 1)
}

/// Makes a safe move in place: a legal one, or the drop of a pawn that mates.
#[tactic(auto, using(crate::proofs::Keeps::keeping))]
pub fn make_safe(p: &mut Position, m: &Move)
    requires { is_safe p.old m.now ≡ true }
    ensures { p.new ≡ after p.old m.now }
{
    p.reveal_invariant();
    m.reveal_invariant();
    match m {
        Move::Board { from, to, promote } => {
            let (piece, taken) = (p.at(*from), p.at(*to));
            let hands = with_captured(p, taken);
            p.move_piece(*from, *to, piece_moved(piece, *promote), hands);
        }
        Move::Drop { kind, to } => {
            let side = p.side();
            let hands = p.hands().with(side, *kind, p.hand(side, *kind) - 1);
            p.drop_piece(*to, dropped(side, *kind), hands);
        }
    }
}

/// Makes a legal move in place; `p` becomes the position that `apply` returns.
#[tactic(auto, using(crate::proofs::Keeps::making))]
pub fn advance(p: &mut Position, m: Move)
    requires { is_legal p.old m ≡ true }
    ensures after { p.new ≡ after p.old m }
    ensures by_code { p.new ≡ after_code p.old (code_of m) }
    ensures valid { IsValid (after p.old m) }
{
    make_safe(p, &m);
    p.reveal_invariant();
    m.reveal_invariant();
}

/// The position after a legal move: a captured piece is in the mover's hand as its unpromoted kind,
/// a dropped one has left it, and the opponent is to move (JSA playing rules).
pub fn apply(p: &Position, m: Move) -> Position
    requires { is_legal p.now m ≡ true }
    ensures after { result ≡ after p.now m }
    ensures by_code { result ≡ after_code p.now (code_of m) }
    ensures valid { IsValid (after p.now m) }
{
    let mut next = *p;
    advance(&mut next, m);
    next
}
