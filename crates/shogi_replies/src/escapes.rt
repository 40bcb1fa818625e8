//! Squares to which the opponent's king may go if a move gives it check.

ghost use Rattle.std.specs.Prelude.{◌≡◌, ◌<◌, ℕ, true, Some};
ghost use Rattle.shogi_core.specs.Movement.{reaches};
ghost use Rattle.shogi_moves.specs.Destinations.{IsWithin};
ghost use Rattle.shogi_moves.specs.Escapes.{AreEscapes};
ghost use Rattle.shogi_moves.specs.Legal.{is_legal};
ghost use Rattle.shogi_replies.specs.Escapes.{AreAllUnattacked, AreUnattacked, IsSafeWithoutBoth, HasRaysBehind, HasKingsRays, ReachesWithin, HasNoSniper, OpensWithin};
ghost use Rattle.shogi_replies.specs.ReplyInfo.{IsAnswered, IsQuietlyAnswered, AreAnswered};
ghost use Rattle.shogi_replies.specs.Threats.{IsTaken};

use crate::replies::KnownReplies;
use shogi_core::bits::lowest;
use shogi_core::{
    Board, Color, Direction, Move, Piece, Position, Square, Squares, line_mask, ray, step_squares,
};
use shogi_moves::{KnownEscapes, Origin, king_steps, piece_moved};

/// The `squares` that `by` does not attack.
fn unattacked(board: &Board, by: Color, squares: Squares) -> Squares
    ensures squares { AreAllUnattacked board.now by squares.bits result.bits }
{
    squares.sift(|to| !board.is_attacked(by, to))
}

/// The first three of the `squares` that `by` does not attack, or fewer if there are no more.
#[tactic(auto, using(crate::proofs::EscapeLaws::gathering))]
fn some_unattacked(board: &Board, by: Color, squares: Squares) -> Squares
    ensures { AreUnattacked board.now by squares.bits result.bits }
{
    let mut left = squares.iter();
    let mut kept = Squares::none();
    let mut found = 0u8;
    'squares: while let Some(square) = left.next() {
        if !board.is_attacked(by, square) {
            kept = kept.with(square);
            found += 1;
            if found == 3 {
                return kept;
            }
        }
    }
    kept
}

/// The squares next to the opponent's king to which it may go as the pieces now stand; none if it
/// has no king. The king is not in check, so it blocks no attack on them and need not be lifted.
pub fn escape_squares(p: &Position) -> Squares
    ensures { AreEscapes p.now result.bits }
{
    p.reveal_invariant();
    unattacked(p.as_board(), p.side(), king_steps(p))
}

/// The first three of `escape_squares`, or fewer if there are no more.
pub fn some_escapes(p: &Position) -> Squares
    ensures { AreEscapes p.now result.bits }
{
    p.reveal_invariant();
    some_unattacked(p.as_board(), p.side(), king_steps(p))
}

/// The squares to which one direction leads from both squares, whatever stands between.
fn squares_behind(over: Square, from: Square) -> Squares
    ensures { (d : ℕ) → d < 8 → HasRaysBehind d from over result.bits }
{
    let mut behind = Squares::none();
    let mut left = Direction::all();
    'directions: while let Some(direction) = left.next() {
        behind = behind | ray(direction, from) & ray(direction, over);
    }
    behind
}

/// The squares behind the opponent's king as seen from `from`; none if it has no king.
fn behind_king(p: &Position, from: Square) -> Squares
    ensures { HasKingsRays p.now from result.bits }
{
    let kings = p.as_board().kings(p.side().opponent());
    if kings.is_empty() {
        return Squares::none();
    }
    squares_behind(Square::of_index(lowest(kings.bits)), from)
}

/// A superset of the squares that the slider reaches from `to` once the opponent's only king has
/// left its square. The slide is computed only if it matters: some square of `among` lies beyond
/// its steps, and none off its lines.
fn slider_reach(p: &Position, piece: Piece, to: Square, among: Squares) -> Squares
    ensures { ReachesWithin p.now (Some piece) to result.bits }
{
    to.reveal_invariant();
    let left = among.except(to);
    let steps = step_squares(piece, to);
    let wide = steps | line_mask(to);
    if left.without(steps).is_empty() || !left.without(wide).is_empty() {
        return wide;
    }
    p.as_board().targets_of(piece, to) | behind_king(p, to)
}

/// A superset of the squares that the piece reaches from `to` once the opponent's only king has
/// left its square, narrow enough to tell whether it covers all of `among`.
fn within_reach(p: &Position, cell: Option<Piece>, to: Square, among: Squares) -> Squares
    ensures { ReachesWithin p.now cell to result.bits }
{
    let Some(piece) = cell else {
        return Squares::none()
    };
    if piece.role.is_sliding() {
        slider_reach(p, piece, to, among)
    } else {
        step_squares(piece, to)
    }
}

/// Whether no slider of the side to move is on a line with the square, whatever stands between.
fn has_no_sniper(p: &Position, square: Square) -> bool
    ensures { result ≡ true → HasNoSniper p.now.cells p.now.side square }
{
    let board = p.as_board();
    let snipers = board.own(p.side()) & board.sliders() & line_mask(square);
    snipers.is_empty()
}

/// Whether the king steps from `king` to `to`, which no piece of the side to move attacks once the
/// king and the piece on `from` have left.
fn is_unprotected(p: &Position, king: Square, from: Square, to: Square) -> bool
    ensures reached { result ≡ true → reaches p.now.cells king to ≡ true }
    ensures safe { result ≡ true → IsSafeWithoutBoth p.now from king to }
{
    to.reveal_invariant();
    let board = p.as_board();
    if !board.targets(king).has(to) {
        return false;
    }
    let mut next = *board;
    next.set(from, None);
    next.set(king, None);
    !next.is_attacked(p.side(), to)
}

/// True only if the opponent's king may capture the piece that a legal move puts next to it.
pub fn king_takes(p: &Position, m: &Move) -> bool
    ensures answered { result ≡ true → IsAnswered p.now m.now }
    ensures taken { result ≡ true → is_legal p.now m.now ≡ true → IsTaken p.now m.now }
{
    p.reveal_invariant();
    let Some(king) = p.king(p.side().opponent()) else {
        return false
    };
    king.reveal_invariant();
    match m {
        Move::Board { from, to, .. } => {
            from.reveal_invariant();
            to.reveal_invariant();
            is_unprotected(p, king, *from, *to)
        }
        Move::Drop { to, .. } => {
            to.reveal_invariant();
            is_unprotected(p, king, *to, *to)
        }
    }
}

/// The lines that a move may open: those of the square that it leaves; none for a drop.
fn opened_lines(origin: &Origin) -> Squares
    ensures { OpensWithin origin.now result.bits }
{
    match origin {
        Origin::Board { from, .. } => {
            from.reveal_invariant();
            line_mask(*from)
        }
        Origin::Drop { .. } => Squares::none(),
    }
}

impl KnownReplies<'_> {
    /// True only if the king keeps an empty escape after the legal move, even in check. The move
    /// does not end there, the moved piece does not reach it, and it is on no line with the square
    /// left.
    pub fn leaves_escape(&self, m: &Move) -> bool
        ensures { result ≡ true → IsQuietlyAnswered self.now.position.now m.now }
    {
        let (p, to) = (self.position, m.to());
        let origin = Origin::of(m);
        p.reveal_invariant();
        to.reveal_invariant();
        let lines = opened_lines(&origin);
        let left = self.escapes.without(lines);
        if left.is_empty() {
            return false;
        }
        let reach = within_reach(p, origin.put(p), to, left);
        let closed = reach | lines | p.as_board().occupied();
        KnownEscapes {
            position: p,
            squares: self.escapes,
        }
        .has_open(closed, to)
    }

    /// True only if the king keeps an escape after the legal move, in cases that `leaves_escape`
    /// misses. A board move must end as a non-slider and leave a square on no line with its side's
    /// sliders, so it discovers nothing. A piece dropped on an escape is captured by the king.
    pub fn leaves_king_move(&self, m: &Move) -> bool
        ensures { result ≡ true → IsAnswered self.now.position.now m.now }
    {
        let (p, escapes) = (self.position, self.escapes);
        if escapes.is_empty() {
            return false;
        }
        p.reveal_invariant();
        match m {
            Move::Board { from, to, promote } => {
                let Some(piece) = piece_moved(p.at(*from), *promote) else {
                    return false
                };
                from.reveal_invariant();
                to.reveal_invariant();
                if piece.role.is_sliding() || !has_no_sniper(p, *from) {
                    return false;
                }
                KnownEscapes {
                    position: p,
                    squares: escapes,
                }
                .has_open(step_squares(piece, *to), *to)
            }
            Move::Drop { to, .. } => {
                to.reveal_invariant();
                escapes.has(*to) && !p.as_board().kings(p.side().opponent()).is_empty()
            }
        }
    }

    /// The first `destinations` at which a move surely leaves an escape, up to the first that may
    /// not.
    #[tactic(auto, using(crate::proofs::EscapeLaws::gathering))]
    pub(crate) fn escaped_destinations(&self, origin: &Origin, destinations: Squares) -> Squares
        ensures among { IsWithin result.bits destinations.bits }
        ensures answered { AreAnswered self.now.position.now origin.now result.bits }
    {
        let mut left = destinations.iter();
        let mut answered = Squares::none();
        'squares: while let Some(to) = left.next() {
            let m = origin.to(to);
            if !self.leaves_escape(&m) {
                return answered;
            }
            answered = answered.with(to);
        }
        answered
    }
}
