//! An exchange on one square, as far as it has come: no position is made on its way.

ghost use Rattle.std.specs.Prelude.{◌≡◌, ◌≢◌, ◌≤◌, ◌<◌, ◌&&◌, ◌||◌, ◌==◌, ℕ, true, Some, None, IfSome, IsNone};
ghost use Rattle.shogi_core.specs.Bits.{HasBits, has_bit};
ghost use Rattle.shogi_core.specs.Movement.{piece_at, reaches};
ghost use Rattle.shogi_core.specs.Position.{Shogi};
ghost use Rattle.shogi_core.specs.declared.moves.Move.TheVariants as Move;
ghost use Rattle.shogi_moves.specs.After.{after, after_code};
ghost use Rattle.shogi_moves.specs.Destinations.{is_own};
ghost use Rattle.shogi_moves.specs.Legal.{is_legal};
ghost use Rattle.shogi_eval.specs.Exchange.{least_valuable_attacker};
ghost use Rattle.static_exchange.specs.Reprisals.{IsGain, WinsAtMostOn};
ghost use Rattle.static_exchange.specs.SquareExchanges.{HasExchange};
ghost use Rattle.static_exchange.specs.Takers.{is_taker, IsFirst, OthersTakeNot, TakesFirst, taking_code};

use crate::takers::rank_on;
use shogi_core::bits::{cleared, lowest};
use shogi_core::zones::may_promote;
use shogi_core::{Board, Color, Piece, Position, Square, Squares};
use shogi_eval::{Eval, PROMOTION_GAIN_MAX, promotion_gain, taken_gain};
use shogi_moves::piece_moved;

/// The piece that stands on the square, the side whose turn it is to take it, and the pieces of both sides
/// that are left on other squares. Each of them stands on `board` as well.
#[derive(Clone, Copy)]
pub struct SquareExchange<'a> {
    pub board: &'a Board,
    pub square: Square,
    pub stands: Option<Piece>,
    pub side: Color,
    pub mine: Squares,
    pub theirs: Squares,
}

impl SquareExchange<'_> {
    /// The exchange of the position on the square, if a piece of the other side stands there.
    pub fn of(p: &Position, square: Square) -> Option<SquareExchange<'_>>
        ensures if_none { IsNone result → None ≡ least_valuable_attacker p.now square }
        ensures square { IfSome result (λ x. x.square ≡ square) }
        ensures some { IfSome result (HasExchange p.now) }
    {
        p.reveal_invariant();
        square.reveal_invariant();
        let board = p.as_board();
        let side = p.side();
        let theirs = board.own(side.opponent());
        if !theirs.has(square) {
            return None;
        }
        Some(SquareExchange {
            board,
            square,
            stands: board.at(square),
            side,
            mine: board.own(side),
            theirs: theirs.except(square),
        })
    }

    /// The exchange on the square on which a legal board move ends, after that move.
    pub fn after_move(p: &Position, from: Square, to: Square, promote: bool) -> SquareExchange<'_>
        requires { is_legal p.now (Move.Board from to promote) ≡ true }
        ensures square { result.square ≡ to }
        ensures exchange { HasExchange (after p.now (Move.Board from to promote)) result }
    {
        p.reveal_invariant();
        from.reveal_invariant();
        to.reveal_invariant();
        let board = p.as_board();
        let side = p.side();
        let other = side.opponent();
        SquareExchange {
            board,
            square: to,
            stands: piece_moved(board.at(from), promote),
            side: other,
            mine: board.own(other).except(to),
            theirs: board.own(side).except(from),
        }
    }

    /// The squares that are not empty.
    fn occupied(&self) -> Squares
        ensures { (n : ℕ) → has_bit result.bits n
            ≡ ((has_bit self.now.mine.bits n || has_bit self.now.theirs.bits n) || n == self.now.square) }
    {
        (self.mine | self.theirs).with(self.square)
    }

    /// The pieces of the side that reach the square.
    fn reachers(&self) -> Squares
        ensures { (p : Shogi) → HasExchange p self.now
            → HasBits result.bits (λ n. is_own p n && reaches p.cells n self.now.square) }
    {
        self.square.reveal_invariant();
        self.board
            .reachers_among(self.square, self.mine, self.occupied())
    }

    /// Whether a piece of the side that reaches the square legally takes there. Tests whether its king, or
    /// the square if the king takes, is attacked with the squares that are then occupied.
    fn may_take(&self, from: Square) -> bool
        ensures { (p : Shogi) → HasExchange p self.now
            → (is_own p from && reaches p.cells from self.now.square) ≡ true
            → result ≡ is_taker p self.now.square from }
    {
        self.square.reveal_invariant();
        from.reveal_invariant();
        let kings = self.board.kings(self.side) & self.mine;
        if kings.bits == 0 {
            return true;
        }
        let left = self.occupied().except(from);
        if kings.has(from) {
            return !self.board.is_attacked_among(self.square, self.theirs, left);
        }
        let king = Square::of_index(lowest(kings.bits));
        !self.board.is_attacked_among(king, self.theirs, left)
    }

    /// The piece in the set that takes first, if each of them may take.
    fn first_of(&self, pieces: Squares) -> Square
        requires { pieces.bits ≢ 0 }
        ensures among { has_bit pieces.bits result ≡ true }
        ensures first { IsFirst self.now.board.now self.now.square pieces.bits result }
    {
        let mut first = Square::of_index(lowest(pieces.bits));
        let rest = pieces.except(first);
        if rest.bits == 0 {
            return first;
        }
        let mut rank = rank_on(self.board, self.square, first);
        let mut left = rest.iter();
        'pieces: while let Some(from) = left.next() {
            let here = rank_on(self.board, self.square, from);
            if here < rank {
                first = from;
                rank = here;
            }
        }
        first
    }

    /// The square of the cheapest piece that legally takes; at equal prices, the lowest square.
    pub fn first_taker(&self) -> Option<Square>
        ensures if_none { IsNone result → (p : Shogi) → HasExchange p self.now
            → None ≡ least_valuable_attacker p self.now.square }
        ensures first { IfSome result (λ from. (p : Shogi) → HasExchange p self.now
            → TakesFirst p self.now.square from) }
    {
        self.square.reveal_invariant();
        let mut left = self.reachers().bits;
        'pieces: while left != 0 {
            let from = self.first_of(Squares { bits: left });
            from.reveal_invariant();
            if self.may_take(from) {
                return Some(from);
            }
            left = cleared(left, from.index());
        }
        None
    }

    /// What the piece that takes first gains its side, in points.
    pub fn gain_by(&self, from: Square) -> u32
        ensures gain { (p : Shogi) → HasExchange p self.now → TakesFirst p self.now.square from
            → IsGain p (taking_code p self.now.square from) result }
        ensures range { result ≤ 3100 }
    {
        self.square.reveal_invariant();
        let cell = self.board.at(from);
        let promote = may_promote(cell, from, self.square);
        taken_gain(Eval::Exchange, self.stands) + promotion_gain(cell, promote)
    }

    /// A bound on what the side wins there, in points: the piece and the largest promotion.
    pub fn most(&self) -> u32
        ensures most { (p : Shogi) (n : ℕ) → HasExchange p self.now
            → WinsAtMostOn p self.now.square n result }
        ensures range { result ≤ 3100 }
    {
        self.square.reveal_invariant();
        taken_gain(Eval::Exchange, self.stands) + PROMOTION_GAIN_MAX
    }

    /// The exchange once the piece that takes first has taken.
    pub fn after(&self, from: Square) -> SquareExchange<'_>
        ensures square { result.square ≡ self.now.square }
        ensures after { (p : Shogi) → HasExchange p self.now → TakesFirst p self.now.square from
            → HasExchange (after_code p (taking_code p self.now.square from)) result }
    {
        self.square.reveal_invariant();
        let cell = self.board.at(from);
        SquareExchange {
            board: self.board,
            square: self.square,
            stands: piece_moved(cell, may_promote(cell, from, self.square)),
            side: self.side.opponent(),
            mine: self.theirs,
            theirs: self.mine.except(from),
        }
    }
}
