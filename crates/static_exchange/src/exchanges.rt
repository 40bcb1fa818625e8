//! What is won by an exchange on one square, capture by capture, and on the best of the squares.

ghost use Rattle.std.specs.Prelude.{◌≡◌, ◌≢◌, ◌≤◌, ◌<◌, true};
ghost use Rattle.shogi_core.specs.Bits.{has_bit};
ghost use Rattle.shogi_core.specs.Position.{Shogi};
ghost use Rattle.shogi_core.specs.declared.moves.Move.TheVariants as Move;
ghost use Rattle.shogi_moves.specs.After.{after};
ghost use Rattle.shogi_moves.specs.Legal.{is_legal};
ghost use Rattle.shogi_eval.specs.Exchange.{captures_max};
ghost use Rattle.static_exchange.specs.Reprisals.{IsWon, IsWonAtLeast, WinsAtLeastOn, WinsAtMostOn};
ghost use Rattle.static_exchange.specs.SquareExchanges.{HasExchange};

use crate::square_exchange::SquareExchange;
use crate::takers::targets;
use shogi_core::bits::{cleared, lowest};
use shogi_core::{Move, Position, Square, Squares};
use shogi_eval::{Eval, taken_gain};
use shogi_moves::apply;

/// How many captures an exchange has at most: each takes a piece off the board.
pub const CAPTURES_MAX: u8 = 40;

/// What the side wins, in points, by at most `n` captures on the square: it declines, or takes with its
/// cheapest piece and lets the other side go on. The result is exact between `floor` and `enough`, and
/// otherwise a number on the same side of that window.
fn won_on(x: &SquareExchange<'_>, n: u8, floor: u32, enough: u32) -> u32
    requires window { floor < enough }
    ensures most { result < enough → (p : Shogi) → HasExchange p x.now
        → WinsAtMostOn p x.now.square n result }
    ensures least { floor < result → (p : Shogi) → HasExchange p x.now
        → WinsAtLeastOn p x.now.square n result }
    ensures range { result ≤ 3100 }
{
    if n == 0 {
        return 0;
    }
    let Some(from) = x.first_taker() else {
        return 0
    };
    let gain = x.gain_by(from);
    if gain <= floor {
        return gain;
    }
    let next = x.after(from);
    let least = gain.saturating_sub(next.most());
    if least >= enough {
        return least;
    }
    let back = won_on(&next, n - 1, gain.saturating_sub(enough), gain - floor);
    gain.saturating_sub(back)
}

/// What the side wins by an exchange of any length, or the floor if that is no less.
fn more_by(x: &SquareExchange<'_>, floor: u32, enough: u32) -> u32
    requires window { floor < enough }
    requires range { floor ≤ 3100 }
    ensures least { floor ≤ result }
    ensures most { result < enough → (p : Shogi) → HasExchange p x.now
        → WinsAtMostOn p x.now.square captures_max result }
    ensures won { (p : Shogi) → HasExchange p x.now → IsWonAtLeast p floor → IsWonAtLeast p result }
    ensures range { result ≤ 3100 }
{
    x.square.reveal_invariant();
    if x.most() <= floor {
        return floor;
    }
    let won = won_on(x, CAPTURES_MAX, floor, enough);
    if won <= floor {
        return floor;
    }
    won
}

/// What the side to move wins by the exchange on the square, or `floor`, which it wins anyway, if that
/// is no less.
fn more_on(p: &Position, square: Square, floor: u32, enough: u32) -> u32
    requires window { floor < enough }
    requires range { floor ≤ 3100 }
    requires won { IsWonAtLeast p.now floor }
    ensures least { floor ≤ result }
    ensures most { result < enough → WinsAtMostOn p.now square captures_max result }
    ensures won { IsWonAtLeast p.now result }
    ensures range { result ≤ 3100 }
{
    match SquareExchange::of(p, square) {
        None => floor,
        Some(exchange) => more_by(&exchange, floor, enough),
    }
}

/// The square in the set that holds the most valuable piece.
fn dearest(p: &Position, squares: Squares) -> Square
    requires { squares.bits ≢ 0 }
    ensures { has_bit squares.bits result ≡ true }
{
    let mut best = Square::of_index(lowest(squares.bits));
    let mut most = taken_gain(Eval::Exchange, p.at(best));
    let mut left = squares.except(best).iter();
    'squares: while let Some(square) = left.next() {
        let here = taken_gain(Eval::Exchange, p.at(square));
        if here > most {
            best = square;
            most = here;
        }
    }
    best
}

/// What the side to move wins, in points, by its best exchange on one square, if it wins `floor` anyway
/// and no more than that on the square of the last move. The result is exact below `enough`, and
/// otherwise at least `enough`.
fn won_elsewhere(p: &Position, last: Square, floor: u32, enough: u32) -> u32
    requires window { floor < enough }
    requires range { floor ≤ 3100 }
    requires won { IsWonAtLeast p.now floor }
    requires last { WinsAtMostOn p.now last captures_max floor }
    ensures below { result < enough → IsWon p.now result }
    ensures enough { enough ≤ result → IsWonAtLeast p.now enough }
{
    let mut most = floor;
    let mut left = targets(p).except(last).bits;
    'squares: while left != 0 {
        let square = dearest(p, Squares { bits: left });
        most = more_on(p, square, most, enough);
        if most >= enough {
            return most;
        }
        left = cleared(left, square.index());
    }
    most
}

/// What the other side wins, in points, by its best exchange on one square after a legal board move.
/// The result is exact below `enough`, and otherwise at least `enough`. The square on which the move
/// ends comes first, since most exchanges are there and it needs no new position.
pub fn best_won(p: &Position, from: Square, to: Square, promote: bool, enough: u32) -> u32
    requires { is_legal p.now (Move.Board from to promote) ≡ true }
    ensures below { result < enough → IsWon (after p.now (Move.Board from to promote)) result }
    ensures enough { enough ≤ result
        → IsWonAtLeast (after p.now (Move.Board from to promote)) enough }
{
    if enough == 0 {
        return 0;
    }
    let there = more_by(&SquareExchange::after_move(p, from, to, promote), 0, enough);
    if there >= enough {
        return there;
    }
    let next = apply(p, Move::Board { from, to, promote });
    won_elsewhere(&next, to, there, enough)
}
