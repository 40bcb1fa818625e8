//! What takes on a square, and what a piece is worth to send there.

ghost use Rattle.std.specs.Prelude.{◌≡◌, ◌≢◌, ◌<◌, ◌≤◌, ◌&&◌, ◌*◌, ◌+◌, ℕ, true, false, Some, None, IfSome, IsNone};
ghost use Rattle.shogi_core.specs.Bits.{HasBits, has_bit};
ghost use Rattle.shogi_core.specs.Codes.{code_of};
ghost use Rattle.shogi_core.specs.Movement.{reaches};
ghost use Rattle.shogi_moves.specs.Destinations.{is_own};
ghost use Rattle.shogi_moves.specs.Legal.{is_legal};
ghost use Rattle.shogi_eval.specs.Exchange.{exchange_price, price_with, least_valuable_attacker};
ghost use Rattle.static_exchange.specs.Takers.{code_in, rank_on, taking, IsFirst, IsLegalIn, NoneTakenOff, OthersTakeNot, TakesFirst};

use crate::square_exchange::SquareExchange;
use shogi_core::zones::may_promote;
use shogi_core::{Board, Move, Piece, Position, Role, Square, Squares};
use shogi_eval::value_of;
use shogi_moves::takers;

/// What a piece is worth to send into an exchange: its value, a king last.
fn exchange_price(role: Role) -> u32
    ensures value { result ≡ exchange_price role }
    ensures range { result ≤ 10000 }
{
    match role {
        Role::King => 10_000,
        _ => value_of(role),
    }
}

/// The price of a capture by the piece: twice its value, and one more if it does not promote.
fn price_with(cell: Option<Piece>, promote: bool) -> u32
    ensures value { result ≡ price_with cell promote }
    ensures range { result ≤ 20001 }
{
    match cell {
        None => 0,
        Some(piece) => {
            let twice = 2 * exchange_price(piece.role);
            if promote { twice } else { twice + 1 }
        }
    }
}

/// A number for the order in which pieces take on the square: the lower price first, and of equal
/// ones the lower square.
#[tactic(auto, unfolding(crate::specs::Takers::rank_on))]
pub fn rank_on(board: &Board, square: Square, from: Square) -> u32
    ensures { result ≡ rank_on board.now square from }
{
    let cell = board.at(from);
    let index = from.index() as u32;
    price_with(cell, may_promote(cell, from, square)) * 128 + index
}

/// The move of the piece on the one square to the other; it promotes if it may.
fn taking(p: &Position, square: Square, from: Square) -> Move
    ensures { result ≡ taking p.now square from }
{
    let promote = may_promote(p.at(from), from, square);
    Move::Board {
        from,
        to: square,
        promote,
    }
}

/// The legal move that takes on the square with the cheapest piece, promoting if it may; of several, the
/// one of lowest code.
pub fn least_valuable_attacker(p: &Position, square: Square) -> Option<Move>
    ensures code { code_in result ≡ least_valuable_attacker p.now square }
    ensures legal { IsLegalIn p.now result }
{
    let Some(exchange) = SquareExchange::of(p, square) else {
        return None
    };
    match exchange.first_taker() {
        None => None,
        Some(from) => Some(taking(p, square, from)),
    }
}

/// A set of squares outside which the side to move takes nothing.
pub fn targets(p: &Position) -> Squares
    ensures { NoneTakenOff p.now result.bits }
{
    p.reveal_invariant();
    let board = p.as_board();
    let movers = takers(p, board.own(p.side()));
    let reached = movers.union(|from| board.targets(from));
    board.own(p.side().opponent()) & reached
}
