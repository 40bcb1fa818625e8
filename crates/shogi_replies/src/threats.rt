//! Moves of the opponent that stay possible after most moves.

ghost use Rattle.std.specs.Prelude.{◌≡◌, ◌<◌, ℕ, true, false};
ghost use Rattle.shogi_core.specs.Bits.{has_bit};
ghost use Rattle.shogi_core.specs.Movement.{reaches};
ghost use Rattle.shogi_replies.specs.Threats.{AreAttacks, HasBetween, HasBeforeSnipers, IsOffPins, IsUnpinnable};

use shogi_core::zones::{dead_squares, promoting_squares};
use shogi_core::{Color, Direction, Position, Square, Squares, line_mask, ray};
use shogi_moves::Destinations;

/// The squares between the two if they share a line, whatever stands there; else none.
pub fn squares_between(from: Square, to: Square) -> Squares
    ensures { HasBetween from to result.bits }
{
    let mut between = Squares::none();
    let mut left = Direction::all();
    'directions: while let Some(direction) = left.next() {
        between = between | ray(direction, from) & ray(direction.opposite(), to);
    }
    between
}

/// The squares between the king and enemy sliders on a line with it, whatever stands there.
#[tactic(auto, using(crate::proofs::PinLaws::before_snipers, shogi_core::proofs::SeenLaws::snipers))]
fn squares_before_king(p: &Position, side: Color, king: Square) -> Squares
    ensures { HasBeforeSnipers p.now.cells side king 0 result.bits }
{
    let board = p.as_board();
    let snipers = board.own(side.opponent()) & board.sliders() & line_mask(king);
    let mut left = snipers.iter();
    let mut squares = Squares::none();
    'snipers: while let Some(sniper) = left.next() {
        squares = squares | squares_between(king, sniper);
    }
    squares
}

/// The squares on which a piece of the side may be pinned after any move off its square: those
/// between its king and enemy sliders.
fn pinnable_squares(p: &Position, side: Color) -> Squares
    ensures { (a : ℕ) → a < 81 → has_bit result.bits a ≡ false → IsOffPins p.now.cells side a }
{
    match p.king(side) {
        None => Squares::none(),
        Some(king) => squares_before_king(p, side, king),
    }
}

/// The opponent's pieces other than kings that no piece now on the board can pin, whatever leaves
/// its square.
pub fn unpinnable_pieces(p: &Position) -> Squares
    ensures unpinnable { (a : ℕ) → a < 81 → has_bit result.bits a ≡ true
        → IsUnpinnable p.now a }
{
    let side = p.side().opponent();
    let board = p.as_board();
    let others = board.own(side).without(board.kings(side));
    others.without(pinnable_squares(p, side))
}

/// The squares that the unpinnable piece on `from` attacks, without promotion and with it, as its
/// role allows and whatever stands there. `reach` has exactly the squares that it reaches.
pub fn attacks_of(p: &Position, from: Square, reach: Squares) -> Destinations
    requires from { IsUnpinnable p.now from }
    requires reach { (n : ℕ) → n < 81 → has_bit reach.bits n ≡ reaches p.now.cells from n }
    ensures non_promoting { AreAttacks p.now from result.non_promoting.bits false }
    ensures promoting { AreAttacks p.now from result.promoting.bits true }
{
    let cell = p.at(from);
    let others = reach.except(from);
    Destinations {
        non_promoting: others.without(dead_squares(cell)),
        promoting: others & promoting_squares(cell, from),
    }
}
