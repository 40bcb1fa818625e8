//! The pieces that may have a move of a kind, found for all pieces at once.

ghost use Rattle.std.specs.Prelude.{◌≡◌, ◌<◌, ◌^◌, true};
ghost use Rattle.shogi_core.specs.Lines.{is_near};
ghost use Rattle.shogi_moves.specs.Destinations.{HasMovers, Spreads, IsWithin, SpreadsUp};

use shogi_core::{Position, Squares};

/// The squares and the next four indices above each.
fn five_places(squares: Squares) -> u128
    ensures bits { SpreadsUp squares.bits result }
    ensures fits { result < 2 ^ 85 }
{
    let one = squares.bits;
    let two = one | one << 1;
    two | two << 2 | one << 4
}

/// The squares next to one of `squares` or a knight's jump away: 1 index apart, or 7 to 11, which
/// `five_places` finds five at once. Squares across a board edge, and bits past the board, come
/// along.
fn squares_near(squares: Squares) -> u128
    ensures { Spreads (λ b a. is_near b a ≡ true) squares.bits result }
{
    let five = five_places(squares);
    squares.bits >> 1 | squares.bits << 1 | five << 7 | five >> 11
}

/// The `pieces` that may reach a square on which a move of the kind ends. Only sliders and pieces
/// near an enemy piece can capture; for quiet moves all pieces stay.
pub fn matching_movers(p: &Position, capture: bool, pieces: Squares) -> Squares
    ensures within { IsWithin result.bits pieces.bits }
    ensures if_none { HasMovers p.now capture pieces.bits result.bits }
{
    if !capture {
        return pieces;
    }
    let board = p.as_board();
    let near = squares_near(board.own(p.side().opponent()));
    Squares {
        bits: pieces.bits & (board.sliders().bits | near),
    }
}

/// The `pieces` that may capture.
pub fn takers(p: &Position, pieces: Squares) -> Squares
    ensures within { IsWithin result.bits pieces.bits }
    ensures if_none { HasMovers p.now true pieces.bits result.bits }
{
    matching_movers(p, true, pieces)
}
