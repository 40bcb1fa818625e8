//! Attacks and checks in a position.

ghost use Rattle.std.specs.Prelude.{◌≡◌};
ghost use Rattle.shogi_core.specs.Attack.{is_attacked, in_check};

use shogi_core::{Color, Position, Square};

/// Whether a piece of the side reaches the square by a step, a jump or a free slide, whoever
/// stands there and whether or not its move would be legal (JSA playing rules).
pub fn is_attacked(p: &Position, square: Square, by: Color) -> bool
    ensures { result ≡ is_attacked p.now.cells by square }
{
    p.as_board().is_attacked(by, square)
}

/// Whether the king of the side to move is attacked; a side without a king is never in check.
pub fn in_check(p: &Position) -> bool
    ensures { result ≡ in_check p.now.cells p.now.side }
{
    p.as_board().in_check(p.side())
}
