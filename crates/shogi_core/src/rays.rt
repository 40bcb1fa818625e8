//! Lines from a square to the edge.

ghost use Rattle.std.specs.Prelude.{◌≡◌};
ghost use Rattle.shogi_core.specs.Rays.{ray_of, direction_at};

use crate::direction::Direction;
use crate::ray_table::RAYS;
use crate::square::Square;
use crate::squares::Squares;

/// The squares in the direction, up to the edge, whatever stands there.
pub fn ray(direction: Direction, from: Square) -> Squares
    ensures ray { result.bits ≡ ray_of (direction_at direction) from }
{
    Squares {
        bits: RAYS[direction.number() * 81 + from.index()],
    }
}
