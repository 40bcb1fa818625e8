//! Which board moves may be skipped together.

ghost use Rattle.shogi_moves.specs.Destinations.{IsWithin};
ghost use Rattle.shogi_replies.specs.ReplyInfo.{LetPromote};

use shogi_core::Squares;

/// Moves of the pieces on `pieces` to `squares`, with promotion only if `promotes`.
#[derive(Clone, Copy, Debug)]
pub struct MoveFilter {
    pub pieces: Squares,
    pub squares: Squares,
    pub promotes: bool,
}

impl MoveFilter {
    /// The destinations for promotions.
    #[inline(always)]
    pub fn promotions(&self) -> Squares
        ensures squares { IsWithin result.bits self.now.squares.bits }
        ensures promotes { LetPromote self.now.promotes result.bits }
    {
        if self.promotes {
            self.squares
        } else {
            Squares::none()
        }
    }
}
