//! The current depth of a running `go`.

ghost use Rattle.std.specs.Prelude.{◌<◌};
ghost use Rattle.usi_session.specs.Walked.{IsQuestionInRange, IsFirstMove};

use crate::go_request::GoRequest;
use shogi_core::Move;

/// The request, the first legal move, and the depths done. The current depth is `done + 1`; each
/// root move has `done` plies after it.
#[derive(Clone, Copy, Debug)]
pub struct Depth {
    pub go_request: GoRequest,
    pub first: Move,
    pub done: u8,
    ghost range: { IsQuestionInRange go_request },
    ghost first_is: { IsFirstMove go_request.position first },
    ghost left: { done < go_request.depth },
}
