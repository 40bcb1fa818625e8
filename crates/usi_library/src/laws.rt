//! What follows of the definitions.

ghost use Rattle.usi_library.specs.Numbers.{AreNumbers};
ghost use Rattle.usi_library.specs.Replies.{RepliesByCalls};

/// The statuses, the numbers of evaluations and the most entries of a table are these, as the
/// header has them.
pub fn numbers()
    ensures { AreNumbers }
{}

/// Whatever calls were made on a session since it was opened, in any order and with any counts: the bytes
/// that `usi_take` gave are a prefix of the replies to those that `usi_feed` stored, and all of them once
/// nothing is pending and nothing queued.
pub fn replies_by_calls()
    ensures { RepliesByCalls }
{}
