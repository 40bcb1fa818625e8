//! The counts of a turn.

ghost use Rattle.std.specs.Prelude.{◌≡◌, ◌≤◌, ◌&&◌, cond, not};

/// The counts of a turn.
#[derive(Clone, Copy, Debug, PartialEq, Eq)]
pub struct Tally {
    /// Connections accepted.
    pub accepted: usize,
    /// Accepted connections that found the host full.
    pub full: usize,
    /// Accepted connections without memory for a session.
    pub unopened: usize,
    /// Connections shut by a read: the read failed, or memory ran out for its bytes.
    pub ended_reading: usize,
    /// Connections shut by a failed write.
    pub ended_writing: usize,
    /// Connections shut when they were finished with.
    pub finished: usize,
    /// Sessions that ran out of memory for their work.
    pub refused: usize,
    /// Steps of search.
    pub steps: u64,
    /// `bestmove` lines queued: one for each answered `go`.
    pub bestmoves: u64,
}

/// The outcome of the accepts of a turn.
#[derive(Clone, Copy)]
pub struct Arrivals {
    /// At least one connection was accepted.
    pub moved: bool,
    pub accepted: usize,
    pub full: usize,
    pub unopened: usize,
}

/// The outcome of one accept: both 0 if a session was opened, otherwise one of them is 1.
#[derive(Clone, Copy)]
pub struct Admission {
    pub full: usize,
    pub unopened: usize,
}

/// The outcome of visiting each connection once.
#[derive(Clone, Copy)]
pub struct Visited {
    /// At least one visit moved something.
    pub moved: bool,
    /// Connections shut by the visits.
    pub shut: usize,
}

/// 1 if a visit shut the connection, otherwise 0.
pub fn newly_shut(was_shut: bool, is_shut: bool) -> usize
    ensures count { result ≡ cond (is_shut && not was_shut) 1 0 }
    ensures most { result ≤ 1 }
{
    if is_shut && !was_shut { 1 } else { 0 }
}

/// 1 if true, otherwise 0.
pub fn one_if(is_so: bool) -> usize
    ensures count { result ≡ cond is_so 1 0 }
    ensures most { result ≤ 1 }
{
    if is_so { 1 } else { 0 }
}
