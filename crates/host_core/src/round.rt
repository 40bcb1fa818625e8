//! A round: one `Work` for each pending session.

ghost use Rattle.std.specs.Prelude.{◌≡◌, ◌≤◌, ◌<◌, ◌+◌, ◌-◌, ◌^◌, IfSome, IfNone, IsSome, [], drop};
ghost use Rattle.session_slots.specs.Slots.{find};
ghost use Rattle.host_core.specs.Bestmoves.{bestmove_count};
ghost use Rattle.host_core.specs.ById.{queued_of};
ghost use Rattle.host_core.specs.Rounds.{pending_from, CountsRound, MakesRound, PassesSlot};
ghost use Rattle.host_core.specs.Notes.{AreSettled, IsNext};

use crate::bestmoves::bestmove_count;
use crate::host::Host;
use session_slots::SessionId;
use std::alloc::Allocator;
use std::hash::BuildHasher;

/// What a round did. Steps and `bestmove` lines saturate.
#[derive(Clone, Copy, Debug, PartialEq, Eq)]
pub struct Round {
    /// The works that succeeded.
    pub worked: usize,
    /// The works that ran out of memory.
    pub refused: usize,
    /// The steps of the works that succeeded.
    pub steps: u64,
    /// The `bestmove` lines queued; a held one counts when it is written.
    pub bestmoves: u64,
}

impl<S: BuildHasher, A: Allocator + Copy> Host<S, A> {
    /// Makes one `Work` with this budget for each session that is pending when the call starts, by
    /// rising slot, and for no other.
    pub fn round(&mut self, budget: u64) -> Round
        ensures round { MakesRound self.old budget result self.new }
        ensures counted { CountsRound self.old budget result.steps result.bestmoves self.new }
    {
        let mut round = Round {
            worked: 0,
            refused: 0,
            steps: 0,
            bestmoves: 0,
        };
        let mut from = 0;
        while let Some(id) = self.next_from(from) {
            round = self.round_at(id, budget, round);
            from = id.slot + 1;
        }
        round
    }

    /// A round's part for an open session: a `Work` if something is pending.
    fn round_at(&mut self, id: SessionId, budget: u64, round: Round) -> Round
        requires open { IsSome (find self.old.slots id) }
        requires not_last { id.slot < 2 ^ 64 - 1 }
        requires most { round.worked + round.refused ≤ id.slot }
        ensures continues { PassesSlot budget id.slot round self.old result self.new }
        ensures most { result.worked + result.refused ≤ id.slot + 1 }
    {
        if !self.pending(id) {
            return round;
        }
        let Round {
            worked,
            refused,
            steps,
            bestmoves,
        } = round;
        let queued = self.queued(id).len();
        let outcome = self.work(id, budget);
        let bestmoves = bestmoves.saturating_add(self.bestmoves_behind(id, queued));
        match outcome {
            Ok(made) => Round {
                worked: worked + 1,
                refused,
                steps: steps.saturating_add(made),
                bestmoves,
            },
            Err(_) => Round {
                worked,
                refused: refused + 1,
                steps,
                bestmoves,
            },
        }
    }

    /// The queued bytes of a session; none if none is open under the id.
    fn queued(&self, id: SessionId) -> &[u8]
        ensures { result.now ≡ queued_of (find self.now.slots id) }
    {
        match self.output(id) {
            Some(bytes) => bytes,
            None => &[],
        }
    }

    /// The `bestmove` lines queued for a session behind the first `first` bytes.
    fn bestmoves_behind(&self, id: SessionId, first: usize) -> u64
        ensures { result ≡ bestmove_count (drop first (queued_of (find self.now.slots id))) }
    {
        match self.queued(id).get(first..) {
            Some(bytes) => bestmove_count(bytes),
            None => 0,
        }
    }

    /// An open session at slot `from` or later, with no pending one between.
    fn next_from(&self, from: usize) -> Option<SessionId>
        ensures next { IfSome result (IsNext from self.now.slots) }
        ensures open { IfSome result (λ id. IsSome (find self.now.slots id)) }
        ensures not_last { IfSome result (λ id. id.slot < 2 ^ 64 - 1) }
        ensures if_none { IfNone result (pending_from from (drop from self.now.slots.slots) ≡ []) }
    {
        let first = self.past_settled(from);
        self.slots.next_open(first.checked_sub(1))
    }

    /// The first slot at or after `from` whose note is pending, or that has no note.
    fn past_settled(&self, from: usize) -> usize
        ensures on { from ≤ result }
        ensures passed { AreSettled from result self.now.slots.slots }
    {
        let mut slot = from;
        while slot < self.notes.len() && !self.notes[slot].activity.is_pending {
            slot += 1;
        }
        slot
    }
}
