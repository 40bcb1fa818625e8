//! Events and runs of events.

ghost use Rattle.std.specs.Prelude.{◌≡◌, ◌≤◌, IfOk, OnErr, Err, length, vec_len};
ghost use Rattle.session_slots.specs.Slots.{IsBelow};
ghost use Rattle.shared_table.specs.Recent.{AreTrue};
ghost use Rattle.host_core.specs.Headline.{PrefixOfReplies, AllReplies, Continues, EndsByOwn, OverByOwn, EndsOn};
ghost use Rattle.host_core.specs.Kept.{IfRefused, KeepsOtherSessions};
ghost use Rattle.host_core.specs.Runs.{IsRun};
ghost use Rattle.host_core.specs.Seen.{OfSteps, event_of, outcome_of};
ghost use Rattle.host_core.specs.Steps.{Stepped};
ghost use Rattle.host_core.specs.declared.event.HostFault.TheVariants.{OutOfMemory};

use crate::event::{Event, HostFault, Outcome};
use crate::host::Host;
use std::alloc::Allocator;
use std::hash::BuildHasher;

impl<S: BuildHasher, A: Allocator + Copy> Host<S, A> {
    /// Makes the call that an event names.
    fn answer(&mut self, event: Event<'_>) -> Outcome<A>
        ensures { Stepped self.old (event_of event.entry) (outcome_of result) self.new }
    {
        match event {
            Event::Open => match self.open() {
                Ok(id) => Outcome::Opened(id),
                Err(fault) => Outcome::Refused(fault),
            },
            Event::Feed(id, chunk) => match self.feed(id, chunk) {
                Ok(()) => Outcome::Done,
                Err(fault) => Outcome::Refused(fault),
            },
            Event::Work(id, budget) => match self.work(id, budget) {
                Ok(steps) => Outcome::Worked(steps),
                Err(fault) => Outcome::Refused(fault),
            },
            Event::Take(id, n) => match self.take(id, n) {
                Ok(bytes) => Outcome::Gave(bytes),
                Err(fault) => Outcome::Refused(fault),
            },
            Event::Close(id) => match self.close(id) {
                Ok(()) => Outcome::Done,
                Err(fault) => Outcome::Refused(fault),
            },
        }
    }

    /// Answers one event. The session that it names answers as by its own call; each other one is
    /// left as it was. A refusal changes nothing, but for `Work` (see `Event::Work`).
    pub fn step(&mut self, event: Event<'_>) -> Outcome<A>
        ensures stepped { Stepped self.old (event_of event.entry) (outcome_of result) self.new }
        ensures others { KeepsOtherSessions self.old (event_of event.entry) (outcome_of result)
            self.new }
        ensures refused { IfRefused self.old (event_of event.entry) (outcome_of result) self.new }
        ensures truth { AreTrue self.new.table.pairs }
        ensures fits { length self.new.table.pairs ≤ self.new.table.capacity }
        ensures below { IsBelow self.old.slots }
    {
        self.reveal_invariant();
        let outcome = self.answer(event);
        self.reveal_invariant();
        outcome
    }

    /// Answers the events in order, with one outcome for each. `OutOfMemory` comes before the first
    /// event, and changes nothing.
    ///
    /// For each session that an event opened, the bytes made are a prefix of the replies to the
    /// bytes stored for it, and all of them if it ends open with nothing pending. A session that
    /// was open before continues from what it owed. With nothing pending, a session is over if and
    /// only if its own bytes end it, by `quit` or a line that is too long.
    pub fn run(&mut self, events: &[Event<'_>]) -> Result<Vec<Outcome<A>, A>, HostFault>
        ensures each { IfOk result (λ outcomes. vec_len outcomes ≡ length events.now) }
        ensures chain { OfSteps events.now result (λ steps. IsRun self.old steps self.new) }
        ensures prefix { OfSteps events.now result (λ steps. PrefixOfReplies steps self.new) }
        ensures all { OfSteps events.now result (λ steps. AllReplies steps self.new) }
        ensures before { OfSteps events.now result (λ steps. Continues self.old steps self.new) }
        ensures ends { OfSteps events.now result (λ steps. EndsByOwn steps self.new) }
        ensures over { OfSteps events.now result (λ steps. OverByOwn steps self.new) }
        ensures ends_on { OfSteps events.now result (λ steps. EndsOn self.old steps self.new) }
        ensures capacity { self.new.table.capacity ≡ self.old.table.capacity }
        ensures setup { self.new.setup ≡ self.old.setup }
        ensures fault { OnErr result (result ≡ Err OutOfMemory) }
        ensures err { OnErr result (self.new ≡ self.old) }
    {
        let mut outcomes = Vec::with_capacity(self.alloc, events.len())?;
        for event in events {
            let outcome = self.step(*event);
            outcomes.push_reserved(outcome);
        }
        Ok(outcomes)
    }
}
