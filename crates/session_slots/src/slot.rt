//! A session in its slot.

ghost use Rattle.std.specs.Prelude.{◌≡◌};
ghost use Rattle.std.specs.Borrow.{sem};

use std::marker::Model;

/// An open session, and the number of sessions opened before it.
#[derive(Drop)]
pub struct Slot<T> {
    pub generation: u64,
    pub session: T,
}

impl<T> Model for Slot<T> {
    ghost use Rattle.session_slots.specs.Slots.{OpenSession};

    ghost Value = { OpenSession T };

    ghost view = { λ s. record { generation = s.generation; session = s.session } };
}

impl<T> Slot<T> {
    ghost use Rattle.session_slots.specs.LendsSlot.{lends_session};

    /// The session, mutably.
    pub fn session_mut(&mut self) -> &mut T
        ensures* writes_back { sem 𝓛 (lends_session T.row self.entry result) }
        ensures value { result.now ≡ self.old.session }
    {
        &mut self.session
    }
}
