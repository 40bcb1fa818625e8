//! A use of `session_slots`.

ghost use Rattle.std.specs.Prelude.{◌≡◌, None, IfOk};
ghost use Rattle.session_slots.specs.Slots.{find};

use session_slots::{SessionId, SlotFault, Slots};
use std::alloc::Allocator;

/// Opens a session and closes it. Its id finds nothing from then on.
pub fn open_and_close<T: Drop, A: Allocator>(
    slots: &mut Slots<T, A>,
    session: T,
) -> Result<SessionId, SlotFault>
    ensures { IfOk result (λ id. find slots.new id ≡ None) }
{
    let id = slots.open(session)?;
    let _session = slots.close(id);
    Ok(id)
}
