//! A use of `usi_replay`.

ghost use Rattle.std.specs.Prelude.{OnOk};
ghost use Rattle.usi_texts.specs.Setup.{default_setup};
ghost use Rattle.usi_replay.specs.Replayed.{Replays};

use std::alloc::Allocator;
use usi_replay::{ReplayFault, replay};
use usi_stdio::FrontEnd;

/// A script of at most 64 sessions at a time. The output is the same over any table and in any slices.
pub fn replay_script<A: Allocator + Copy, T: FrontEnd>(
    alloc: A,
    front_end: &mut T,
) -> Result<(), ReplayFault>
    ensures { OnOk result
        (Replays default_setup 64 (T.report front_end.old) (T.report front_end.new)) }
{
    let (slots, entries, slice) = (64, 4096, 300);
    replay(alloc, front_end, slots, entries, slice)
}
