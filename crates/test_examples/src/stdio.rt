//! A use of `usi_stdio`.

ghost use Rattle.std.specs.Prelude.{OnOk};
ghost use Rattle.usi_texts.specs.Setup.{default_setup};
ghost use Rattle.usi_stdio.specs.Stdio.{IsFrontEndServed};

use std::alloc::Allocator;
use usi_stdio::{FrontEnd, StdioFault, stdio};

/// One session over a table of 4,096 entries.
pub fn answer_all<A: Allocator + Copy, T: FrontEnd>(
    alloc: A,
    front_end: &mut T,
) -> Result<(), StdioFault>
    ensures { OnOk result
        (IsFrontEndServed default_setup (T.report front_end.old) (T.report front_end.new)) }
{
    stdio(alloc, front_end, 4096)
}
