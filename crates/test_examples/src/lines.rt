//! A use of `usi_lines`.

ghost use Rattle.std.specs.Prelude.{◌↔◌, ◌≢◌, ◌++◌, [], IfOk, IsTrue};
ghost use Rattle.usi_lines.specs.Lines.{lines};

use std::alloc::Allocator;
use usi_lines::{LineBuffer, LineFault};

/// Whether two chunks of a stream, one after the other, have a whole line.
pub fn has_whole_line<A: Allocator>(
    alloc: A,
    first: &[u8],
    second: &[u8],
) -> Result<bool, LineFault>
    ensures { IfOk result (λ found. IsTrue found ↔ (lines (first.now ++ second.now) ≢ [])) }
{
    let mut buffer = LineBuffer::new(alloc);
    buffer.feed(first)?;
    buffer.feed(second)?;
    Ok(buffer.has_line())
}
