//! Texts made of several parts.

ghost use Rattle.std.specs.Prelude.{flat_map};
ghost use Rattle.usi_texts.specs.Texts.{Writes};

use std::alloc::{AllocError, Allocator};

/// Appends the parts in order. `AllocError` may leave the first of them appended.
pub fn write_parts<A: Allocator>(out: &mut Vec<u8, A>, parts: &[&[u8]]) -> Result<(), AllocError>
    ensures { Writes result out.old out.new (flat_map (λ part. part.now) parts.now) }
{
    for part in parts {
        out.extend_from_slice(part)?;
    }
    Ok(())
}
