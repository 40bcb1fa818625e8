//! Giving back the capacity of a buffer.

ghost use Rattle.std.specs.Prelude.{◌≡◌};
ghost use Rattle.usi_lines.specs.Room.{GivesRoom};

use std::alloc::Allocator;

/// Shrinks a buffer of more than `kept` bytes of capacity of which at most a quarter is in use.
/// Twice the bytes in use remain, or the whole capacity if the smaller block cannot be allocated.
/// If none are in use, no capacity remains and nothing is allocated.
pub fn give_back_room<A: Allocator>(bytes: &mut Vec<u8, A>, kept: usize)
    ensures items { bytes.new.items ≡ bytes.old.items }
    ensures room { GivesRoom kept bytes.old bytes.new }
{
    let len = bytes.len();
    if bytes.capacity() > kept && len <= bytes.capacity() / 4 {
        bytes.shrink_to(2 * len);
    }
}
