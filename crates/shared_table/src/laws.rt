//! What follows from any sequence of calls of a table.

ghost use Rattle.shared_table.specs.Uses.{RemembersRecent};

/// An entry that was noted or answered is still answered after any further probes and notes of
/// fewer other keys than the capacity, until another entry is noted under its key. Notes that find
/// no memory change nothing of this.
pub fn remembering()
    ensures { RemembersRecent }
{}
