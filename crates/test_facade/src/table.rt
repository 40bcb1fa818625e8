//! A table with a hash without a seed.

use shared_table::{SharedTable, TableFault};
use std::alloc::Allocator;
use std::hash::{BuildHasherDefault, FoldHasher};

pub type SeedlessTable<A> = SharedTable<BuildHasherDefault<FoldHasher>, A>;

/// A table of so many entries, or of the nearest number from 1 to 1,000,000.
pub fn table_of<A: Allocator + Clone>(
    alloc: A,
    entries: usize,
) -> Result<SeedlessTable<A>, TableFault> {
    let hasher = BuildHasherDefault::<FoldHasher>::new();
    SharedTable::new(alloc, entries.clamp(1, 1_000_000), hasher)
}
