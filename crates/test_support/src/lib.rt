//! What the crates of tests share: worked rows, readers and writers that fail, memory that is refused.
#![tactic(auto)]

mod allocator;
mod assertions;
pub mod fakes;
pub mod games;
pub mod pv_lines;
pub mod random;
mod requests;
pub mod rows;
pub mod scripts;
pub mod tables;

pub use allocator::FailingAllocator;
