//! A bounded table of searched positions, least recently used first out.
#![tactic(auto)]

mod key;
mod laws;
mod packing;
mod table;

pub use key::TableKey;
pub use laws::remembering;
pub use table::{CAPACITY_MAX, SharedTable, TableFault};
