//! A host, a session and a table of which a contract sees nothing.
#![tactic(auto)]

mod host;
mod session;
mod table;

pub use host::OpaqueHost;
pub use session::OpaqueSession;
pub use table::{SeedlessTable, table_of};
