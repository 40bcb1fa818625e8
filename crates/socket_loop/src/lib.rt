//! The event loop that serves the sessions of a host to connections, turn by turn, and counts what
//! it does.
#![tactic(auto)]

mod connection;
mod laws;
mod monitor;
mod serving;
mod status;
mod status_line;
mod status_socket;
mod tally;
mod turn;
mod visit;
mod visitors;

pub use connection::{Connection, Link};
pub use laws::{answers_as_alone, isolation, numbers};
pub use monitor::{Monitor, NoMonitor};
pub use serving::serve;
pub use status::{Limits, Process, Status, Totals, status_of};
pub use status_line::{LINE_MAX, write_line};
pub use status_socket::{StatusListener, StatusSocket};
pub use tally::Tally;
pub use turn::{Loop, Turn};
