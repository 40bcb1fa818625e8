//! Tests of hosts of many sessions, of the loop that serves them to connections, of the wire over a socket,
//! and of scripts.
#![tactic(auto)]

#[cfg(test)]
mod assertions;
mod connections;
#[cfg(test)]
mod host;
#[cfg(test)]
mod hosts;
#[cfg(test)]
mod scripts;
