//! Tests of a session and of the program's streams, of what no row can say: steps, queues, streams that fail.
#![tactic(auto)]

#[cfg(test)]
mod assertions;
mod call;
#[cfg(test)]
mod flushes;
#[cfg(test)]
mod memory;
#[cfg(test)]
mod rows;
#[cfg(test)]
mod setups;
#[cfg(test)]
mod slices;
#[cfg(test)]
mod streams;
#[cfg(test)]
mod telling;
