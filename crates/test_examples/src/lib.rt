//! A use of each library crate, as a caller writes it. All stand under `cfg(test)`, so that they are proved once,
//! with the tests that call them.
#![tactic(auto)]

#[cfg(test)]
mod eval;
#[cfg(test)]
mod host;
#[cfg(test)]
mod lines;
#[cfg(test)]
mod moves;
#[cfg(test)]
mod position;
#[cfg(test)]
mod replay;
#[cfg(test)]
mod search;
#[cfg(test)]
mod serving;
#[cfg(test)]
mod session;
#[cfg(test)]
mod sfen;
#[cfg(test)]
mod slots;
#[cfg(test)]
mod sockets;
#[cfg(test)]
mod stdio;
#[cfg(test)]
mod table;
#[cfg(test)]
mod tests;
#[cfg(test)]
mod wire;
