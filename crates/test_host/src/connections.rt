//! The loop that serves sessions to connections, over a wire in memory.

mod call;
#[cfg(test)]
mod faults;
#[cfg(test)]
mod limits;
#[cfg(test)]
mod peers;
#[cfg(test)]
mod random;
#[cfg(test)]
mod recording;
#[cfg(test)]
mod scene;
#[cfg(test)]
mod sockets;
