//! A digest of what was answered.

use std::fmt;

/// How many bytes were taken in, and a digest of them (FNV-1a, 64 bits: Fowler, Noll and Vo).
#[derive(Clone, Copy, Debug)]
pub struct Digest {
    length: u64,
    state: u64,
}

impl Digest {
    /// Nothing taken in yet.
    pub fn new() -> Digest {
        Digest {
            length: 0,
            state: 0xcbf2_9ce4_8422_2325,
        }
    }

    /// Takes in the bytes.
    pub fn take_in(&mut self, bytes: &[u8]) {
        for byte in bytes {
            self.state = (self.state ^ u64::from(*byte)).wrapping_mul(0x0000_0100_0000_01b3);
        }
        self.length = self.length.saturating_add(bytes.len() as u64);
    }

    /// Takes in a number, as its eight bytes.
    pub fn take_in_number(&mut self, number: u64) {
        self.take_in(number.to_le_bytes().as_slice());
    }
}

impl fmt::Display for Digest {
    fn fmt<W: fmt::Write>(&self, f: &mut fmt::Formatter<W>) -> fmt::Result {
        let Digest { length, state } = *self;
        write!(f, "{length} bytes, digest {state:016x}")
    }
}
