//! Numbered connections; only `wait` ever waits for them.

ghost use Rattle.std.specs.Prelude.{◌≡◌, ◌≤◌, ℕ, List, [], ◌∷◌, Option, None};
ghost use Rattle.transport.specs.Asked.{Call, Accept, Read, Write, Shut, Wait, Asks};
ghost use Rattle.transport.specs.Report.{GivesNumber, Report, nothing_reported, KeepsAll, Reads, Writes, Shuts, HasCause, IsWithin};
ghost use Rattle.transport.specs.declared.wire.WireFault.TheVariants.{OutOfMemory};

use std::alloc::{AllocError, AllocFailed};

/// Cause of a failed call: the device below the wire, counted by `faults`, or out of memory.
#[derive(Clone, Copy, Debug, PartialEq, Eq)]
pub enum WireFault {
    Device,
    OutOfMemory,
}

impl From<AllocError> for WireFault {
    ghost from_gives = { λ _ fault. fault ≡ OutOfMemory };

    fn from(_error: AllocError) -> WireFault {
        WireFault::OutOfMemory
    }
}

impl<T: Drop> From<AllocFailed<T>> for WireFault {
    ghost from_gives = { λ _ fault. fault ≡ OutOfMemory };

    fn from(_failed: AllocFailed<T>) -> WireFault {
        WireFault::OutOfMemory
    }
}

/// Result of a read.
#[derive(Clone, Copy, Debug, PartialEq, Eq)]
pub enum Got {
    /// At least one byte, lent by the wire.
    Bytes,
    /// No byte now.
    Nothing,
    /// No byte from here on.
    Ended,
}

/// Numbered connections. Each call touches at most one, and a call that fails moves no byte. `read`
/// and `write` return `Device` for a number that `accept` never gave or that was shut.
pub trait Wire {
    /// The report of its connections. A wire may report nothing.
    ghost report: { Self → Report } = { λ _. nothing_reported };

    /// The calls of `accept`, `read`, `write`, `shut` and `wait` so far. A wire may report none.
    ghost asked: { Self → Option (List Call) } = { λ _. None };

    /// A bound above all numbers that `accept` gave.
    ghost bound: { Self → ℕ };

    /// The number of calls that failed with `Device`; it stops at 18,446,744,073,709,551,615.
    ghost failed: { Self → ℕ };

    /// The bytes lent to the caller.
    ghost lent: { Self → List ℕ };

    /// The number of a new connection, if one waits; no number comes twice. A call that fails
    /// accepts nobody.
    fn accept(&mut self) -> Result<Option<u64>, WireFault>
        ensures number { GivesNumber (bound self.old) (bound self.new) result }
        ensures asked { Asks (asked self.old) (asked self.new) (Accept result ∷ []) }
        ensures unchanged { KeepsAll (report self.old) (report self.new) }
        ensures cause { HasCause (failed self.old) (failed self.new) result };

    /// Reads the bytes there are, at least 1 and at most `most`. They are lent until the next call.
    fn read(&mut self, number: u64, most: usize) -> Result<Got, WireFault>
        ensures bound { bound self.new ≡ bound self.old }
        ensures within { IsWithin result most (lent self.new) }
        ensures read { Reads (report self.old) (report self.new) number result (lent self.new) }
        ensures asked { Asks (asked self.old) (asked self.new) (Read number most ∷ []) }
        ensures cause { HasCause (failed self.old) (failed self.new) result };

    /// The bytes lent: those that the last call gave, if it was a read that gave some.
    fn bytes(&self) -> &[u8]
        ensures { result.now ≡ lent self.now };

    /// Writes a prefix of `buf` and returns its length; 0 if the connection takes no byte now.
    fn write(&mut self, number: u64, buf: &[u8]) -> Result<usize, WireFault>
        ensures bound { bound self.new ≡ bound self.old }
        ensures written { Writes (report self.old) (report self.new) number result buf.now }
        ensures asked { Asks (asked self.old) (asked self.new) (Write number buf.now ∷ []) }
        ensures cause { HasCause (failed self.old) (failed self.new) result };

    /// Ends a connection. Ignores a number that was never given or that was shut.
    fn shut(&mut self, number: u64)
        ensures bound { bound self.new ≡ bound self.old }
        ensures asked { Asks (asked self.old) (asked self.new) (Shut number ∷ []) }
        ensures shut { Shuts (bound self.old) (report self.old) (report self.new) number }
        ensures faults { failed self.old ≤ failed self.new };

    /// Returns once something may be ready; at once unless `idle`.
    fn wait(&mut self, idle: bool) -> Result<(), WireFault>
        ensures bound { bound self.new ≡ bound self.old }
        ensures asked { Asks (asked self.old) (asked self.new) (Wait idle result ∷ []) }
        ensures unchanged { KeepsAll (report self.old) (report self.new) }
        ensures cause { HasCause (failed self.old) (failed self.new) result };

    /// The number of calls that failed with `Device`.
    fn faults(&self) -> u64
        ensures { result ≡ failed self.now };
}
