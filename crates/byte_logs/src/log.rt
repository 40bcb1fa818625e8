//! Byte logs that only clauses read.

ghost use Rattle.std.specs.Prelude.{◌≡◌, ℕ, List, [], ◌++◌};
ghost use Rattle.std.specs.Borrow.{ftrue};
ghost use Rattle.byte_logs.specs.Noted.{last_under};

use http_server::Log;
use std::marker::{Model, PhantomData};

/// Bytes that only clauses read. Takes no memory and does nothing at run time.
#[derive(Drop)]
pub struct Bytes {
    marker: PhantomData<u8>,
    pub ghost items: { List ℕ },
}

impl Model for Bytes {
    ghost also_owns = { λ _. ftrue };
}

impl Bytes {
    /// An empty log.
    pub fn new() -> Bytes
        ensures { result.items ≡ [] }
    {
        Bytes {
            marker: PhantomData,
        }
    }

    /// Appends the bytes.
    pub fn note(&mut self, _bytes: &[u8])
        ensures { self.new.items ≡ self.old.items ++ _bytes.now }
    {}

    /// The bytes noted last under the number; none if there are none.
    pub fn last_under(_noted: &Log<u64, Bytes>, _number: &u64) -> Bytes
        ensures { result.items ≡ last_under (λ bytes. bytes.items) _noted.now.items _number.now }
    {
        Bytes {
            marker: PhantomData,
        }
    }
}
