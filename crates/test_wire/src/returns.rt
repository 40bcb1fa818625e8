//! The streams that came back to a listener.

ghost use Rattle.std.specs.Prelude.{◌≡◌, ◌++◌, ◌∷◌, [], true, false};
ghost use Rattle.byte_logs.specs.Noted.{is_noted};
ghost use Rattle.test_wire.specs.Below.{are_below};

use byte_logs::Bytes;
use http_server::Log;

/// What remained of a stream that came back, for clauses alone.
#[derive(Drop)]
pub struct Remains {
    pub unread: Bytes,
    pub written: Bytes,
}

/// What remained of each stream that came back, under its number.
#[derive(Drop)]
pub struct Returns {
    // The numbers are below this one, but for the greatest that there is.
    pub next: u64,
    pub back: Log<u64, Remains>,
    ghost below: { are_below next back.items ≡ true },
}

impl Returns {
    pub fn new() -> Returns
        ensures { result.back.items ≡ [] }
    {
        Returns {
            next: 0,
            back: Log::new(),
        }
    }

    /// Whether it is sure that no stream of this number came back.
    pub fn is_new(&self, number: u64) -> bool
        ensures { result ≡ true → is_noted self.now.back.items number ≡ false }
    {
        number >= self.next && number != u64::MAX
    }

    pub fn note(&mut self, number: u64, remains: &Remains)
        ensures { self.new.back.items ≡ self.old.back.items ++ (number, remains.now) ∷ [] }
    {
        *self = Returns {
            next: self.next.max(number.saturating_add(1)),
            back: self.back.and(&number, remains),
        };
    }
}
