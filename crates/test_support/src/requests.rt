//! Which requests for memory are refused, and what is held.

use std::cell::Cell;

/// Counts the requests for memory and the bytes that are held, and says which requests are refused.
#[derive(Drop)]
pub struct Requests {
    asked: Cell<u64>,
    refused: Cell<u64>,
    // The numbers of the first and the last request that is refused, from 1 on.
    first: Cell<u64>,
    last: Cell<u64>,
    held: Cell<usize>,
}

impl Requests {
    /// None yet, and none is to be refused.
    pub fn new() -> Requests {
        Requests {
            asked: Cell::new(0),
            refused: Cell::new(0),
            first: Cell::new(0),
            last: Cell::new(0),
            held: Cell::new(0),
        }
    }

    /// How many requests there were.
    pub fn asked(&self) -> u64 {
        self.asked.get()
    }

    /// How many of them were refused.
    pub fn refused(&self) -> u64 {
        self.refused.get()
    }

    /// How many bytes were asked for, not refused, and not given back.
    pub fn held(&self) -> usize {
        self.held.get()
    }

    /// Refuses the requests with these numbers, and no others.
    pub fn refuse(&self, first: u64, last: u64) {
        self.first.set(first);
        self.last.set(last);
    }

    /// Counts one more request, for so many bytes: whether it is refused. Else they are held.
    pub fn refuses(&self, size: usize) -> bool {
        let number = self.asked.get().saturating_add(1);
        self.asked.set(number);
        let refuses = self.first.get() <= number && number <= self.last.get();
        if refuses {
            self.refused.set(self.refused.get().saturating_add(1));
        } else {
            self.held.set(self.held.get().saturating_add(size));
        }
        refuses
    }

    /// So many bytes are held no more.
    pub fn give_back(&self, size: usize) {
        self.held.set(self.held.get().saturating_sub(size));
    }
}
