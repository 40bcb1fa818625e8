//! Clients that ask for the status.

use std::io::ErrorKind;
use stream_transport::{Socket, Watcher};

/// How many are answered after a turn.
pub const ANSWERS: usize = 16;

/// The listener of the status socket. It is asked only after a poll has named it, or while it owes an answer.
#[derive(Drop)]
pub struct Visitors<V: Watcher> {
    listener: V::Listener,
    watcher: V,
    // Given up when no descriptor is left for a visitor, and opened again afterwards.
    spare: Option<V::Spare>,
    // An accept failed, and somebody may wait.
    owes: bool,
    // How often a poll had named the listener when it was asked last.
    visits: u64,
    /// The accepts that failed.
    pub faults: u64,
}

/// Writes the line in one write, whatever is taken of it.
fn tell<S: Socket>(client: &mut S, line: &[u8]) {
    let _taken = client.write_some(line);
}

/// Accepts the first visitor that waits. `None` if nobody waits; an error if somebody may.
fn accept_from<V: Watcher>(
    watcher: &mut V,
    listener: &mut V::Listener,
) -> Result<Option<V::Stream>, ErrorKind> {
    match watcher.accept_visitor(listener) {
        Ok(stream) => Ok(Some(stream)),
        Err(error) => match error.kind() {
            ErrorKind::WouldBlock => Ok(None),
            kind => Err(kind),
        },
    }
}

impl<V: Watcher> Visitors<V> {
    /// Nobody has come.
    pub fn new(listener: V::Listener, watcher: V) -> Visitors<V> {
        let mut watcher = watcher;
        let spare = watcher.spare().ok();
        Visitors {
            listener,
            watcher,
            spare,
            owes: false,
            visits: 0,
            faults: 0,
        }
    }

    /// Accepts the first visitor that waits. If that fails, gives up the spare descriptor and tries again.
    fn accept(&mut self) -> Option<V::Stream> {
        let mut accepted = accept_from(&mut self.watcher, &mut self.listener);
        if accepted.is_err() && self.spare.is_some() {
            self.spare = None;
            accepted = accept_from(&mut self.watcher, &mut self.listener);
        }
        match accepted {
            Ok(visitor) => visitor,
            Err(_) => {
                self.owes = true;
                self.faults = self.faults.saturating_add(1);
                None
            }
        }
    }

    /// Makes the next wait end at once if somebody waits.
    fn watch_again(&mut self) {
        let _watched = self.watcher.watch_again(&mut self.listener);
    }

    /// Opens the spare descriptor again if it was given up.
    fn keep_spare(&mut self) {
        if self.spare.is_none() {
            self.spare = self.watcher.spare().ok();
        }
    }

    /// The first visitor that waits, if a poll has named the listener since the last call, by the number
    /// of its visits, or an answer is owed. A failed accept is tried again at the next visit, and in the
    /// turn after the next wait, which is bounded.
    pub fn next_after(&mut self, visits: u64) -> Option<V::Stream> {
        let is_named = visits != self.visits;
        if !(is_named | self.owes) {
            return None;
        }
        self.visits = visits;
        self.owes = false;
        let visitor = self.accept();
        if self.owes & !is_named {
            self.watch_again();
        }
        visitor
    }

    /// Writes the line to who came in one write, and closes the connection, whatever was taken.
    fn answer(&mut self, stream: V::Stream, line: &[u8]) {
        let mut client = stream;
        tell(&mut client, line);
    }

    /// Answers this one and those who wait behind it, `ANSWERS` at most.
    pub fn answer_all(&mut self, first: V::Stream, line: &[u8]) {
        self.answer(first, line);
        self.answer_others(line);
        self.keep_spare();
    }

    /// Answers up to `ANSWERS - 1` more visitors. If more may wait, the next wait ends at once.
    fn answer_others(&mut self, line: &[u8]) {
        for _ in 1..ANSWERS {
            let Some(visitor) = self.accept() else {
                return;
            };
            self.answer(visitor, line);
        }
        self.watch_again();
    }
}
