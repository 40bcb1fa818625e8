//! Progress messages of long runs.

use mate_search::MateProgress;
use shogi_core::Move;
use shogi_sfen::write_move;
use std::rt::Clock;
use std::time::Instant;
use usi_moves::Progress;

/// Tells a terminal how far a count or a search for mate has come.
#[derive(Drop)]
pub(crate) struct Teller<'a, E> {
    errors: &'a E,
    /// Time of the last message, or of the start; `None` if nothing is to be told.
    told: Option<Instant>,
}

impl<'a, E: Eprint + Clock> Teller<'a, E> {
    /// A teller of at most one message a second; of none unless `tells` is set, or if the clock
    /// fails.
    pub(crate) fn new(errors: &'a E, tells: bool) -> Self {
        Teller {
            errors,
            told: if tells {
                Instant::now(errors).ok()
            } else {
                None
            },
        }
    }

    /// Whether a second has passed since the last message; if so, the next second begins now.
    fn is_due(&mut self) -> bool {
        let Some(told) = self.told else {
            return false;
        };
        if !is_past(self.errors, told) {
            return false;
        }
        self.told = Instant::now(self.errors).ok();
        true
    }
}

impl<'a, E: Eprint + Clock> Progress for Teller<'a, E> {
    fn counted(&mut self, m: &Move) {
        if self.is_due() {
            tell_counted(self.errors, m);
        }
    }
}

impl<'a, E: Eprint + Clock> MateProgress for Teller<'a, E> {
    fn failed(&mut self, m: &Move, n: u8) {
        if self.is_due() {
            tell_failed(self.errors, m, n);
        }
    }
}

/// Whether a second has passed since `then`.
fn is_past<E: Clock>(clock: &E, then: Instant) -> bool {
    match then.elapsed(clock) {
        Ok(passed) => passed.as_secs() >= 1,
        Err(_) => false,
    }
}

/// Writes the first move that a count has reached.
fn tell_counted<E: Eprint>(errors: &E, m: &Move) {
    let text = write_move(*m);
    if let Ok(text) = str::from_utf8(text.as_slice()) {
        let _ = eprintln!(errors; "usi_host: counted to {text}");
    }
}

/// Writes that a first move does not mate within `n` further moves of the attacker.
fn tell_failed<E: Eprint>(errors: &E, m: &Move, n: u8) {
    let text = write_move(*m);
    let plies = 2 * u16::from(n) + 1;
    if let Ok(text) = str::from_utf8(text.as_slice()) {
        let _ = eprintln!(errors; "usi_host: no mate by {text} in {plies} plies");
    }
}
