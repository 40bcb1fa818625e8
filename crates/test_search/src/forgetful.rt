//! A memory for the tests that forgets each second note, and the oldest one where it is full.

ghost use Rattle.std.specs.Prelude.{◌≡◌, ◌<◌, ◌&&◌, ◌==◌, true, Option, option_map, Some, None, false};
ghost use Rattle.std.specs.Option.{option_map_or};
ghost use Rattle.std.specs.List.{find};
ghost use Rattle.shogi_core.specs.Same.{is_same_position};
ghost use Rattle.shogi_eval.specs.Evaluated.{is_same_eval};

use shogi_core::Position;
use shogi_eval::Eval;
use shogi_search::{Entry, Memo};
use std::marker::Model;

/// What was noted of a position under an evaluation at a depth.
#[derive(Clone, Copy, Debug)]
pub struct Kept {
    position: Position,
    eval: Eval,
    depth: u8,
    entry: Entry,
}

impl Model for Kept {
    ghost use Rattle.std.specs.Prelude.{ℕ};
    ghost use Rattle.shogi_core.specs.Position.{Shogi};
    ghost use Rattle.shogi_eval.specs.declared.eval.Eval.{Eval};
    ghost use Rattle.minimax.specs.Minimax.{IsTrueEntry};
    ghost use Rattle.minimax.specs.declared.entry.Entry.{Entry};

    ghost Value = { Shogi × (Eval × (ℕ × Entry)) };

    ghost view = { λ kept. (kept.position, (kept.eval, (kept.depth, kept.entry))) };

    ghost invariant = { λ kept. IsTrueEntry kept.position kept.eval kept.depth kept.entry };

    ghost inverse = { λ v. record { position = v.0; eval = v.1.0; depth = v.1.1.0; entry = v.1.1.1 } };
}

impl Kept {
    /// Whether it is of this position under this evaluation at this depth.
    fn is_of(&self, p: &Position, e: Eval, d: u8) -> bool
        ensures value { result ≡ (self.now.1.1.0 == d && is_same_eval self.now.1.0 e
            && is_same_position self.now.0 p.now) }
        ensures equal { result ≡ true → (self.now.0 ≡ p.now) × (self.now.1.0 ≡ e) }
    {
        self.depth == d && self.eval.is_same(e) && self.position.is_same(p)
    }
}

/// Up to 512 entries, the place of the next one, and whether the next note is kept.
#[derive(Clone, Copy, Debug)]
pub struct Forgetful {
    pub slots: [Option<Kept>; 512],
    pub next: usize,
    pub keeps: bool,
    ghost inside: { next < 512 },
}

impl Forgetful {
    pub fn new() -> Self {
        Forgetful {
            slots: [None; 512],
            next: 0,
            keeps: true,
        }
    }
}

impl Memo for Forgetful {
    ghost answers = { λ memo p e d. option_map_or (λ slot. option_map (λ kept. kept.1.1.1) slot) (find (λ slot. option_map_or (λ kept. kept.1.1.0 == d && is_same_eval kept.1.0 e && is_same_position kept.0 p) slot false) memo.slots) None };

    fn probe(&mut self, p: &Position, e: Eval, d: u8) -> Option<Entry> {
        'slots: for slot in &self.slots {
            if let Some(kept) = slot {
                if kept.is_of(p, e, d) {
                    return Some(kept.entry);
                }
            }
        }
        None
    }

    fn note(&mut self, p: &Position, e: Eval, d: u8, entry: Entry) {
        if self.keeps {
            self.slots[self.next] = Some(Kept {
                position: *p,
                eval: e,
                depth: d,
                entry,
            });
            self.next = (self.next + 1) % 512;
        }
        self.keeps = !self.keeps;
    }
}
