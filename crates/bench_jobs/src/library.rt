//! Searches by the library, each position over a table of its caller.

use crate::count::many_moves;
use crate::digest::Digest;
use crate::game::Game;
use crate::random::Random;
use anyhow::{Result, anyhow};
use shogi_core::Position;
use shogi_eval::Eval;
use shogi_search::{Found, Search};
use std::alloc::Global;
use test_facade::{SeedlessTable, table_of};

/// A search to its end in slices of so many steps.
fn search(
    p: &Position,
    (eval, depth): (Eval, u8),
    slice: u64,
    table: &mut SeedlessTable<Global>,
) -> Option<Found> {
    let mut search = Search::start(p, eval, depth.min(16));
    for _ in 0..u64::MAX {
        let found = search.advance(table, slice);
        if found.is_some() {
            return found;
        }
    }
    None
}

/// Takes in what a search found: its value and the best move. How many steps it took is no answer.
fn take_in_found(found: Option<Found>, digest: &mut Digest) {
    if let Some(found) = found {
        digest.take_in(found.value.to_le_bytes().as_slice());
        digest.take_in_number(found.best.map_or(0, |m| u64::from(m.code())));
    }
}

/// One search of the position at depth 5 over a table far too small, in slices of one step.
fn search_in_steps(alloc: Global, p: &Position, digest: &mut Digest) -> Result<()> {
    let mut small = table_of(alloc, 64).map_err(|_| anyhow!("no memory for a table"))?;
    take_in_found(search(p, (Eval::Hand, 5), 1, &mut small), digest);
    Ok(())
}

/// Four late positions of each game, one out of each of its last sixteenths, at depth 5: by turns over
/// a small table in slices of one step and over one large table; and the position of most moves, after
/// some move of it, at depth 3.
pub fn library(
    alloc: Global,
    games: &[Game],
    random: &mut Random,
    digest: &mut Digest,
) -> Result<()> {
    let large = table_of(alloc, 1_000_000);
    let mut large = large.map_err(|_| anyhow!("no memory for a table"))?;
    for game in games {
        for part in 12..16usize {
            let p = game.position(game.some_ply(part, 16, random));
            if part % 2 == 0 {
                search_in_steps(alloc, &p, digest)?;
            } else {
                take_in_found(search(&p, (Eval::Plain, 5), 1000, &mut large), digest);
            }
        }
    }
    let p = many_moves(random);
    take_in_found(search(&p, (Eval::Plain, 3), 1000, &mut large), digest);
    Ok(())
}
