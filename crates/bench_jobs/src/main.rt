//! The jobs of the benchmark: does one of them on games that it reads from standard input, and prints
//! how much was answered and a digest of it. The job `measure` answers requests instead.
#![tactic(auto)]

mod clients;
mod count;
mod digest;
mod game;
mod library;
mod measure;
mod random;
mod request;
mod session;

use crate::digest::Digest;
use crate::game::{Game, read_games};
use crate::random::Random;
use anyhow::{Result, bail};
use std::env;

/// Does the job of this name, where there is one, and takes in what is answered.
fn run(rt: &HostRuntime, name: &str, games: &[Game], random: &mut Random) -> Result<Digest> {
    let mut digest = Digest::new();
    match name.as_bytes() {
        b"game" => session::game(rt.alloc(), games, random, &mut digest)?,
        b"lines" => session::lines(rt.alloc(), games, random, &mut digest)?,
        b"grade" => session::grade(rt.alloc(), games, random, &mut digest)?,
        b"clients" => clients::clients(rt.alloc(), games, random, &mut digest)?,
        b"count" => count::count(games, random, &mut digest),
        b"library" => library::library(rt.alloc(), games, random, &mut digest)?,
        _ => bail!("the job is none of game, lines, grade, clients, count, library"),
    }
    Ok(digest)
}

/// Does the job of this name on the games of standard input, and prints the digest.
fn run_on_games(rt: &HostRuntime, name: &str, seed: &str) -> Result<()> {
    let seed = seed.parse::<u32>()?;
    let games = read_games(rt)?;
    let mut random = Random::new(u64::from(seed));
    let digest = run(rt, name, games.as_slice(), &mut random)?;
    println!(rt; "{digest}")?;
    Ok(())
}

fn main(rt: HostRuntime) -> Result<()> {
    let mut words = env::args(&rt)?;
    let _program = words.next();
    let Some(name) = words.next() else {
        bail!("a word is missing, the job");
    };
    match words.next() {
        Some(seed) => run_on_games(&rt, name.as_str(), seed.as_str()),
        None if name.as_str() == "measure" => measure::measure(&rt),
        None => bail!("a word is missing, the seed"),
    }
}
