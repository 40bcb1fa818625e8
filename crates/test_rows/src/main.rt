//! Runs the worked rows of the files in `data`: each as a session, through the program's streams, among the
//! sessions of a host and as a script, and prints what differs from its answer. A file has one line at the
//! end.
#![tactic(auto)]

mod found;
mod host;
mod row;
mod script;
mod session;

use found::Found;
use row::{Row, read_rows};
use shogi_eval::Eval;
use std::{fs, io};
use usi_texts::Setup;

/// The files whose rows are what a session is sent.
const DIALOGUES: [&str; 3] = ["dialogues.txt", "positions.txt", "several_lines.txt"];

/// The files whose rows are what a session is sent under a setup of its own: its depth, its greatest depth,
/// its lines and its evaluation.
const UNDER_SETUPS: [(&str, u8, u8, u8, Eval); 2] = [
    ("shallow.txt", 1, 2, 2, Eval::Hand),
    ("exchange.txt", 1, 16, 1, Eval::Exchange),
];

/// The file whose rows are scripts.
const SCRIPTS: &str = "scripts.txt";

/// The rows of a file. A line that is none of a row is reported.
fn rows_of(rt: &HostRuntime, name: &str) -> io::Result<Vec<Row>> {
    let text = fs::read_to_string(rt, name)?;
    let (rows, unread) = read_rows(rt.alloc(), text.as_str())?;
    for line in unread {
        println!(rt; "{name}: line {line} is none of a row")?;
    }
    Ok(rows)
}

/// What differs, and how many rows there are.
fn report(rt: &HostRuntime, name: &str, rows: usize, found: &Found) -> io::Result<()> {
    for difference in found.differences() {
        println!(rt; "{name}, {difference}")?;
    }
    if found.is_short() {
        println!(rt; "{name}, a difference found no memory")?;
    }
    let differences = found.differences().len();
    println!(rt; "{name}: {rows} rows, {differences} differences")
}

fn run_dialogues(rt: &HostRuntime, name: &str, setup: Setup) -> io::Result<()> {
    let (at, rows) = ((rt.alloc(), setup), rows_of(rt, name)?);
    let mut found = Found::new(rt.alloc());
    session::run(at, rows.as_slice(), &mut found)?;
    host::run(at, rows.as_slice(), &mut found)?;
    script::run_dialogues(at, rows.as_slice(), &mut found)?;
    report(rt, name, rows.len(), &found)
}

fn run_scripts(rt: &HostRuntime, name: &str) -> io::Result<()> {
    let (at, rows) = ((rt.alloc(), Setup::new()), rows_of(rt, name)?);
    let mut found = Found::new(rt.alloc());
    script::run(at, rows.as_slice(), &mut found);
    report(rt, name, rows.len(), &found)
}

fn main(rt: HostRuntime) -> io::Result<()> {
    for name in DIALOGUES {
        run_dialogues(&rt, name, Setup::new())?;
    }
    for (name, depth, max_depth, lines, eval) in UNDER_SETUPS {
        match Setup::of(depth, max_depth, lines, eval) {
            Ok(setup) => run_dialogues(&rt, name, setup)?,
            Err(_) => println!(rt; "{name}: there is no such setup")?,
        }
    }
    run_scripts(&rt, SCRIPTS)
}
