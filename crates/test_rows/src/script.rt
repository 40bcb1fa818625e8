//! Scripts, and rows as scripts: each alone, and many by turns.

use crate::found::Found;
use crate::row::{Place, Row};
use std::alloc::{AllocError, Global};
use usi_replay::{ReplayFault, replay_with_setup};
use usi_stdio::Duplex;

/// The names that sessions of a script may have.
const NAMES: [&str; 26] = [
    "A", "B", "C", "D", "E", "F", "G", "H", "I", "J", "K", "L", "M", "N", "O", "P", "Q", "R", "S",
    "T", "U", "V", "W", "X", "Y", "Z",
];

/// The tables and slices over which a script is run: its output is the same.
const WAYS: [(usize, u64); 5] = [
    (1, 1),
    (4096, 7),
    (1, 1000),
    (4096, 1000),
    (4096, 1_000_000_000),
];

/// What a script writes, and the number of its first bad line, 0 where none is bad. None where it ends
/// otherwise.
fn played(
    (alloc, setup): Place,
    script: &str,
    slots: usize,
    (entries, slice): (usize, u64),
) -> Option<(Vec<u8>, u64)> {
    let mut ends = Duplex::new(script.as_bytes(), Vec::new(alloc));
    let (slots, entries) = (slots.clamp(1, 1024), entries.clamp(1, 1_000_000));
    let ended = replay_with_setup(alloc, setup, &mut ends, slots, entries, slice.max(1));
    let Duplex { output, .. } = ends;
    match ended {
        Ok(()) => Some((output, 0)),
        Err(ReplayFault::BadScript { line }) => Some((output, line)),
        Err(_) => None,
    }
}

/// Runs the script of a row, and compares its output or its first bad line.
fn run_one(at: Place, row: &Row, script: &str, output: &str, slots: usize, found: &mut Found) {
    for way in WAYS {
        match played(at, script, slots, way) {
            Some((written, bad)) => {
                found.holds(row, "as a script", "another line is bad\n", bad == row.bad);
                found.is(row, "as a script", output.as_bytes(), written.as_slice());
            }
            None => found.holds(row, "as a script", "it ended otherwise\n", false),
        }
    }
}

/// Scripts.
pub fn run(at: Place, rows: &[Row], found: &mut Found) {
    for row in rows {
        let (script, output) = (row.sent.as_str(), row.answer.as_str());
        run_one(at, row, script, output, row.slots, found);
    }
}

/// Adds these parts to a text.
fn push_all(text: &mut String, parts: &[&str]) -> Result<(), AllocError> {
    for part in parts {
        text.push_str(part)?;
    }
    Ok(())
}

/// Opens a session for each row.
fn push_openings(script: &mut String, rows: &[Row]) -> Result<(), AllocError> {
    for (name, _) in NAMES.iter().zip(rows) {
        push_all(script, &["+", *name, "\n"])?;
    }
    Ok(())
}

/// The line of each row that has one at this place; returns whether one has. A last line without a line
/// feed is no line.
fn push_lines(script: &mut String, rows: &[Row], place: usize) -> Result<bool, AllocError> {
    let mut has_line = false;
    for (name, row) in NAMES.iter().zip(rows) {
        if let Some(line) = row.sent.split_inclusive('\n').nth(place) {
            if line.ends_with('\n') {
                push_all(script, &[*name, " ", line])?;
                has_line = true;
            }
        }
    }
    Ok(has_line)
}

/// The rows as one script, their lines by turns.
fn script_of(alloc: Global, rows: &[Row]) -> Result<String, AllocError> {
    let mut script = String::new(alloc);
    push_openings(&mut script, rows)?;
    for place in 0..usize::MAX {
        if !push_lines(&mut script, rows, place)? {
            break;
        }
    }
    Ok(script)
}

/// What the script writes.
fn output_of(alloc: Global, rows: &[Row]) -> Result<String, AllocError> {
    let mut output = String::new(alloc);
    for (name, row) in NAMES.iter().zip(rows) {
        push_all(&mut output, &["== ", *name, "\n", row.answer.as_str()])?;
    }
    Ok(output)
}

/// Rows of sessions as scripts: each alone, and all by turns, as many at a time as there are names.
pub fn run_dialogues(at: Place, rows: &[Row], found: &mut Found) -> Result<(), AllocError> {
    let (alloc, _) = at;
    for size in [1usize, 26] {
        for group in rows.chunks(size) {
            if let Some(row) = group.first() {
                let (script, output) = (script_of(alloc, group)?, output_of(alloc, group)?);
                run_one(at, row, script.as_str(), output.as_str(), 26, found);
            }
        }
    }
    Ok(())
}
