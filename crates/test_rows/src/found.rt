//! What is found of the rows of a file.

use crate::row::Row;
use std::alloc::{AllocError, Global};
use std::fmt::Display;

/// The differences that were found: of several of one row in a run, the first.
#[derive(Drop)]
pub struct Found {
    alloc: Global,
    differences: Vec<String>,
    /// The line of the row that differed last.
    last: usize,
    /// Whether a difference found no memory.
    is_short: bool,
}

/// What was wanted, and what was said.
fn told(alloc: Global, wanted: &[u8], said: &[u8]) -> Result<String, AllocError> {
    let wanted = std::str::from_utf8(wanted).unwrap_or("no text\n");
    let said = std::str::from_utf8(said).unwrap_or("no text\n");
    format!(in alloc; "wanted\n{wanted}instead of\n{said}")
}

impl Found {
    pub fn new(alloc: Global) -> Found {
        Found {
            alloc,
            differences: Vec::new(alloc),
            last: 0,
            is_short: false,
        }
    }

    pub fn differences(&self) -> &[String] {
        self.differences.as_slice()
    }

    pub fn is_short(&self) -> bool {
        self.is_short
    }

    /// What was said to the row is its answer. `how` says in what way it was run.
    pub fn said(&mut self, row: &Row, how: &str, said: &[u8]) {
        self.is(row, how, row.answer.as_bytes(), said);
    }

    /// These bytes are those that are wanted.
    pub fn is(&mut self, row: &Row, how: &str, wanted: &[u8], said: &[u8]) {
        if said == wanted {
            return;
        }
        match told(self.alloc, wanted, said) {
            Ok(text) => self.fails(row, how, text.as_str()),
            Err(_) => self.is_short = true,
        }
    }

    /// Something that holds of the row.
    pub fn holds(&mut self, row: &Row, how: &str, what: &str, holds: bool) {
        if !holds {
            self.fails(row, how, what);
        }
    }

    fn fails(&mut self, row: &Row, how: &str, what: &str) {
        if row.line == self.last {
            return;
        }
        self.last = row.line;
        if self.add(row.line, how, what).is_err() {
            self.is_short = true;
        }
    }

    fn add(&mut self, line: usize, how: &str, what: &str) -> Result<(), AllocError> {
        let text = format!(in self.alloc; "line {line}, {how}: {what}")?;
        Ok(self.differences.push(text)?)
    }
}
