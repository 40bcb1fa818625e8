//! Rows as text. A row is some lines, and an empty line ends it:
//!
//! - `< TEXT` is sent, and `> TEXT` is answered, each with a line feed at its end. In a text `\r` is a carriage
//!   return, `\t` a tab and `\s` a space; `\` as the last letter takes the line feed away.
//! - `slots N`, of a script: so many sessions may be open.
//! - `bad N`, of a script: its first bad line is that of this number.
//! - `# TEXT` is a remark.

use std::alloc::{AllocError, Global};
use usi_texts::Setup;

/// Where rows are run: their memory, and the setup of their sessions.
pub type Place = (Global, Setup);

/// What is sent, and what is answered.
#[derive(Debug, Drop)]
pub struct Row {
    /// The number of its first line.
    pub line: usize,
    pub sent: String,
    pub answer: String,
    /// How many sessions of a script may be open.
    pub slots: usize,
    /// The number of the first bad line of a script, and 0 where none is bad.
    pub bad: u64,
}

/// Adds the text of a line, and a line feed where no `\` ends it.
fn push_text(whole: &mut String, text: &str) -> Result<(), AllocError> {
    let mut escaped = false;
    for letter in text.chars() {
        if escaped {
            whole.push(match letter {
                'r' => '\r',
                't' => '\t',
                's' => ' ',
                other => other,
            })?;
            escaped = false;
        } else if letter == '\\' {
            escaped = true;
        } else {
            whole.push(letter)?;
        }
    }
    if !escaped {
        whole.push('\n')?;
    }
    Ok(())
}

impl Row {
    fn new(alloc: Global, line: usize) -> Row {
        Row {
            line,
            sent: String::new(alloc),
            answer: String::new(alloc),
            slots: 1,
            bad: 0,
        }
    }

    /// Reads a line; returns whether it is one of a row.
    fn read_line(&mut self, line: &str) -> Result<bool, AllocError> {
        if let Some(text) = line.strip_prefix("<") {
            push_text(&mut self.sent, text.strip_prefix(" ").unwrap_or(text))?;
            return Ok(true);
        }
        if let Some(text) = line.strip_prefix(">") {
            push_text(&mut self.answer, text.strip_prefix(" ").unwrap_or(text))?;
            return Ok(true);
        }
        if let Some(number) = line.strip_prefix("slots ") {
            self.slots = number.parse::<usize>().unwrap_or(0);
            return Ok(self.slots > 0);
        }
        if let Some(number) = line.strip_prefix("bad ") {
            self.bad = number.parse::<u64>().unwrap_or(0);
            return Ok(self.bad > 0);
        }
        Ok(false)
    }
}

/// The rows of a text, and the numbers of the lines that are none of a row.
pub fn read_rows(alloc: Global, text: &str) -> Result<(Vec<Row>, Vec<usize>), AllocError> {
    let (mut rows, mut unread) = (Vec::new(alloc), Vec::new(alloc));
    let mut current = None;
    for (index, line) in text.lines().enumerate() {
        let number = index.saturating_add(1);
        if line.starts_with("#") {
            continue;
        }
        if line.is_empty() {
            if let Some(row) = current.take() {
                rows.push(row)?;
            }
            continue;
        }
        let mut row = match current.take() {
            Some(row) => row,
            None => Row::new(alloc, number),
        };
        if !row.read_line(line)? {
            unread.push(number)?;
        }
        current = Some(row);
    }
    if let Some(row) = current {
        rows.push(row)?;
    }
    Ok((rows, unread))
}
