//! Rows, and whether each is answered as it has to be.
//!
//! A row is a line that is answered, and below it are the lines of its answer, if there are any. How a line begins
//! says what it is:
//!
//! - `> TEXT`: a row whose text is said as it is; `>` alone says an empty line.
//! - `@WORD ..`, `= ..`, `! ..` or `? ..`: a row that is a directive. The head of the module of its part says what
//!   it does. Most have no answer.
//! - `% TEXT`: a title. Titles and empty lines are for readers.
//! - Any other line belongs to the answer to the row above it.

use crate::writing::{put, put_line};
use std::alloc::{AllocError, Global};

/// What a row asks for.
#[derive(Clone, Copy)]
pub enum Asked<'t> {
    /// To say this text.
    Text(&'t str),
    /// To follow a directive: its word, and what follows it.
    Directive(&'t str, &'t str),
}

/// The rows of a part as they are read: what was answered to the last one, what had to be, and how many rows before it
/// hold.
#[derive(Drop)]
pub struct Rows<'t> {
    row: &'t str,
    wanted: Vec<u8>,
    answer: Vec<u8>,
    held: u64,
    missed: u64,
}

impl<'t> Rows<'t> {
    pub fn new(alloc: Global) -> Rows<'t> {
        Rows {
            row: "",
            wanted: Vec::new(alloc),
            answer: Vec::new(alloc),
            held: 0,
            missed: 0,
        }
    }

    /// What a line asks for, if it is a row. The row before it is over then, and is written if it was missed.
    pub fn read(
        &mut self,
        line: &'t str,
        out: &mut Vec<u8>,
    ) -> Result<Option<Asked<'t>>, AllocError> {
        let asked = asked_by(line);
        if asked.is_some() {
            self.compare(out)?;
            self.row = line;
        } else if !line.is_empty() && !line.starts_with('%') {
            put_line(&mut self.wanted, line.as_bytes())?;
        }
        Ok(asked)
    }

    /// Where the answer to the last row is to be written.
    pub fn answer(&mut self) -> &mut Vec<u8> {
        &mut self.answer
    }

    /// Ends a part: writes how many of its rows hold.
    pub fn end(mut self, alloc: Global, part: &str, out: &mut Vec<u8>) -> Result<(), AllocError> {
        self.compare(out)?;
        let held = self.held;
        let missed = self.missed;
        put(
            out,
            format!(in alloc; "{part}: {held} rows hold, {missed} missed\n"),
        )
    }

    // Counts the last row, if there is one; writes it with what was wanted and what was answered, if that differs.
    fn compare(&mut self, out: &mut Vec<u8>) -> Result<(), AllocError> {
        if self.answer.as_slice() != self.wanted.as_slice() {
            self.missed = self.missed.saturating_add(1);
            put_line(out, self.row.as_bytes())?;
            put_marked(b"- ", self.wanted.as_slice(), out)?;
            put_marked(b"+ ", self.answer.as_slice(), out)?;
        } else if !self.row.is_empty() {
            self.held = self.held.saturating_add(1);
        }
        self.wanted.clear();
        self.answer.clear();
        Ok(())
    }
}

fn asked_by(line: &str) -> Option<Asked<'_>> {
    match line.as_bytes().first() {
        Some(b'>') if line == ">" => Some(Asked::Text("")),
        Some(b'>') => Some(Asked::Text(line.strip_prefix("> ")?)),
        Some(b'@' | b'=' | b'!' | b'?') => {
            let (word, rest) = line.split_once(' ').unwrap_or((line, ""));
            Some(Asked::Directive(word, rest))
        }
        _ => None,
    }
}

// Writes lines, each after this mark.
fn put_marked(mark: &[u8], lines: &[u8], out: &mut Vec<u8>) -> Result<(), AllocError> {
    let mut is_start = true;
    for byte in lines {
        if is_start {
            out.extend_from_slice(mark)?;
        }
        out.push(*byte)?;
        is_start = *byte == b'\n';
    }
    Ok(())
}
