//! What a text has, and which of its rows hold.
use crate::told::{Told, put, put_line, text_of};
use std::alloc::{AllocError, Global};

/// A text, and what is wanted of it.
#[derive(Clone, Copy)]
pub struct Text<'t> {
    /// The ways in which it is said.
    pub ways: &'t str,
    // Its lines, each with its answer below it.
    rows: &'t str,
    // What the sessions are in the end.
    standing: &'t str,
    // What connections recorded.
    recorded: &'t str,
}

// What a row says, if it says a line: `>` alone says an empty one.
fn said_by(row: &str) -> Option<&str> {
    if row == ">" {
        Some("")
    } else {
        row.strip_prefix("> ")
    }
}

impl<'t> Text<'t> {
    /// The text that follows a title.
    pub fn read(text: &'t str) -> Text<'t> {
        let (ways, text) = text.split_once('\n').unwrap_or((text, ""));
        let (rows, text) = text.split_once("@standing\n").unwrap_or((text, ""));
        let (standing, recorded) = text.split_once("@recorded\n").unwrap_or((text, ""));
        Text {
            ways: ways.strip_prefix("@by ").unwrap_or(""),
            rows,
            standing,
            recorded,
        }
    }

    /// The lines that it says.
    pub fn lines(&self, alloc: Global) -> Result<String, AllocError> {
        let mut lines = String::with_capacity(alloc, self.rows.len())?;
        for row in self.rows.lines() {
            if let Some(line) = said_by(row) {
                lines.push_str(line)?;
                lines.push('\n')?;
            }
        }
        Ok(lines)
    }

    // What the sessions are in the end, and what is recorded, where the text was said in this way.
    fn standing_by(&self, way: &str) -> [&'t str; 2] {
        [
            self.standing,
            if way == "serve" { self.recorded } else { "" },
        ]
    }
}

// Whether these are the lines of the texts one after the other.
fn are_lines_of(texts: &[&str], given: &str) -> bool {
    let mut given = given.lines();
    for text in texts {
        for line in text.lines() {
            if !line.is_empty() && given.next() != Some(line) {
                return false;
            }
        }
    }
    given.next().is_none()
}

// Writes lines, each after this mark.
fn put_marked(mark: &str, lines: &str, out: &mut Vec<u8>) -> Result<(), AllocError> {
    for line in lines.lines() {
        out.extend_from_slice(mark.as_bytes())?;
        put_line(out, line)?;
    }
    Ok(())
}

/// How many rows of a text hold, and how many are missed.
#[derive(Clone, Copy)]
pub struct Tally<'t> {
    held: u64,
    missed: u64,
    // The way in which the text is said, until it is written.
    way: Option<&'t str>,
}

impl<'t> Tally<'t> {
    pub fn new() -> Tally<'t> {
        Tally {
            held: 0,
            missed: 0,
            way: None,
        }
    }

    /// Compares what comes of a text with what is wanted, and writes the rows that are missed after the way.
    pub fn compare(
        &mut self,
        way: &'t str,
        text: &Text<'_>,
        told: &Told,
        out: &mut Vec<u8>,
    ) -> Result<(), AllocError> {
        self.way = Some(way);
        self.compare_answers(text.rows, text_of(told.answers.as_slice()), out)?;
        let standing = text_of(told.standing.as_slice());
        let wanted = text.standing_by(way);
        if are_lines_of(&wanted, standing) {
            self.held = self.held.saturating_add(1);
            return Ok(());
        }
        self.miss("@standing", out)?;
        put_marked("- ", wanted[0], out)?;
        put_marked("- ", wanted[1], out)?;
        put_marked("+ ", standing, out)
    }

    fn compare_answers(
        &mut self,
        rows: &str,
        given: &str,
        out: &mut Vec<u8>,
    ) -> Result<(), AllocError> {
        let mut given = given.lines();
        let mut said: Option<&str> = None;
        for row in rows.lines() {
            let next = said_by(row);
            if let Some(line) = said {
                let wanted = if next.is_none() { row } else { "" };
                self.compare_row(line, wanted, given.next().unwrap_or(""), out)?;
            }
            said = next;
        }
        match given.next() {
            Some(answer) => self.compare_row("@more", "", answer, out),
            None => Ok(()),
        }
    }

    // Counts a row, and writes it with what was wanted and what it got, if that differs.
    fn compare_row(
        &mut self,
        line: &str,
        wanted: &str,
        given: &str,
        out: &mut Vec<u8>,
    ) -> Result<(), AllocError> {
        if wanted == given {
            self.held = self.held.saturating_add(1);
            return Ok(());
        }
        self.miss(line, out)?;
        put_marked("- ", wanted, out)?;
        put_marked("+ ", given, out)
    }

    // Counts a row that is missed, and writes it, after the way if that isn't written yet.
    fn miss(&mut self, line: &str, out: &mut Vec<u8>) -> Result<(), AllocError> {
        self.missed = self.missed.saturating_add(1);
        if let Some(way) = self.way {
            out.extend_from_slice(b"@by ")?;
            put_line(out, way)?;
            self.way = None;
        }
        if !line.starts_with('@') {
            out.extend_from_slice(b"> ")?;
        }
        put_line(out, line)
    }

    /// Writes how many rows of a text hold.
    pub fn put(&self, alloc: Global, title: &str, out: &mut Vec<u8>) -> Result<(), AllocError> {
        let (held, missed) = (self.held, self.missed);
        put(
            out,
            format!(in alloc; "{title}: {held} rows hold, {missed} missed\n"),
        )
    }
}
