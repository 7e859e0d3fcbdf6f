//! The parts of a lesson.

use crate::groups::{Group, fence_of, groups_of};
use serde::Serialize;
use std::alloc::{AllocError, Global};

/// A form of a block, and its reply. The lines of a form are joined without their backslashes.
#[derive(Drop)]
pub struct Exchange {
    pub form: String,
    pub reply: String,
}

/// The texts of an exercise, as the page needs them.
#[derive(Drop, Serialize)]
pub(crate) struct ExerciseText {
    pub(crate) name: String,
    pub(crate) given: String,
    pub(crate) tests: Vec<String>,
    pub(crate) solution: String,
}

/// A part of a lesson.
#[derive(Drop)]
pub(crate) enum Part {
    Heading(String),
    Text(String),
    List(Vec<String>),
    Table(Vec<Vec<String>>),
    /// Lines that aren't run.
    Code(String),
    /// Forms that are run, each with its reply.
    Run(Vec<Exchange>),
    Exercise(ExerciseText),
}

/// The parts of a lesson with this title.
pub(crate) fn parts_of(
    alloc: Global,
    title: &str,
    lines: &[&str],
) -> Result<Vec<Part>, AllocError> {
    let mut parts = Vec::new(alloc);
    for group in &groups_of(alloc, lines)? {
        if is_exercise(group.first()) {
            add_exercise(alloc, &mut parts, title, group.inner())?;
        } else {
            parts.push(part_of(alloc, group)?)?;
        }
    }
    Ok(parts)
}

// Whether a line begins a block that is an exercise.
fn is_exercise(line: &str) -> bool {
    word_of(line) == "exercise"
}

// What follows the backquotes of a line, or nothing if the line has none.
fn word_of(line: &str) -> &str {
    match fence_of(line) {
        Some(ticks) => line.get(ticks..).unwrap_or("").trim(),
        None => "",
    }
}

// A part from lines that belong together.
fn part_of(alloc: Global, group: &Group<'_>) -> Result<Part, AllocError> {
    let first = group.first();
    let lines = group.lines.as_slice();
    if let Some(text) = without_front(first, b"#") {
        return Ok(Part::Heading(heading_of(alloc, text)?));
    }
    if fence_of(first).is_some() {
        return Ok(Part::Run(exchanges_of(alloc, group.inner())?));
    }
    if without_front(first, b"    ").is_some() {
        return Ok(Part::Code(indented_text(alloc, lines)?));
    }
    if without_front(first, b"|").is_some() {
        return Ok(Part::Table(rows_of(alloc, lines)?));
    }
    if without_front(first, b"- ").is_some() {
        return Ok(Part::List(items_of(alloc, lines)?));
    }
    Ok(Part::Text(paragraph_of(alloc, lines)?))
}

/// What follows this front in a line.
pub(crate) fn without_front<'t>(line: &'t str, front: &[u8]) -> Option<&'t str> {
    if line.as_bytes().starts_with(front) {
        line.get(front.len()..)
    } else {
        None
    }
}

// A heading without the signs at its front.
fn heading_of(alloc: Global, text: &str) -> Result<String, AllocError> {
    let mut rest = text;
    for level in ["##", "#"] {
        rest = without_front(rest, level.as_bytes()).unwrap_or(rest);
    }
    String::from_str(alloc, rest.trim())
}

// The lines of a text that is written four columns to the right.
fn indented_text(alloc: Global, lines: &[&str]) -> Result<String, AllocError> {
    let mut text = String::new(alloc);
    for line in lines {
        add_line(&mut text, without_front(line, b"    ").unwrap_or(line))?;
    }
    Ok(text)
}

/// Appends a line to a text, after a line end if the text isn't empty.
pub(crate) fn add_line(text: &mut String, line: &str) -> Result<(), AllocError> {
    if !text.is_empty() {
        text.push_str("\n")?;
    }
    text.push_str(line)
}

// The rows of a table, without the one of strokes.
fn rows_of(alloc: Global, lines: &[&str]) -> Result<Vec<Vec<String>>, AllocError> {
    let mut rows = Vec::new(alloc);
    for line in lines {
        if !line
            .as_bytes()
            .iter()
            .all(|byte| matches!(byte, b'|' | b'-' | b' ' | b':'))
        {
            rows.push(cells_of(alloc, line)?)?;
        }
    }
    Ok(rows)
}

// The cells of a row. A stroke after a backslash is part of a cell.
fn cells_of(alloc: Global, line: &str) -> Result<Vec<String>, AllocError> {
    let row = line.trim();
    let row = without_front(row, b"|").unwrap_or(row);
    let mut cells = Vec::new(alloc);
    let mut cell = String::new(alloc);
    for piece in row.split('|') {
        match piece.strip_suffix('\\') {
            Some(front) => {
                cell.push_str(front)?;
                cell.push_str("|")?;
            }
            None => {
                cell.push_str(piece)?;
                cells.push(String::from_str(alloc, cell.as_str().trim())?)?;
                cell = String::new(alloc);
            }
        }
    }
    // After the last stroke there is no cell.
    let _ = cells.pop();
    Ok(cells)
}

// The items of a list. A line without a stroke goes on with the item before it.
fn items_of(alloc: Global, lines: &[&str]) -> Result<Vec<String>, AllocError> {
    let mut items = Vec::new(alloc);
    let mut item: Vec<&str> = Vec::new(alloc);
    for line in lines {
        if let Some(text) = without_front(line, b"- ") {
            if !item.is_empty() {
                items.push(paragraph_of(alloc, item.as_slice())?)?;
            }
            item = Vec::new(alloc);
            item.push(text)?;
        } else {
            item.push(line)?;
        }
    }
    items.push(paragraph_of(alloc, item.as_slice())?)?;
    Ok(items)
}

// A paragraph on one line, without what the page doesn't show: a sentence about lines that end in a backslash, or about
// the answer to them.
fn paragraph_of(alloc: Global, lines: &[&str]) -> Result<String, AllocError> {
    let mut whole = String::new(alloc);
    for line in lines {
        if !whole.is_empty() {
            whole.push_str(" ")?;
        }
        whole.push_str(line.trim())?;
    }
    let mut text = String::new(alloc);
    let mut kept: Option<&str> = None;
    for sentence in whole.as_str().split('.') {
        if let Some(before) = kept {
            text.push_str(before)?;
            text.push_str(".")?;
        }
        kept = if is_of_parts(sentence) {
            None
        } else {
            Some(sentence)
        };
    }
    if let Some(last) = kept {
        text.push_str(last)?;
    }
    Ok(text)
}

// Whether a sentence is about the parts of a form.
fn is_of_parts(sentence: &str) -> bool {
    let bytes = sentence.as_bytes();
    bytes.windows(3).any(|part| part == b"`\\`".as_slice())
        || bytes.windows(6).any(|part| part == b"`more`".as_slice())
}

/// The forms of a block, each with its reply. What is answered before a form's last part is left out.
pub(crate) fn exchanges_of(alloc: Global, lines: &[&str]) -> Result<Vec<Exchange>, AllocError> {
    let mut exchanges = Vec::new(alloc);
    let mut open: Option<Exchange> = None;
    for line in lines {
        let last = open.take();
        open = match (without_front(line, b"> "), last) {
            (Some(part), Some(mut last)) => match last.form.as_str().strip_suffix('\\') {
                Some(front) => Some(Exchange {
                    form: format!(in alloc; "{front}\n{part}")?,
                    reply: String::new(alloc),
                }),
                None => {
                    exchanges.push(last)?;
                    Some(exchange_of(alloc, part)?)
                }
            },
            (Some(part), None) => Some(exchange_of(alloc, part)?),
            (None, Some(mut last)) => {
                add_line(&mut last.reply, line)?;
                Some(last)
            }
            (None, None) => None,
        };
    }
    if let Some(last) = open {
        exchanges.push(last)?;
    }
    Ok(exchanges)
}

fn exchange_of(alloc: Global, form: &str) -> Result<Exchange, AllocError> {
    Ok(Exchange {
        form: String::from_str(alloc, form)?,
        reply: String::new(alloc),
    })
}

// Appends the parts of an exercise: its texts, and what the page has to know of it.
fn add_exercise(
    alloc: Global,
    parts: &mut Vec<Part>,
    title: &str,
    lines: &[&str],
) -> Result<(), AllocError> {
    let mut exercise = ExerciseText {
        name: String::from_str(alloc, title)?,
        given: String::new(alloc),
        tests: Vec::new(alloc),
        solution: String::new(alloc),
    };
    for group in &groups_of(alloc, lines)? {
        let word = word_of(group.first());
        if word == "given" {
            add_lines(&mut exercise.given, group.inner())?;
        } else if word == "solution" {
            add_lines(&mut exercise.solution, group.inner())?;
        } else if word == "tests" {
            for line in group.inner() {
                exercise.tests.push(String::from_str(alloc, line)?)?;
            }
        } else if fence_of(group.first()).is_none() {
            parts.push(part_of(alloc, group)?)?;
        }
    }
    parts.push(Part::Exercise(exercise))?;
    Ok(())
}

fn add_lines(text: &mut String, lines: &[&str]) -> Result<(), AllocError> {
    for line in lines {
        add_line(text, line)?;
    }
    Ok(())
}
