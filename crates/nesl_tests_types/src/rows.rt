//! Rows of what is asked and what is wanted, `ASKED => WANTED`. What is asked may have parts that are written many
//! times: `a@3~b$@c` is `ab0b1b2c`.

use crate::texts::push_number;
use std::alloc::{AllocError, Global};
use std::process::Abort;

/// The number that a letter means in one of this many rounds, numbered from 0: `$` for that of the round and `&` for
/// the next one, `!` and `?` for the same of the round that is as far from the end.
fn number_of(letter: char, round: u64, count: u64) -> Option<u64> {
    let left = count.saturating_sub(round);
    match letter {
        '$' => Some(round),
        '&' => Some(round.saturating_add(1)),
        '!' => Some(left.saturating_sub(1)),
        '?' => Some(left),
        _ => None,
    }
}

fn push_round(text: &mut String, part: &str, round: u64, count: u64) -> Result<(), AllocError> {
    for letter in part.chars() {
        match number_of(letter, round, count) {
            Some(number) => push_number("", number, text)?,
            None => text.push(letter)?,
        }
    }
    Ok(())
}

/// Adds a piece: `COUNT~PART` is the part this many times, and any other piece is itself.
fn push_piece(text: &mut String, piece: &str) -> Result<(), AllocError> {
    match piece.split_once('~') {
        Some((count, part)) => {
            let count = count.parse::<u64>().unwrap_or(0);
            for round in 0..count {
                push_round(text, part, round, count)?;
            }
            Ok(())
        }
        None => text.push_str(piece),
    }
}

/// What is asked, with an `@` before and after each part that is written several times.
fn written_out(alloc: Global, asked: &str) -> Result<String, AllocError> {
    let mut text = String::new(alloc);
    for piece in asked.split('@') {
        push_piece(&mut text, piece)?;
    }
    Ok(text)
}

/// Whether a text is the one that is wanted, in which two dots at the end mean any rest.
fn is_wanted(told: &str, wanted: &str) -> bool {
    match wanted.strip_suffix("..") {
        Some(beginning) => told.starts_with(beginning),
        None => told == wanted,
    }
}

/// What rows are about.
pub trait Subject {
    /// Writes the answer to what a row asks. The text is empty before.
    fn tell(&self, alloc: Global, asked: &str, text: &mut String) -> Result<(), AllocError>;
}

/// Whether the answer to what is asked is the one that is wanted.
fn is_told<S: Subject>(
    alloc: Global,
    subject: &S,
    asked: &str,
    wanted: &str,
) -> Result<bool, AllocError> {
    let mut text = String::new(alloc);
    subject.tell(alloc, asked, &mut text)?;
    Ok(is_wanted(text.as_str(), wanted))
}

/// Whether a row holds.
pub fn holds<S: Subject>(alloc: Global, subject: &S, row: &str) -> Result<bool, AllocError> {
    let (asked, wanted) = row.split_once(" => ").unwrap_or((row, ""));
    let text = written_out(alloc, asked)?;
    is_told(alloc, subject, text.as_str(), wanted)
}

/// Fails at the first row that doesn't hold.
pub fn all_hold<S: Subject, R: Abort>(rt: &R, alloc: Global, subject: &S, tables: &[&str]) {
    for rows in tables {
        for row in rows.lines() {
            assert!(rt; matches!(holds(alloc, subject, row), Ok(true)), "{row}");
        }
    }
}
