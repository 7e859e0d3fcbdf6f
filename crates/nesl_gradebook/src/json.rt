//! Grades as JSON: an array with an object for each submission.

use crate::book::{Book, Submission};
use crate::out::shown;
use crate::told::{Told, audience_word};
use nesl_exercise::outcome::Outcome;
use nesl_exercise::test::Test;
use serde::Serialize;
use std::alloc::{AllocError, Global};

// A submission.
#[derive(Drop, Serialize)]
struct Entry {
    submission: String,
    points: u64,
    most: u64,
    tests: Vec<Row>,
}

// A test of a submission. Numbers that are missing are null.
#[derive(Drop, Serialize)]
struct Row {
    line: u64,
    test: String,
    audience: &'static str,
    points: u64,
    outcome: &'static str,
    n: Option<u64>,
    cost: Option<u64>,
    bound: Option<u128>,
    got: String,
    wanted: String,
}

/// Returns the grades of submissions as JSON.
pub fn json_of(alloc: Global, book: &Book<'_>) -> Result<Vec<u8>, AllocError> {
    let mut entries = Vec::new(alloc);
    for submission in book.submissions {
        entries.push(entry_of(alloc, book.tests, submission)?)?;
    }
    let Ok(mut text) = serde_json::to_vec_pretty(alloc, &entries) else {
        return Err(AllocError);
    };
    text.push(b'\n')?;
    Ok(text)
}

fn entry_of(alloc: Global, tests: &[Test], submission: &Submission) -> Result<Entry, AllocError> {
    let mut rows = Vec::new(alloc);
    for (place, test) in tests.iter().enumerate() {
        if let Some(outcome) = submission.outcomes().get(place) {
            rows.push(row_of(alloc, test, outcome)?)?;
        }
    }
    Ok(Entry {
        submission: shown(alloc, submission.name.as_slice())?,
        points: submission.points(),
        most: submission.most(),
        tests: rows,
    })
}

fn row_of(alloc: Global, test: &Test, outcome: &Outcome) -> Result<Row, AllocError> {
    let told = Told::of(outcome);
    Ok(Row {
        line: test.line,
        test: shown(alloc, test.text.as_slice())?,
        audience: audience_word(test),
        points: test.points,
        outcome: told.word,
        n: told.n,
        cost: told.cost,
        bound: told.bound,
        got: shown(alloc, told.got.trim_ascii())?,
        wanted: shown(alloc, told.wanted.trim_ascii())?,
    })
}
