//! Grades as CSV: a header, and a row for each test of each submission.

use crate::book::{Book, Submission};
use crate::out::shown;
use crate::told::{Told, audience_word};
use csv::{Writer, WriterBuilder};
use nesl_exercise::outcome::Outcome;
use nesl_exercise::test::Test;
use std::alloc::{AllocError, Global};

/// The names of the columns.
const HEAD: &[u8] = b"submission,line,audience,points,outcome,n,cost,bound,got,wanted\n";

/// Returns the grades of submissions as CSV.
pub fn csv_of(alloc: Global, book: &Book<'_>) -> Result<Vec<u8>, AllocError> {
    let head = Vec::from_slice(alloc, HEAD)?;
    let mut writer = WriterBuilder::new().from_writer(head);
    for submission in book.submissions {
        put_rows(alloc, &mut writer, book.tests, submission)?;
    }
    match writer.into_inner() {
        Ok(text) => Ok(text),
        Err(_) => Err(AllocError),
    }
}

fn put_field(writer: &mut Writer<Vec<u8>>, field: &[u8]) -> Result<(), AllocError> {
    match writer.write_field(field) {
        Ok(()) => Ok(()),
        Err(_) => Err(AllocError),
    }
}

fn put_rows(
    alloc: Global,
    writer: &mut Writer<Vec<u8>>,
    tests: &[Test],
    submission: &Submission,
) -> Result<(), AllocError> {
    let name = shown(alloc, submission.name.as_slice())?;
    for (place, test) in tests.iter().enumerate() {
        if let Some(outcome) = submission.outcomes().get(place) {
            put_row(alloc, writer, name.as_str(), test, outcome)?;
        }
    }
    Ok(())
}

fn put_row(
    alloc: Global,
    writer: &mut Writer<Vec<u8>>,
    name: &str,
    test: &Test,
    outcome: &Outcome,
) -> Result<(), AllocError> {
    let told = Told::of(outcome);
    put_field(writer, name.as_bytes())?;
    put_number(alloc, writer, Some(test.line))?;
    put_field(writer, audience_word(test).as_bytes())?;
    put_number(alloc, writer, Some(test.points))?;
    put_field(writer, told.word.as_bytes())?;
    put_number(alloc, writer, told.n)?;
    put_number(alloc, writer, told.cost)?;
    put_bound(alloc, writer, told.bound)?;
    put_shown(alloc, writer, told.got)?;
    put_shown(alloc, writer, told.wanted)?;
    match writer.end_record() {
        Ok(()) => Ok(()),
        Err(_) => Err(AllocError),
    }
}

// A number that is missing has an empty cell.
fn put_number(
    alloc: Global,
    writer: &mut Writer<Vec<u8>>,
    number: Option<u64>,
) -> Result<(), AllocError> {
    match number {
        Some(number) => put_bound(alloc, writer, Some(u128::from(number))),
        None => put_field(writer, b""),
    }
}

fn put_bound(
    alloc: Global,
    writer: &mut Writer<Vec<u8>>,
    bound: Option<u128>,
) -> Result<(), AllocError> {
    match bound {
        Some(bound) => put_field(writer, bound.to_string(alloc)?.as_bytes()),
        None => put_field(writer, b""),
    }
}

// Writes a text that strangers wrote.
fn put_shown(alloc: Global, writer: &mut Writer<Vec<u8>>, text: &[u8]) -> Result<(), AllocError> {
    put_field(writer, shown(alloc, text.trim_ascii())?.as_bytes())
}
