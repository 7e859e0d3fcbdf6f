//! Grades for a person: the points of each submission, and what isn't passed.

use crate::book::{Book, Submission};
use crate::out::{Escape, Out, shown};
use crate::told::put_failure;
use nesl_exercise::test::Test;
use std::alloc::{AllocError, Global};

/// The most characters of a name, and of blanks after it.
const WIDTH: usize = 40;

/// The number of dots after a name that is cut.
const DOTS: usize = 3;

/// Returns a row for each submission: its name, its points, and the first test that isn't passed. If there is only one
/// submission, all tests that aren't passed are below it.
pub fn table_of(alloc: Global, book: &Book<'_>) -> Result<Vec<u8>, AllocError> {
    let mut out = Out::new(alloc);
    let names = shown_names(alloc, book.submissions)?;
    let width = column(names.as_slice());
    let is_alone = book.submissions.len() == 1;
    for (place, submission) in book.submissions.iter().enumerate() {
        if let Some(name) = names.get(place) {
            put_name(&mut out, width, name.as_str());
        }
        put_points(&mut out, submission);
        if is_alone {
            out.put("\n");
            put_failures(&mut out, book.tests, submission);
        } else {
            put_first(&mut out, book.tests, submission);
        }
    }
    out.finish()
}

fn shown_names(alloc: Global, submissions: &[Submission]) -> Result<Vec<String>, AllocError> {
    let mut names = Vec::new(alloc);
    for submission in submissions {
        names.push(shown(alloc, submission.name.as_slice())?)?;
    }
    Ok(names)
}

// The number of characters before the points, at most.
fn column(names: &[String]) -> usize {
    let mut widest = 0;
    for name in names {
        widest = widest.max(name.as_str().chars().count());
    }
    widest.min(WIDTH)
}

// Appends a name and blanks.
fn put_name(out: &mut Out, width: usize, name: &str) {
    let length = name.chars().count();
    let most = if length > WIDTH { WIDTH - DOTS } else { WIDTH };
    out.put_shown_up_to(Escape::Plain, name.as_bytes(), most);
    for _ in length..width {
        out.put(" ");
    }
}

fn put_points(out: &mut Out, submission: &Submission) {
    out.put_named("  ", submission.points());
    out.put_named(" of ", submission.most());
}

fn put_first(out: &mut Out, tests: &[Test], submission: &Submission) {
    if let Some((test, outcome)) = submission.first_failed(tests) {
        out.put("  ");
        put_failure(out, Escape::Plain, test, outcome);
    }
    out.put("\n");
}

fn put_failures(out: &mut Out, tests: &[Test], submission: &Submission) {
    for (place, test) in tests.iter().enumerate() {
        if let Some(outcome) = submission.outcomes().get(place) {
            if !outcome.is_passed() {
                out.put("  ");
                put_failure(out, Escape::Plain, test, outcome);
                out.put("\n");
            }
        }
    }
}
