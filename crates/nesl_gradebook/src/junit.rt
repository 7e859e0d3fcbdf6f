//! Grades as JUnit's XML, which services that test code show: a suite for each submission.

use crate::book::{Book, Submission};
use crate::out::{Escape, Out};
use crate::told::{Told, is_hidden};
use nesl_exercise::outcome::Outcome;
use nesl_exercise::test::Test;
use std::alloc::{AllocError, Global};

/// Returns the grades of submissions as XML. Of hidden tests it has the lines and the outcomes alone.
pub fn junit_of(alloc: Global, book: &Book<'_>) -> Result<Vec<u8>, AllocError> {
    let mut out = Out::new(alloc);
    out.put("<?xml version=\"1.0\" encoding=\"UTF-8\"?>\n<testsuites>\n");
    for submission in book.submissions {
        put_suite(&mut out, book.tests, submission);
    }
    out.put("</testsuites>\n");
    out.finish()
}

fn put_suite(out: &mut Out, tests: &[Test], submission: &Submission) {
    out.put("<testsuite name=\"");
    out.put_shown(Escape::Markup, submission.name.as_slice());
    out.put("\" tests=\"");
    out.put_number(tests.len() as u128);
    out.put_named("\" failures=\"", submission.failures());
    out.put("\">\n");
    for (place, test) in tests.iter().enumerate() {
        if let Some(outcome) = submission.outcomes().get(place) {
            put_case(out, submission.name.as_slice(), test, outcome);
        }
    }
    out.put("</testsuite>\n");
}

fn put_case(out: &mut Out, name: &[u8], test: &Test, outcome: &Outcome) {
    out.put("<testcase classname=\"");
    out.put_shown(Escape::Markup, name);
    out.put_named("\" name=\"line ", test.line);
    if is_hidden(test) {
        out.put(" (hidden)");
    } else {
        out.put(": ");
        out.put_shown(Escape::Markup, test.text.as_slice());
    }
    if outcome.is_passed() {
        out.put("\"/>\n");
        return;
    }
    out.put("\"><failure message=\"");
    if is_hidden(test) {
        out.put("not passed");
    } else {
        Told::of(outcome).put_reason(out, Escape::Markup);
    }
    out.put("\"/></testcase>\n");
}
