//! The page of a class.

use crate::book::{Book, Submission};
use crate::out::{Escape, Out};
use crate::page::put_head;
use crate::told::{is_hidden, put_failure};
use nesl_exercise::test::Test;
use std::alloc::{AllocError, Global};

/// Returns the page of all submissions: their points, with links to their pages, which are `1.html`, `2.html` and so
/// on, and for each test the number of submissions that pass it.
pub fn class_page_of(alloc: Global, book: &Book<'_>) -> Result<Vec<u8>, AllocError> {
    let mut out = Out::new(alloc);
    put_head(&mut out, book.exercise);
    out.put("<table>\n<tr><th>submission</th><th>points</th><th>what failed first</th></tr>\n");
    for (place, submission) in book.submissions.iter().enumerate() {
        put_row(
            &mut out,
            book.tests,
            (place as u64).saturating_add(1),
            submission,
        );
    }
    out.put(
        "</table>\n<h2>Tests</h2>\n<table>\n<tr><th>line</th><th>test</th><th>passed by</th></tr>\n",
    );
    for (place, test) in book.tests.iter().enumerate() {
        put_test(&mut out, book.submissions, place, test);
    }
    out.put("</table>\n</body>\n</html>\n");
    out.finish()
}

fn put_row(out: &mut Out, tests: &[Test], number: u64, submission: &Submission) {
    out.put_named("<tr><td><a href=\"", number);
    out.put(".html\">");
    out.put_shown(Escape::Markup, submission.name.as_slice());
    out.put_named("</a></td><td class=\"points\">", submission.points());
    out.put_named(" of ", submission.most());
    out.put("</td><td>");
    if let Some((test, outcome)) = submission.first_failed(tests) {
        put_failure(out, Escape::Markup, test, outcome);
    }
    out.put("</td></tr>\n");
}

fn put_test(out: &mut Out, submissions: &[Submission], place: usize, test: &Test) {
    out.put_named("<tr><td class=\"points\">", test.line);
    out.put("</td><td><code>");
    out.put_shown(Escape::Markup, test.text.as_slice());
    out.put(if is_hidden(test) {
        "</code> (hidden)"
    } else {
        "</code>"
    });
    out.put_named("</td><td class=\"points\">", passed_by(submissions, place));
    out.put("</td></tr>\n");
}

// The number of submissions that pass the test at a place.
fn passed_by(submissions: &[Submission], place: usize) -> u64 {
    let mut count: u64 = 0;
    for submission in submissions {
        if let Some(outcome) = submission.outcomes().get(place) {
            if outcome.is_passed() {
                count = count.saturating_add(1);
            }
        }
    }
    count
}
