//! The page of a submission.

use crate::book::{Account, Book, Refusal, Submission, Submitted};
use crate::curve::put_curves;
use crate::out::{Escape, Out};
use crate::refusal::{put_hint, put_refusal};
use crate::told::{Told, is_hidden};
use nesl_exercise::outcome::Outcome;
use nesl_exercise::test::Test;
use std::alloc::{AllocError, Global};

/// What comes before the title of each page. No page has a script.
const HEAD: &str = "<!DOCTYPE html>
<html lang=\"en\">
<head>
<meta charset=\"utf-8\"/>
<meta http-equiv=\"Content-Security-Policy\" content=\"default-src 'none'; style-src 'unsafe-inline'\"/>
<meta name=\"viewport\" content=\"width=device-width\"/>
<style>
:root { color-scheme: light dark; --ink: #1b1b1b; --paper: #fff; --edge: #bbb; --code: #f4f4f0; --axis: #777;
--failed: #a3231f; --passed: #1d6b34; --cost: #1f5fa3; --mark: #f7d7a8; }
@media (prefers-color-scheme: dark) { :root { --ink: #e7e5e0; --paper: #17181a; --edge: #555; --code: #24262a;
--axis: #999; --failed: #ff9a90; --passed: #7ed398; --cost: #8dbff5; --mark: #6a4a14; } }
body { font: 16px/1.4 sans-serif; margin: 2em auto; max-width: 60em; padding: 0 1em; color: var(--ink);
background: var(--paper); overflow-wrap: anywhere; }
table { border-collapse: collapse; } td, th { border: 1px solid var(--edge); padding: .2em .6em; text-align: left; }
th, td.points { overflow-wrap: normal; } td.points { text-align: right; } h1, h2 { line-height: 1.2; }
code, pre { font: 14px/1.4 monospace; } pre { background: var(--code); padding: 1em; }
pre { overflow: auto; overflow-wrap: normal; } .failed { color: var(--failed); } .passed { color: var(--passed); }
svg { display: block; max-width: 100%; height: auto; } path.axes { fill: none; stroke: var(--axis); }
text { font: 12px sans-serif; fill: var(--ink); } text.cost { fill: var(--cost); } text.bound { fill: var(--failed); }
polyline { fill: none; stroke-width: 2; } polyline.cost { stroke: var(--cost); }
polyline.bound { stroke: var(--failed); stroke-dasharray: 6 4; }
p.hint { margin: .3em 0 1em; } mark { background: var(--mark); color: inherit; }
pre.refused { margin-bottom: 0; padding: .5em 1em; } summary { cursor: pointer; margin-top: .5em; }
</style>
<title>";

/// Appends what comes before the text of a page.
pub(crate) fn put_head(out: &mut Out, title: &[u8]) {
    out.put(HEAD);
    out.put_shown(Escape::Markup, title);
    out.put("</title>\n</head>\n<body>\n<h1>");
    out.put_shown(Escape::Markup, title);
    out.put("</h1>\n");
}

/// Returns the page of a submission: its tests with their outcomes, hints on its errors, its costs as curves, accounts
/// of those that are above their bounds, and its forms. Of hidden tests it has the outcomes alone.
pub fn page_of(
    alloc: Global,
    book: &Book<'_>,
    submission: &Submission,
) -> Result<Vec<u8>, AllocError> {
    let mut out = Out::new(alloc);
    put_head(&mut out, submission.name.as_slice());
    out.put("<p>Exercise: ");
    out.put_shown(Escape::Markup, book.exercise);
    out.put_named("</p>\n<p>", submission.points());
    out.put_named(" of ", submission.most());
    out.put(" points</p>\n<table>\n<tr><th>test</th><th>points</th><th>outcome</th></tr>\n");
    put_tests(&mut out, book.tests, submission);
    out.put("</table>\n");
    put_costs(&mut out, book.tests, submission);
    put_refused(&mut out, submission.refused_forms());
    out.put("<h2>The submission</h2>\n<pre>");
    put_forms(&mut out, &submission.forms);
    out.put("</pre>\n</body>\n</html>\n");
    out.finish()
}

// Appends the forms that are refused.
fn put_refused(out: &mut Out, refusals: &[Refusal]) {
    if refusals.is_empty() {
        return;
    }
    out.put("<h2>Errors in the submission</h2>\n");
    for refusal in refusals {
        put_refusal(out, refusal);
    }
}

// Appends a submission as it is written.
fn put_forms(out: &mut Out, forms: &Submitted) {
    match forms {
        Submitted::Text(text) => out.put_shown(Escape::Markup, text.as_slice()),
        Submitted::Kept(lines) => {
            for line in lines {
                out.put_shown(Escape::Markup, line.as_slice());
                out.put("\n");
            }
        }
    }
}

fn put_tests(out: &mut Out, tests: &[Test], submission: &Submission) {
    for (place, test) in tests.iter().enumerate() {
        if let Some(outcome) = submission.outcomes().get(place) {
            put_test(out, test, outcome, submission.refused_test(place));
        }
    }
}

fn put_test(out: &mut Out, test: &Test, outcome: &Outcome, refusal: Option<&Refusal>) {
    out.put("<tr><td>");
    if is_hidden(test) {
        out.put("a hidden test");
    } else {
        put_code(out, test.text.as_slice());
    }
    out.put_named("</td><td class=\"points\">", test.points);
    if outcome.is_passed() {
        out.put("</td><td class=\"passed\">passed");
    } else {
        out.put("</td><td class=\"failed\">not passed");
        if !is_hidden(test) {
            out.put(": ");
            Told::of(outcome).put_reason(out, Escape::Markup);
            if let Some(refusal) = refusal {
                put_hint(out, refusal);
            }
        }
    }
    out.put("</td></tr>\n");
}

fn put_code(out: &mut Out, text: &[u8]) {
    out.put("<code>");
    out.put_shown(Escape::Markup, text);
    out.put("</code>");
}

fn put_costs(out: &mut Out, tests: &[Test], submission: &Submission) {
    for (place, test) in tests.iter().enumerate() {
        let points = submission.curve(place);
        if !points.is_empty() && !is_hidden(test) {
            out.put("<h2>");
            put_code(out, test.text.as_slice());
            out.put("</h2>\n");
            put_curves(out, points);
            if let Some(account) = submission.account(place) {
                put_account(out, account);
            }
        }
    }
}

// Appends an account, which is folded at first.
fn put_account(out: &mut Out, account: &Account) {
    out.put_named("<details>\n<summary>Where the cost at n = ", account.n);
    out.put(" comes from</summary>\n<pre class=\"account\">");
    out.put_shown(Escape::Markup, account.text.as_slice());
    out.put("</pre>\n</details>\n");
}
