//! Forms that are refused, with hints, as pages show them.

use crate::book::{Refusal, Remark};
use crate::out::{Escape, Out};

/// The most bytes around the place of a hint that are shown.
const AROUND: usize = 60;

/// The most bytes of that place.
const MOST_MARKED: usize = 200;

/// Appends a form that is refused, with the place of the hint marked, the reply to it, and the hint.
pub(crate) fn put_refusal(out: &mut Out, refusal: &Refusal) {
    let form = refusal.form.as_slice();
    out.put("<pre class=\"refused\">");
    match &refusal.hint {
        Some(hint) => put_marked(out, form, hint),
        None => out.put_shown_up_to(Escape::Markup, form, MOST_MARKED),
    }
    out.put("\n");
    out.put_shown_up_to(Escape::Markup, refusal.reply.trim_ascii(), MOST_MARKED);
    out.put("</pre>\n");
    put_hint(out, refusal);
}

/// Appends the hint on a form, if there is one.
pub(crate) fn put_hint(out: &mut Out, refusal: &Refusal) {
    if let Some(hint) = &refusal.hint {
        out.put("<p class=\"hint\">");
        out.put_shown(Escape::Markup, hint.sentence.as_slice());
        out.put("</p>\n");
    }
}

// Appends the part of a form that is around the place of a hint. An empty place marks what comes after it.
fn put_marked(out: &mut Out, form: &[u8], hint: &Remark) {
    let start = hint.start.min(form.len());
    let end = end_of(form, start, hint.end);
    let from = start.saturating_sub(AROUND);
    let to = end.saturating_add(AROUND).min(form.len());
    if from > 0 {
        out.put("...");
    }
    put_part(out, form, from, start);
    out.put("<mark>");
    put_part(out, form, start, end);
    if start == end {
        out.put(" ");
    }
    out.put("</mark>");
    put_part(out, form, end, to);
    if to < form.len() {
        out.put("...");
    }
}

// Where the marked part ends.
fn end_of(form: &[u8], start: usize, end: usize) -> usize {
    let last = end.max(start.saturating_add(1));
    last.min(start.saturating_add(MOST_MARKED)).min(form.len())
}

fn put_part(out: &mut Out, form: &[u8], from: usize, to: usize) {
    out.put_shown(Escape::Markup, form.get(from..to).unwrap_or(&[]));
}
