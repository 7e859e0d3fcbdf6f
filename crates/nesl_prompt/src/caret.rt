//! A hint below the form that it is on.

use crate::typed::{Typed, TypedLine};
use crate::wrapped::{put_wrapped, shown};
use nesl_hints::Hint;
use nesl_lex::token::Span;
use std::alloc::{AllocError, Global};

/// The most bytes of a line that are shown, so that it has at most 80 columns.
const MOST_SHOWN: usize = 74;

/// The number of bytes shown before the place of the hint, where the line is too long to be shown whole.
const SHOWN_BEFORE: usize = 40;

/// The indent of each line.
const INDENT: &[u8] = b"  ";

/// The beginning of the first line of a hint.
const HINT: &[u8] = b"  hint: ";

/// The indent of each further line of a hint.
const BELOW_HINT: &[u8] = b"        ";

/// Writes the line of the form that the hint is on, as it was typed, carets below its place, and the hint's sentence.
/// If its second place is in another line, that line is written too. A long line is cut around the place.
pub fn put_hint(
    alloc: Global,
    out: &mut Vec<u8>,
    typed: &Typed,
    hint: &Hint,
) -> Result<(), AllocError> {
    let line = typed.line_at(hint.place.start);
    match hint.second {
        Some(second) => {
            let other = typed.line_at(second.start);
            if other.number < line.number {
                put_line(alloc, out, typed, other, hint)?;
            }
            put_line(alloc, out, typed, line, hint)?;
            if other.number > line.number {
                put_line(alloc, out, typed, other, hint)?;
            }
        }
        None => put_line(alloc, out, typed, line, hint)?,
    }
    put_sentence(out, hint.sentence.as_slice())
}

// Writes a line with the marks of a hint below it, and its number if the form has others.
fn put_line(
    alloc: Global,
    out: &mut Vec<u8>,
    typed: &Typed,
    line: TypedLine,
    hint: &Hint,
) -> Result<(), AllocError> {
    if !typed.is_one_line() {
        put_number(alloc, out, line, first_mark(line, hint))?;
    }
    let place = first_mark(line, hint);
    let len = line.end.saturating_sub(line.start);
    let start = line
        .start
        .saturating_add(first_shown(len, place.saturating_sub(line.start)));
    let end = line.end.min(start.saturating_add(MOST_SHOWN));
    out.extend_from_slice(INDENT)?;
    for byte in typed.form.as_slice().get(start..end).unwrap_or(&[]) {
        out.push(shown(*byte))?;
    }
    out.push(b'\n')?;
    put_marks(out, start, end, hint)
}

// Writes where a line is in the form, and where the place is in it, both counted from 1.
fn put_number(
    alloc: Global,
    out: &mut Vec<u8>,
    line: TypedLine,
    place: usize,
) -> Result<(), AllocError> {
    let column = place.saturating_sub(line.start).saturating_add(1);
    let text = format!(in alloc; "  line {}, column {column}:\n", line.number)?;
    out.extend_from_slice(text.as_bytes())
}

// Returns the place of the hint in a line, or else its second place there.
fn first_mark(line: TypedLine, hint: &Hint) -> usize {
    match hint.second {
        Some(second) if !is_in(line, hint.place) => second.start,
        _ => hint.place.start,
    }
}

// Whether a span begins in a line, or at its end.
fn is_in(line: TypedLine, span: Span) -> bool {
    line.start <= span.start && span.start <= line.end
}

// Returns the first byte that is shown of a line of `len` bytes, so that the byte at `place` is shown too.
fn first_shown(len: usize, place: usize) -> usize {
    if len <= MOST_SHOWN {
        return 0;
    }
    place
        .saturating_sub(SHOWN_BEFORE)
        .min(len.saturating_sub(MOST_SHOWN))
}

// Writes carets below the hint's place, and dashes below its second place, as far as they are shown.
fn put_marks(out: &mut Vec<u8>, start: usize, end: usize, hint: &Hint) -> Result<(), AllocError> {
    out.extend_from_slice(INDENT)?;
    let last = match hint.second {
        Some(second) => last_shown(hint.place, end).max(last_shown(second, end)),
        None => last_shown(hint.place, end),
    };
    for at in start..last {
        out.push(mark_at(hint, at))?;
    }
    out.push(b'\n')?;
    Ok(())
}

// Returns the end of what is marked for a span, where the bytes up to `end` are shown. One mark may come after them.
fn last_shown(span: Span, end: usize) -> usize {
    if span.start > end {
        return 0;
    }
    end_of(span).min(end.saturating_add(1))
}

fn mark_at(hint: &Hint, at: usize) -> u8 {
    if covers(hint.place, at) {
        return b'^';
    }
    match hint.second {
        Some(second) if covers(second, at) => b'-',
        _ => b' ',
    }
}

// Whether the byte at `at` is marked for this span. An empty span marks one byte.
fn covers(span: Span, at: usize) -> bool {
    span.start <= at && at < end_of(span)
}

fn end_of(span: Span) -> usize {
    span.end.max(span.start.saturating_add(1))
}

fn put_sentence(out: &mut Vec<u8>, sentence: &[u8]) -> Result<(), AllocError> {
    out.extend_from_slice(HINT)?;
    put_wrapped(out, sentence, HINT.len(), BELOW_HINT)
}
