//! Lines that are said to sessions one by one.
//!
//! Each is written with its reply and, where this is a fault, with the hint, which is asked for before the line is
//! said. An empty line begins a session anew. A line `@ W S E L B` begins one with these limits: the work of a line
//! and of the session, the elements, and the lines and bytes that are recorded. A line `.. N` is short for N blanks, at
//! most 100,000. After a line `!` no hints are asked for, until the next one.

use crate::limits::{LIMITS, blanks_of, limits_of};
use nesl_hints::{Hint, hint};
use nesl_session::session::Session;
use std::alloc::{AllocError, Global};

/// Writes the rows of all lines.
pub fn put_rows(alloc: Global, text: &[u8], out: &mut Vec<u8>) -> Result<(), AllocError> {
    let mut session = Session::new(alloc, LIMITS)?;
    let mut hinted = true;
    for line in text.split(|byte| *byte == b'\n') {
        if line.is_empty() {
            session = Session::new(alloc, LIMITS)?;
            continue;
        }
        if line == b"!".as_slice() {
            hinted = !hinted;
            continue;
        }
        match limits_of(line) {
            Some(limits) => session = Session::new(alloc, limits)?,
            None => {
                out.extend_from_slice(b"> ")?;
                out.extend_from_slice(line)?;
                out.extend_from_slice(b"\n")?;
                let whole = written_out(alloc, line)?;
                put_answer(alloc, &mut session, whole.as_slice(), hinted, out)?;
            }
        }
    }
    Ok(())
}

// The line, or the blanks that it is short for.
fn written_out(alloc: Global, line: &[u8]) -> Result<Vec<u8>, AllocError> {
    match blanks_of(line) {
        Some(count) => {
            let mut blanks = Vec::new(alloc);
            for _ in 0..count {
                blanks.push(b' ')?;
            }
            Ok(blanks)
        }
        None => Vec::from_slice(alloc, line),
    }
}

// Writes the reply to a line, and the hint on it, if it has one.
fn put_answer(
    alloc: Global,
    session: &mut Session,
    line: &[u8],
    hinted: bool,
    out: &mut Vec<u8>,
) -> Result<(), AllocError> {
    let found = if hinted {
        hint(alloc, session, line)?
    } else {
        None
    };
    let answer = session.line(alloc, line);
    out.extend_from_slice(answer.bytes())?;
    match found {
        Some(hint) => put_hint(alloc, &hint, out),
        None => Ok(()),
    }
}

// Writes a hint: its place, its second place in brackets, and its sentence.
fn put_hint(alloc: Global, hint: &Hint, out: &mut Vec<u8>) -> Result<(), AllocError> {
    let place = hint.place;
    let head = match hint.second {
        Some(second) => format!(in alloc;
            "hint {}..{} [{}..{}]: ",
            place.start, place.end, second.start, second.end
        )?,
        None => format!(in alloc; "hint {}..{}: ", place.start, place.end)?,
    };
    out.extend_from_slice(head.as_bytes())?;
    out.extend_from_slice(hint.sentence.as_slice())?;
    out.extend_from_slice(b"\n")
}
