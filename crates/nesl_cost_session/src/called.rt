//! The texts of the functions that were called.

use crate::form::form_of;
use nesl_cost_shown::table::PlaceTable;
use nesl_eval_top_level::Payload;
use nesl_lex::token::Span;
use nesl_session::session::Session;
use nesl_syntax_tree::tree::Form;
use std::alloc::{AllocError, Global};

/// The most lines of a session among which a definition is sought: the last ones.
const MOST_LINES: usize = 1_000;

/// The most bytes of a definition.
const MOST_BYTES: usize = 8_192;

/// A function that was called, and the text of its definition.
#[derive(Drop)]
pub(crate) struct CalledFunction<'a> {
    pub(crate) name: &'a [u8],
    pub(crate) text: Vec<u8>,
}

/// Where the parameter and the body of a function are in its text.
#[derive(Clone, Copy)]
struct Parts {
    parameter: Span,
    body: Span,
}

/// The functions of a table whose definitions are found, in its order.
pub(crate) fn called_in<'a>(
    alloc: Global,
    session: &Session,
    table: &PlaceTable<'a>,
) -> Result<Vec<CalledFunction<'a>>, AllocError> {
    let mut found = Vec::new(alloc);
    let mut last: Option<&[u8]> = None;
    for row in table.rows() {
        if let Some(name) = row.home {
            if last != Some(name) {
                last = Some(name);
                add_called(alloc, session, name, &mut found)?;
            }
        }
    }
    Ok(found)
}

// Adds a function, if its definition is found.
fn add_called<'a>(
    alloc: Global,
    session: &Session,
    name: &'a [u8],
    found: &mut Vec<CalledFunction<'a>>,
) -> Result<(), AllocError> {
    let text = definition_of(alloc, session, name)?;
    if !text.is_empty() {
        found.push(CalledFunction { name, text })?;
    }
    Ok(())
}

// The last definition of a function whose parts are where the session has them, or an empty text if there is none.
fn definition_of(alloc: Global, session: &Session, name: &[u8]) -> Result<Vec<u8>, AllocError> {
    let mut found = Vec::new(alloc);
    let Some(parts) = parts_of(session, name) else {
        return Ok(found);
    };
    let lines = session.lines();
    for (place, line) in lines.iter().enumerate() {
        if place.saturating_add(MOST_LINES) >= lines.len() && begins(line.as_slice(), name) {
            let text = joined(alloc, lines.get(place..).unwrap_or(&[]))?;
            if text.len() <= MOST_BYTES && defines(alloc, text.as_slice(), name, parts) {
                found = text;
            }
        }
    }
    Ok(found)
}

// Where the session has the parts of a function, if the name is one's.
fn parts_of(session: &Session, name: &[u8]) -> Option<Parts> {
    match session.meanings().environment().get(name) {
        Some((_, Payload::Function { pattern, body })) => Some(Parts {
            parameter: pattern.span,
            body: body.span,
        }),
        _ => None,
    }
}

// Whether a text is a definition of the function, whose parts are there.
fn defines(alloc: Global, text: &[u8], name: &[u8], parts: Parts) -> bool {
    match form_of(alloc, text) {
        Ok(form) => is_definition(&form, name, parts),
        Err(_) => false,
    }
}

fn is_definition(form: &Form, name: &[u8], parts: Parts) -> bool {
    match form {
        Form::Fun {
            name: own,
            parameter,
            body,
            ..
        } => {
            own.as_slice() == name && parameter.span == parts.parameter && body.span == parts.body
        }
        _ => false,
    }
}

// The form that begins with the first line, its lines joined.
fn joined(alloc: Global, lines: &[Vec<u8>]) -> Result<Vec<u8>, AllocError> {
    let mut form = Vec::new(alloc);
    for line in lines {
        match line.as_slice() {
            [front @ .., b'\\'] => {
                form.extend_from_slice(front)?;
                form.push(b' ')?;
            }
            whole => {
                form.extend_from_slice(whole)?;
                break;
            }
        }
    }
    Ok(form)
}

// Whether a form begins with `function` and the name.
fn begins(form: &[u8], name: &[u8]) -> bool {
    let Some(behind) = behind_word(form, b"function") else {
        return false;
    };
    match behind_word(behind, name) {
        Some([next, ..]) => !next.is_ascii_alphanumeric() && *next != b'_',
        _ => false,
    }
}

// What follows a word in any case, blanks before it left out.
fn behind_word<'t>(text: &'t [u8], word: &[u8]) -> Option<&'t [u8]> {
    let rest = text.trim_ascii_start();
    let (front, behind) = rest.split_at_checked(word.len())?;
    if front.eq_ignore_ascii_case(word) {
        Some(behind)
    } else {
        None
    }
}
