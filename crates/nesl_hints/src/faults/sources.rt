//! The text of a function's definition.

use crate::faults::asked::Asked;
use crate::faults::effort::Effort;
use nesl_eval_top_level::Payload;
use nesl_lex::lex;
use nesl_lex::token::Span;
use nesl_syntax::parse_form;
use nesl_syntax_tree::tree::Form;
use std::alloc::{AllocError, Global};

/// The most lines of a session among which a definition is sought: the last ones.
const MOST_LINES: usize = 1_000;

/// The text of a function's definition, and where its parameter and its body are.
#[derive(Drop)]
pub(crate) struct Source {
    pub(crate) text: Vec<u8>,
    pub(crate) parameter: Span,
    pub(crate) body: Span,
}

/// The last definition of a function of the session, or `None` where the name is none, or the definition too long to be
/// read once more.
pub(crate) fn source_of(
    asked: &Asked<'_>,
    effort: &Effort,
    name: &[u8],
) -> Result<Option<Source>, AllocError> {
    let Some((_, payload)) = asked.environment().get(name) else {
        return Ok(None);
    };
    let (parameter, body) = match payload {
        Payload::Function { pattern, body } => (pattern.span, body.span),
        _ => return Ok(None),
    };
    let text = last_definition(asked, name)?;
    if !effort.reaches(text.len()) {
        return Ok(None);
    }
    let source = Source {
        text,
        parameter,
        body,
    };
    if source.defines(asked.alloc, name) {
        Ok(Some(source))
    } else {
        Ok(None)
    }
}

impl Source {
    // Whether the text is a definition of the function with this name, whose parts are where they should be.
    fn defines(&self, alloc: Global, name: &[u8]) -> bool {
        match form_of(alloc, self.text.as_slice()) {
            Some(form) => self.is_read_as(&form, name),
            None => false,
        }
    }

    // Whether the form that was read is a definition of the function with this name, as above.
    fn is_read_as(&self, form: &Form, name: &[u8]) -> bool {
        match form {
            Form::Fun {
                name: own,
                parameter,
                body,
                ..
            } => {
                own.as_slice() == name && parameter.span == self.parameter && body.span == self.body
            }
            _ => false,
        }
    }
}

// The last form among the lines of the session that begins as a definition of the function does.
fn last_definition(asked: &Asked<'_>, name: &[u8]) -> Result<Vec<u8>, AllocError> {
    let lines = asked.session.lines();
    let mut form = Vec::new(asked.alloc);
    if let Some(first) = last_defining(lines, name) {
        join_lines(lines.get(first..).unwrap_or(&[]), &mut form)?;
    }
    Ok(form)
}

// The number of lines before the last one, among those that are looked at, that begins as a definition of the function.
fn last_defining(lines: &[Vec<u8>], name: &[u8]) -> Option<usize> {
    let mut found = None;
    for (place, line) in lines.iter().enumerate() {
        if place.saturating_add(MOST_LINES) >= lines.len() && defines(line.as_slice(), name) {
            found = Some(place);
        }
    }
    found
}

// Joins the lines of the form that begins with the first one.
fn join_lines(lines: &[Vec<u8>], form: &mut Vec<u8>) -> Result<(), AllocError> {
    for line in lines {
        match line.as_slice() {
            [front @ .., b'\\'] => {
                form.extend_from_slice(front)?;
                form.push(b' ')?;
            }
            whole => return form.extend_from_slice(whole),
        }
    }
    Ok(())
}

// Whether a form begins with `function` and the name.
fn defines(form: &[u8], name: &[u8]) -> bool {
    let Some(behind) = behind_word(form, b"function") else {
        return false;
    };
    match behind_word(behind, name) {
        Some([next, ..]) => !next.is_ascii_alphanumeric() && *next != b'_',
        _ => false,
    }
}

// What follows a word of small letters, blanks before it left out.
fn behind_word<'t>(text: &'t [u8], word: &[u8]) -> Option<&'t [u8]> {
    let blanks = text
        .iter()
        .take_while(|byte| **byte == b' ' || **byte == b'\t')
        .count();
    let start = blanks.min(text.len());
    let rest = &text[start..];
    let (front, behind) = rest.split_at_checked(word.len())?;
    if front.eq_ignore_ascii_case(word) {
        Some(behind)
    } else {
        None
    }
}

/// The form that the text is, if it is one.
pub(crate) fn form_of(alloc: Global, text: &[u8]) -> Option<Form> {
    let tokens = match lex(alloc, text) {
        Ok(tokens) => tokens,
        Err(_) => return None,
    };
    match parse_form(alloc, tokens.as_slice()) {
        Ok(form) => Some(form),
        Err(_) => None,
    }
}
