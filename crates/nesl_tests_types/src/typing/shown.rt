//! Lines, and what they are read as, printed.

use crate::rows::Subject;
use nesl_lex::lex;
use nesl_syntax::{ParseFault, parse_form};
use nesl_syntax_tree::tree::Form;
use std::alloc::{AllocError, Global};

/// What a form's text has too much of, and after a `~` what replaces it.
const SHORTER: &str =
    "Name { letters: ~\nTypeExp { span: Span { start: ~\nExp { span: Span { start: ~\nPattern { span: Span { start: ~\n\
    Span { start: ~\n, end: ~..\n }, node: ~ \n { ~ \n }~";

/// Writes a form into an empty text.
fn write_form(alloc: Global, form: &Form, text: &mut String) -> Result<(), AllocError> {
    write!(text, "{form:?}")?;
    for row in SHORTER.lines() {
        let (long, short) = row.split_once('~').unwrap_or((row, ""));
        *text = text.replace(alloc, long, short)?;
    }
    Ok(())
}

fn write_form_or_fault(
    alloc: Global,
    form: Result<Form, ParseFault>,
    text: &mut String,
) -> Result<(), AllocError> {
    match form {
        Ok(form) => {
            let written = write_form(alloc, &form, text);
            drop(form);
            written
        }
        Err(fault) => write!(text, "{fault:?}"),
    }
}

/// The forms of lines, or their faults.
pub struct Forms;

impl Subject for Forms {
    fn tell(&self, alloc: Global, line: &str, text: &mut String) -> Result<(), AllocError> {
        match lex(alloc, line.as_bytes()) {
            Ok(tokens) => write_form_or_fault(alloc, parse_form(alloc, tokens.as_slice()), text),
            Err(_) => Ok(()),
        }
    }
}
