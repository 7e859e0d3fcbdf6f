//! Where in a called function an evaluation is refused: the call is replaced by the function's body, and the form is
//! evaluated once more.

use crate::faults::asked::Asked;
use crate::faults::effort::Effort;
use crate::faults::finding::{expression_of, node_at};
use crate::faults::sources::{Source, form_of, source_of};
use crate::names::bound_names;
use nesl_eval::Outcome;
use nesl_hints_tokens::{bytes_of, name_in};
use nesl_lex::lex;
use nesl_lex::token::{Span, Token};
use nesl_session::{Fault, Stop};
use nesl_syntax_tree::tree::{Form, Node};
use std::alloc::{AllocError, Global};

/// The most calls that are replaced, one in the body of the other.
const MOST_CALLS: u64 = 4;

/// The most pairs of names that are compared.
const MOST_COMPARED: usize = 100_000;

/// A form in which calls were replaced, and where its evaluation is refused.
#[derive(Drop)]
pub(crate) struct Unfolded {
    /// The function whose call was replaced last.
    pub(crate) function: Vec<u8>,
    pub(crate) text: Vec<u8>,
    pub(crate) form: Form,
    pub(crate) place: Span,
}

/// Where in a called function a form is refused at this place, or `None` where no defined function is called there.
pub(crate) fn unfold_calls(
    asked: &Asked<'_>,
    effort: &mut Effort,
    form: &Form,
    place: Span,
    fault: Fault,
) -> Result<Option<Unfolded>, AllocError> {
    let Some(mut last) = unfold_call(asked, effort, asked.text, form, place, fault)? else {
        return Ok(None);
    };
    for _ in 1..MOST_CALLS {
        let text = last.text.as_slice();
        match unfold_call(asked, effort, text, &last.form, last.place, fault)? {
            Some(next) => last = next,
            None => break,
        }
    }
    Ok(Some(last))
}

// The form with the call at a place replaced, and where it is refused for the same reason.
fn unfold_call(
    asked: &Asked<'_>,
    effort: &mut Effort,
    text: &[u8],
    form: &Form,
    place: Span,
    fault: Fault,
) -> Result<Option<Unfolded>, AllocError> {
    let Some(call) = call_at(form, place) else {
        return Ok(None);
    };
    let Some(source) = source_of(asked, effort, call.function)? else {
        return Ok(None);
    };
    let Some(text) = with_body(asked.alloc, text, form, call, &source)? else {
        return Ok(None);
    };
    refused_again(asked, effort, text, call.function, fault)
}

/// A call of a function, by its name.
#[derive(Clone, Copy)]
struct Call<'f> {
    function: &'f [u8],
    place: Span,
    argument: Span,
}

// The call at a place.
fn call_at(form: &Form, place: Span) -> Option<Call<'_>> {
    let node = node_at(expression_of(form)?, place)?;
    match &node.node {
        Node::Call { name, argument } => Some(Call {
            function: name.as_slice(),
            place,
            argument: argument.span,
        }),
        _ => None,
    }
}

// The text with a call replaced by the function's body, or `None` where a name would mean something else.
fn with_body(
    alloc: Global,
    text: &[u8],
    form: &Form,
    call: Call<'_>,
    source: &Source,
) -> Result<Option<Vec<u8>>, AllocError> {
    if hides(alloc, form, source)? {
        return Ok(None);
    }
    let definition = source.text.as_slice();
    let before = Span {
        start: 0,
        end: call.place.start,
    };
    let behind = Span {
        start: call.place.end,
        end: text.len(),
    };
    let pieces = [
        bytes_of(text, before),
        b"(let (",
        bytes_of(definition, source.parameter),
        b") = (",
        bytes_of(text, call.argument),
        b") in ",
        bytes_of(definition, source.body),
        b")",
        bytes_of(text, behind),
    ];
    Ok(Some(joined(alloc, &pieces)?))
}

// The pieces of a text, one after the other.
fn joined(alloc: Global, pieces: &[&[u8]]) -> Result<Vec<u8>, AllocError> {
    let mut out = Vec::new(alloc);
    for piece in pieces {
        out.extend_from_slice(piece)?;
    }
    Ok(out)
}

// Whether a local name of the form would hide one of the function's body.
fn hides(alloc: Global, form: &Form, source: &Source) -> Result<bool, AllocError> {
    let bound = bound_names(alloc, form)?;
    let own = tokens_in(alloc, source, source.parameter);
    let used = tokens_in(alloc, source, source.body);
    Ok(hides_one(bound.as_slice(), own.as_slice(), used.as_slice()))
}

// Whether one of the names that are used is bound, and none of a function's own.
fn hides_one(bound: &[&[u8]], own: &[Token], used: &[Token]) -> bool {
    let count = used
        .iter()
        .filter(|token| name_in(*token).is_some())
        .count();
    let known = bound.len().saturating_add(own.len());
    if known.saturating_mul(count) > MOST_COMPARED {
        return true;
    }
    for token in used {
        if let Some(name) = name_in(token) {
            let is_own = own.iter().any(|token| match name_in(token) {
                Some(known) => known == name,
                None => false,
            });
            if !is_own && bound.iter().any(|known| *known == name) {
                return true;
            }
        }
    }
    false
}

// The tokens of a part of a definition.
fn tokens_in(alloc: Global, source: &Source, place: Span) -> Vec<Token> {
    match lex(alloc, bytes_of(source.text.as_slice(), place)) {
        Ok(tokens) => tokens,
        Err(_) => Vec::new(alloc),
    }
}

// The form that the text is, if it is refused for the same reason. A call of the function was replaced in it.
fn refused_again(
    asked: &Asked<'_>,
    effort: &mut Effort,
    text: Vec<u8>,
    function: &[u8],
    fault: Fault,
) -> Result<Option<Unfolded>, AllocError> {
    if !effort.reaches(text.len()) {
        return Ok(None);
    }
    let Some(form) = form_of(asked.alloc, text.as_slice()) else {
        return Ok(None);
    };
    let Some(place) = place_again(asked, effort, &form, fault)? else {
        return Ok(None);
    };
    Ok(Some(Unfolded {
        function: Vec::from_slice(asked.alloc, function)?,
        text,
        form,
        place,
    }))
}

// Where the evaluation of a form is refused, if it is for the same reason.
fn place_again(
    asked: &Asked<'_>,
    effort: &mut Effort,
    form: &Form,
    fault: Fault,
) -> Result<Option<Span>, AllocError> {
    let Some(exp) = expression_of(form) else {
        return Ok(None);
    };
    match effort.evaluate(asked, exp) {
        Some(evaluated) => place_in(&evaluated.outcome, fault),
        None => Ok(None),
    }
}

// Where an evaluation was refused, if it was for the same reason.
fn place_in(outcome: &Outcome<Global>, fault: Fault) -> Result<Option<Span>, AllocError> {
    match outcome {
        Outcome::Fault { trap, span, work } => {
            let stop = Stop {
                span: *span,
                work: *work,
            };
            let found = Fault::of_trap(*trap, stop);
            if found.number() == fault.number() {
                Ok(Some(*span))
            } else {
                Ok(None)
            }
        }
        Outcome::Memory => Err(AllocError),
        _ => Ok(None),
    }
}
