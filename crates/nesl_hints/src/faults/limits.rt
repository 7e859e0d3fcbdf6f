//! Limits that a form would exceed.

use crate::faults::asked::Asked;
use crate::faults::finding::expression_of;
use nesl_hints_tokens::{Hint, Sentence};
use nesl_lex::token::Span;
use nesl_session::LONGEST;
use nesl_syntax_tree::tree::Form;
use std::alloc::AllocError;

/// The form has too many bytes.
pub(crate) fn too_long(asked: &Asked<'_>) -> Result<Hint, AllocError> {
    let most = LONGEST;
    let len = asked.text.len();
    let said = "a form has at most # bytes with all of its parts, and this one has #";
    let sentence = Sentence::with_numbers(asked.alloc, said, &[most as u64, len as u64])?;
    Ok(sentence.at(Span {
        start: most,
        end: len,
    }))
}

/// The session records no line any more.
pub(crate) fn no_lines_left(asked: &Asked<'_>) -> Result<Hint, AllocError> {
    let limits = asked.session.limits();
    let left = asked.session.remaining();
    let numbers = [
        limits.transcript_lines,
        limits.transcript_bytes,
        left.lines,
        left.bytes,
    ];
    let said = "sessions record # lines of # bytes; # and # are left: `:reset` forgets all";
    Ok(Sentence::with_numbers(asked.alloc, said, &numbers)?.at(asked.place()))
}

// Where the expression of a form is, or the whole form where it has none.
fn place_of(asked: &Asked<'_>, form: &Form) -> Span {
    match expression_of(form) {
        Some(exp) => exp.span,
        None => asked.place(),
    }
}

/// The form takes more work than it may.
pub(crate) fn over_budget(asked: &Asked<'_>, form: &Form, budget: u64) -> Result<Hint, AllocError> {
    let said = if budget == 0 {
        "the session has used up its work and evaluates nothing any more, which `:reset` doesn't change"
    } else if budget < asked.session.limits().line_work {
        "the session had work for # steps left, and this would have taken more"
    } else {
        "a line may take # steps of work, and this takes more: try a smaller input, or a function that ends"
    };
    let sentence = Sentence::with_numbers(asked.alloc, said, &[budget])?;
    Ok(sentence.at(place_of(asked, form)))
}

/// What the form would bind has too many nodes.
pub(crate) fn no_room(asked: &Asked<'_>, form: &Form) -> Result<Hint, AllocError> {
    let most = asked.session.limits().elements;
    let left = asked.session.remaining().elements;
    let said =
        "all that is bound may have # nodes together, and there is room for #: bind less, or `:reset`";
    let sentence = Sentence::with_numbers(asked.alloc, said, &[most, left])?;
    Ok(sentence.at(place_of(asked, form)))
}
