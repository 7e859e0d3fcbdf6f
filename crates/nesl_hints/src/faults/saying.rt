//! Which hint a fault has.

use crate::faults::asked::Asked;
use crate::faults::definitions::{retyped, taken};
use crate::faults::finding::is_value;
use crate::faults::limits::{no_lines_left, no_room, over_budget, too_long};
use crate::faults::refusals::refused;
use crate::names::{Unknown, unknown_name};
use nesl_hints_tokens::{Hint, lexical, syntax};
use nesl_hints_types::{ambiguous, ill_typed};
use nesl_lex::lex;
use nesl_lex::token::Token;
use nesl_session::Fault;
use nesl_syntax::{ParseFault, parse_form};
use nesl_syntax_tree::tree::Form;
use std::alloc::AllocError;

/// What is said of a form that is refused for this fault.
pub fn hint_on_fault(asked: &Asked<'_>, fault: Fault) -> Result<Hint, AllocError> {
    match fault {
        Fault::Long => too_long(asked),
        Fault::Transcript => no_lines_left(asked),
        Fault::Lexical(at) => lexical(asked.alloc, asked.text, at),
        _ => match lex(asked.alloc, asked.text) {
            Ok(tokens) => hint_on_tokens(asked, tokens.as_slice(), fault),
            Err(_) => Err(AllocError),
        },
    }
}

// What is said of a form with these tokens that is refused for this fault.
fn hint_on_tokens(asked: &Asked<'_>, tokens: &[Token], fault: Fault) -> Result<Hint, AllocError> {
    match parse_form(asked.alloc, tokens) {
        Ok(form) => hint_on_form(asked, tokens, &form, fault),
        Err(ParseFault::Syntax) => syntax(asked.alloc, asked.text, tokens),
        Err(ParseFault::Nested) => asked.whole(
            "the form is more than 100 high, a leaf being 1: bind some of its parts to names first",
        ),
        Err(ParseFault::Memory) => Err(AllocError),
    }
}

// What is said of a form with this tree that is refused for this fault.
fn hint_on_form(
    asked: &Asked<'_>,
    tokens: &[Token],
    form: &Form,
    fault: Fault,
) -> Result<Hint, AllocError> {
    let alloc = asked.alloc;
    let len = asked.text.len();
    let context = asked.environment().context();
    match fault {
        Fault::Unknown(span) => {
            let at = Unknown {
                tokens,
                from: span.start,
                is_value: is_value(form, span),
            };
            unknown_name(alloc, context, form, at, len)
        }
        Fault::IllTyped => match ill_typed(alloc, context, form, len)? {
            Some(hint) => Ok(hint),
            None => asked.whole("one of the types would have more than 4,096 nodes"),
        },
        Fault::Ambiguous => match ambiguous(alloc, context, form, len)? {
            Some(hint) => Ok(hint),
            None => asked.whole("nothing decides the type of this"),
        },
        Fault::Retype => retyped(asked, tokens, form),
        Fault::Taken => taken(asked, tokens, form),
        Fault::Work(budget) => over_budget(asked, form, budget),
        Fault::Elements(_) => no_room(asked, form),
        _ => refused(asked, form, fault),
    }
}
