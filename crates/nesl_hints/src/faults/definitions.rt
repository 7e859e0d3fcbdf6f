//! Definitions that the session doesn't allow.

use crate::faults::asked::Asked;
use nesl_builtins::named;
use nesl_eval_sound::refers_to;
use nesl_eval_top_level::Payload;
use nesl_hints_tokens::{Filling, Hint, Sentence, name_in};
use nesl_lex::token::{Span, Token};
use nesl_syntax_tree::tree::Form;
use nesl_types::{Scheme, Top, scheme_text, type_text};
use std::alloc::{AllocError, Global};

/// The most nodes of a type that a sentence has.
const MOST_NODES: u64 = 96;

/// The name that a form binds.
fn name_of(form: &Form) -> &[u8] {
    match form {
        Form::Fun { name, .. } | Form::Datatype { name, .. } | Form::Bind { name, .. } => {
            name.as_slice()
        }
        _ => b"it",
    }
}

// Where the first name of a form is.
fn place_of(tokens: &[Token]) -> Span {
    match tokens.iter().find(|token| name_in(*token).is_some()) {
        Some(token) => token.span,
        None => Span { start: 0, end: 0 },
    }
}

// The other function of the session whose body refers to the name.
fn referring<'a>(asked: &Asked<'a>, name: &[u8]) -> Option<&'a [u8]> {
    let environment = asked.environment();
    for place in 0..environment.len() {
        match environment.at(place) {
            Some((other, _, Payload::Function { pattern, body }))
                if other != name && refers_to(name, pattern, body) => {
                return Some(other);
            }
            _ => {}
        }
    }
    None
}

// What the name is now, in words, where its type isn't large.
fn known_as(asked: &Asked<'_>, name: &[u8]) -> Result<Option<Vec<u8>>, AllocError> {
    let context = asked.environment().context();
    match context.get(name) {
        Some((Top::Variable(ty), _)) if ty.nodes() <= MOST_NODES => {
            Ok(Some(type_text(asked.alloc, ty, context)?))
        }
        Some((Top::Function(scheme), _)) if nodes_of(scheme) <= MOST_NODES => {
            Ok(Some(scheme_text(asked.alloc, scheme, context)?))
        }
        _ => Ok(None),
    }
}

// The nodes of a function's types.
fn nodes_of(scheme: &Scheme) -> u64 {
    let argument = scheme.argument.nodes();
    argument.saturating_add(scheme.result.nodes())
}

/// The type of a name would change to which another function refers.
pub(crate) fn retyped(
    asked: &Asked<'_>,
    tokens: &[Token],
    form: &Form,
) -> Result<Hint, AllocError> {
    let name = name_of(form);
    let other = referring(asked, name).unwrap_or(b"");
    let known = known_as(asked, name)?;
    let sentence = said_of_reference(asked.alloc, other, name, &known)?;
    Ok(sentence.at(place_of(tokens)))
}

// A function refers to the name, whose type is known in words where it isn't large.
fn said_of_reference(
    alloc: Global,
    other: &[u8],
    name: &[u8],
    known: &Option<Vec<u8>>,
) -> Result<Sentence, AllocError> {
    let text = match known {
        Some(_) =>
            "`{other}` refers to `{name}`, so this keeps its type, which is {type}: take another name",
        None => "`{other}` refers to `{name}`, so this keeps its type: take another name",
    };
    let ty = match known {
        Some(ty) => ty.as_slice(),
        None => b"",
    };
    let fillings = [
        Filling("other", other),
        Filling("name", name),
        Filling("type", ty),
    ];
    Sentence::of(alloc, text, &fillings)
}

/// The name can't be what the form makes it.
pub(crate) fn taken(asked: &Asked<'_>, tokens: &[Token], form: &Form) -> Result<Hint, AllocError> {
    let name = name_of(form);
    let said = if named(name).is_some() {
        "`{name}` is a built-in function, which keeps its name: take another one"
    } else if name == b"it".as_slice() {
        "`{name}` is the value of the last expression, and nothing else: take another name"
    } else if let Some((Top::Datatype(_, _), _)) = asked.environment().context().get(name) {
        "`{name}` is a datatype, which keeps its name: take another one"
    } else {
        "`{name}` is bound already, and a datatype has a new name: take another one"
    };
    Ok(Sentence::of(asked.alloc, said, &[Filling("name", name)])?.at(place_of(tokens)))
}
