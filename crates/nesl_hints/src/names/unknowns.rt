//! Names that mean nothing.
ghost use Rattle.std.specs.Prelude.{IfOk};
ghost use Rattle.nesl_hints_tokens.specs.Within.{IsWithin};

use crate::names::bound::{bound_names, is_called, near_binding, near_builtin, near_local};
use nesl_builtins::named;
use nesl_eval_top_level::Payload;
use nesl_hints_tokens::{
    Filling, Hint, Sentence, called_elsewhere, is_sign, known_elsewhere, name_in, type_elsewhere,
};
use nesl_lex::token::{Sign, Span, Token};
use nesl_syntax_tree::tree::Form;
use nesl_types::Context;
use std::alloc::{AllocError, Global};

/// What is said of a name before the parentheses of a pattern.
const NO_RECORD: &str =
    "no datatype is called `{name}`: a name before the parentheses of a pattern is a datatype, as in \
    `datatype point (int, int);`";

/// A name that means nothing.
#[derive(Clone, Copy)]
struct Sought<'a> {
    name: &'a [u8],
    place: Span,
    /// Whether it is called: a `(` follows it.
    called: bool,
}

/// Where a form has a name that means nothing.
#[derive(Clone, Copy)]
pub struct Unknown<'a> {
    /// The tokens of the form.
    pub tokens: &'a [Token],
    /// The name is the first one from here on.
    pub from: usize,
    /// Whether an expression begins here, and not a pattern or a type.
    pub is_value: bool,
}

/// A name that means nothing, in a form of `len` bytes, after which places are cut off.
pub fn unknown_name<'a>(
    alloc: Global,
    context: &'a Context<Payload>,
    form: &'a Form,
    at: Unknown<'_>,
    len: usize,
) -> Result<Hint, AllocError>
    ensures { IfOk result (IsWithin len) }
{
    let sought = match name_from(at.tokens, at.from) {
        Some(sought) => sought,
        None => Sought {
            name: b"",
            place: Span {
                start: at.from,
                end: at.from,
            },
            called: false,
        },
    };
    let bound = bound_names(alloc, form)?;
    let remark = match form {
        Form::Datatype { name, .. } => said_of_type(name.as_slice(), sought),
        _ if at.is_value => said_of_value(context, form, bound.as_slice(), sought),
        _ if sought.called => plain(NO_RECORD),
        _ => said_of_type(b"", sought),
    };
    let sentence = filled(alloc, remark.text, sought.name, remark.known)?;
    Ok(sentence.at(sought.place).within(len))
}

// A text with the name and the one near to it.
fn filled<'a>(
    alloc: Global,
    text: &str,
    name: &'a [u8],
    known: &'a [u8],
) -> Result<Sentence, AllocError> {
    let fillings = [Filling("name", name), Filling("known", known)];
    Sentence::of(alloc, text, &fillings)
}

// The first name in the tokens from a place on.
fn name_from(tokens: &[Token], from: usize) -> Option<Sought<'_>> {
    for (place, token) in tokens.iter().enumerate() {
        if token.span.start < from {
            continue;
        }
        if let Some(name) = name_in(token) {
            return Some(Sought {
                name,
                place: token.span,
                called: match tokens.get(place.saturating_add(1)) {
                    Some(next) => is_sign(next, Sign::OpenParenthesis),
                    None => false,
                },
            });
        }
    }
    None
}

/// What is said of a name, and the name that is near to it, which is empty where the text speaks of none.
#[derive(Clone, Copy)]
struct Remark<'a> {
    text: &'static str,
    known: &'a [u8],
}

// What is said of a name, without another one.
fn plain(text: &'static str) -> Remark<'static> {
    Remark { text, known: b"" }
}

// What is said of a name to which this one is near.
fn near_to(known: &[u8]) -> Remark<'_> {
    Remark {
        text: "nothing is called `{name}`; there is `{known}`",
        known,
    }
}

// What is said of a name in what a datatype is to hold.
fn said_of_type(own: &[u8], sought: Sought<'_>) -> Remark<'static> {
    if sought.name == own {
        return plain("a datatype can't hold itself: all types in `{name}` are defined before it");
    }
    plain(type_elsewhere(sought.name).unwrap_or(
        "no type is called `{name}`: there are `int`, `bool`, `char`, `[int]`, `(int, int)` and datatypes",
    ))
}

// What is said of a name in an expression of a form that binds these names.
fn said_of_value<'a>(
    context: &'a Context<Payload>,
    form: &Form,
    bound: &[&'a [u8]],
    sought: Sought<'_>,
) -> Remark<'a> {
    let is_bound = bound.iter().any(|name| *name == sought.name);
    if sought.called {
        return said_of_function(context, is_bound, sought.name);
    }
    if is_function(context, form, sought.name) {
        return plain("`{name}` is a function: its argument follows it in parentheses");
    }
    if is_bound {
        return plain(
            "`{name}` is bound, but not known here: a `let` knows it after its binding, and braces in their body and \
            filter",
        );
    }
    said_of_variable(context, form, bound, sought.name)
}

// Whether the name is a function's or a datatype's.
fn is_function(context: &Context<Payload>, form: &Form, name: &[u8]) -> bool {
    if named(name).is_some() {
        return true;
    }
    match form {
        Form::Fun { name: own, .. } if own.as_slice() == name => true,
        _ => match context.get(name) {
            Some((top, _)) => is_called(top),
            None => false,
        },
    }
}

// What is said of a name before `(`.
fn said_of_function<'a>(context: &'a Context<Payload>, is_bound: bool, name: &[u8]) -> Remark<'a> {
    if is_bound || context.get(name).is_some() {
        return plain(
            "`{name}` is a variable and no function: an element is `v[i]`, the last one `v[#v - 1]`, and a product has \
            its `*`",
        );
    }
    if let Some(said) = called_elsewhere(name) {
        return plain(said);
    }
    if let Some(known) = near_builtin(name) {
        return near_to(known);
    }
    if let Some(known) = near_binding(context, name, true) {
        return near_to(known);
    }
    plain(
        "nothing is called `{name}`: a function is defined by `function g(x) = x + 1;`, and an element is `v[i]`",
    )
}

// What is said of a name that is no function and is bound nowhere.
fn said_of_variable<'a>(
    context: &'a Context<Payload>,
    form: &Form,
    bound: &[&'a [u8]],
    name: &[u8],
) -> Remark<'a> {
    let in_body = matches!(form, Form::Fun { .. });
    if name == b"it".as_slice() {
        return plain(if in_body {
            "the body of a function doesn't know `it`: give it as an argument"
        } else {
            "`it` is the value of the last expression, and there was none yet"
        });
    }
    if let Some(known) = near_local(bound, name) {
        return near_to(known);
    }
    if let Some(known) = near_binding(context, name, false) {
        return near_to(known);
    }
    if let Some(said) = type_elsewhere(name) {
        return plain(said);
    }
    if let Some(said) = known_elsewhere(name) {
        return plain(said);
    }
    plain(if in_body {
        "nothing is called `{name}`: a body knows its parameter, and the variables of the session"
    } else {
        "nothing is called `{name}`: bind it first, as in `x = 3;`"
    })
}
