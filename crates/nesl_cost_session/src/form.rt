//! The expression that an account is asked for.

use nesl_infer::InferFault;
use nesl_lex::{LexFault, lex};
use nesl_reply::Fault;
use nesl_session::session::Session;
use nesl_syntax::{ParseFault, parse_form};
use nesl_syntax_tree::tree::{Exp, Form};
use std::alloc::{AllocError, Global};

/// The form that a text is, or why a session would refuse it.
pub(crate) fn form_of(alloc: Global, text: &[u8]) -> Result<Form, Fault> {
    let tokens = match lex(alloc, text) {
        Ok(tokens) => tokens,
        Err(LexFault::Lexical { at }) => return Err(Fault::Lexical(at)),
        Err(LexFault::Memory) => return Err(Fault::Memory),
    };
    match parse_form(alloc, tokens.as_slice()) {
        Ok(form) => Ok(form),
        Err(ParseFault::Syntax) => Err(Fault::Syntax),
        Err(ParseFault::Nested) => Err(Fault::Nested),
        Err(ParseFault::Memory) => Err(Fault::Memory),
    }
}

/// A text with the `;` that ends a form.
pub(crate) fn ended(alloc: Global, text: &[u8]) -> Result<Vec<u8>, AllocError> {
    let mut form = Vec::from_slice(alloc, text)?;
    form.push(b';')?;
    Ok(form)
}

/// The expression that a form evaluates.
pub(crate) fn expression_in(form: &Form) -> Option<&Exp> {
    match form {
        Form::Eval(exp) => Some(exp),
        Form::Bind { value, .. } => Some(value),
        _ => None,
    }
}

/// Why an expression has no type, if it has none.
pub(crate) fn untyped(alloc: Global, session: &Session, exp: &Exp) -> Option<Fault> {
    match session.meanings().infer_exp(alloc, exp) {
        Ok(ty) => {
            drop(ty);
            None
        }
        Err(InferFault::Unknown { span }) => Some(Fault::Unknown(span)),
        Err(InferFault::IllTyped) => Some(Fault::IllTyped),
        Err(InferFault::Ambiguous) => Some(Fault::Ambiguous),
        Err(InferFault::Memory) => Some(Fault::Memory),
    }
}
