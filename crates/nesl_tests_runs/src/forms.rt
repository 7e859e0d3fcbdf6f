//! Lines and their forms.

use nesl_eval_top_level::{Env, Payload};
use nesl_lex::{LexFault, lex};
use nesl_syntax::{ParseFault, parse_form};
use nesl_syntax_tree::tree::{Exp, Form, Pattern};
use nesl_types::{Top, Ty};
use std::alloc::{AllocError, Global};

/// What a line is read as.
#[derive(Drop)]
pub enum Reading {
    NoTokens,
    NoForm,
    Form(Form),
}

/// What a line is read as.
pub fn reading_of(alloc: Global, line: &[u8]) -> Result<Reading, AllocError> {
    let tokens = match lex(alloc, line) {
        Ok(tokens) => tokens,
        Err(LexFault::Memory) => return Err(AllocError),
        Err(_) => return Ok(Reading::NoTokens),
    };
    match parse_form(alloc, tokens.as_slice()) {
        Ok(form) => Ok(Reading::Form(form)),
        Err(ParseFault::Memory) => Err(AllocError),
        Err(_) => Ok(Reading::NoForm),
    }
}

/// Sets a function. A type is not looked at by any evaluation.
pub fn define(
    alloc: Global,
    env: &mut Env,
    name: &[u8],
    pattern: Pattern,
    body: Exp,
) -> Result<(), AllocError> {
    let function = Payload::Function { pattern, body };
    env.set(alloc, name, Top::Variable(Ty::int(alloc)?), function)
}
