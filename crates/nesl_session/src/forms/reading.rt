//! How a line reads by the grammar: its form, or why it has none.
ghost use Rattle.std.specs.Prelude.{IfOk};
ghost use Rattle.nesl_session_meaning.specs.Reading.{HasReading};
ghost use Rattle.nesl_session.specs.Found.{reading_of};

use nesl_lex::{LexFault, lex};
use nesl_syntax::{ParseFault, parse_form};
use nesl_syntax_tree::tree::Form;
use std::alloc::{AllocError, Global};

/// How a line reads by the grammar: its form, or why it has none.
#[derive(Drop)]
pub enum Reading {
    /// The first byte at which no token, blank or whole comment stands.
    Stuck(usize),
    /// Its tokens have no tree.
    NoForm,
    /// The tree of its tokens is too high.
    TooHigh,
    /// The tree of its tokens.
    Form(Form),
}

/// Reads a line by the grammar.
#[inline(always)]
pub fn reading_of(alloc: Global, line: &[u8]) -> Result<Reading, AllocError>
    ensures { IfOk result (λ reading. HasReading line.now (reading_of reading)) }
{
    let tokens = match lex(alloc, line) {
        Ok(tokens) => tokens,
        Err(LexFault::Lexical { at }) => return Ok(Reading::Stuck(at)),
        Err(LexFault::Memory) => return Err(AllocError),
    };
    match parse_form(alloc, tokens.as_slice()) {
        Ok(form) => Ok(Reading::Form(form)),
        Err(ParseFault::Syntax) => Ok(Reading::NoForm),
        Err(ParseFault::Nested) => Ok(Reading::TooHigh),
        Err(ParseFault::Memory) => Err(AllocError),
    }
}
