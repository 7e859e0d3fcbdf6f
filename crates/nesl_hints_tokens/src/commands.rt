//! Lines that begin with a `:`.

use crate::halt::{Halt, stop};
use crate::line::read_body;
use crate::machine::Aim;
use crate::problems::Problem;
use crate::tables::has_word;
use crate::tokens::{is_sign, name_in};
use nesl_lex::token::{Sign, Token};
use std::alloc::Global;

/// The names of commands that the prompt alone has.
const PROMPT_WORDS: &str = "help list load save quit";

/// Reads a line after its `:`.
pub(crate) fn read_command(alloc: Global, colon: &Token, rest: &[Token]) -> Result<(), Halt> {
    let [word, behind @ ..] = rest else {
        return stop(Problem::NoCommand, colon.span);
    };
    let name = name_in(word).unwrap_or(b"");
    if name == b"type".as_slice() {
        return read_body(alloc, Aim::Expression, behind, word.span);
    }
    if name == b"names".as_slice() || name == b"budget".as_slice() {
        return check_alone(behind);
    }
    stop(problem_of(name), word.span)
}

// What is wrong with a command of this name, which has nothing to do with what follows it.
fn problem_of(name: &[u8]) -> Problem {
    if name == b"reset".as_slice() {
        return Problem::ResetAlone;
    }
    if has_word(PROMPT_WORDS, name) {
        return Problem::PromptWord;
    }
    Problem::NoCommand
}

// Nothing may follow the command.
fn check_alone(behind: &[Token]) -> Result<(), Halt> {
    match behind.first() {
        None => Ok(()),
        Some(next) if is_sign(next, Sign::Semicolon) => stop(Problem::BehindCommand, next.span),
        Some(next) => stop(Problem::CommandAlone, next.span),
    }
}
