//! Finds the line with which a form over several lines ends.

use nesl_lex::token::{Kind, Sign, Token, Word};
use nesl_lex::{LexFault, lex};
use std::alloc::{AllocError, Global};

/// A token that is open, by the kind of token that closes it.
#[derive(Clone, Copy, PartialEq, Eq, Debug)]
enum Mark {
    /// A parenthesis or a bracket. A closing token of any kind closes it, and no `;` may be inside it.
    Bracket,
    /// A brace. A closing token of any kind closes it.
    Brace,
    /// A `let`, which `in` closes.
    Let,
}

/// The open tokens after the lines of a form so far.
#[derive(Drop)]
pub struct Open {
    marks: Vec<Mark>,
    is_begun: bool,
}

impl Open {
    pub fn new(alloc: Global) -> Open {
        Open {
            marks: Vec::new(alloc),
            is_begun: false,
        }
    }

    /// Begins another form.
    pub fn clear(&mut self) {
        self.marks.clear();
        self.is_begun = false;
    }

    /// Reads a line that isn't blank, and returns whether the form ends with it. A command, a comment and a line with a
    /// lexical fault end it. So does a `;` at the end of the line, unless it is inside a brace or a `let`.
    pub fn ends_with(&mut self, alloc: Global, line: &[u8]) -> Result<bool, AllocError> {
        let tokens = match lex(alloc, line) {
            Ok(tokens) => tokens,
            Err(LexFault::Lexical { .. }) => return Ok(true),
            Err(_) => return Err(AllocError),
        };
        let is_first = !self.is_begun;
        self.is_begun = true;
        let (Some(first), Some(last)) = (tokens.first(), tokens.last()) else {
            return Ok(is_first);
        };
        if is_first && is_sign(first, Sign::Colon) {
            return Ok(true);
        }
        for token in &tokens {
            self.note(token)?;
        }
        Ok(is_sign(last, Sign::Semicolon) && !self.takes_semicolon())
    }

    // Whether a form may go on after a `;` here.
    fn takes_semicolon(&self) -> bool {
        match self.marks.last() {
            Some(Mark::Brace | Mark::Let) => true,
            Some(Mark::Bracket) | None => false,
        }
    }

    // Opens or closes what this token does.
    fn note(&mut self, token: &Token) -> Result<(), AllocError> {
        match &token.kind {
            Kind::Symbol(Sign::OpenParenthesis | Sign::OpenBracket) => {
                self.marks.push(Mark::Bracket)?;
                Ok(())
            }
            Kind::Symbol(Sign::OpenBrace) => {
                self.marks.push(Mark::Brace)?;
                Ok(())
            }
            Kind::Reserved(Word::Let) => {
                self.marks.push(Mark::Let)?;
                Ok(())
            }
            Kind::Reserved(Word::In) => {
                if self.marks.last() == Some(&Mark::Let) {
                    let _ = self.marks.pop();
                }
                Ok(())
            }
            Kind::Symbol(Sign::CloseParenthesis | Sign::CloseBracket | Sign::CloseBrace) => {
                self.close();
                Ok(())
            }
            _ => Ok(()),
        }
    }

    // Closes the newest bracket, and each `let` in it.
    fn close(&mut self) {
        let count = match self.marks.iter().rposition(|mark| *mark != Mark::Let) {
            Some(place) => place,
            None => 0,
        };
        self.marks.truncate(count);
    }
}

fn is_sign(token: &Token, sign: Sign) -> bool {
    match &token.kind {
        Kind::Symbol(found) => *found == sign,
        _ => false,
    }
}
