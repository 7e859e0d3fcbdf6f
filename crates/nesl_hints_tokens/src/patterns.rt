//! The tokens of a pattern.

use crate::halt::{Halt, stop, stop_with};
use crate::machine::{Machine, Mode};
use crate::openings::{Open, Opening};
use crate::problems::Problem;
use crate::tables::has_word;
use crate::tokens::{is_parameter, is_sign, name_in};
use nesl_lex::token::{Kind, Sign, Token, Word};

/// Words that follow a `let` in other languages.
const LET_WORDS: &str = "mut mutable rec var val const";

/// Checks that the tokens are a pattern's. `of_word` is the problem of a word of the language.
pub(crate) fn check_all_names(tokens: &[Token], of_word: Problem) -> Result<(), Halt> {
    for token in tokens {
        match &token.kind {
            Kind::Name(_)
            | Kind::Symbol(Sign::OpenParenthesis | Sign::CloseParenthesis | Sign::Comma) => {}
            Kind::Truth(_) => return stop(Problem::TruthAsName, token.span),
            Kind::Reserved(Word::Int | Word::Bool | Word::Char) => {
                return stop(Problem::TypedName, token.span);
            }
            Kind::Reserved(_) => return stop(of_word, token.span),
            _ => return stop(Problem::NoPattern, token.span),
        }
    }
    Ok(())
}

/// The number of tokens at the front that are a name, names in parentheses, or a name and then names in parentheses; 0
/// where there are none.
pub(crate) fn pattern_len(tokens: &[Token]) -> usize {
    let named = match tokens.first() {
        Some(first) if name_in(first).is_some() => 1usize,
        _ => 0,
    };
    let mut depth = 0u64;
    for (place, token) in tokens.iter().enumerate().skip(named) {
        match &token.kind {
            Kind::Symbol(Sign::OpenParenthesis) => depth = depth.saturating_add(1),
            Kind::Symbol(Sign::CloseParenthesis) if depth == 1 => return place.saturating_add(1),
            Kind::Symbol(Sign::CloseParenthesis) if depth > 1 => depth -= 1,
            Kind::Symbol(Sign::Comma) | Kind::Name(_) if depth > 0 => {}
            _ if depth == 0 => return named,
            _ => return 0,
        }
    }
    if depth == 0 { named } else { 0 }
}

impl<'a> Machine<'a> {
    /// A pattern has names, commas and parentheses; any other token ends it, or is wrong in it.
    pub(crate) fn check_names(&self, token: &Token) -> Result<(), Halt> {
        match self.opens.last() {
            Some(open) if open.names => match self.mode {
                Mode::Behind => self.follow_pattern(*open, token),
                mode => begin_pattern(*open, token, mode),
            },
            _ => Ok(()),
        }
    }

    // A token that follows a part of a pattern.
    fn follow_pattern(&self, open: Open, token: &Token) -> Result<(), Halt> {
        match (open.opening, &token.kind) {
            (_, Kind::Symbol(Sign::OpenParenthesis)) => Ok(()),
            (Opening::LetPattern, Kind::Symbol(Sign::Equal)) => Ok(()),
            (Opening::EachPattern, Kind::Reserved(Word::In)) => Ok(()),
            (Opening::LetPattern | Opening::EachPattern, Kind::Symbol(Sign::Comma)) => {
                stop(Problem::NoPattern, token.span)
            }
            (Opening::LetPattern, Kind::Name(_) | Kind::Number(_)) => self.behind_name(open, token),
            (Opening::LetPattern, _) => stop_with(Problem::NoLetEqual, token.span, open.at),
            (Opening::EachPattern, _) => stop_with(Problem::NoEachIn, token.span, open.at),
            (_, Kind::Symbol(Sign::Comma | Sign::CloseParenthesis)) => Ok(()),
            (_, Kind::Symbol(Sign::Equal) | Kind::Reserved(Word::In)) => {
                self.not_closed(open, token.span, Problem::StillOpen)
            }
            _ => stop(Problem::NoPattern, token.span),
        }
    }

    // A name or a number that directly follows the pattern of a `let`.
    fn behind_name(&self, open: Open, token: &Token) -> Result<(), Halt> {
        let bound = self.tokens.get(open.from..).unwrap_or(&[]);
        if let Some(first) = bound.first() {
            if has_word(LET_WORDS, name_in(first).unwrap_or(b"(")) {
                return stop_with(Problem::LetWord, first.span, open.at);
            }
        }
        match bound.iter().find(|token| !is_parameter(token)) {
            Some(behind) if is_sign(behind, Sign::Equal) => {
                stop_with(Problem::LetFunction, token.span, open.at)
            }
            _ => stop_with(Problem::NoLetEqual, token.span, open.at),
        }
    }
}

// A token where a pattern begins.
fn begin_pattern(open: Open, token: &Token, mode: Mode) -> Result<(), Halt> {
    match &token.kind {
        Kind::Name(_) | Kind::Symbol(Sign::OpenParenthesis) => Ok(()),
        Kind::Reserved(Word::In) if matches!(mode, Mode::Binding) => Ok(()),
        Kind::Truth(_) => stop(Problem::TruthAsName, token.span),
        Kind::Reserved(Word::Int | Word::Bool | Word::Char) => stop(Problem::TypedName, token.span),
        Kind::Reserved(word) if *word != Word::In => stop(Problem::WordAsName, token.span),
        Kind::Number(_) | Kind::Text(_) | Kind::Character(_)
            if matches!(open.opening, Opening::EachPattern) => {
            stop_with(Problem::NamedPart, token.span, open.at)
        }
        _ if matches!(open.opening, Opening::EachPattern) => {
            stop_with(Problem::NoEachIn, token.span, open.at)
        }
        _ => stop(Problem::NoPattern, token.span),
    }
}
