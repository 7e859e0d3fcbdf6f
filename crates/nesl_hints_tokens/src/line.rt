//! Hints on lines without a form.
ghost use Rattle.std.specs.Prelude.{IfOk, length};
ghost use Rattle.nesl_hints_tokens.specs.Within.{IsWithin};

use crate::commands::read_command;
use crate::definitions::{read_datatype, read_function};
use crate::foreign::{elsewhere_said, foreign_said, front_said, prompt_word_said};
use crate::halt::{Halt, Wrong, stop, stop_with};
use crate::hint::Hint;
use crate::machine::{Aim, walk};
use crate::marks::check_pair;
use crate::patterns::pattern_len;
use crate::problems::Problem;
use crate::sentence::{Filling, Sentence};
use crate::source::quoted;
use crate::tokens::{is_parameter, is_sign, is_word};
use nesl_lex::token::{Kind, Sign, Span, Token, Word};
use std::alloc::{AllocError, Global};

/// Why the tokens of the text are no form: the first token after which none can go on.
pub fn syntax(alloc: Global, text: &[u8], tokens: &[Token]) -> Result<Hint, AllocError>
    ensures { IfOk result (IsWithin (length text.now)) }
{
    if let Some((place, said)) = front_said(text) {
        let hint = Sentence::of(alloc, said, &[])?.at(place);
        return Ok(hint.within(text.len()));
    }
    let wrong = match read_line(alloc, tokens) {
        Err(Halt::Wrong(wrong)) => wrong,
        Err(Halt::Memory) => return Err(AllocError),
        Ok(()) => Wrong {
            problem: Problem::NoForm,
            place: Span {
                start: 0,
                end: text.len(),
            },
            second: None,
        },
    };
    let place = quoted(text, wrong.place);
    let second = quoted(text, wrong.second.unwrap_or(wrong.place));
    let fillings = [
        Filling("place", place),
        Filling("second", second),
        Filling("name", second),
    ];
    let said = elsewhere_said(text, tokens, wrong).unwrap_or(wrong.problem.sentence());
    let sentence = Sentence::of(alloc, said, &fillings)?;
    let hint = Hint {
        second: wrong.second,
        ..sentence.at(wrong.place)
    };
    Ok(hint.within(text.len()))
}

// Reads a line.
fn read_line(alloc: Global, tokens: &[Token]) -> Result<(), Halt> {
    let [first, rest @ ..] = tokens else {
        return Ok(());
    };
    let is_bound = match rest.first() {
        Some(next) => is_sign(next, Sign::Equal),
        None => false,
    };
    match &first.kind {
        Kind::Symbol(Sign::Colon) => read_command(alloc, first, rest),
        Kind::Symbol(Sign::Equal) => stop(Problem::NoBoundName, first.span),
        Kind::Reserved(Word::Function) => read_function(alloc, first.span, rest),
        Kind::Reserved(Word::Datatype) => read_datatype(alloc, first.span, rest),
        Kind::Truth(_) if is_bound => stop(Problem::TruthAsName, first.span),
        Kind::Reserved(_) if is_bound => stop(Problem::WordAsName, first.span),
        Kind::Name(_) if is_bound => read_value(alloc, first.span, rest),
        Kind::Name(_) => match read_body(alloc, Aim::Expression, tokens, first.span) {
            Err(Halt::Wrong(found)) => named_wrongly(alloc, first.span, tokens, found),
            other => other,
        },
        _ => read_body(alloc, Aim::Expression, tokens, first.span),
    }
}

// Reads what a name is bound to, from the `=` on.
fn read_value(alloc: Global, name: Span, tokens: &[Token]) -> Result<(), Halt> {
    let [equal, behind @ ..] = tokens else {
        return Ok(());
    };
    if let Some(sign) = behind.first() {
        check_pair(equal, sign)?;
    }
    read_body(alloc, Aim::Value(name), behind, equal.span)
}

// What is wrong with a line that begins with a name: its first word is missing or another language's, or what was
// found.
fn named_wrongly(alloc: Global, name: Span, tokens: &[Token], found: Wrong) -> Result<(), Halt> {
    if foreign_said(tokens).is_some() {
        return stop(Problem::ForeignWord, name);
    }
    let is_bare = matches!(found.problem, Problem::NoSemicolon | Problem::NothingInside);
    if is_bare && prompt_word_said(tokens).is_some() {
        return stop(Problem::PromptLine, name);
    }
    if let Some(problem) = missing_before(tokens) {
        return stop_with(problem, name, found.place);
    }
    if let Some(problem) = bound_wrongly(tokens, found) {
        return stop(problem, found.place);
    }
    match tokens {
        [_, content @ .., last]
            if matches!(found.problem, Problem::TypeHere) && is_sign(last, Sign::Semicolon) => {
            match walk(alloc, Aim::Type(Problem::BehindType), content, last) {
                Ok(()) => stop(Problem::NoDatatype, name),
                Err(Halt::Memory) => Err(Halt::Memory),
                Err(Halt::Wrong(_)) => Err(Halt::Wrong(found)),
            }
        }
        _ => Err(Halt::Wrong(found)),
    }
}

// What is wrong with a line that begins with a name and a sign of another kind of binding, as `v[0] = 5` and `x : int`.
fn bound_wrongly(tokens: &[Token], found: Wrong) -> Option<Problem> {
    let next = tokens.get(1)?;
    match (&next.kind, found.problem) {
        (Kind::Symbol(Sign::OpenBracket), Problem::EqualAlone) => Some(Problem::ElementBound),
        (Kind::Symbol(Sign::OpenBracket), Problem::ForeignPair) if is_change(tokens, found.place) =>
            { Some(Problem::ElementChanged) }
        (Kind::Symbol(Sign::OpenParenthesis), Problem::EqualAlone) => Some(Problem::CallBound),
        (Kind::Symbol(Sign::Colon), Problem::ColonHere) => {
            if tokens.iter().any(|token| is_sign(token, Sign::Equal)) {
                Some(Problem::TypedValue)
            } else {
                None
            }
        }
        (Kind::Name(_) | Kind::Number(_), Problem::NoParentheses) => {
            let behind = tokens.iter().find(|token| !is_parameter(token))?;
            if is_sign(behind, Sign::Equal) {
                Some(Problem::NoFunction)
            } else {
                None
            }
        }
        _ => None,
    }
}

// Whether the two signs at a place change in another language what is before them, as `++;` and `+=` do.
fn is_change(tokens: &[Token], place: Span) -> bool {
    let Some(first) = tokens.iter().find(|token| token.span.start == place.start) else {
        return false;
    };
    match &first.kind {
        Kind::Symbol(Sign::DoublePlus) => true,
        Kind::Symbol(Sign::Plus | Sign::Minus | Sign::Star) => tokens.iter().any(|token| {
            token.span.end == place.end && is_sign(token, Sign::Equal)
                || token.span.end == place.start && is_sign(token, Sign::Minus)
        }),
        _ => false,
    }
}

// What is missing before a pattern after which no form goes on.
fn missing_before(tokens: &[Token]) -> Option<Problem> {
    let len = pattern_len(tokens);
    let next = tokens.get(len)?;
    match &next.kind {
        Kind::Reserved(Word::In) => Some(Problem::NoBraces),
        Kind::Symbol(Sign::Equal) if len > 1 => Some(Problem::NoFunction),
        Kind::Symbol(Sign::Colon) => match tokens.get(len.saturating_add(2)) {
            Some(token) if is_word(token, Word::In) => Some(Problem::NoBraces),
            _ if len > 1 => Some(Problem::NoFunction),
            _ => None,
        },
        _ => None,
    }
}

/// Reads an expression and the `;` after it. `before` is the token before it.
pub(crate) fn read_body(
    alloc: Global,
    aim: Aim,
    tokens: &[Token],
    before: Span,
) -> Result<(), Halt> {
    let Some((last, front)) = tokens.split_last() else {
        return stop(Problem::GoesOn, before);
    };
    if is_sign(last, Sign::Semicolon) {
        return walk(alloc, aim, front, last);
    }
    walk(alloc, aim, tokens, last)?;
    match &last.kind {
        Kind::Character(b';') => stop(Problem::SemicolonQuoted, last.span),
        _ => stop(Problem::NoSemicolon, last.span),
    }
}
