//! Lines that define a function or a datatype.

use crate::halt::{Halt, stop, stop_with};
use crate::line::read_body;
use crate::machine::{Aim, walk};
use crate::marks::over;
use crate::patterns::{check_all_names, pattern_len};
use crate::problems::Problem;
use crate::tokens::{is_sign, is_word, name_in};
use nesl_lex::token::{Kind, Sign, Span, Token, Word};
use std::alloc::Global;

/// Tokens that are cut at one of them.
#[derive(Clone, Copy)]
struct Cut<'a> {
    before: &'a [Token],
    sign: &'a Token,
    behind: &'a [Token],
}

// Cuts tokens at the first one that is this sign.
fn cut_at(tokens: &[Token], sign: Sign) -> Option<Cut<'_>> {
    let place = tokens.iter().position(|token| is_sign(token, sign))?;
    let (before, rest) = tokens.split_at_checked(place)?;
    let (sign, behind) = rest.split_first()?;
    Some(Cut {
        before,
        sign,
        behind,
    })
}

// Reads the name of a definition.
fn read_name(token: &Token) -> Result<(), Halt> {
    match &token.kind {
        Kind::Name(_) => Ok(()),
        Kind::Truth(_) => stop(Problem::TruthAsName, token.span),
        Kind::Reserved(_) => stop(Problem::WordAsName, token.span),
        _ => stop(Problem::NoName, token.span),
    }
}

/// Reads a function's line after its first word.
pub(crate) fn read_function(alloc: Global, word: Span, rest: &[Token]) -> Result<(), Halt> {
    let [name, behind @ ..] = rest else {
        return stop(Problem::NoName, word);
    };
    check_result(name, behind)?;
    read_name(name)?;
    let len = pattern_len(behind);
    if len > 0 {
        check_behind_parameter(name.span, behind.get(len..).unwrap_or(&[]))?;
    }
    let Some(
        Cut {
            before: head,
            sign: equal,
            behind: body,
        },
    ) = cut_at(behind, Sign::Equal)
    else {
        return no_equal(alloc, name.span, len, behind);
    };
    match cut_at(head, Sign::Colon) {
        None => read_parameter(alloc, head, equal)?,
        Some(cut) => {
            if is_within_parentheses(cut.before) {
                return stop(Problem::TypedParameter, cut.sign.span);
            }
            read_parameter(alloc, cut.before, cut.sign)?;
            read_signature(alloc, cut.behind, equal, Problem::BehindType)?;
        }
    }
    read_body(alloc, Aim::Expression, body, equal.span)
}

// Checks that a function's line doesn't begin with the value, as in other languages.
fn check_result(first: &Token, behind: &[Token]) -> Result<(), Halt> {
    if is_sign(first, Sign::OpenBracket) {
        return stop(Problem::SeveralResults, first.span);
    }
    match behind {
        [equal, name, open, ..]
            if is_sign(equal, Sign::Equal)
                && name_in(first).is_some()
                && matches!(&name.kind, Kind::Name(_) | Kind::Truth(_))
                && is_sign(open, Sign::OpenParenthesis) => {
            stop(Problem::NamedResult, over(first.span, equal.span))
        }
        _ => Ok(()),
    }
}

// Whether a `(` is before the end of these tokens, and no `)`.
fn is_within_parentheses(tokens: &[Token]) -> bool {
    let mut is_open = false;
    for token in tokens {
        match &token.kind {
            Kind::Symbol(Sign::OpenParenthesis) => is_open = true,
            Kind::Symbol(Sign::CloseParenthesis) => return false,
            _ => {}
        }
    }
    is_open
}

// Whether a function's line may go on with the first of these tokens, after its parameter.
fn check_behind_parameter(name: Span, behind: &[Token]) -> Result<(), Halt> {
    let Some(next) = behind.first() else {
        return Ok(());
    };
    match &next.kind {
        Kind::Symbol(Sign::Equal | Sign::Colon) => Ok(()),
        Kind::Symbol(Sign::DoubleEqual) => stop(Problem::DoubleEqual, next.span),
        Kind::Symbol(Sign::RightArrow | Sign::DoubleColon) => stop(Problem::NoColon, next.span),
        Kind::Name(_) => match behind.iter().find(|token| name_in(*token).is_none()) {
            Some(token) if is_sign(token, Sign::Equal) => {
                stop_with(Problem::SecondParameter, next.span, name)
            }
            _ => stop(Problem::NoEqual, next.span),
        },
        _ => stop(Problem::NoEqual, next.span),
    }
}

// Reads a function's line that has no `=`. The first `len` tokens are its parameter.
fn no_equal(alloc: Global, name: Span, len: usize, behind: &[Token]) -> Result<(), Halt> {
    let Some((last, front)) = behind.split_last() else {
        return stop(Problem::NoParameter, name);
    };
    if front.is_empty() && is_sign(last, Sign::Semicolon) {
        return stop(Problem::NoParameter, last.span);
    }
    if len == 0 {
        read_parameter(alloc, behind, last)?;
    }
    if let Some(signature) = behind.get(len.saturating_add(1)..) {
        read_signature(alloc, signature, last, Problem::NoEqual)?;
    }
    stop(Problem::NoEqual, last.span)
}

fn read_parameter(alloc: Global, tokens: &[Token], end: &Token) -> Result<(), Halt> {
    if tokens.is_empty() {
        return stop(Problem::NoParameter, end.span);
    }
    check_all_names(tokens, Problem::WordAsName)?;
    walk(alloc, Aim::Parameter, tokens, end)
}

// Reads a signature. `behind` is the problem where more follows one of its types.
fn read_signature(
    alloc: Global,
    tokens: &[Token],
    end: &Token,
    behind: Problem,
) -> Result<(), Halt> {
    let Some(arrow) = cut_at(tokens, Sign::RightArrow) else {
        walk(alloc, Aim::Type(Problem::NoArrow), tokens, end)?;
        return stop(Problem::NoArrow, end.span);
    };
    walk(alloc, Aim::Type(behind), arrow.before, arrow.sign)?;
    match cut_at(arrow.behind, Sign::DoubleColon) {
        None => walk(alloc, Aim::Type(behind), arrow.behind, end),
        Some(cut) => {
            walk(alloc, Aim::Type(behind), cut.before, cut.sign)?;
            read_members(cut.behind, end, behind)
        }
    }
}

// Reads the classes of names, in parentheses. `behind` is the problem where more follows them.
fn read_members(tokens: &[Token], end: &Token, behind: Problem) -> Result<(), Halt> {
    let mut ended = false;
    for (place, token) in tokens.iter().enumerate() {
        if ended {
            return stop(behind, token.span);
        }
        ended = is_sign(token, Sign::CloseParenthesis);
        let fits = match place % 4 {
            0 if place == 0 => is_sign(token, Sign::OpenParenthesis),
            0 => is_sign(token, Sign::Semicolon) || ended,
            2 => is_word(token, Word::In),
            _ => name_in(token).is_some(),
        };
        if !fits {
            return stop(Problem::NoMember, token.span);
        }
    }
    if ended {
        Ok(())
    } else {
        stop(Problem::NoMember, end.span)
    }
}

/// Reads a datatype's line after its first word.
pub(crate) fn read_datatype(alloc: Global, word: Span, rest: &[Token]) -> Result<(), Halt> {
    let [name, behind @ ..] = rest else {
        return stop(Problem::NoName, word);
    };
    read_name(name)?;
    let Some((last, content)) = behind.split_last() else {
        return stop(Problem::NoType, name.span);
    };
    let aim = Aim::Type(Problem::BehindType);
    if is_sign(last, Sign::Semicolon) {
        return walk(alloc, aim, content, last);
    }
    walk(alloc, aim, behind, last)?;
    stop(Problem::NoSemicolon, last.span)
}
