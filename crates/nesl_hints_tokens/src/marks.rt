//! The tokens that follow an expression.

use crate::foreign::is_foreign_pair;
use crate::halt::{Halt, stop, stop_with};
use crate::machine::{Aim, Machine, Mode};
use crate::openings::{Open, Opening};
use crate::patterns::{check_all_names, pattern_len};
use crate::problems::Problem;
use crate::tokens::{is_sign, is_word, name_in};
use nesl_lex::token::{Kind, Sign, Span, Token, Word};

/// Checks that two neighbouring signs are not one that another language has.
pub(crate) fn check_pair(first: &Token, second: &Token) -> Result<(), Halt> {
    match (&first.kind, &second.kind) {
        (Kind::Symbol(one), Kind::Symbol(other)) if first.span.end == second.span.start => {
            if is_foreign_pair(*one, *other) {
                return stop(Problem::ForeignPair, over(first.span, second.span));
            }
            Ok(())
        }
        _ => Ok(()),
    }
}

impl<'a> Machine<'a> {
    /// A token that follows an expression.
    pub(crate) fn follow(&mut self, place: usize, token: &Token) -> Result<(), Halt> {
        if let Aim::Type(problem) = self.aim {
            return stop(problem, token.span);
        }
        match &token.kind {
            Kind::Symbol(Sign::OpenParenthesis) => self.call(place, token),
            Kind::Symbol(Sign::OpenBracket) => self.open(Opening::Index, token.span, place),
            Kind::Symbol(Sign::CloseParenthesis | Sign::CloseBracket | Sign::CloseBrace) => {
                self.close(token)
            }
            Kind::Symbol(Sign::Comma | Sign::Semicolon | Sign::Colon | Sign::Bar | Sign::Equal)
            | Kind::Reserved(Word::Then | Word::Else | Word::In) => self.go_on(place, token),
            Kind::Symbol(Sign::DoubleColon) => self.double_colon(place, token),
            Kind::Reserved(Word::Function | Word::Datatype) => {
                stop(Problem::FormInside, token.span)
            }
            Kind::Reserved(Word::Int | Word::Bool | Word::Char) => {
                stop(Problem::TypeHere, token.span)
            }
            Kind::Symbol(Sign::OpenBrace | Sign::Hash) | Kind::Reserved(Word::Let | Word::If) => {
                self.no_operator(place, token)
            }
            Kind::Symbol(_) | Kind::Reserved(_) => {
                self.mode = Mode::Operand;
                Ok(())
            }
            _ => self.no_operator(place, token),
        }
    }

    // A `::` after an expression, which may be within a name of another language.
    fn double_colon(&self, place: usize, token: &Token) -> Result<(), Halt> {
        match (self.before(place), self.tokens.get(place.saturating_add(1))) {
            (Some(owner), Some(name))
                if owner.span.end == token.span.start
                    && token.span.end == name.span.start
                    && name_in(owner).is_some()
                    && name_in(name).is_some() => {
                stop(Problem::PathHere, over(owner.span, name.span))
            }
            _ => stop(Problem::SignatureAlone, token.span),
        }
    }

    // An expression directly follows another one.
    fn no_operator(&self, place: usize, token: &Token) -> Result<(), Halt> {
        if let Some(open) = self.opens.last() {
            if self.binds_behind(place.saturating_sub(1), *open) {
                return stop(Problem::NoSemicolonBetween, token.span);
            }
            if let Some(problem) = self.missing_in(place, *open, token) {
                return stop_with(problem, token.span, open.at);
            }
        }
        match (self.before(place), self.aim) {
            (Some(before), Aim::Parameter) if name_in(before).is_some() => {
                stop(Problem::NoPattern, token.span)
            }
            (Some(before), _) if name_in(before).is_some() => {
                stop_with(Problem::NoParentheses, token.span, before.span)
            }
            _ => stop(Problem::NoOperator, token.span),
        }
    }

    // What is missing in this opening before an expression that follows another one.
    fn missing_in(&self, place: usize, open: Open, token: &Token) -> Option<Problem> {
        match open.opening {
            Opening::Square | Opening::List => Some(Problem::NoComma),
            Opening::Test if is_sign(token, Sign::OpenBrace) => Some(Problem::NoThen),
            Opening::Test => match self.before(place) {
                Some(before) if name_in(before).is_none() => Some(Problem::NoThen),
                _ => None,
            },
            _ => None,
        }
    }

    // A `(` that follows an expression.
    fn call(&mut self, place: usize, token: &Token) -> Result<(), Halt> {
        match self.before(place) {
            Some(before) => match &before.kind {
                Kind::Name(_) => self.open(Opening::Call, token.span, place),
                Kind::Truth(_) => stop(Problem::TruthCalled, before.span),
                _ => stop(Problem::NotCalled, token.span),
            },
            None => stop(Problem::NotCalled, token.span),
        }
    }

    // A closing bracket.
    fn close(&mut self, token: &Token) -> Result<(), Halt> {
        self.settle();
        let Some(open) = self.opens.pop() else {
            return stop(Problem::NotOpen, token.span);
        };
        let Some(closing) = open.closing() else {
            return self.unclosed(open, token.span);
        };
        match open.opening {
            _ if !is_sign(token, closing) => {
                self.not_closed(open, token.span, Problem::OtherBracket)
            }
            Opening::Brace => stop_with(Problem::Elements, token.span, open.at),
            Opening::EachPattern => stop_with(Problem::NoEachIn, token.span, open.at),
            _ => {
                self.mode = Mode::Behind;
                Ok(())
            }
        }
    }

    /// A token with which the newest opening goes on, or which is wrong.
    pub(crate) fn go_on(&mut self, place: usize, token: &Token) -> Result<(), Halt> {
        self.settle();
        let Some(open) = self.opens.pop() else {
            return self.none_open(place, token);
        };
        let Some(next) = open.next(token, place) else {
            return self.not_in(open, place, token);
        };
        if matches!(open.opening, Opening::Brace) && matches!(next.opening, Opening::EachValue) {
            let pattern = self.tokens.get(open.from..place).unwrap_or(&[]);
            check_all_names(pattern, Problem::NoPattern)?;
        }
        self.opens.push(next)?;
        self.mode = match next.opening {
            Opening::LetPattern => Mode::Binding,
            _ => Mode::Expression,
        };
        Ok(())
    }

    // A token with which an opening would go on, where nothing is open.
    fn none_open(&self, place: usize, token: &Token) -> Result<(), Halt> {
        let next = self.tokens.get(place.saturating_add(1));
        let problem = match (&token.kind, self.aim) {
            (Kind::Symbol(Sign::Semicolon), _) => return behind_form(token, next),
            (Kind::Symbol(Sign::Colon), _) => match next {
                Some(next) if is_sign(next, Sign::Equal) => Problem::BoundByEqual,
                _ => Problem::ColonHere,
            },
            (Kind::Symbol(Sign::Equal), _) if self.binds_before(place) => {
                if let Some(next) = next {
                    check_pair(token, next)?;
                }
                Problem::BindsOne
            }
            (Kind::Symbol(Sign::Bar), _) => return self.not_here(Problem::BarAlone, place, token),
            (Kind::Symbol(Sign::Equal), _) => {
                return self.not_here(Problem::EqualAlone, place, token);
            }
            (Kind::Symbol(Sign::Comma), _) if self.binds_after(place) => Problem::BindsOne,
            (Kind::Reserved(Word::Then), _) => Problem::ThenAlone,
            (Kind::Reserved(Word::Else), _) => Problem::ElseAlone,
            (Kind::Reserved(_), Aim::Value(name)) => {
                return stop_with(Problem::NoLet, name, token.span);
            }
            (Kind::Reserved(_), _) => Problem::InAlone,
            _ => Problem::CommaHere,
        };
        stop(problem, token.span)
    }

    // Whether a name is bound before a place, or names in parentheses that begin the line are.
    fn binds_before(&self, place: usize) -> bool {
        match self.aim {
            Aim::Value(_) => true,
            _ => place > 0 && pattern_len(self.tokens) == place,
        }
    }

    // Whether a `=` comes after a place.
    fn binds_after(&self, place: usize) -> bool {
        let behind = self.tokens.get(place..).unwrap_or(&[]);
        behind.iter().any(|token| is_sign(token, Sign::Equal))
    }

    // A `|` or a `=` that may not be at its place. With the sign after it, it may be one of another language.
    fn not_here(&self, problem: Problem, place: usize, token: &Token) -> Result<(), Halt> {
        if let Some(next) = self.tokens.get(place.saturating_add(1)) {
            check_pair(token, next)?;
        }
        stop(problem, token.span)
    }

    // A token with which another opening would go on than the newest one, which is `open`.
    fn not_in(&self, open: Open, place: usize, token: &Token) -> Result<(), Halt> {
        let at = token.span;
        match (&token.kind, open.opening) {
            (Kind::Symbol(Sign::Bar | Sign::Equal), opening) => {
                self.not_here(misplaced(opening, token), place, token)
            }
            (Kind::Symbol(Sign::Comma), Opening::Index) => self.comma_in_index(open, at),
            (Kind::Symbol(Sign::Comma), Opening::Brace) => {
                stop_with(Problem::Elements, at, open.at)
            }
            (Kind::Symbol(Sign::Comma | Sign::Colon), Opening::Test | Opening::Branch) => {
                self.unclosed(open, at)
            }
            (Kind::Symbol(Sign::Comma), _) if self.binds_behind(place, open) => {
                stop(Problem::NoSemicolonBetween, at)
            }
            (Kind::Symbol(Sign::Comma), Opening::EachValue) => stop(Problem::BarHere, at),
            (Kind::Symbol(Sign::Comma), _) => stop(Problem::CommaHere, at),
            (Kind::Symbol(Sign::Colon), Opening::EachValue) => stop(Problem::BarHere, at),
            (Kind::Symbol(Sign::Colon), opening) => match self.opens.last() {
                Some(outer) if open.is_bracket() && outer.takes_colon() => {
                    self.not_closed(open, at, Problem::StillOpen)
                }
                _ if matches!(opening, Opening::Index) => self.colon_in_index(open, place, at),
                _ => stop(Problem::ColonHere, at),
            },
            (Kind::Reserved(Word::Else), Opening::Test) => stop_with(Problem::NoThen, at, open.at),
            _ if open.is_bracket() => self.not_closed(open, at, Problem::StillOpen),
            _ => self.unclosed(open, at),
        }
    }

    // A `:` in an index, which may have no end after it.
    fn colon_in_index(&self, open: Open, place: usize, colon: Span) -> Result<(), Halt> {
        match self.tokens.get(place.saturating_add(1)) {
            Some(next) if is_sign(next, Sign::CloseBracket) => {
                stop_with(Problem::OpenRange, colon, open.at)
            }
            _ => stop_with(Problem::ColonInIndex, colon, open.at),
        }
    }

    // A comma in an index. Where a name and a blank are before the `[`, a function's arguments were meant.
    fn comma_in_index(&self, open: Open, comma: Span) -> Result<(), Halt> {
        match self.before(open.from.saturating_sub(1)) {
            Some(before) if name_in(before).is_some() && before.span.end < open.at.start => {
                stop_with(Problem::NoParentheses, open.at, before.span)
            }
            _ => stop_with(Problem::CommaInIndex, open.at, comma),
        }
    }

    // Whether a binding begins after the token at a place, as after the `;` of a `let` or of an apply-to-each.
    fn binds_behind(&self, place: usize, open: Open) -> bool {
        match self.tokens.get(place.saturating_add(2)) {
            Some(next) => match open.opening {
                Opening::LetValue => is_sign(next, Sign::Equal),
                Opening::EachValue => is_word(next, Word::In),
                _ => false,
            },
            None => false,
        }
    }

    /// Something is open that is no bracket, and isn't what the token ends.
    pub(crate) fn unclosed(&self, open: Open, at: Span) -> Result<(), Halt> {
        match open.opening {
            Opening::Test => stop_with(Problem::NoThen, open.at, at),
            Opening::Branch => stop_with(Problem::NoElse, at, open.at),
            Opening::LetPattern => stop_with(Problem::NoLetEqual, at, open.at),
            Opening::LetValue => match self.before(open.from.saturating_sub(1)) {
                Some(bound) if name_in(bound).is_none() => {
                    stop_with(Problem::NoInOfParts, at, open.at)
                }
                _ => stop_with(Problem::NoIn, at, open.at),
            },
            _ => stop_with(Problem::StillOpen, at, open.at),
        }
    }
}

// What follows a form's `;`: another `;`, or what belongs in another line.
fn behind_form(semicolon: &Token, next: Option<&Token>) -> Result<(), Halt> {
    match next {
        Some(next) if !is_sign(next, Sign::Semicolon) => stop(Problem::TwoForms, next.span),
        _ => stop(Problem::TwoSemicolons, semicolon.span),
    }
}

// The problem of a `|` or a `=` with which another opening would go on than this one.
fn misplaced(opening: Opening, token: &Token) -> Problem {
    match (&token.kind, opening) {
        (Kind::Symbol(Sign::Bar), Opening::Round | Opening::Test) => Problem::BarAlone,
        (Kind::Symbol(Sign::Bar), _) => Problem::BarHere,
        (_, Opening::Call) => Problem::NamedArgument,
        _ => Problem::EqualForEqual,
    }
}

/// From the first byte of one to the last of the other.
pub(crate) fn over(from: Span, to: Span) -> Span {
    Span {
        start: from.start,
        end: to.end,
    }
}
