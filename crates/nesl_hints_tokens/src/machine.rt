//! A walk over the tokens of an expression or a type, up to the first at which no form can go on.

use crate::halt::{Halt, stop, stop_with};
use crate::marks::{check_pair, over};
use crate::openings::{Open, Opening};
use crate::problems::Problem;
use crate::tokens::is_sign;
use nesl_lex::token::{Kind, Sign, Span, Token, Word};
use std::alloc::Global;

/// What the tokens are to be.
#[derive(Clone, Copy)]
pub(crate) enum Aim {
    Expression,
    /// What the name at this place is bound to.
    Value(Span),
    /// A function's parameter.
    Parameter,
    /// A type, and the problem where more follows it.
    Type(Problem),
}

/// What may come next.
#[derive(Clone, Copy)]
pub(crate) enum Mode {
    /// An expression.
    Expression,
    /// An expression that is no `let` and no `if`.
    Operand,
    /// After the `;` of a `let`: a pattern or `in`.
    Binding,
    /// What may follow an expression.
    Behind,
    /// A type.
    Type,
    /// What may follow a part of a type.
    BehindType,
}

/// A walk over tokens.
#[derive(Drop)]
pub(crate) struct Machine<'a> {
    pub(crate) tokens: &'a [Token],
    pub(crate) aim: Aim,
    pub(crate) mode: Mode,
    pub(crate) opens: Vec<Open>,
    /// The brackets of a type that are open.
    types: Vec<Open>,
    /// The last `[]`.
    empty: Span,
}

/// Walks over tokens that are to be this, up to the token after them.
pub(crate) fn walk(alloc: Global, aim: Aim, tokens: &[Token], end: &Token) -> Result<(), Halt> {
    let mode = match aim {
        Aim::Type(_) => Mode::Type,
        _ => Mode::Expression,
    };
    let mut machine = Machine {
        tokens,
        aim,
        mode,
        opens: Vec::new(alloc),
        types: Vec::new(alloc),
        empty: Span { start: 0, end: 0 },
    };
    machine.run(end)
}

impl<'a> Machine<'a> {
    // Walks over all tokens, up to the one after them.
    fn run(&mut self, end: &Token) -> Result<(), Halt> {
        let tokens = self.tokens;
        for (place, token) in tokens.iter().enumerate() {
            self.step(place, token)?;
        }
        self.finish(end)
    }

    fn step(&mut self, place: usize, token: &Token) -> Result<(), Halt> {
        self.check_names(token)?;
        match self.mode {
            Mode::Expression | Mode::Operand | Mode::Binding => self.begin(place, token),
            Mode::Behind => self.follow(place, token),
            Mode::Type => self.begin_type(place, token),
            Mode::BehindType => self.follow_type(token),
        }
    }

    /// The token before a place.
    pub(crate) fn before(&self, place: usize) -> Option<&'a Token> {
        let tokens = self.tokens;
        tokens.get(place.checked_sub(1)?)
    }

    /// A token opens something, and an expression or a pattern follows.
    pub(crate) fn open(&mut self, opening: Opening, at: Span, place: usize) -> Result<(), Halt> {
        let from = place.saturating_add(1);
        let open = match self.opens.last() {
            Some(outer) => outer.inner(opening, at, from),
            None => Open::new(opening, at, from),
        };
        self.opens.push(open)?;
        self.mode = Mode::Expression;
        Ok(())
    }

    // A token where an expression begins.
    fn begin(&mut self, place: usize, token: &Token) -> Result<(), Halt> {
        let at = token.span;
        match &token.kind {
            Kind::Symbol(Sign::OpenParenthesis) => self.open(Opening::Round, at, place),
            Kind::Symbol(Sign::OpenBracket) => self.open(Opening::Square, at, place),
            Kind::Symbol(Sign::OpenBrace) => self.open(Opening::Brace, at, place),
            Kind::Symbol(Sign::Minus | Sign::Hash) => {
                self.mode = Mode::Operand;
                Ok(())
            }
            Kind::Symbol(Sign::CloseBracket) if self.is_empty_sequence(place) => {
                if let Some(open) = self.opens.pop() {
                    self.empty = over(open.at, at);
                }
                self.mode = Mode::Type;
                Ok(())
            }
            Kind::Reserved(Word::Let | Word::If) if matches!(self.mode, Mode::Operand) => {
                stop(Problem::InOperand, at)
            }
            Kind::Reserved(Word::Let) => self.open(Opening::LetPattern, at, place),
            Kind::Reserved(Word::If) => self.open(Opening::Test, at, place),
            Kind::Reserved(Word::In) if matches!(self.mode, Mode::Binding) => self.go_on(
                place, token,
            ),
            Kind::Reserved(Word::Function | Word::Datatype) => stop(Problem::FormInside, at),
            Kind::Reserved(Word::Int | Word::Bool | Word::Char) => stop(self.of_type(place), at),
            Kind::Symbol(_) | Kind::Reserved(_) => self.no_expression(place, token),
            _ => {
                self.mode = Mode::Behind;
                Ok(())
            }
        }
    }

    // Whether the token at a place directly follows the `[` of a sequence.
    fn is_empty_sequence(&self, place: usize) -> bool {
        match self.opens.last() {
            Some(open) => matches!(open.opening, Opening::Square) && open.from == place,
            None => false,
        }
    }

    // The problem of a type where an expression should begin: it is called, or it isn't.
    fn of_type(&self, place: usize) -> Problem {
        match self.tokens.get(place.saturating_add(1)) {
            Some(next) if is_sign(next, Sign::OpenParenthesis) => Problem::Converted,
            _ => Problem::TypeHere,
        }
    }

    // No expression begins with this token.
    fn no_expression(&self, place: usize, token: &Token) -> Result<(), Halt> {
        if let Some(before) = self.before(place) {
            check_pair(before, token)?;
        }
        match self.opens.last() {
            Some(open) if open.from == place => self.no_content(*open, token),
            _ => stop(Problem::NoExpression, token.span),
        }
    }

    // No expression begins with the first token in something that was opened. With a blank before the `(` of a call, an
    // operator may be what another language gives a function.
    fn no_content(&self, open: Open, token: &Token) -> Result<(), Halt> {
        match (self.before(open.from.saturating_sub(1)), &token.kind) {
            (_, Kind::Symbol(Sign::CloseParenthesis | Sign::Comma | Sign::Semicolon)) => {
                nothing_inside(open, token)
            }
            (Some(name), _)
                if matches!(open.opening, Opening::Call) && name.span.end < open.at.start => {
                stop_with(Problem::OperatorAlone, token.span, name.span)
            }
            _ => nothing_inside(open, token),
        }
    }

    // A token where a type begins.
    fn begin_type(&mut self, place: usize, token: &Token) -> Result<(), Halt> {
        let is_begun = matches!(self.aim, Aim::Type(_)) || !self.types.is_empty();
        let opening = match &token.kind {
            Kind::Reserved(Word::Int | Word::Bool | Word::Char) | Kind::Name(_) => {
                self.end_type();
                return Ok(());
            }
            Kind::Symbol(Sign::OpenBracket) => Opening::Square,
            Kind::Symbol(Sign::OpenParenthesis) => Opening::Round,
            Kind::Symbol(Sign::Equal) if is_begun => {
                return stop(Problem::DatatypeEqual, token.span);
            }
            _ if is_begun => return stop(Problem::NoType, token.span),
            _ => return stop(Problem::NoElementType, self.empty),
        };
        let from = place.saturating_add(1);
        self.types.push(Open::new(opening, token.span, from))?;
        Ok(())
    }

    // A type has ended, and with the last of its brackets all of it.
    fn end_type(&mut self) {
        self.mode = if self.types.is_empty() {
            Mode::Behind
        } else {
            Mode::BehindType
        };
    }

    // A token that follows a type in brackets.
    fn follow_type(&mut self, token: &Token) -> Result<(), Halt> {
        let Some(open) = self.types.pop() else {
            return stop(Problem::BehindType, token.span);
        };
        match (open.opening, &token.kind) {
            (Opening::Round, Kind::Symbol(Sign::Comma)) => {
                self.types.push(open)?;
                self.mode = Mode::Type;
                Ok(())
            }
            (_, Kind::Symbol(sign)) if open.closing() == Some(*sign) => {
                self.end_type();
                Ok(())
            }
            _ => self.not_closed(open, token.span, Problem::StillOpen),
        }
    }

    // The tokens have ended.
    fn finish(&mut self, end: &Token) -> Result<(), Halt> {
        let open = match self.mode {
            Mode::Type => {
                return match self.aim {
                    Aim::Type(_) => stop(Problem::NoType, end.span),
                    _ => stop(Problem::NoElementType, self.empty),
                };
            }
            Mode::BehindType => self.types.pop(),
            Mode::Behind => {
                self.settle();
                self.opens.pop()
            }
            Mode::Expression | Mode::Operand | Mode::Binding => match self.opens.pop() {
                Some(open) if open.is_bracket() => Some(open),
                _ => return self.unfinished(end),
            },
        };
        match open {
            None => Ok(()),
            Some(open) if open.is_bracket() => {
                self.not_closed(open, end.span, Problem::StillOpen)
            }
            Some(open) => self.unclosed(open, end.span),
        }
    }

    // An expression is missing before the end.
    fn unfinished(&self, end: &Token) -> Result<(), Halt> {
        if !is_sign(end, Sign::Semicolon) {
            return stop(Problem::GoesOn, end.span);
        }
        if let Some(last) = self.tokens.last() {
            check_pair(last, end)?;
        }
        stop(Problem::NoExpression, end.span)
    }

    /// A bracket is open where it should have been closed. Where the same bracket follows it, one of the two may be too
    /// much.
    pub(crate) fn not_closed(&self, open: Open, at: Span, otherwise: Problem) -> Result<(), Halt> {
        match (self.before(open.from), self.tokens.get(open.from)) {
            (Some(first), Some(second)) if are_same_signs(first, second) => {
                stop_with(Problem::NotClosed, open.at, at)
            }
            _ => stop_with(otherwise, at, open.at),
        }
    }

    /// What ends where what is around it does has ended.
    pub(crate) fn settle(&mut self) {
        for _ in 0..self.opens.len() {
            match self.opens.last() {
                Some(open) if open.ends_by_itself() => {
                    self.opens.pop();
                }
                _ => return,
            }
        }
    }
}

fn are_same_signs(first: &Token, second: &Token) -> bool {
    match (&first.kind, &second.kind) {
        (Kind::Symbol(one), Kind::Symbol(other)) => *one == *other,
        _ => false,
    }
}

// No expression begins with the first token in something that was opened.
fn nothing_inside(open: Open, token: &Token) -> Result<(), Halt> {
    match open.opening {
        Opening::Round | Opening::Call if is_sign(token, Sign::CloseParenthesis) => {
            stop(Problem::NothingInside, token.span)
        }
        Opening::Brace if is_sign(token, Sign::CloseBrace) => {
            stop(Problem::NoSequence, token.span)
        }
        Opening::Index if is_sign(token, Sign::CloseBracket) => {
            stop(Problem::NoIndex, over(open.at, token.span))
        }
        _ => stop(Problem::NoExpression, token.span),
    }
}
