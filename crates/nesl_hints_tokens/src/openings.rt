//! What is open while tokens are read.

use nesl_lex::token::{Kind, Sign, Span, Token, Word};

/// What is open.
#[derive(Clone, Copy)]
pub(crate) enum Opening {
    /// `(` of an expression.
    Round,
    /// `(` after a name.
    Call,
    /// `[` of a list or a range.
    Square,
    /// `[`, and a comma since.
    List,
    /// `[`, and a colon since.
    Range,
    /// `[`, and two colons since.
    StridedRange,
    /// `[` after an expression.
    Index,
    /// `{`, before a `:` or an `in`.
    Brace,
    /// A pattern of an apply-to-each.
    EachPattern,
    /// What a pattern of an apply-to-each is in.
    EachValue,
    /// The filter of an apply-to-each.
    Filter,
    /// A pattern of a `let`.
    LetPattern,
    LetValue,
    /// After `in`: it ends where what is around it does.
    LetBody,
    Test,
    Branch,
    /// After `else`: it ends where what is around it does.
    OtherBranch,
}

impl Opening {
    fn is_pattern(self) -> bool {
        matches!(self, Opening::EachPattern | Opening::LetPattern)
    }

    /// What this opening becomes by a token, or `None` where it doesn't go on with the token.
    fn next(self, token: &Token) -> Option<Opening> {
        match (self, &token.kind) {
            (Opening::Round | Opening::Call, Kind::Symbol(Sign::Comma)) => Some(self),
            (Opening::Square | Opening::List, Kind::Symbol(Sign::Comma)) => Some(Opening::List),
            (Opening::Square, Kind::Symbol(Sign::Colon)) => Some(Opening::Range),
            (Opening::Range, Kind::Symbol(Sign::Colon)) => Some(Opening::StridedRange),
            (Opening::Brace, Kind::Symbol(Sign::Colon)) => Some(Opening::EachPattern),
            (Opening::EachValue, Kind::Symbol(Sign::Semicolon)) => Some(Opening::EachPattern),
            (Opening::EachValue, Kind::Symbol(Sign::Bar)) => Some(Opening::Filter),
            (Opening::Brace | Opening::EachPattern, Kind::Reserved(Word::In)) => {
                Some(Opening::EachValue)
            }
            (Opening::LetPattern, Kind::Symbol(Sign::Equal)) => Some(Opening::LetValue),
            (Opening::LetValue, Kind::Symbol(Sign::Semicolon)) => Some(Opening::LetPattern),
            (Opening::LetPattern | Opening::LetValue, Kind::Reserved(Word::In)) => {
                Some(Opening::LetBody)
            }
            (Opening::Test, Kind::Reserved(Word::Then)) => Some(Opening::Branch),
            (Opening::Branch, Kind::Reserved(Word::Else)) => Some(Opening::OtherBranch),
            _ => None,
        }
    }
}

/// Something that is open.
#[derive(Clone, Copy)]
pub(crate) struct Open {
    pub(crate) opening: Opening,
    /// The token that opened it.
    pub(crate) at: Span,
    /// The number of tokens before its content.
    pub(crate) from: usize,
    /// Whether it is a pattern or a part of one, which has names only.
    pub(crate) names: bool,
}

impl Open {
    pub(crate) fn new(opening: Opening, at: Span, from: usize) -> Open {
        Open {
            opening,
            at,
            from,
            names: opening.is_pattern(),
        }
    }

    /// What is opened within this.
    pub(crate) fn inner(self, opening: Opening, at: Span, from: usize) -> Open {
        let part = self.names && matches!(opening, Opening::Round | Opening::Call);
        Open {
            names: part || opening.is_pattern(),
            ..Open::new(opening, at, from)
        }
    }

    /// What this becomes by a token at a place, or `None` where it doesn't go on with the token.
    pub(crate) fn next(self, token: &Token, place: usize) -> Option<Open> {
        let opening = self.opening.next(token)?;
        Some(match opening {
            Opening::Round
            | Opening::Call
            | Opening::List
            | Opening::Range
            | Opening::StridedRange => Open { opening, ..self },
            _ => Open {
                opening,
                from: place.saturating_add(1),
                names: opening.is_pattern(),
                ..self
            },
        })
    }

    /// The bracket that closes it, if one does.
    pub(crate) fn closing(self) -> Option<Sign> {
        match self.opening {
            Opening::Round | Opening::Call => Some(Sign::CloseParenthesis),
            Opening::Square
            | Opening::List
            | Opening::Range
            | Opening::StridedRange
            | Opening::Index => Some(Sign::CloseBracket),
            Opening::Brace | Opening::EachPattern | Opening::EachValue | Opening::Filter => {
                Some(Sign::CloseBrace)
            }
            _ => None,
        }
    }

    pub(crate) fn is_bracket(self) -> bool {
        self.closing().is_some()
    }

    /// Whether a `:` may follow its content so far.
    pub(crate) fn takes_colon(self) -> bool {
        matches!(
            self.opening,
            Opening::Brace | Opening::Square | Opening::Range
        )
    }

    /// Whether it ends where what is around it does.
    pub(crate) fn ends_by_itself(self) -> bool {
        matches!(self.opening, Opening::LetBody | Opening::OtherBranch)
    }
}
