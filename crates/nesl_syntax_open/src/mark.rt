// What a token does after an expression.

ghost use Rattle.std.specs.Prelude.{◌≡◌};
ghost use Rattle.nesl_lex.specs.Tokens.{lexeme_of, symbol, reserved};
ghost use Rattle.nesl_syntax_open.specs.Marks.{follow_of};

use nesl_lex::token::{Kind, Sign, Word};
use nesl_syntax_tree::tree::Operator;

/// A token that ends a part of what is open.
#[derive(Clone, Copy)]
pub enum Mark {
    CloseParenthesis,
    CloseBracket,
    CloseBrace,
    Colon,
    Semicolon,
    Bar,
    Equal,
    Then,
    Else,
    In,
}

/// What a token does after an expression.
#[derive(Clone, Copy)]
pub enum Follow {
    /// A `(`.
    Call,
    /// A `[`.
    Index,
    Comma,
    Operator(Operator),
    Mark(Mark),
    Nothing,
}

fn of_sign(sign: Sign) -> Follow
    ensures { result ≡ follow_of (symbol sign) }
{
    match sign {
        Sign::OpenParenthesis => Follow::Call,
        Sign::OpenBracket => Follow::Index,
        Sign::Comma => Follow::Comma,
        Sign::CloseParenthesis => Follow::Mark(Mark::CloseParenthesis),
        Sign::CloseBracket => Follow::Mark(Mark::CloseBracket),
        Sign::CloseBrace => Follow::Mark(Mark::CloseBrace),
        Sign::Colon => Follow::Mark(Mark::Colon),
        Sign::Semicolon => Follow::Mark(Mark::Semicolon),
        Sign::Bar => Follow::Mark(Mark::Bar),
        Sign::Equal => Follow::Mark(Mark::Equal),
        Sign::DoubleEqual => Follow::Operator(Operator::Equal),
        Sign::NotEqual => Follow::Operator(Operator::NotEqual),
        Sign::Less => Follow::Operator(Operator::Less),
        Sign::Greater => Follow::Operator(Operator::Greater),
        Sign::LessOrEqual => Follow::Operator(Operator::LessOrEqual),
        Sign::GreaterOrEqual => Follow::Operator(Operator::GreaterOrEqual),
        Sign::Plus => Follow::Operator(Operator::Plus),
        Sign::DoublePlus => Follow::Operator(Operator::Append),
        Sign::Minus => Follow::Operator(Operator::Minus),
        Sign::LeftArrow => Follow::Operator(Operator::Write),
        Sign::RightArrow => Follow::Operator(Operator::Read),
        Sign::Star => Follow::Operator(Operator::Times),
        Sign::Slash => Follow::Operator(Operator::Divide),
        Sign::OpenBrace | Sign::DoubleColon | Sign::Hash => Follow::Nothing,
    }
}

fn of_word(word: Word) -> Follow
    ensures { result ≡ follow_of (reserved word) }
{
    match word {
        Word::Then => Follow::Mark(Mark::Then),
        Word::Else => Follow::Mark(Mark::Else),
        Word::In => Follow::Mark(Mark::In),
        Word::Or => Follow::Operator(Operator::Or),
        Word::Nor => Follow::Operator(Operator::Nor),
        Word::Xor => Follow::Operator(Operator::Xor),
        Word::And => Follow::Operator(Operator::And),
        Word::Nand => Follow::Operator(Operator::Nand),
        _ => Follow::Nothing,
    }
}

/// What a token does after an expression.
pub fn follow_of(kind: &Kind) -> Follow
    ensures { result ≡ follow_of (lexeme_of kind.now) }
{
    match kind {
        Kind::Symbol(sign) => of_sign(*sign),
        Kind::Reserved(word) => of_word(*word),
        _ => Follow::Nothing,
    }
}
