// Cutting a line's tokens at a sign that is in no part before it.

ghost use Rattle.std.specs.Prelude.{◌≡◌, Some, None, MatchOption};
ghost use Rattle.nesl_syntax.specs.Reading.{divides, cut};
ghost use Rattle.nesl_lex.specs.Tokens.{lexeme_of, placed};

use nesl_lex::token::{Kind, Sign, Token};

/// A sign that divides a line: no pattern has a `=` or a `:`, and no type a `->` or a `::`.
#[derive(Clone, Copy, PartialEq, Eq)]
pub enum Divider {
    Equal,
    Colon,
    RightArrow,
    DoubleColon,
}

// Whether the token is the divider.
fn divides(divider: Divider, token: &Token) -> bool
    ensures { result ≡ divides divider (lexeme_of token.now.kind) }
{
    match &token.kind {
        Kind::Symbol(sign) => match divider {
            Divider::Equal => *sign == Sign::Equal,
            Divider::Colon => *sign == Sign::Colon,
            Divider::RightArrow => *sign == Sign::RightArrow,
            Divider::DoubleColon => *sign == Sign::DoubleColon,
        },
        _ => false,
    }
}

/// The tokens before the first divider, and those after it.
pub fn cut(divider: Divider, tokens: &[Token]) -> Option<(&[Token], &[Token])>
    ensures { MatchOption result (cut divider (placed tokens.now) ≡ None)
        (λ r. cut divider (placed tokens.now) ≡ Some (placed r.0.now, placed r.1.now)) }
{
    for (i, token) in tokens.iter().enumerate() {
        if divides(divider, token) {
            let (front, _) = tokens.split_at(i);
            let (_, behind) = tokens.split_at(i + 1);
            return Some((front, behind));
        }
    }
    None
}
