//! What a token is.

use nesl_lex::token::{Kind, Sign, Token, Word};

/// Whether the token is the sign.
pub fn is_sign(token: &Token, sign: Sign) -> bool {
    match &token.kind {
        Kind::Symbol(found) => *found == sign,
        _ => false,
    }
}

/// Whether the token is the reserved word.
pub(crate) fn is_word(token: &Token, word: Word) -> bool {
    match &token.kind {
        Kind::Reserved(found) => *found == word,
        _ => false,
    }
}

/// Whether the token may be a parameter of a function in another language, or its name.
pub(crate) fn is_parameter(token: &Token) -> bool {
    matches!(&token.kind, Kind::Name(_) | Kind::Number(_) | Kind::Text(_))
}

/// The name that the token is.
pub fn name_in(token: &Token) -> Option<&[u8]> {
    match &token.kind {
        Kind::Name(name) => Some(name.as_slice()),
        _ => None,
    }
}
