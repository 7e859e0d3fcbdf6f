// The tokens of a line.

ghost use Rattle.std.specs.Prelude.{◌≡◌, List, IfOk, IsErrOf};
ghost use Rattle.nesl_lex.specs.Tokens.{Placed, placed};
ghost use Rattle.nesl_lex.specs.Lexemes.{HasTokens, HasNoTokenAt};
ghost use Rattle.nesl_lex.specs.Faults.{OnLexical};

use crate::fault::LexFault;
use crate::scan::{Piece, next_piece};
use crate::token::{Span, Token};
use std::alloc::Global;

// How many tokens room is taken for at first in a short line, which has at most twice as many bytes.
const SHORT_ROOM: usize = 21;

// The same of a longer line. More room is taken as more tokens come.
const LONG_ROOM: usize = 64;

/// The tokens of a line.
pub fn lex(alloc: Global, line: &[u8]) -> Result<Vec<Token>, LexFault>
    // The line has these tokens, and no others.
    ensures found { IfOk result (λ v. HasTokens line.now (placed v.items)) }
    ensures only { IfOk result (λ v. (others : List Placed) → HasTokens line.now others → others ≡ placed v.items) }

    // At this byte no token, blank or whole comment is, and the line has no tokens.
    ensures stuck { OnLexical result (λ at. HasNoTokenAt line.now at) }
    ensures none { OnLexical result (λ at. (others : List Placed) → HasTokens line.now others → ⊥) }
{
    let is_short = line.len() <= 2 * SHORT_ROOM;
    let room = if is_short { SHORT_ROOM } else { LONG_ROOM };
    let mut tokens = Vec::with_capacity(alloc, line.len().min(room))?;
    let mut at = 0;
    while at < line.len() {
        match next_piece(alloc, &line[at..])? {
            Piece::Gap(len) => at += len,
            Piece::Token(len, kind) => {
                let span = Span {
                    start: at,
                    end: at + len,
                };
                tokens.push(Token { kind, span })?;
                at += len;
            }
            Piece::Nothing => return Err(LexFault::Lexical { at }),
        }
    }
    Ok(tokens)
}
