//! Lines and their tokens, by hand from the rules.

use crate::rows::{Subject, all_hold};
use crate::texts::push_number;
use nesl_lex::token::Token;
use nesl_lex::{LexFault, lex};
use std::alloc::{AllocError, Global};

const SIGNS_ARE_AS_LONG_AS_THEY_CAN_BE: &str = r#" => no tokens
1<-2 => 0..1 Number(1); 1..3 Symbol(LeftArrow); 3..4 Number(2)
1<--2 => 0..1 Number(1); 1..3 Symbol(LeftArrow); 3..4 Symbol(Minus); 4..5 Number(2)
a--b => 0..1 Name([97]); 1..2 Symbol(Minus); 2..3 Symbol(Minus); 3..4 Name([98])
::: => 0..2 Symbol(DoubleColon); 2..3 Symbol(Colon)
+++ => 0..2 Symbol(DoublePlus); 2..3 Symbol(Plus)
=== => 0..2 Symbol(DoubleEqual); 2..3 Symbol(Equal)
/ =/= => 0..1 Symbol(Slash); 2..3 Symbol(Equal); 3..5 Symbol(NotEqual)
->>= => 0..2 Symbol(RightArrow); 2..4 Symbol(GreaterOrEqual)"#;

const TEXTS_CHARACTERS_AND_COMMENTS: &str = r#"%a%%b% => no tokens
1%%2 => 0..1 Number(1); 3..4 Number(2)
"a%b" => 0..5 Text([97, 37, 98])
"" => 0..2 Text([])
%"%"%" => 3..6 Text([37])
` => lexical at 0
` `  => 0..2 Character(32); 2..4 Character(32)
`` => 0..2 Character(96)
x "abc => lexical at 2
x %abc => lexical at 2"#;

const NUMBERS_NAMES_AND_TRUTH_VALUES: &str =
    r#"9223372036854775807 => 0..19 Number(9223372036854775807)
9223372036854775808; => lexical at 0
1 9223372036854775808 => lexical at 2
1 18446744073709551617 => lexical at 2
00000000000000000000000000000009 => 0..32 Number(9)
T tt F fF => 0..1 Truth(true); 2..4 Name([116, 116]); 5..6 Truth(false); 7..9 Name([102, 102])
TRUE False => 0..4 Truth(true); 5..10 Truth(false)
a_1B 1a => 0..4 Name([97, 95, 49, 98]); 5..6 Number(1); 6..7 Name([97])"#;

const RESERVED_WORDS: &str = r#"function => 0..8 Reserved(Function)
datatype => 0..8 Reserved(Datatype)
let => 0..3 Reserved(Let)
in => 0..2 Reserved(In)
if => 0..2 Reserved(If)
then => 0..4 Reserved(Then)
else => 0..4 Reserved(Else)
or => 0..2 Reserved(Or)
nor => 0..3 Reserved(Nor)
xor => 0..3 Reserved(Xor)
and => 0..3 Reserved(And)
nand => 0..4 Reserved(Nand)
int => 0..3 Reserved(Int)
bool => 0..4 Reserved(Bool)
Char => 0..4 Reserved(Char)"#;

const SIGNS: &str = r#"( => 0..1 Symbol(OpenParenthesis)
) => 0..1 Symbol(CloseParenthesis)
[ => 0..1 Symbol(OpenBracket)
] => 0..1 Symbol(CloseBracket)
{ => 0..1 Symbol(OpenBrace)
} => 0..1 Symbol(CloseBrace)
, => 0..1 Symbol(Comma)
; => 0..1 Symbol(Semicolon)
: => 0..1 Symbol(Colon)
:: => 0..2 Symbol(DoubleColon)
| => 0..1 Symbol(Bar)
= => 0..1 Symbol(Equal)
== => 0..2 Symbol(DoubleEqual)
/= => 0..2 Symbol(NotEqual)
< => 0..1 Symbol(Less)
> => 0..1 Symbol(Greater)
<= => 0..2 Symbol(LessOrEqual)
>= => 0..2 Symbol(GreaterOrEqual)
+ => 0..1 Symbol(Plus)
++ => 0..2 Symbol(DoublePlus)
- => 0..1 Symbol(Minus)
<- => 0..2 Symbol(LeftArrow)
-> => 0..2 Symbol(RightArrow)
* => 0..1 Symbol(Star)
/ => 0..1 Symbol(Slash)
# => 0..1 Symbol(Hash)"#;

/// Lines with bytes that are not printed.
const UNPRINTED_BYTES: &str = " \t\r => no tokens\n\
    `\x7f => lexical at 0\n\
    x \"a\tb\" => lexical at 2\n\
    a\0 => lexical at 1";

/// Numbers with many digits.
const MANY_DIGITS: &str = "@65000~0@ => 0..65000 Number(0)\n1@64999~0@ => lexical at 0";

fn push_token(text: &mut String, token: &Token) -> Result<(), AllocError> {
    let before = if text.is_empty() { "" } else { "; " };
    push_number(before, token.span.start as u64, text)?;
    push_number("..", token.span.end as u64, text)?;
    write!(text, " {:?}", token.kind)
}

fn push_tokens(text: &mut String, tokens: &[Token]) -> Result<(), AllocError> {
    if tokens.is_empty() {
        return text.push_str("no tokens");
    }
    for token in tokens {
        push_token(text, token)?;
    }
    Ok(())
}

/// Takes off what a name's text has too much of.
fn shorten_names(alloc: Global, text: &mut String) -> Result<(), AllocError> {
    *text = text.replace(alloc, "Name { letters: ", "")?;
    *text = text.replace(alloc, "] })", "])")?;
    Ok(())
}

/// The tokens of lines or the places of their faults.
struct Tokens;

impl Subject for Tokens {
    fn tell(&self, alloc: Global, line: &str, text: &mut String) -> Result<(), AllocError> {
        match lex(alloc, line.as_bytes()) {
            Ok(tokens) => {
                push_tokens(text, tokens.as_slice())?;
                shorten_names(alloc, text)
            }
            Err(LexFault::Lexical { at }) => push_number("lexical at ", at as u64, text),
            Err(LexFault::Memory) => Err(AllocError),
        }
    }
}

#[test]
fn lines_have_these_tokens(rt: HostRuntime) {
    let tables = [
        SIGNS_ARE_AS_LONG_AS_THEY_CAN_BE,
        TEXTS_CHARACTERS_AND_COMMENTS,
        NUMBERS_NAMES_AND_TRUTH_VALUES,
        RESERVED_WORDS,
        SIGNS,
        UNPRINTED_BYTES,
        MANY_DIGITS,
    ];
    all_hold(&rt, rt.alloc(), &Tokens, &tables);
}

/// The bytes that begin a token, or may be between tokens.
const BEGINNINGS: &[u8] =
    b" \t\r0123456789ABCDEFGHIJKLMNOPQRSTUVWXYZabcdefghijklmnopqrstuvwxyz()[]{},;:|=/<>+-*#";

#[test]
fn bytes_that_begin_nothing_are_faults(rt: HostRuntime) {
    for b in 0..=255u8 {
        let is_read = lex(rt.alloc(), &[b]).is_ok();
        assert!(rt; is_read == BEGINNINGS.contains(&b), "at {b}");
    }
}
