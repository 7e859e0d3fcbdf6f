//! What other languages write.

use crate::elsewhere::{known_elsewhere, prompt_said};
use crate::halt::Wrong;
use crate::problems::Problem;
use crate::source::{bytes_of, quoted};
use crate::tables::{said_of_front, said_of_word};
use crate::tokens::name_in;
use nesl_lex::token::{Kind, Sign, Span, Token, Word};

/// Words that begin a line in other languages, and what is said of them.
const FOREIGN: &str = "\
def fun fn func define pub sub proc procedure void\ta function is defined by `function g(x) = x + 1;`
lambda\tfunctions are no values: define one by `function g(x) = x + 1;`
type\ta datatype is defined by `datatype point (int, int);`, and `:type x;` shows a type
data newtype\ta datatype is `datatype point (int, int);`, and has no alternatives: bind numbers, as in `red = 0;`
enum\ta datatype has no alternatives: bind numbers to names, as in `red = 0;`
impl\ta function on a datatype is defined alone, as in `function g(point(a, b)) = a + b;`
struct class record interface\ta datatype is defined by `datatype point (int, int);`
var val const set final auto static dim\ta variable is bound by its name alone, as in `x = 3;`
string float double long short byte number unsigned\ta variable is bound without a type, as in `x = 3;`
public private protected\tnothing is hidden: a function is defined by `function g(x) = x + 1;`
new\ta record is made by its datatype's name, as in `point(1, 2)`
return yield\tnothing is returned: a function's body is its value
print println printf putstrln puts echo\tan expression alone shows its value: leave `{name}` out
for foreach\tthere are no loops: `{a * a : a in v}` does something for each element
while loop do repeat until\tthere are no loops: a function may call itself, and `{a * a : a in v}` goes over elements
case switch match when\ta choice is `if .. then .. else ..`, one in the other where there are more
where\ta part has a name by `let y = 1 in y + 1;`
import from use using require library include package module\tthere are no modules: all functions are there
try throw raise catch assert\tno error is raised or caught: a choice is `if .. then .. else ..`
del delete rm\tnames stay until `:reset`, and may be bound again
";

/// Words before an expression in other languages, and what is said of them.
const INSIDE: &str = "\
lambda fun fn func function\tfunctions are no values: define one by `function g(x) = x + 1;`
return yield await\tnothing is returned: a function's body is its value
new\ta record is made by its datatype's name, as in `point(1, 2)`
case switch match\ta choice is `if .. then .. else ..`, one in the other where there are more
";

/// Words between two expressions in other languages, and what is said of them.
const BETWEEN: &str = "\
for\tan apply-to-each is `{a * a : a in v}`, and its filter comes after a `|`, as in `{a in v | a > 1}`
if\ta choice is `if x > 2 then 1 else 0`, and a filter comes after a `|`, as in `{a in v | a > 1}`
is equals eq\t`==` compares, and `eql(a, b)` compares sequences and pairs
isnt ne neq\t`/=` compares numbers and characters, and `not(eql(a, b))` all values
as to\ta type converts nothing: `char_code(c)`, `code_char(n)` and `btoi(b)` do
mod rem `m `r\tthe remainder is `rem(a, b)`
div `d\ta quotient is `a / b`
where with\ta part has a name by `let y = 1 in y + 1;`
do begin\ta body is one expression, as in `if x > 2 then 1 else 0`
unless\ta choice is `if x > 2 then 1 else 0`
";

/// Signs before which an expression is missing in this language alone, and what is said of them.
const BEFORE: &str = "\
++\t`++` joins two sequences; one more is `x = x + 1;`
|\tfunctions are no values (define one by `function g(x) = x + 1;`), and a `|` comes before a filter
:\ta range has both ends, and the elements from place 1 below 3 are `v -> [1 : 3]`
+ * < > == <= >=\tan expression is missing before `{place}`: an operator has two sides, and is no value alone
";

/// Words of the prompt, and what is said of them after a `:` where the prompt doesn't read them.
const COMMANDS: &str = "\
help\t`:help` is a word of the prompt and of the page, at the front of a line; a batch doesn't have it
quit\t`:quit` is a word of the prompt, at the front of a line; a batch ends with its input, and a page by closing it
load\t`:load` is a word of the prompt, at the front of a line; elsewhere the lines of the file are the input
list\t`:list` is a word of the prompt, at the front of a line; `:names` lists the names everywhere
";

/// What is said of two names, one directly after the other.
const TWO_NAMES: &str =
    "an argument belongs in parentheses, as `{second}(..)` if that is a function; between two values there is an \
    operator, and a text has double quotes";

/// Neighbouring signs that other languages have for one, and what is said of them.
const PAIRS: &str = "\
+=\t`+=` is no sign: a name is bound again, as in `x = x + 1;`
++;\t`++` joins two sequences; one more is `x = x + 1;`
-;\tsomething is missing after `-`; one less is `x = x - 1;`
-=\t`-=` is no sign: a name is bound again, as in `x = x - 1;`
*=\t`*=` is no sign: a name is bound again, as in `x = x * 2;`
**\t`**` is no sign: write a product, or `lshift(1, n)` for a power of two
//\t`//` is no sign: `/` between whole numbers drops the fraction, and a comment is `% .. %`
/*\ta comment is `% .. %`
<>\t`<>` is no sign: two values that differ are `/=`, and two sequences are joined by `++`
=>\t`=>` is no sign: functions are no values (define one by `function g(x) = x + 1;`), and `>=` compares
=<\t`=<` is no sign: write `<=`
===\t`===` is no sign: `==` compares, and `eql(a, b)` compares sequences and pairs
||\t`||` is no sign: write `or`, which evaluates both sides
|>\t`|>` is no sign: a function comes before its argument, as `g(x)`
:=\ta name is bound by `=` alone, as in `x = 3;`
<<\t`<<` is no sign: write `lshift(x, n)`
>>\t`>>` is no sign: write `rshift(x, n)`
";

/// Bytes that begin a line in other languages, and what is said of them.
const FRONTS: &str = "\
#include #import #define\tthere are no modules: all functions are there from the beginning
-- // /* #! ##\ta comment is `% .. %`
";

/// What is said of the first of several tokens, where it is a word that begins lines in another language.
pub(crate) fn foreign_said(tokens: &[Token]) -> Option<&'static str> {
    let [first, next, ..] = tokens else {
        return None;
    };
    match &next.kind {
        Kind::Symbol(Sign::OpenParenthesis | Sign::OpenBrace) => {}
        Kind::Symbol(_)
        | Kind::Reserved(
            Word::Or
            | Word::Nor
            | Word::Xor
            | Word::And
            | Word::Nand
            | Word::In
            | Word::Then
            | Word::Else,
        ) => return None,
        _ => {}
    }
    said_of_word(FOREIGN, name_in(first)?)
}

/// What is said of a word that begins lines in other languages.
pub(crate) fn first_word_said(word: &[u8]) -> Option<&'static str> {
    said_of_word(FOREIGN, word)
}

/// Where a line begins as it would in another language, and what is said of that.
pub(crate) fn front_said(text: &[u8]) -> Option<(Span, &'static str)> {
    let rest = text.trim_ascii_start();
    let start = text.len().saturating_sub(rest.len());
    let (len, said) = match rest {
        [b'#', b' ', ..] => (
            1,
            "`#` is the length of a sequence, and a comment is `% .. %`",
        ),
        _ => said_of_front(FRONTS, rest)?,
    };
    Some((
        Span {
            start,
            end: start.saturating_add(len),
        },
        said,
    ))
}

/// Whether another language has two neighbouring signs for one.
pub(crate) fn is_foreign_pair(first: Sign, second: Sign) -> bool {
    match first {
        Sign::Plus | Sign::DoubleEqual | Sign::Colon => second == Sign::Equal,
        Sign::Minus => matches!(second, Sign::Equal | Sign::Semicolon),
        Sign::Star => matches!(second, Sign::Equal | Sign::Star),
        Sign::DoublePlus => second == Sign::Semicolon,
        Sign::Slash => matches!(second, Sign::Slash | Sign::Star),
        Sign::Less | Sign::Equal => matches!(second, Sign::Less | Sign::Greater),
        Sign::Greater => second == Sign::Greater,
        Sign::Bar => matches!(second, Sign::Bar | Sign::Greater),
        _ => false,
    }
}

/// What is said of what is wrong in a line, where another language has it.
pub(crate) fn elsewhere_said(text: &[u8], tokens: &[Token], wrong: Wrong) -> Option<&'static str> {
    let place = quoted(text, wrong.place);
    match wrong.problem {
        Problem::ForeignWord => foreign_said(tokens),
        Problem::ForeignPair => said_of_word(PAIRS, place),
        Problem::NoExpression => said_of_word(BEFORE, place),
        Problem::OperatorAlone => match known_elsewhere(quoted(text, wrong.second?)) {
            Some(said) => Some(said),
            None => said_of_word(BEFORE, place),
        },
        Problem::PromptLine => prompt_word_said(tokens),
        Problem::PromptWord => said_of_word(COMMANDS, place),
        Problem::NoParentheses | Problem::NoOperator | Problem::NoComma => {
            between_said(text, wrong)
        }
        _ => None,
    }
}

/// What is said of a word of other prompts that is alone in its line, but for parentheses and the end.
pub(crate) fn prompt_word_said(tokens: &[Token]) -> Option<&'static str> {
    let [first, rest @ ..] = tokens else {
        return None;
    };
    for token in rest {
        match &token.kind {
            Kind::Symbol(Sign::OpenParenthesis | Sign::CloseParenthesis | Sign::Semicolon) => {}
            _ => return None,
        }
    }
    prompt_said(name_in(first)?)
}

// What is said of an expression that directly follows another one.
fn between_said(text: &[u8], wrong: Wrong) -> Option<&'static str> {
    let place = quoted(text, wrong.place);
    if let Some(said) = said_of_word(BETWEEN, place) {
        return Some(said);
    }
    let before = bytes_of(
        text,
        Span {
            start: 0,
            end: wrong.place.start,
        },
    );
    if let Some(said) = joined_said(before, place) {
        return Some(said);
    }
    match wrong.problem {
        Problem::NoParentheses => argument_said(quoted(text, wrong.second?), place),
        _ => None,
    }
}

// What is said of an expression that directly follows a name.
fn argument_said(name: &[u8], place: &[u8]) -> Option<&'static str> {
    if let Some(said) = said_of_word(INSIDE, name) {
        return Some(said);
    }
    if let Some(said) = known_elsewhere(name) {
        return Some(said);
    }
    match place.first() {
        Some(byte) if byte.is_ascii_alphabetic() => Some(TWO_NAMES),
        _ => None,
    }
}

// What is said of an expression by the bytes directly before it.
fn joined_said(before: &[u8], place: &[u8]) -> Option<&'static str> {
    if before.trim_ascii_end().ends_with(b"%") {
        return Some(
            "what is between two `%` is a comment: a remainder is `rem(a, b)`, and `any({a == x : a in v})` finds x",
        );
    }
    match (before.last()?, place.first()?) {
        (last, first) if last.is_ascii_digit() && first.is_ascii_alphabetic() => Some(
            "a number is whole, and has digits from 0 to 9 only; a product has its `*`",
        ),
        (last, b'"') if last.is_ascii_alphabetic() => Some(
            "a text has no letter before its quotes, and no gaps for values: `++` joins texts",
        ),
        _ => None,
    }
}
