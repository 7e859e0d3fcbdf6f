//! Hints on lines without tokens.
ghost use Rattle.std.specs.Prelude.{IfOk, length};
ghost use Rattle.nesl_hints_tokens.specs.Within.{IsWithin};

use crate::elsewhere::known_elsewhere;
use crate::foreign::{first_word_said, front_said};
use crate::hint::Hint;
use crate::sentence::{Filling, Sentence};
use crate::signs::{OWNERS, SIGNS, SIGNS_BEHIND};
use crate::source::bytes_of;
use crate::tables::{said_of_front, said_of_word};
use nesl_lex::token::Span;
use std::alloc::{AllocError, Global};

/// Why no token, blank or whole comment begins at this byte of the text.
pub fn lexical(alloc: Global, text: &[u8], at: usize) -> Result<Hint, AllocError>
    ensures { IfOk result (IsWithin (length text.now)) }
{
    let remark = match first_word(text) {
        Some(remark) => remark,
        None => match comment_before(text, at) {
            Some(remark) => remark,
            None => remark_at(text, at.min(text.len())),
        },
    };
    let fillings = [Filling("name", remark.name)];
    let hint = Sentence::of(alloc, remark.said, &fillings)?.at(remark.place);
    Ok(hint.within(text.len()))
}

/// What is said of a `.` and a name after it.
const NO_PARTS: &str =
    "nothing has parts with a `.`: a function comes before its argument, as `g(x)`, and a pair is taken apart by \
    `let (a, b) = p in a`";

/// What is said of bytes of a text, and the name that it speaks of, which is empty where it speaks of none.
#[derive(Clone, Copy)]
struct Remark<'t> {
    place: Span,
    said: &'static str,
    name: &'t [u8],
}

// What is said of a line that begins as it would in another language.
fn first_word(text: &[u8]) -> Option<Remark<'_>> {
    if let Some((place, said)) = front_said(text) {
        return Some(Remark {
            place,
            said,
            name: b"",
        });
    }
    let rest = text.trim_ascii_start();
    let start = text.len().saturating_sub(rest.len());
    let len = letters_len(rest);
    let (word, behind) = rest.split_at_checked(len)?;
    match behind.trim_ascii_start().first()? {
        next if next.is_ascii_alphabetic() => {}
        b'(' if word == b"for".as_slice() || word == b"while".as_slice() => {}
        _ => return None,
    }
    Some(Remark {
        place: Span {
            start,
            end: start.saturating_add(len),
        },
        said: first_word_said(word)?,
        name: b"",
    })
}

// What is said of a comment of another language that follows the last `;` before a place.
fn comment_before(text: &[u8], at: usize) -> Option<Remark<'_>> {
    let (before, _) = text.split_at_checked(at)?;
    let start = before
        .iter()
        .rposition(|byte| *byte == b';')?
        .saturating_add(1);
    let (_, behind) = text.split_at_checked(start)?;
    let (place, said) = front_said(behind)?;
    Some(Remark {
        place: Span {
            start: start.saturating_add(place.start),
            end: start.saturating_add(place.end),
        },
        said,
        name: b"",
    })
}

// What is said of the bytes from a place on, at which no token begins.
fn remark_at(text: &[u8], at: usize) -> Remark<'_> {
    let (before, bytes) = match text.split_at_checked(at) {
        Some(parts) => parts,
        None => (text, b"".as_slice()),
    };
    if let Some(remark) = remark_on_part(before, bytes, at) {
        return remark;
    }
    let (len, said) = said_of(before, bytes);
    Remark {
        place: Span {
            start: at,
            end: at.saturating_add(len),
        },
        said,
        name: b"",
    }
}

// What is said of a `.`, by the name after it or the one before it.
fn remark_on_part<'t>(before: &'t [u8], bytes: &'t [u8], at: usize) -> Option<Remark<'t>> {
    let [b'.', behind @ ..] = bytes else {
        return None;
    };
    let place = Span {
        start: at,
        end: at.saturating_add(1),
    };
    if is_fraction(before, behind) {
        return Some(Remark {
            place,
            said: "numbers are whole: they have no fractions",
            name: b"",
        });
    }
    let owner = last_word(before);
    if let Some(said) = said_of_word(OWNERS, owner) {
        return Some(Remark {
            place,
            said,
            name: owner,
        });
    }
    let (name, rest) = behind.split_at_checked(letters_len(behind))?;
    if name.is_empty() {
        return None;
    }
    let said = known_elsewhere(name).unwrap_or(part_said(rest));
    Some(Remark { place, said, name })
}

// Whether a `.` between these bytes is the point of a number.
fn is_fraction(before: &[u8], behind: &[u8]) -> bool {
    let whole = last_word(before);
    let has_digit = match behind.first() {
        Some(next) => next.is_ascii_digit(),
        None => false,
    };
    if whole.is_empty() {
        return has_digit;
    }
    let is_number = whole.iter().all(|byte| byte.is_ascii_digit());
    is_number
        && (has_digit
            || matches!(
                behind.first(),
                None | Some(b' ' | b';' | b',' | b')' | b']')
            ))
}

// What is said of a `.` and a name after it, by what follows them.
fn part_said(rest: &[u8]) -> &'static str {
    match rest.trim_ascii_start() {
        [b'=', b'=', ..] => NO_PARTS,
        [b'=', ..] | [b'<', b'-', ..] => {
            "nothing has parts with a `.`: a name has letters, digits and `_`, as in `a_b = 3;`"
        }
        _ => NO_PARTS,
    }
}

// The letters, digits and `_` at the end of some bytes.
fn last_word(before: &[u8]) -> &[u8] {
    let start = match before.iter().rposition(|byte| !is_part_of_name(*byte)) {
        Some(place) => place.saturating_add(1),
        None => 0,
    };
    bytes_of(
        before,
        Span {
            start,
            end: before.len(),
        },
    )
}

// The number of letters, digits and `_` at the front.
fn letters_len(bytes: &[u8]) -> usize {
    bytes
        .iter()
        .take_while(|byte| is_part_of_name(**byte))
        .count()
}

fn is_part_of_name(byte: u8) -> bool {
    byte.is_ascii_alphanumeric() || byte == b'_'
}

// The number of bytes that are wrong at the front of some, which follow others, and why.
fn said_of(before: &[u8], bytes: &[u8]) -> (usize, &'static str) {
    let [first, behind @ ..] = bytes else {
        return (0, "something is missing here");
    };
    match *first {
        b'"' => said_of_text(before, behind),
        b'%' => (
            1,
            "the comment that begins here has no closing `%`; a remainder is `rem(a, b)`",
        ),
        b'0'..=b'9' => (
            front_len(bytes, b'0', b'9'),
            "9223372036854775807 is the greatest number",
        ),
        b'`' => (
            bytes.len().min(2),
            "a character is a backquote and one byte from 32 to 126, as `a; of others say `code_char(10)`",
        ),
        byte => match sign_said(before, bytes) {
            Some(found) => found,
            None if byte > 126 => (
                front_len(behind, 128, 191).saturating_add(1),
                "this is no sign of the language, whose bytes are from 32 to 126",
            ),
            None => (1, "no sign begins with this byte"),
        },
    }
}

// The length of a sign that is none, which directly follows other bytes, and what is said of it.
fn sign_said(before: &[u8], bytes: &[u8]) -> Option<(usize, &'static str)> {
    let is_behind = match before.last() {
        Some(last) => is_part_of_name(*last) || matches!(*last, b')' | b']'),
        None => false,
    };
    let behind = if is_behind {
        said_of_front(SIGNS_BEHIND, bytes)
    } else {
        None
    };
    match behind {
        Some(found) => Some(found),
        None => said_of_front(SIGNS, bytes),
    }
}

// The number of bytes at the front that are from `least` to `most`.
fn front_len(bytes: &[u8], least: u8, most: u8) -> usize {
    bytes
        .iter()
        .take_while(|byte| least <= **byte && **byte <= most)
        .count()
}

// Why a text doesn't end, from the bytes before and after its opening quote.
fn said_of_text(before: &[u8], behind: &[u8]) -> (usize, &'static str) {
    let len = front_len(behind, 32, 126);
    if len < behind.len() {
        return (
            len.saturating_add(2),
            "a text has bytes from 32 to 126 only, and no escapes: `code_char(10)` makes another byte",
        );
    }
    if before.contains(&b'\\') {
        return (
            1,
            "the text that begins here has no closing `\"`: a `\\` escapes nothing, and `code_char(34)` is a quote",
        );
    }
    (1, "the text that begins here has no closing `\"`")
}
