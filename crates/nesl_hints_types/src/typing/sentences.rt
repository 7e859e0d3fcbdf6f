//! What is said of parts that don't fit.

use crate::clash::{Clash, Role};
use crate::guesses::{Guess, Guesses};
use crate::typing::words::{Types, types_in_words};
use crate::walk::Walk;
use nesl_hints_tokens::{Filling, Hint, Sentence};
use nesl_syntax_tree::tree::{Operator, Prefix};
use std::alloc::AllocError;

/// The sign or word of an operator.
pub fn sign_of(operator: Operator) -> &'static [u8] {
    match operator {
        Operator::Or => b"or",
        Operator::Nor => b"nor",
        Operator::Xor => b"xor",
        Operator::And => b"and",
        Operator::Nand => b"nand",
        Operator::Equal => b"==",
        Operator::NotEqual => b"/=",
        Operator::Less => b"<",
        Operator::Greater => b">",
        Operator::LessOrEqual => b"<=",
        Operator::GreaterOrEqual => b">=",
        Operator::Plus => b"+",
        Operator::Minus => b"-",
        Operator::Append => b"++",
        Operator::Write => b"<-",
        Operator::Times => b"*",
        Operator::Divide => b"/",
        Operator::Read => b"->",
    }
}

// The name or sign in a part's name. The walk blames the function or datatype with this name.
fn name_of(role: Role, blamed: &[u8]) -> &[u8] {
    match role {
        Role::Left(operator) | Role::Right(operator) => sign_of(operator),
        _ => blamed,
    }
}

// A part's name.
fn part_named(role: Role) -> &'static str {
    match role {
        Role::Left(_) => "the left side of `{name}`",
        Role::Right(_) => "the right side of `{name}`",
        Role::Operand(Prefix::Length) => "what follows `#`",
        Role::Operand(Prefix::Negate) => "what follows `-`",
        Role::Argument => "the argument of `{name}`",
        Role::OneArgument(0) => "the first argument of `{name}`",
        Role::OneArgument(1) => "the second argument of `{name}`",
        Role::OneArgument(2) => "the third argument of `{name}`",
        Role::OneArgument(_) => "a later argument of `{name}`",
        Role::Indexed => "what comes before `[`",
        Role::Index => "the number in brackets",
        Role::Test => "the test after `if`",
        Role::Otherwise => "what follows `else`",
        Role::Element => "this element",
        Role::Bound => "this part of a range",
        Role::Drawn => "what follows `in`",
        Role::Filter => "the filter",
        Role::Pair => "what these names are bound to",
        Role::Record => "what is matched with `{name}`",
        Role::Parameter => "the parameter",
        Role::Body | Role::OwnBody => "the body",
    }
}

// The type that a part has, and the one that it should have.
fn types_of(role: Role) -> &'static str {
    match role {
        Role::Right(Operator::Write | Operator::Read) => " is {found}, and must be {wanted}",
        Role::Right(_) => " is {found}, the left side {wanted}",
        Role::Otherwise => " is {found}, what follows `then` {wanted}",
        Role::Element => " is {found}, the first one {wanted}",
        Role::Operand(Prefix::Length) | Role::Indexed | Role::Drawn => {
            " is {found}, and must be a sequence, {wanted}"
        }
        Role::Pair => " is {found}, and must be a pair, {wanted}",
        Role::Parameter | Role::Body => " is {found}, and the signature says {wanted}",
        Role::OwnBody => " is {found}, and where the function calls itself it must be {wanted}",
        _ => " is {found}, and must be {wanted}",
    }
}

// What else is said of a part that should be a number.
fn advice_on_number(found: Guess, is_text: bool) -> &'static str {
    match found {
        Guess::Sequence(_) if is_text =>
            ": `++` joins two texts, and no function makes a text of a number",
        Guess::Sequence(_) => ": `{a + 1 : a in v}` does it for each element",
        Guess::Bool => ": `btoi(b)` is 1 or 0",
        Guess::Char => ": `char_code(c)` is its number",
        _ => "",
    }
}

// What else is said of an operator's side of this type.
fn advice_on_side(operator: Operator, found: Guess, is_text: bool) -> &'static str {
    match operator {
        Operator::Plus if matches!(found, Guess::Sequence(_)) && !is_text => {
            ": `{a + 1 : a in v}` does it for each element, and `++` joins two sequences"
        }
        Operator::Plus | Operator::Minus | Operator::Times | Operator::Divide => {
            advice_on_number(found, is_text)
        }
        Operator::Equal | Operator::NotEqual => match found {
            Guess::Int | Guess::Char | Guess::Open(_) => "",
            Guess::Sequence(_) => {
                ": `eql(v, w)` compares two sequences of one type, and `{a == 1 : a in v}` each element"
            }
            _ =>
                ": `eql(a, b)` compares two values of one type, and `a == b and b == c` three numbers",
        },
        Operator::Less | Operator::Greater | Operator::LessOrEqual | Operator::GreaterOrEqual =>
            match found {
                Guess::Sequence(_) => {
                    ": `{a > 1 : a in v}` compares each element, and `{a in v | a > 1}` chooses some"
                }
                Guess::Bool => ": `a < b and b < c` compares three numbers",
                _ => "",
            },
        _ => "",
    }
}

// Whether the operator compares its sides.
fn compares(operator: Operator) -> bool {
    matches!(
        operator,
        Operator::Equal
            | Operator::NotEqual
            | Operator::Less
            | Operator::Greater
            | Operator::LessOrEqual
            | Operator::GreaterOrEqual
    )
}

// What else is said of a text that is compared with something of another type.
fn advice_on_text(wanted: Guess) -> &'static str {
    match wanted {
        Guess::Char => ": a character is a backquote and one byte, as `a",
        _ => "",
    }
}

// What else is said of a side of `<-`, which binds a name in other languages.
fn advice_on_write(found: Guess) -> &'static str {
    match found {
        Guess::Open(_) => "",
        _ => ": `v <- [(0, 5)]` replaces an element, and a name is bound by `=`",
    }
}

// What else is said of a whole argument of the function with a name.
fn advice_on_argument(name: &[u8], found: Guess, wanted: Guess) -> &'static str {
    match (found, wanted) {
        (Guess::Pair(_, _), Guess::Pair(_, _)) => "",
        (Guess::Pair(_, _), Guess::Sequence(_)) => {
            ": it has one argument, and elements are written `[1, 2, 3]`"
        }
        (Guess::Pair(_, _), _) => ": it has one argument",
        (Guess::Sequence(_), Guess::Pair(_, _)) if name == b"max".as_slice() => {
            ": the greatest element is `max_val(v)`"
        }
        (Guess::Sequence(_), Guess::Pair(_, _)) if name == b"min".as_slice() => {
            ": the least element is `min_val(v)`"
        }
        (_, Guess::Pair(_, _)) => ": it has more arguments, with commas between",
        (Guess::Sequence(_), Guess::Int | Guess::Char | Guess::Bool) => {
            ": `{g(a) : a in v}` calls a function `g` for each element"
        }
        _ => "",
    }
}

// What else is said of a part, by the types.
fn advice_on(walk: &Walk<'_>, clash: Clash) -> &'static str {
    let guesses = &walk.guesses;
    let found = guesses.guess(clash.found.ty);
    let wanted = guesses.guess(clash.wanted);
    let is_text = match found {
        Guess::Sequence(item) => matches!(guesses.guess(item), Guess::Char),
        _ => false,
    };
    match (clash.role, found) {
        (Role::Left(Operator::Write) | Role::Right(Operator::Write), _) => advice_on_write(found),
        (Role::Right(operator), _) if is_text && compares(operator) => advice_on_text(wanted),
        (Role::Right(Operator::Append), Guess::Sequence(_)) => "",
        (Role::Right(Operator::Append), _) => ": `v ++ [x]` appends one element",
        (Role::Left(Operator::Append), _) => ": `[x] ++ v` puts one element in front",
        (Role::Left(Operator::Plus), _) if is_text && joins_texts(guesses, clash) => {
            ": `++` joins two texts"
        }
        (Role::Left(operator) | Role::Right(operator), _) => {
            advice_on_side(operator, found, is_text)
        }
        (Role::Operand(Prefix::Negate), Guess::Sequence(_)) if is_text => "",
        (Role::Operand(Prefix::Negate), Guess::Sequence(_)) => {
            ": `{-a : a in v}` does it for each number"
        }
        (Role::Operand(Prefix::Negate), _) => advice_on_number(found, false),
        (Role::Argument, _) => advice_on_argument(walk.blamed, found, wanted),
        (Role::OneArgument(_), _) if walk.blamed == b"rep".as_slice() => {
            ": `rep(v, x, i)` is v with x at place i, and n times x is `dist(x, n)`"
        }
        (Role::OneArgument(_), Guess::Pair(_, _)) => ": it has fewer arguments",
        (Role::Element, _) => ": a sequence has elements of one type",
        (Role::Test | Role::Filter, Guess::Int) => ": `x /= 0` is a truth value",
        (Role::Drawn, Guess::Int) => ": `index(n)` has the numbers from 0 to n - 1",
        (Role::Index, Guess::Sequence(_)) => ": `v -> w` has the elements at the places in `w`",
        _ => "",
    }
}

// Whether what a part doesn't fit to is a sequence.
fn joins_texts(guesses: &Guesses, clash: Clash) -> bool {
    match clash.second {
        Some(other) => matches!(guesses.guess(other.ty), Guess::Sequence(_)),
        None => false,
    }
}

/// What a person reads of a part that doesn't fit.
pub(crate) fn hint_of(walk: &Walk<'_>, clash: Clash) -> Result<Hint, AllocError> {
    let types = types_in_words(walk, clash.found.ty, clash.wanted)?;
    let sentence = said_of(walk, clash, &types)?;
    Ok(Hint {
        second: match clash.second {
            Some(other) => Some(other.span),
            None => None,
        },
        ..sentence.at(clash.found.span)
    })
}

// What is said of a part, with the type that it has and the one that it should have.
fn said_of(walk: &Walk<'_>, clash: Clash, types: &Types) -> Result<Sentence, AllocError> {
    let role = clash.role;
    let fillings = [
        Filling("name", name_of(role, walk.blamed)),
        Filling("found", types.found.as_slice()),
        Filling("wanted", types.wanted.as_slice()),
    ];
    let advice = advice_on(walk, clash);
    let texts = [part_named(role), types_of(role), advice];
    Sentence::of_all(walk.alloc, &texts, &fillings)
}
