//! Types and classes, from words.

use nesl_types::{Class, Ty};
use std::alloc::{AllocError, Global};

fn count(digits: &str) -> u64 {
    digits.parse::<u64>().unwrap_or(0)
}

/// The number of a variable: `v7` is 7, and `v3.4` is 3 dozens and 4.
pub fn variable(word: &str) -> u64 {
    let digits = word.strip_prefix('v').unwrap_or(word);
    let (dozens, rest) = digits.split_once('.').unwrap_or(("0", digits));
    count(dozens).saturating_mul(12).saturating_add(count(rest))
}

pub fn class_named(word: &str) -> Class {
    match word {
        "ordinal" => Class::Ordinal,
        "number" => Class::Number,
        "logical" => Class::Logical,
        _ => Class::Any,
    }
}

fn seq_of(alloc: Global, item: Ty) -> Result<Ty, AllocError> {
    Ty::seq_of(alloc, &item)
}

fn both(alloc: Global, first: Ty, second: Ty) -> Result<Ty, AllocError> {
    Ty::both(alloc, &first, &second)
}

fn next(types: &mut Vec<Ty>) -> Result<Ty, AllocError> {
    types.pop().ok_or(AllocError)
}

/// A datatype by its tag, as `d0`, or a variable.
fn leaf(alloc: Global, word: &str) -> Result<Ty, AllocError> {
    match word.strip_prefix('d') {
        Some(tag) => Ty::named(alloc, count(tag)),
        None => Ty::variable(alloc, variable(word)),
    }
}

/// The type that begins with the word, if those after it are read already, the nearest last.
fn beginning_with(alloc: Global, word: &str, types: &mut Vec<Ty>) -> Result<Ty, AllocError> {
    match word {
        "int" => Ty::int(alloc),
        "bool" => Ty::boolean(alloc),
        "char" => Ty::character(alloc),
        "seq" => seq_of(alloc, next(types)?),
        "both" => {
            let first = next(types)?;
            both(alloc, first, next(types)?)
        }
        _ => leaf(alloc, word),
    }
}

fn push_type(alloc: Global, word: &str, types: &mut Vec<Ty>) -> Result<(), AllocError> {
    let ty = beginning_with(alloc, word, types)?;
    types.push(ty)?;
    Ok(())
}

/// The type of words. What `seq` and `both` are made of follows them: `both int seq char` is `(int, [char])`.
pub fn type_of(alloc: Global, words: &str) -> Result<Ty, AllocError> {
    let mut types = Vec::new(alloc);
    for word in words.rsplit(' ') {
        push_type(alloc, word, &mut types)?;
    }
    next(&mut types)
}
