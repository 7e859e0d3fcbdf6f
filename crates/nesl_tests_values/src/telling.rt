//! What is written of values, each after a blank.

use crate::desk::number_of;
use nesl_values::{Items, Shape, Value};
use std::alloc::{AllocError, Global};

/// Writes a number after a mark.
pub fn push_number(mark: &str, number: u64, text: &mut String) -> Result<(), AllocError> {
    write!(text, "{mark}{number}")
}

/// Writes whether something is so, after a mark.
pub fn push_truth(mark: &str, is_so: bool, text: &mut String) -> Result<(), AllocError> {
    text.push_str(mark)?;
    text.push_str(if is_so { "true" } else { "false" })
}

// Writes an integer after a mark.
fn push_integer(mark: &str, number: i64, text: &mut String) -> Result<(), AllocError> {
    write!(text, "{mark}{number}")
}

// Writes what the value is read as: what is no part of it isn't read.
fn push_read(value: &Value, text: &mut String) -> Result<(), AllocError> {
    if let Some(n) = value.as_int() {
        push_integer(" int ", n, text)?;
    }
    if let Some(b) = value.as_bool() {
        push_truth(" bool ", b, text)?;
    }
    if let Some(c) = value.as_char() {
        push_number(" char ", u64::from(c), text)?;
    }
    if let Some((left, right)) = value.as_pair() {
        push_number(" pair ", left.nodes(), text)?;
        push_number(" ", right.nodes(), text)?;
    }
    if let Some((tag, inner)) = value.as_tagged() {
        push_number(" tagged ", tag, text)?;
        push_number(" ", inner.nodes(), text)?;
    }
    if let Some(len) = value.sequence_len() {
        push_number(" sequence ", len as u64, text)?;
    }
    Ok(())
}

fn push_shape(shape: Shape<'_>, text: &mut String) -> Result<(), AllocError> {
    match shape {
        Shape::Int(n) => push_integer(" ", n, text),
        Shape::Bool(b) => push_truth(" ", b, text),
        Shape::Char(c) => push_number(" '", u64::from(c), text),
        Shape::Pair(left, right) => {
            push_number(" (", left.nodes(), text)?;
            push_number(", ", right.nodes(), text)?;
            text.push_str(")")
        }
        Shape::Sequence(len) => {
            push_number(" [", len as u64, text)?;
            text.push_str("]")
        }
        Shape::Tagged(tag, inner) => {
            push_number(" ", tag, text)?;
            push_number("(", inner.nodes(), text)?;
            text.push_str(")")
        }
    }
}

fn push_items(items: Items<'_>, text: &mut String) -> Result<(), AllocError> {
    push_number(" ", items.len() as u64, text)?;
    text.push_str(match &items {
        Items::Ints(_) => " ints",
        Items::Bools(_) => " bools",
        Items::Chars(_) => " chars",
        Items::Values(_) => " values",
    })
}

fn push_count(count: Option<u64>, text: &mut String) -> Result<(), AllocError> {
    match count {
        Some(count) => push_number(" ", count, text),
        None => text.push_str(" none"),
    }
}

/// Tells of a value.
pub fn tell(value: &Value, letter: u8, rest: &[u8], text: &mut String) -> Result<(), AllocError> {
    match letter {
        b'#' if rest.is_empty() => push_number(" ", value.nodes(), text),
        b'#' => push_count(value.nodes_up_to(number_of(rest)), text),
        b'/' => push_items(value.items(), text),
        b'?' => {
            push_read(value, text)?;
            push_shape(value.shape(), text)
        }
        _ => Err(AllocError),
    }
}

/// Tells whether two values are the same, if each way to compare them answers so.
pub fn push_comparison(
    alloc: Global,
    one: &Value,
    other: &Value,
    text: &mut String,
) -> Result<(), AllocError> {
    let is_same = one.same(other);
    let by_list = one.same_by_list(alloc, other)?;
    let by_list_back = other.same_by_list(alloc, one)?;
    if other.same(one) == is_same && by_list == is_same && by_list_back == is_same {
        push_truth(" ", is_same, text)
    } else {
        text.push_str(" at odds")
    }
}
