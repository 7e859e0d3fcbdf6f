//! Parts of a line of an exercise.
ghost use Rattle.std.specs.Prelude.{◌<◌, ◌≤◌, IfSome, length};

use crate::fault::{Expected, LineFault};
use std::alloc::{AllocError, Global};

/// Splits a line at the first place of a sign that is outside texts and characters, and inside no bracket. Returns what
/// comes before it and what comes after it, without blanks around them.
pub fn split_at<'a>(line: &'a [u8], sign: &[u8]) -> Option<(&'a [u8], &'a [u8])> {
    let place = place_of(line, sign)?;
    let before = line.get(..place)?;
    let after = line.get(place..)?.get(sign.len()..)?;
    Some((before.trim_ascii(), after.trim_ascii()))
}

// What a byte of a line is within.
#[derive(Clone, Copy, PartialEq, Eq)]
enum Inside {
    Code,
    Text,
    Character,
}

// The first place of a sign that is outside texts and characters, and inside no bracket.
fn place_of(line: &[u8], sign: &[u8]) -> Option<usize> {
    let mut inside = Inside::Code;
    let mut depth: u32 = 0;
    for (place, byte) in line.iter().enumerate() {
        if inside == Inside::Code && depth == 0 && stands_at(line, place, sign) {
            return Some(place);
        }
        depth = depth_after(depth, inside, *byte);
        inside = inside_after(inside, *byte);
    }
    None
}

fn stands_at(line: &[u8], place: usize, sign: &[u8]) -> bool {
    match line.get(place..) {
        Some(rest) => rest.starts_with(sign),
        None => false,
    }
}

fn inside_after(inside: Inside, byte: u8) -> Inside {
    match inside {
        Inside::Character => Inside::Code,
        Inside::Text => {
            if byte == b'"' {
                Inside::Code
            } else {
                Inside::Text
            }
        }
        Inside::Code => match byte {
            b'"' => Inside::Text,
            b'`' => Inside::Character,
            _ => Inside::Code,
        },
    }
}

fn depth_after(depth: u32, inside: Inside, byte: u8) -> u32 {
    if inside != Inside::Code {
        return depth;
    }
    match byte {
        b'(' | b'[' | b'{' => depth.saturating_add(1),
        b')' | b']' | b'}' => depth.saturating_sub(1),
        _ => depth,
    }
}

/// The number that a text of digits is.
pub fn number_of(text: &[u8]) -> Result<u64, LineFault> {
    if text.is_empty() {
        return Err(LineFault::Expected(Expected::Number));
    }
    let mut number: u64 = 0;
    for byte in text {
        number = match with_digit(number, *byte) {
            Some(more) => more,
            None => return Err(LineFault::Expected(Expected::Number)),
        };
    }
    Ok(number)
}

fn with_digit(number: u64, byte: u8) -> Option<u64> {
    if !byte.is_ascii_digit() {
        return None;
    }
    let tens = number.checked_mul(10)?;
    let more = tens.checked_add(u64::from(byte.saturating_sub(b'0')))?;
    if more >> 63 == 0 { Some(more) } else { None }
}

/// A copy of some bytes.
pub fn copy_of(alloc: Global, bytes: &[u8]) -> Result<Vec<u8>, AllocError> {
    Vec::from_slice(alloc, bytes)
}

/// Whether a text is one name.
pub fn is_name(text: &[u8]) -> bool {
    match text.first() {
        Some(byte) => byte.is_ascii_alphabetic() && text.iter().all(|b| is_name_byte(*b)),
        None => false,
    }
}

/// A letter, a digit or `_`.
pub fn is_name_byte(byte: u8) -> bool {
    byte.is_ascii_alphanumeric() || byte == b'_'
}
