//! Limits of an exercise, read from their lines.

use crate::bytes::{number_of, split_at};
use crate::fault::{Expected, LineFault};

/// The limits that an exercise sets.
#[derive(Clone, Copy)]
pub struct OwnLimits {
    pub line_work: Option<u64>,
    pub session_work: Option<u64>,
    pub elements: Option<u64>,
}

/// Reads a line of a block of limits.
pub fn parse_limit(limits: &mut OwnLimits, line: &[u8]) -> Result<(), LineFault> {
    let line = line.trim_ascii();
    if line.is_empty() {
        return Ok(());
    }
    let Some((name, number)) = split_at(line, b" ") else {
        return Err(LineFault::Expected(Expected::Limit));
    };
    let number = number_of(number)?;
    if name == b"line_work".as_slice() {
        limits.line_work = Some(number);
    } else if name == b"session_work".as_slice() {
        limits.session_work = Some(number);
    } else if name == b"elements".as_slice() {
        limits.elements = Some(number);
    } else {
        return Err(LineFault::Expected(Expected::Limit));
    }
    Ok(())
}
