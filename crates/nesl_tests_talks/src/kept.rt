//! The lines that were kept: those that weren't answered for want of memory.
use crate::told::{Told, text_of};
use std::alloc::{AllocError, Global};

const REFUSED: &str = "fault memory (work 0)";

/// Whether a line was answered for want of memory.
pub fn has_refused(told: &Told) -> bool {
    text_of(told.answers.as_slice())
        .lines()
        .any(|answer| answer == REFUSED)
}

/// The lines of a text that were kept.
pub fn kept(alloc: Global, text: &str, told: &Told) -> Result<String, AllocError> {
    let mut kept = String::new(alloc);
    let answers = text_of(told.answers.as_slice());
    for (line, answer) in text.lines().zip(answers.lines()) {
        if answer != REFUSED {
            kept.push_str(line)?;
            kept.push('\n')?;
        }
    }
    Ok(kept)
}

/// Whether the kept lines alone have the same answers, and leave the sessions the same.
pub fn is_same(told: &Told, alone: &Told) -> bool {
    let answers = text_of(told.answers.as_slice()).lines();
    let kept = answers.filter(|answer| *answer != REFUSED);
    let is_standing = told.standing.as_slice() == alone.standing.as_slice();
    is_standing && kept.eq(text_of(alone.answers.as_slice()).lines())
}
