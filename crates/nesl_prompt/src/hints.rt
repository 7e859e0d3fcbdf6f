//! Hints below faults.

use nesl_hints::{Hint, hint_below};
use nesl_line::hinted::Hinter;
use nesl_session::answer::Answer;
use nesl_session::session::Session;
use std::alloc::{AllocError, Global};

/// The hints of a batch. Each begins with its place in the form, as two byte offsets.
#[derive(Clone, Copy, PartialEq, Eq, Debug)]
pub struct Hints;

impl Hinter for Hints {
    fn hint(
        &self,
        alloc: Global,
        session: &Session,
        form: &[u8],
        answer: &Answer,
    ) -> Option<Vec<u8>> {
        match placed_sentence(alloc, session, form, answer) {
            Ok(sentence) => sentence,
            Err(_) => None,
        }
    }
}

// Returns the sentence of a hint, after its place.
fn placed_sentence(
    alloc: Global,
    session: &Session,
    form: &[u8],
    answer: &Answer,
) -> Result<Option<Vec<u8>>, AllocError> {
    let Some(hint) = hint_on(alloc, session, form, answer)? else {
        return Ok(None);
    };
    let place = format!(in alloc; "at {}..{}: ", hint.place.start, hint.place.end)?;
    let mut text = Vec::from_slice(alloc, place.as_bytes())?;
    text.extend_from_slice(hint.sentence.as_slice())?;
    Ok(Some(text))
}

/// Returns the hint on a form, if there is one. `answer` is the session's last answer, and the answer to this form.
pub(crate) fn hint_on(
    alloc: Global,
    session: &Session,
    form: &[u8],
    answer: &Answer,
) -> Result<Option<Hint>, AllocError> {
    match answer.fault() {
        Some(fault) => hint_below(alloc, session, form, fault),
        None => Ok(None),
    }
}
