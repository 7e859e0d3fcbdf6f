//! Values of parts of a form, where they are short.

use crate::faults::asked::Asked;
use crate::faults::effort::{Effort, Evaluated};
use nesl_eval::Outcome;
use nesl_reply::value_text;
use nesl_syntax_tree::tree::Exp;
use nesl_types::Ty;
use nesl_values::Value;
use std::alloc::AllocError;

/// The most nodes of a value that a sentence has.
const MOST_NODES: u64 = 16;

/// What a part of a form evaluates to, in words: a short value, or the number of its elements. It is `None` for a part
/// with a local name in it.
pub(crate) fn value_of(
    asked: &Asked<'_>,
    effort: &mut Effort,
    part: &Exp,
) -> Result<Option<Vec<u8>>, AllocError> {
    let Some(Evaluated { ty, outcome }) = effort.evaluate(asked, part) else {
        return Ok(None);
    };
    match outcome {
        Outcome::Done { value, .. } => in_words(asked, &value, &ty),
        Outcome::Memory => Err(AllocError),
        _ => Ok(None),
    }
}

// A short value, or the number of its elements.
fn in_words(asked: &Asked<'_>, value: &Value, ty: &Ty) -> Result<Option<Vec<u8>>, AllocError> {
    if value.nodes() <= MOST_NODES {
        let context = asked.environment().context();
        let text = value_text(asked.alloc, value, ty, context)?;
        return Ok(Some(text));
    }
    match value.sequence_len() {
        Some(len) => {
            let text = format!(in asked.alloc; "a sequence of {len} elements")?;
            Ok(Some(text.into_bytes()))
        }
        None => Ok(None),
    }
}
