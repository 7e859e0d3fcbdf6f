//! Long replies, which are written without their middle.
ghost use Rattle.std.specs.Prelude.{◌≡◌, ◌++◌, false, true, Bool, IfOk};
ghost use Rattle.nesl_prompt.specs.Conversation.{IsWritten};

use crate::style::Style;
use std::alloc::{AllocError, Global};

/// The most bytes of a reply that is written whole: 24 lines of 80.
const MOST_WHOLE: usize = 1_920;

/// How many bytes of a long reply come before what is left out: 16 lines.
const FRONT: usize = 1_280;

/// How many come after it: 3 lines.
const REST: usize = 240;

/// Whether a reply is cut: where there are prompts, if it is long.
pub fn is_cut(style: Style, reply: &[u8]) -> bool
    ensures { result ≡ true → style.prompts ≡ true }
{
    style.prompts && reply.len() > MOST_WHOLE
}

/// Returns a reply without its middle, if it is long, and then `more`.
pub fn cut_reply(alloc: Global, reply: &[u8], more: &[u8]) -> Result<Vec<u8>, AllocError>
    ensures { IfOk result (λ text. (plain : Bool) → plain ≡ false → IsWritten plain reply.now more.now text.items) }
{
    let (front, back) = reply.split_at(FRONT.min(reply.len()));
    let (left_out, rest) = back.split_at(back.len().saturating_sub(REST));
    let note = note_on(alloc, left_out.len())?;
    match joined(alloc, front, note.as_bytes(), rest, more) {
        Ok(text) => Ok(text),
        Err(error) => Err(error),
    }
}

fn joined(
    alloc: Global,
    front: &[u8],
    note: &[u8],
    rest: &[u8],
    more: &[u8],
) -> Result<Vec<u8>, AllocError>
    ensures { IfOk result (λ text. text.items ≡ front.now ++ note.now ++ rest.now ++ more.now) }
{
    let mut text = Vec::from_slice(alloc, front)?;
    text.extend_from_slice(note)?;
    text.extend_from_slice(rest)?;
    text.extend_from_slice(more)?;
    Ok(text)
}

// Returns the note in place of what is left out.
fn note_on(alloc: Global, count: usize) -> Result<String, AllocError> {
    format!(in alloc; "..\n  ({count} bytes are left out; `:more` writes the whole reply)\n..")
}
