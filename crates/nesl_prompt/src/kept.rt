//! The forms that `:list` and `:save` write.

use crate::typed::Typed;
use nesl_session::answer::Answer;
use std::alloc::{AllocError, Global};

/// What a form that is kept did.
#[derive(Drop)]
enum Effect {
    /// It was a comment.
    Comment,
    /// It bound a name to a value.
    Value { name: Vec<u8> },
    /// It defined a function or a datatype, and this was the reply, without its line end.
    Callable { name: Vec<u8>, reply: Vec<u8> },
}

/// A form that is kept.
#[derive(Drop)]
struct Entry {
    typed: Typed,
    effect: Effect,
}

/// The forms that bound names and the comments since the last reset, in the order in which they were typed.
#[derive(Drop)]
pub struct Kept {
    entries: Vec<Entry>,
}

impl Kept {
    pub fn new(alloc: Global) -> Kept {
        Kept {
            entries: Vec::new(alloc),
        }
    }

    /// Keeps a form if its answer shows that it bound a name, or that it was a comment. If the form was a reset, all
    /// kept forms are dropped.
    pub fn note(&mut self, alloc: Global, typed: Typed, answer: &Answer) -> Result<(), AllocError> {
        if answer.fault().is_some() {
            return Ok(());
        }
        let reply = answer.bytes();
        if reply.starts_with(b"reset: ") {
            self.entries.clear();
            return Ok(());
        }
        if let Some(effect) = effect_of(alloc, typed.form.as_slice(), reply)? {
            self.entries.push(Entry { typed, effect })?;
        }
        Ok(())
    }

    /// The number of forms, without comments.
    pub fn count_forms(&self) -> usize {
        let forms = self.entries.iter().filter(|entry| !is_comment(entry));
        forms.count()
    }

    /// Returns the last reply to a definition of this name, if the name is still a function or a datatype.
    pub fn callable(&self, name: &[u8]) -> Option<&[u8]> {
        for entry in self.entries.iter().rev() {
            match &entry.effect {
                Effect::Value { name: bound } if bound.as_slice() == name => return None,
                Effect::Callable { name: bound, reply } if bound.as_slice() == name => {
                    return Some(reply.as_slice());
                }
                _ => {}
            }
        }
        None
    }

    /// Writes the forms and comments as they were typed.
    pub fn put(&self, out: &mut Vec<u8>) -> Result<(), AllocError> {
        for entry in &self.entries {
            entry.typed.put(out)?;
            out.push(b'\n')?;
        }
        Ok(())
    }
}

fn is_comment(entry: &Entry) -> bool {
    match entry.effect {
        Effect::Comment => true,
        Effect::Value { .. } | Effect::Callable { .. } => false,
    }
}

// Returns what a form did that was answered by this reply, if it is kept.
fn effect_of(alloc: Global, form: &[u8], reply: &[u8]) -> Result<Option<Effect>, AllocError> {
    if reply == b"ok\n".as_slice() && !form.trim_ascii().is_empty() {
        return Ok(Some(Effect::Comment));
    }
    let (name, rest) = cut_name(reply);
    if rest.starts_with(b" = ") {
        let name = Vec::from_slice(alloc, name)?;
        return Ok(Some(Effect::Value { name }));
    }
    if !rest.starts_with(b" : ") {
        return Ok(None);
    }
    let name = Vec::from_slice(alloc, name)?;
    let text = reply.strip_suffix(b"\n".as_slice()).unwrap_or(reply);
    let reply = Vec::from_slice(alloc, text)?;
    Ok(Some(Effect::Callable { name, reply }))
}

// Splits a reply after the name that it begins with.
fn cut_name(reply: &[u8]) -> (&[u8], &[u8]) {
    let len = reply
        .iter()
        .take_while(|byte| byte.is_ascii_alphanumeric() || **byte == b'_')
        .count()
        .min(reply.len());
    reply.split_at(len)
}
