//! The texts of the input.

use crate::alone::put_rows;
use crate::prompts::put_prompted;
use crate::told::text_of;
use crate::ways::{request, try_text};
use std::alloc::{AllocError, Global};
use std::sync::Wait;
use std::thread::Threads;

/// Says all texts, and writes the answers.
pub fn put_texts<R: Threads + Wait + Sync>(
    rt: &R,
    alloc: Global,
    texts: &[u8],
    out: &mut Vec<u8>,
) -> Result<(), AllocError> {
    let mut title: &[u8] = b"";
    let mut said = Vec::with_capacity(alloc, texts.len())?;
    for line in texts.split(|byte| *byte == b'\n') {
        match line.strip_prefix(b"== ".as_slice()) {
            Some(next) => {
                put_text(rt, alloc, title, said.as_slice(), out)?;
                title = next;
                said.clear();
            }
            None => {
                said.push(b'\n')?;
                said.extend_from_slice(line)?;
            }
        }
    }
    put_text(rt, alloc, title, said.as_slice(), out)
}

// Says a text, each of whose lines follows a line end. What is before the first title is not said.
fn put_text<R: Threads + Wait + Sync>(
    rt: &R,
    alloc: Global,
    title: &[u8],
    said: &[u8],
    out: &mut Vec<u8>,
) -> Result<(), AllocError> {
    let said = said.strip_prefix(b"\n".as_slice()).unwrap_or(said);
    if title.is_empty() {
        return match text_of(said).strip_prefix("@requests ") {
            Some(count) => request(alloc, count),
            None => Ok(()),
        };
    }
    if said.starts_with(b"@by ") {
        return try_text(rt, alloc, text_of(title), text_of(said), out);
    }
    put_title(title, out)?;
    if title == b"alone".as_slice() {
        put_rows(alloc, said, out)
    } else {
        put_prompted(alloc, title, said, out)
    }
}

fn put_title(title: &[u8], out: &mut Vec<u8>) -> Result<(), AllocError> {
    out.extend_from_slice(b"== ")?;
    out.extend_from_slice(title)?;
    out.extend_from_slice(b"\n")
}

/// Whether a title has this word.
pub fn has_word(title: &[u8], word: &[u8]) -> bool {
    for one in title.split(|byte| *byte == b' ') {
        if one == word {
            return true;
        }
    }
    false
}
