//! Texts that are said at a prompt, or in a batch with hints.

use crate::devices::{Paper, Tape};
use crate::drawer::Drawer;
use crate::limits::{HEAP_BYTES, LIMITS};
use crate::loud::Loud;
use crate::standing::roster;
use crate::texts::has_word;
use linked_list_allocator::LocalHeap;
use nesl_house::house::House;
use nesl_house::manner::{InHeap, Plainly};
use nesl_line::device::{Device, Sink, Source};
use nesl_line::exchange::{End, Ran};
use nesl_line::hinted::batch_with_hints;
use nesl_prompt::converse::{converse, converse_over};
use nesl_prompt::hints::Hints;
use nesl_prompt::shelf::{Access, Guarded};
use nesl_prompt::style::Style;
use nesl_session::session::Session;
use std::alloc::{AllocError, Global};

/// How many bytes a short writer takes.
const SHORT: usize = 100;

/// Says a text as its title wants, and writes the answers, how many lines were heard, and how it ended.
pub fn put_prompted(
    alloc: Global,
    title: &[u8],
    said: &[u8],
    out: &mut Vec<u8>,
) -> Result<(), AllocError> {
    let room = if has_word(title, b"short") {
        SHORT
    } else {
        usize::MAX
    };
    let mut reader = Device::new(Tape {
        rest: said,
        is_torn: has_word(title, b"torn"),
    });
    let mut writer = Device::new(Paper::with_room(alloc, room));
    let ran = if has_word(title, b"batch") {
        batch(alloc, title, &mut reader, &mut writer)?
    } else {
        prompt(alloc, title, &mut reader, &mut writer)?
    };
    let told = writer.into_inner().bytes;
    out.extend_from_slice(told.as_slice())?;
    if is_whole_and_plain(title) && !is_same_over(alloc, title, said, told.as_slice())? {
        out.extend_from_slice(b"-- and another text by `converse_over`\n")?;
    }
    put_end(alloc, told.as_slice(), ran, out)
}

// Whether a text is said at a prompt that writes replies alone, and no device fails.
fn is_whole_and_plain(title: &[u8]) -> bool {
    let words: [&[u8]; 5] = [b"prompts", b"hints", b"batch", b"torn", b"short"];
    words.iter().all(|word| !has_word(title, *word))
}

// Whether these are the bytes that `converse_over` returns for the text.
fn is_same_over(alloc: Global, title: &[u8], said: &[u8], told: &[u8]) -> Result<bool, AllocError> {
    let mut session = Session::new(alloc, LIMITS)?;
    let drawer = Drawer::new(alloc)?;
    let written = converse_over(alloc, said, &mut session, &files_for(title, &drawer))?;
    Ok(written.as_slice() == told)
}

// Says a text at a prompt.
fn prompt<S: Source, W: Sink>(
    alloc: Global,
    title: &[u8],
    reader: &mut S,
    writer: &mut W,
) -> Result<Ran, AllocError> {
    let style = Style {
        prompts: has_word(title, b"prompts"),
        hints: has_word(title, b"hints"),
    };
    let mut session = Session::new(alloc, LIMITS)?;
    let drawer = Drawer::new(alloc)?;
    let files = files_for(title, &drawer);
    Ok(converse(alloc, reader, writer, &mut session, &files, style))
}

// The files that a prompt may open.
fn files_for<'x>(title: &[u8], drawer: &'x Drawer) -> Guarded<'x, Drawer> {
    Guarded {
        files: drawer,
        access: if has_word(title, b"closed") {
            Access::Refused
        } else {
            Access::Granted
        },
    }
}

// Says a text in a batch of ann and bob.
fn batch<S: Source, W: Sink>(
    alloc: Global,
    title: &[u8],
    reader: &mut S,
    writer: &mut W,
) -> Result<Ran, AllocError> {
    let roster = roster(alloc)?;
    let Ok(mut house) = House::new(alloc, roster.as_slice(), LIMITS) else {
        return Err(AllocError);
    };
    if has_word(title, b"loud") {
        return Ok(batch_with_hints(alloc, reader, writer, &mut house, &Plainly, &Loud));
    }
    if has_word(title, b"heap") {
        let heap = LocalHeap::new(alloc, HEAP_BYTES)?;
        let manner = InHeap(&heap);
        return Ok(batch_with_hints(alloc, reader, writer, &mut house, &manner, &Hints));
    }
    Ok(batch_with_hints(alloc, reader, writer, &mut house, &Plainly, &Hints))
}

// Writes how many lines were heard, and how that ended.
fn put_end(alloc: Global, told: &[u8], ran: Ran, out: &mut Vec<u8>) -> Result<(), AllocError> {
    if !told.is_empty() && !told.ends_with(b"\n") {
        out.push(b'\n')?;
    }
    let how = match ran.end {
        End::Input => "heard to the end",
        End::ReadFault => "and a read failed",
        End::WriteFault => "and a write failed",
        End::NoMemory => "and there was no memory",
    };
    let text = format!(in alloc; "-- {} lines, {how}\n\n", ran.lines)?;
    out.extend_from_slice(text.as_bytes())
}
