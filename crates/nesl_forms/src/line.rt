//! The line of a form, as a session takes it.
ghost use Rattle.std.specs.Prelude.{◌≡◌, ◌++◌, IfOk, OnOk, false, reverse};
ghost use Rattle.nesl_lex.specs.Lexemes.{AllBytes, is_blank};
ghost use Rattle.nesl_forms.specs.Lines.{ends_soon, flat, flat_byte, is_no_feed, is_part, line_of, trimmed};

use crate::scan::StretchKind;
use std::alloc::{AllocError, Global};

fn is_blank(byte: u8) -> bool
    ensures { result ≡ is_blank byte }
{
    byte == b' ' || byte == b'\t' || byte == b'\r'
}

// Whether only blanks come before the next line end.
fn ends_soon(rest: &[u8]) -> bool
    ensures { result ≡ ends_soon rest.now }
{
    for byte in rest {
        if !is_blank(*byte) {
            return *byte == b'\n';
        }
    }
    true
}

// Returns the byte, or a blank in place of a line end and of a `\` that its line ends in.
fn flat_byte(byte: u8, rest: &[u8]) -> u8
    ensures { result ≡ flat_byte byte rest.now }
{
    if byte == b'\n' || (byte == b'\\' && ends_soon(rest)) {
        b' '
    } else {
        byte
    }
}

// Appends the bytes of a form, with blanks in place of line ends.
fn put_flat(line: &mut Vec<u8>, form: &[u8]) -> Result<(), AllocError>
    ensures { OnOk result (line.new.items ≡ line.old.items ++ flat form.now) }
{
    let mut rest = form;
    while let Some((byte, after)) = rest.split_first() {
        line.push(flat_byte(*byte, after))?;
        rest = after;
    }
    Ok(())
}

// Drops the blanks and `\` at the end.
fn trim(line: &mut Vec<u8>)
    ensures { line.new.items ≡ reverse (trimmed (reverse line.old.items)) }
{
    while let Some(byte) = line.last() {
        if !is_blank(*byte) && *byte != b'\\' {
            return;
        }
        let _ = line.pop();
    }
}

/// Returns the line of a form of this kind, with these bytes.
pub fn line_of(alloc: Global, kind: StretchKind, form: &[u8]) -> Result<Vec<u8>, AllocError>
    ensures line { IfOk result (λ line. line.items ≡ line_of kind form.now) }

    // It is one line, and a session takes it for a whole form.
    ensures one { IfOk result (λ line. AllBytes is_no_feed line.items) }
    ensures whole { IfOk result (λ line. is_part line.items ≡ false) }
{
    let line = made(alloc, kind, form)?;
    Ok(line)
}

fn made(alloc: Global, kind: StretchKind, form: &[u8]) -> Result<Vec<u8>, AllocError>
    ensures { IfOk result (λ line. line.items ≡ line_of kind form.now) }
{
    let mut line = Vec::with_capacity(alloc, form.len())?;
    put_flat(&mut line, form)?;
    match kind {
        StretchKind::Unfinished => line.push(b';')?,
        StretchKind::Line => trim(&mut line),
        StretchKind::Whole | StretchKind::LeftOut => {}
    }
    Ok(line)
}
