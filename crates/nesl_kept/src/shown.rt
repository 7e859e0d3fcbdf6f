//! Lines as they are shown.
ghost use Rattle.std.specs.Prelude.{◌≡◌, ◌++◌, IfOk, OnOk, flat_map};
ghost use Rattle.nesl_kept.specs.Rows.{IsShown, byte_shown};

use std::alloc::{AllocError, Global};

/// The digits of a byte.
const DIGITS: &[u8; 16] = b"0123456789abcdef";

/// Copies a line as it can be shown. A line that is no UTF-8, or that has control characters beside tabs, could harm a
/// terminal or a table: of such a line each byte that is no printable one of ASCII is written as `\x` and two digits.
pub(crate) fn shown(alloc: Global, line: &[u8]) -> Result<Vec<u8>, AllocError>
    ensures { IfOk result (λ shown. IsShown line.now shown.items) }
{
    if is_harmless(line) {
        return line.to_vec(alloc);
    }
    escaped(alloc, line)
}

// Copies a line, each byte as it is shown.
fn escaped(alloc: Global, line: &[u8]) -> Result<Vec<u8>, AllocError>
    ensures { IfOk result (λ shown. shown.items ≡ flat_map byte_shown line.now) }
{
    let mut shown = Vec::new(alloc);
    for byte in line {
        put_byte(&mut shown, *byte)?;
    }
    Ok(shown)
}

fn is_harmless(line: &[u8]) -> bool {
    match str::from_utf8(line) {
        Ok(text) => !text.chars().any(|c| c.is_control() && c != '\t'),
        Err(_) => false,
    }
}

// Writes a byte, by its number if it isn't a printable one.
fn put_byte(shown: &mut Vec<u8>, byte: u8) -> Result<(), AllocError>
    ensures { OnOk result (shown.new.items ≡ shown.old.items ++ byte_shown byte) }
{
    if byte >= b' ' && byte <= b'~' {
        shown.push(byte)?;
        return Ok(());
    }
    shown.extend_from_slice(b"\\x")?;
    shown.push(DIGITS[(byte / 16) as usize])?;
    shown.push(DIGITS[(byte % 16) as usize])?;
    Ok(())
}
