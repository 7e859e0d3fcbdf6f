//! What is written.

use std::alloc::AllocError;

/// Writes a line.
pub fn put_line(out: &mut Vec<u8>, line: &[u8]) -> Result<(), AllocError> {
    out.extend_from_slice(line)?;
    out.extend_from_slice(b"\n")
}

/// Writes a text, if there was memory for it.
pub fn put(out: &mut Vec<u8>, text: Result<String, AllocError>) -> Result<(), AllocError> {
    out.extend_from_slice(text?.as_bytes())
}

/// Writes a text after what was to be done first, if that was done.
pub fn put_done(
    done: Result<(), AllocError>,
    text: &[u8],
    out: &mut Vec<u8>,
) -> Result<(), AllocError> {
    done?;
    out.extend_from_slice(text)
}

/// Writes that a directive can't be read, unless it was.
pub fn put_unread(is_read: bool, out: &mut Vec<u8>) -> Result<(), AllocError> {
    if is_read { Ok(()) } else { put_wrong(out) }
}

/// Writes that a directive can't be read.
pub fn put_wrong(out: &mut Vec<u8>) -> Result<(), AllocError> {
    put_line(out, b"no such directive")
}
