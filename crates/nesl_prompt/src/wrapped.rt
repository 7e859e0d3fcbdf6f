//! Text broken into lines that fit a screen.

use std::alloc::AllocError;

/// The most columns of a line, its indent included.
pub const MOST_COLUMNS: usize = 78;

/// Writes a text from this column on, and ends the line. It breaks the text at spaces, so that lines are at most
/// `MOST_COLUMNS` long. Each line but the first begins with `indent`.
pub fn put_wrapped(
    out: &mut Vec<u8>,
    text: &[u8],
    column: usize,
    indent: &[u8],
) -> Result<(), AllocError> {
    let mut column = column;
    for (place, byte) in text.iter().enumerate() {
        let len = word_len(text, place.saturating_add(1));
        if *byte == b' ' && column.saturating_add(len) >= MOST_COLUMNS {
            out.push(b'\n')?;
            out.extend_from_slice(indent)?;
            column = indent.len();
        } else {
            out.push(shown(*byte))?;
            column = column.saturating_add(1);
        }
    }
    out.push(b'\n')?;
    Ok(())
}

/// Returns a byte as it is shown: a question mark if it isn't printable.
pub fn shown(byte: u8) -> u8 {
    match byte {
        32..=126 => byte,
        b'\t' => b' ',
        _ => b'?',
    }
}

// Counts the bytes from this place to the next space.
fn word_len(text: &[u8], place: usize) -> usize {
    let rest = text.get(place..).unwrap_or(&[]);
    rest.iter().take_while(|byte| **byte != b' ').count()
}
