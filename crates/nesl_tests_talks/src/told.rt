//! The result of a text.
use std::alloc::{AllocError, Global};

/// The bytes that all answers to a text have room in.
pub const ROOM: usize = 65_536;

/// What comes of a text.
#[derive(Drop)]
pub struct Told {
    /// The answers, a line for each line of the text.
    pub answers: Vec<u8>,
    /// What the sessions are in the end.
    pub standing: Vec<u8>,
    /// How many calls wanted memory in their own form, and were made once more.
    pub repeated: u64,
    /// Whether a call that was refused memory left all as it was.
    pub is_unchanged: bool,
}

impl Told {
    /// Nothing, with room for all answers.
    pub fn new(alloc: Global) -> Result<Told, AllocError> {
        Ok(Told {
            answers: Vec::with_capacity(alloc, ROOM)?,
            standing: Vec::new(alloc),
            repeated: 0,
            is_unchanged: true,
        })
    }

    /// Notes that a call is made once more, and whether it left all as it was.
    pub fn repeat(&mut self, is_unchanged: bool) {
        self.repeated = self.repeated.saturating_add(1);
        self.is_unchanged &= is_unchanged;
    }
}

/// Why there is no result.
#[derive(Clone, Copy, PartialEq, Eq)]
pub enum Refusal {
    /// The call wanted memory in its own form.
    Call,
    /// This program wanted memory.
    Own,
}

impl From<AllocError> for Refusal {
    fn from(_refused: AllocError) -> Refusal {
        Refusal::Own
    }
}

/// Bytes as text.
pub fn text_of(bytes: &[u8]) -> &str {
    str::from_utf8(bytes).unwrap_or("")
}

/// Writes a text, if there was memory for it.
pub fn put(out: &mut Vec<u8>, text: Result<String, AllocError>) -> Result<(), AllocError> {
    out.extend_from_slice(text?.as_bytes())
}

/// Writes a line.
pub fn put_line(out: &mut Vec<u8>, line: &str) -> Result<(), AllocError> {
    out.extend_from_slice(line.as_bytes())?;
    out.extend_from_slice(b"\n")
}
