//! One line, which comes in piece by piece.
ghost use Rattle.std.specs.Prelude.{◌≡◌, ℕ, ◌≤◌, ◌==◌, ◌++◌, [], List, IfOk, length, vec_len};
ghost use Rattle.std.specs.Vec.{vec_capacity};
ghost use Rattle.nesl_line.specs.Lines.{handed, most_handed};

use nesl_session::LONGEST;
use std::alloc::{AllocError, Global};

/// The most bytes of a line that are handed on: one more than a form may have.
pub const MOST_HANDED: usize = LONGEST + 1;

// What has come in of a line: its first bytes, and whether there were more.
#[derive(Drop)]
pub struct Line {
    bytes: Vec<u8>,
    is_longer: bool,
    ghost room: { most_handed ≤ vec_capacity bytes },
    ghost short: { vec_len bytes ≤ most_handed },
}

impl Line {
    ghost use Rattle.nesl_line.specs.Steps.{HasFront};

    // An empty line, with room for all that is kept.
    pub fn new(alloc: Global) -> Result<Line, AllocError>
        ensures { IfOk result (λ line. HasFront line []) }
    {
        let bytes = Vec::with_capacity(alloc, MOST_HANDED)?;
        Ok(Line {
            bytes,
            is_longer: false,
        })
    }

    // The bytes that are kept.
    pub fn bytes(&self) -> &[u8]
        ensures { result.now ≡ self.now.bytes.items }
    {
        self.bytes.as_slice()
    }

    // Adds more bytes of the line.
    pub fn add(&mut self, more: &[u8])
        ensures { (raw : List ℕ) → HasFront self.old raw → HasFront self.new (raw ++ more.now) }
    {
        let kept = more.len().min(MOST_HANDED - self.bytes.len());
        if self.bytes.extend_from_slice(&more[..kept]).is_err() {
            unreachable!();
        }
        if kept < more.len() {
            self.is_longer = true;
        }
    }

    // Ends the line at its LF. What is kept then is handed on.
    pub fn end(&mut self)
        ensures { (raw : List ℕ) → HasFront self.old raw → self.new.bytes.items ≡ handed raw }
    {
        let n = self.bytes.len();
        if !self.is_longer && n > 0 && self.bytes[n - 1] == b'\r' {
            self.bytes.truncate(n - 1);
        }
    }

    // Begins another line.
    pub fn clear(&mut self)
        ensures { HasFront self.new [] }
    {
        self.bytes.clear();
        self.is_longer = false;
    }
}
