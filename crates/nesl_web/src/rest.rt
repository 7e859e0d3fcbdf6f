//! The unread rest of a line.
ghost use Rattle.std.specs.Prelude.{◌≡◌, ◌≤◌, ◌↔◌, ◌++◌, ◌∷◌, [], length, min, take, vec_len, IfOk, IsTrue};

use std::alloc::{AllocError, Global};

/// The bytes of a line and its line end that weren't read yet.
#[derive(Drop)]
pub struct Rest {
    bytes: Vec<u8>,
    at: usize,
    ghost within: { at ≤ vec_len bytes },
}

impl Rest {
    ghost use Rattle.nesl_web.specs.Rest.{left_of};

    /// An empty rest.
    pub fn new(alloc: Global) -> Rest
        ensures { left_of result ≡ [] }
    {
        Rest {
            bytes: Vec::new(alloc),
            at: 0,
        }
    }

    /// A whole line, with its line end added.
    pub fn of(alloc: Global, line: &[u8]) -> Result<Rest, AllocError>
        ensures { IfOk result (λ rest. left_of rest ≡ line.now ++ 10 ∷ []) }
    {
        let mut bytes = Vec::from_slice(alloc, line)?;
        bytes.push(b'\n')?;
        Ok(Rest { bytes, at: 0 })
    }

    pub fn is_empty(&self) -> bool
        ensures { IsTrue result ↔ (length (left_of self.now) ≡ 0) }
    {
        self.at == self.bytes.len()
    }

    /// Moves as many bytes as fit into `room`, and returns their number.
    pub fn give(&mut self, room: &mut [u8]) -> usize
        ensures given { left_of self.old ≡ take result room.new ++ left_of self.new }
        ensures count { result ≡ min (length (left_of self.old)) (length room.old) }
    {
        let count = room.len().min(self.bytes.len() - self.at);
        room[..count].copy_from_slice(&self.bytes[self.at..self.at + count]);
        self.at += count;
        count
    }
}
