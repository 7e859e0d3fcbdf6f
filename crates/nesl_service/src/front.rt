//! Reads the front of a stream.
ghost use Rattle.std.specs.Prelude.{◌≡◌, ℕ, ◌<◌, ◌≤◌, ◌++◌, List, false, length, option_map, take};
ghost use Rattle.nesl_service.specs.Opening.{front_of, is_refused};

use crate::opening::Opening;
use std::io;
use std::io::Read;

/// Reads a stream up to the first byte with which its first line can't name a user any more. To its callers, the stream
/// ends there.
#[derive(Drop)]
pub(crate) struct Front<T> {
    stream: T,
    opening: Opening,
}

impl<T> Front<T> {
    pub(crate) fn new(stream: T) -> Front<T>
        ensures stream { result.stream ≡ stream }
        ensures opening { result.opening ≡ Opening.Word 0 }
    {
        Front {
            stream,
            opening: Opening::new(),
        }
    }

    /// Returns the stream.
    pub(crate) fn into_inner(self) -> T
        ensures { result ≡ self.stream }
    {
        self.stream
    }

    // Notes which bytes have arrived. Returns how many of them belong to the front.
    fn note(&mut self, bytes: &[u8]) -> usize
        requires { is_refused self.old.opening ≡ false }
        ensures stream { self.new.stream ≡ self.old.stream }
        ensures count { result ≤ length bytes.now }
        ensures some { 0 < length bytes.now → 0 < result }
        ensures front { (rest : List ℕ) → front_of self.old.opening (bytes.now ++ rest)
            ≡ take result bytes.now ++ front_of self.new.opening rest }
    {
        for (place, byte) in bytes.iter().enumerate() {
            self.opening = self.opening.after(*byte);
            if self.opening.is_refused() {
                return place + 1;
            }
        }
        bytes.len()
    }
}

impl<T: Read> Read for Front<T> {
    ghost remaining = { λ front. option_map (front_of front.opening) (T.remaining front.stream) };

    fn read(&mut self, buf: &mut [u8]) -> io::Result<usize> {
        if self.opening.is_refused() {
            return Ok(0);
        }
        match self.stream.read(buf) {
            Ok(count) => Ok(self.note(&buf[..count])),
            Err(error) => Err(error),
        }
    }
}
