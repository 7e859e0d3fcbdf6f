//! Reads a connection that has to open two doors.
ghost use Rattle.std.specs.Prelude.{◌≡◌, ℕ, List, option_map};
ghost use Rattle.std.specs.Io.KnownBytes.{Keeps};
ghost use Rattle.nesl_keys.specs.Hearing.{heard};
ghost use Rattle.nesl_keys.specs.Reading.{heard_through, line_through, stream_behind};

use crate::admitted::{Admitted, Door};
use crate::sign_in::TurnedAway;
use std::io;
use std::io::Read;

/// Reads what a service hears of a connection whose first line has to open one door, and what is heard of that the
/// next one.
#[derive(Drop)]
pub struct Doors<'k, T> {
    reader: Admitted<'k, Admitted<'k, T>>,
}

impl<'k, T> Doors<'k, T> {
    pub fn new(stream: T, first: Door<'k>, second: Door<'k>) -> Doors<'k, T>
        ensures stream { stream_behind result ≡ stream }
        ensures heard { (bytes : List ℕ) → heard_through result bytes ≡ heard second.entry (heard first.entry bytes) }
    {
        Doors {
            reader: Admitted::new(Admitted::new(stream, first), second),
        }
    }

    /// Returns the stream.
    pub fn into_inner(self) -> T
        ensures { result ≡ stream_behind self.entry }
    {
        self.reader.into_inner().into_inner()
    }

    /// Returns the line with its LF that is heard in place of the first one where the first door lets somebody in,
    /// unless the second one has turned them away.
    pub fn line(&self) -> Option<&[u8]>
        ensures { option_map (λ line. line.now) result ≡ line_through self.now }
    {
        match self.reader.away() {
            Some(_) => None,
            None => self.reader.inner().line(),
        }
    }

    /// Returns why somebody was turned away.
    pub fn away(&self) -> Option<TurnedAway> {
        self.reader.away().or(self.reader.inner().away())
    }
}

impl<T: Read> Doors<'_, T> {
    /// Listens until the first line is answered at both doors.
    pub fn listen(&mut self) -> io::Result<()>
        ensures { Keeps (option_map (heard_through self.old) (T.remaining (stream_behind self.old)))
            (option_map (heard_through self.new) (T.remaining (stream_behind self.new))) }
    {
        self.reader.listen_within()?;
        self.reader.listen()
    }
}

impl<T: Read> Read for Doors<'_, T> {
    ghost remaining = { λ doors. option_map (heard_through doors) (T.remaining (stream_behind doors)) };

    fn read(&mut self, buf: &mut [u8]) -> io::Result<usize> {
        self.reader.read(buf)
    }
}
