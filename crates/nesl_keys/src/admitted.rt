//! Reads a connection whose first line says who it is.
ghost use Rattle.std.specs.Prelude.{◌≡◌, ◌≢◌, ℕ, List, OnOk, option_map};
ghost use Rattle.std.specs.Io.KnownBytes.{Keeps};
ghost use Rattle.nesl_keys.specs.Hearing.{heard};
ghost use Rattle.nesl_keys.specs.Reading.{heard_from, line_from, stream_of};
ghost use Rattle.nesl_keys.specs.declared.porter.Stage.TheVariants.{Listening};

use crate::porter::Porter;
use crate::sign_in::{SignIn, TurnedAway};
use std::io;
use std::io::{ErrorKind, Read};

/// How a connection's user is known, with what it came with besides its first line.
#[derive(Clone, Copy)]
pub struct Door<'k> {
    pub sign_in: SignIn<'k>,
    /// The values of all headers that are looked at, in the order of the request.
    pub headers: &'k [&'k [u8]],
    /// What follows the first question mark of the address, as it was sent.
    pub query: &'k [u8],
}

impl<'k> Door<'k> {
    pub fn new(sign_in: SignIn<'k>, headers: &'k [&'k [u8]], query: &'k [u8]) -> Door<'k>
        ensures { result ≡ record { sign_in = sign_in.entry; headers = headers.entry; query = query.entry } }
    {
        Door {
            sign_in,
            headers,
            query,
        }
    }
}

/// Reads what a service hears of a connection. In place of the first line that is the line that names the user who is
/// let in, and then all that follows. If nobody is, it is an empty line, and then the end.
#[derive(Drop)]
pub struct Admitted<'k, T> {
    stream: T,
    porter: Porter<'k>,
}

impl<'k, T> Admitted<'k, T> {
    pub fn new(stream: T, door: Door<'k>) -> Admitted<'k, T>
        ensures stream { stream_of result ≡ stream }
        ensures heard { (bytes : List ℕ) → heard_from result bytes ≡ heard door.entry bytes }
    {
        Admitted {
            stream,
            porter: Porter::new(door),
        }
    }

    /// Returns the stream.
    pub fn into_inner(self) -> T
        ensures { result ≡ stream_of self.entry }
    {
        self.stream
    }

    /// Lends the stream.
    pub fn inner(&self) -> &T
        ensures { result.now ≡ stream_of self.now }
    {
        &self.stream
    }

    /// Returns the line that is heard in place of the first one with its LF, if somebody was let in.
    pub fn line(&self) -> Option<&[u8]>
        ensures { option_map (λ line. line.now) result ≡ line_from self.now }
    {
        self.porter.line()
    }

    /// Returns why somebody was turned away.
    pub fn away(&self) -> Option<TurnedAway>
        ensures { result ≡ self.now.porter.away }
    {
        self.porter.away()
    }
}

impl<T: Read> Admitted<'_, T> {
    /// Listens until the first line is answered. A line that is longer than a first line can be is answered before its
    /// end.
    pub fn listen(&mut self) -> io::Result<()>
        ensures answered { OnOk result (self.new.porter.stage ≢ Listening) }
        ensures heard { Keeps (option_map (heard_from self.old) (T.remaining (stream_of self.old)))
            (option_map (heard_from self.new) (T.remaining (stream_of self.new))) }
    {
        for _ in 0..u64::MAX {
            if !self.porter.is_listening() {
                return Ok(());
            }
            self.listen_once()?;
        }
        Err(io::Error::from(ErrorKind::TimedOut))
    }

    // Listens to a byte.
    fn listen_once(&mut self) -> io::Result<()>
        requires { self.old.porter.stage ≡ Listening }
        ensures { Keeps (option_map (heard_from self.old) (T.remaining (stream_of self.old)))
            (option_map (heard_from self.new) (T.remaining (stream_of self.new))) }
    {
        let mut byte = [0; 1];
        match self.stream.read(&mut byte) {
            Ok(0) => self.porter.end(),
            Ok(_) => self.porter.hear(byte[0]),
            Err(error) => return Err(error),
        }
        Ok(())
    }
}

impl<T: Read> Admitted<'_, Admitted<'_, T>> {
    /// Lets the stream listen, where that is such a reader, too.
    pub fn listen_within(&mut self) -> io::Result<()>
        ensures { Keeps (option_map (heard_from self.old) (option_map (heard_from (stream_of self.old))
            (T.remaining (stream_of (stream_of self.old)))))
            (option_map (heard_from self.new) (option_map (heard_from (stream_of self.new))
            (T.remaining (stream_of (stream_of self.new))))) }
    {
        self.stream.listen()
    }
}

impl<T: Read> Read for Admitted<'_, T> {
    ghost remaining = { λ admitted. option_map (heard_from admitted) (T.remaining (stream_of admitted)) };

    fn read(&mut self, buf: &mut [u8]) -> io::Result<usize> {
        self.listen()?;
        if !self.porter.is_done() {
            return Ok(self.porter.tell(buf));
        }
        if self.porter.is_ending() {
            return Ok(0);
        }
        self.stream.read(buf)
    }
}
