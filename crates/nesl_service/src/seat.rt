//! Reads a connection whose user gets a seat.
ghost use Rattle.std.specs.Prelude.{◌≡◌, ℕ, IfOk, List, option_map};
ghost use Rattle.std.specs.Io.KnownBytes.{Keeps};
ghost use Rattle.nesl_keys.specs.Hearing.{heard};
ghost use Rattle.nesl_keys.specs.Reading.{heard_through, stream_behind};

use crate::streams::{Claim, Listed, Streams};
use nesl_keys::admitted::Door;
use nesl_keys::doors::Doors;
use nesl_keys::keys::Keys;
use nesl_keys::sign_in::SignIn;
use std::alloc::AllocError;
use std::io;
use std::io::{ErrorKind, Read};
use std::sync::{Arc, Mutex, Wait};
use std::time::Clock;

/// The keys of a service's users. An operator may replace them while it runs.
#[derive(Drop)]
pub struct KeyRing {
    keys: Mutex<Arc<Keys>>,
}

impl KeyRing {
    pub fn new(keys: Arc<Keys>) -> KeyRing {
        KeyRing {
            keys: Mutex::new(keys),
        }
    }

    /// Replaces the keys. Connections that have signed in by then go on.
    pub fn replace<R: Wait>(&self, rt: &R, keys: Arc<Keys>) {
        *self.keys.lock(rt) = keys;
    }

    fn keys<R: Wait>(&self, rt: &R) -> Result<Arc<Keys>, AllocError> {
        let keys = self.keys.lock(rt);
        match Arc::try_clone(&*keys) {
            Ok(keys) => Ok(keys),
            Err(_) => Err(AllocError),
        }
    }
}

/// The sign-in of a port, whose keys may be replaced while it runs.
#[derive(Clone, Copy)]
pub enum PortSignIn<'x> {
    /// By their word.
    Word,
    /// By the keys that count when a connection begins.
    Keys(&'x KeyRing),
    /// By a header of their request.
    Header,
}

impl PortSignIn<'_> {
    /// The sign-in of a connection that begins now.
    pub fn begin<R: Wait>(self, rt: &R) -> Result<BegunSignIn, AllocError>
        ensures by_word { IfOk result (λ begun. begun ≡ BegunSignIn.Word → self.entry ≡ PortSignIn.Word) }
        ensures by_header { IfOk result (λ begun. begun ≡ BegunSignIn.Header → self.entry ≡ PortSignIn.Header) }
    {
        match self {
            PortSignIn::Word => Ok(BegunSignIn::Word),
            PortSignIn::Keys(ring) => match ring.keys(rt) {
                Ok(keys) => Ok(BegunSignIn::Keys(keys)),
                Err(AllocError) => Err(AllocError),
            },
            PortSignIn::Header => Ok(BegunSignIn::Header),
        }
    }

    /// Whether users are known by their keys.
    pub(crate) fn is_by_keys(self) -> bool {
        match self {
            PortSignIn::Keys(_) => true,
            PortSignIn::Word | PortSignIn::Header => false,
        }
    }
}

/// The sign-in of a connection, with the keys that counted when it began.
#[derive(Drop)]
pub enum BegunSignIn {
    Word,
    Keys(Arc<Keys>),
    Header,
}

impl BegunSignIn {
    pub fn lend(&self) -> SignIn<'_>
        ensures by_word { result ≡ SignIn.Word → self.now ≡ BegunSignIn.Word }
        ensures by_header { result ≡ SignIn.Header → self.now ≡ BegunSignIn.Header }
    {
        match self {
            BegunSignIn::Word => SignIn::Word,
            BegunSignIn::Keys(keys) => SignIn::Keys(keys),
            BegunSignIn::Header => SignIn::Header,
        }
    }
}

/// How the users of a service are known.
#[derive(Clone, Copy)]
pub struct Entrance<'x> {
    /// Those of the port for lines.
    pub lines: PortSignIn<'x>,
    /// Those of the page.
    pub page: PortSignIn<'x>,
    /// The name of the header that names the user of a browser, where they are known by a header.
    pub header: &'x [u8],
}

impl<'x> Entrance<'x> {
    /// Whoever names a user is this user.
    pub fn by_word() -> Entrance<'x> {
        Entrance {
            lines: PortSignIn::Word,
            page: PortSignIn::Word,
            header: b"",
        }
    }

    /// Whether a newer connection of a user can get the seat of an older one.
    pub(crate) fn has_keys(&self) -> bool {
        self.lines.is_by_keys() || self.page.is_by_keys()
    }
}

/// The door of a connection that has a first line alone.
pub(crate) fn by_line(sign_in: SignIn<'_>) -> Door<'_> {
    Door::new(sign_in, &[], &[])
}

/// A connection that can claim the seat of its user.
#[derive_where(Clone, Copy)]
pub(crate) struct Claimant<'x, R> {
    pub(crate) rt: &'x R,
    pub(crate) streams: &'x Streams,
    pub(crate) listed: Listed,
    /// The names of the users, by their places.
    pub(crate) roster: &'x [Vec<u8>],
    /// Whether it ends older connections.
    pub(crate) is_newest: bool,
}

impl<R: Wait + Clock> Claimant<'_, R> {
    // Claims the seat of the user whom a line names. A user who is not of the roster has no seat.
    fn claim(&self, line: &[u8]) -> Claim {
        let Some(seat) = place_of(self.roster, line) else {
            return Claim::Granted;
        };
        if self.is_newest {
            self.streams.claim(self.rt, self.listed, seat)
        } else {
            self.streams.note(self.rt, self.listed, seat);
            Claim::Granted
        }
    }
}

// Returns the place of the user whom a line names.
fn place_of(roster: &[Vec<u8>], line: &[u8]) -> Option<usize> {
    let name = line.strip_prefix(b"user ")?.strip_suffix(b"\n")?;
    roster.iter().position(|user| user.as_slice() == name)
}

/// Reads what a service hears of a connection that passes two doors. Where it can claim the seat of its user, older
/// connections of this user are ended before the first line is heard.
#[derive(Drop)]
pub(crate) struct Seating<'x, T, R> {
    reader: Doors<'x, T>,
    /// The connection, if it can claim a seat and hasn't yet.
    claimant: Option<Claimant<'x, R>>,
    /// Whether a newer connection has the seat.
    is_lost: bool,
}

impl<'x, T, R> Seating<'x, T, R> {
    /// What is heard of a stream: what opens the first door and then the second one.
    pub(crate) fn new(
        stream: T,
        first: Door<'x>,
        second: Door<'x>,
        claimant: Option<Claimant<'x, R>>,
    ) -> Seating<'x, T, R>
        ensures stream { stream_behind result.reader ≡ stream }
        ensures heard { (bytes : List ℕ) → heard_through result.reader bytes
            ≡ heard second.entry (heard first.entry bytes) }
    {
        Seating {
            reader: Doors::new(stream, first, second),
            claimant,
            is_lost: false,
        }
    }

    /// Returns the stream.
    pub(crate) fn into_inner(self) -> T
        ensures { result ≡ stream_behind self.entry.reader }
    {
        let Seating {
            reader,
            claimant: _,
            is_lost: _,
        } = self;
        reader.into_inner()
    }
}

impl<T: Read, R: Wait + Clock> Seating<'_, T, R> {
    // Listens to the first line, and claims the seat of the user who is let in.
    fn take_seat(&mut self) -> io::Result<()>
        ensures { Keeps (option_map (heard_through self.old.reader) (T.remaining (stream_behind self.old.reader)))
            (option_map (heard_through self.new.reader) (T.remaining (stream_behind self.new.reader))) }
    {
        let Some(claimant) = self.claimant else {
            return Ok(());
        };
        self.reader.listen()?;
        self.claimant = None;
        if let Some(line) = self.reader.line() {
            self.is_lost = claimant.claim(line) == Claim::Lost;
        }
        Ok(())
    }
}

impl<T: Read, R: Wait + Clock> Read for Seating<'_, T, R> {
    ghost remaining = { λ seating. option_map (heard_through seating.reader)
        (T.remaining (stream_behind seating.reader)) };

    fn read(&mut self, buf: &mut [u8]) -> io::Result<usize> {
        self.take_seat()?;
        if self.is_lost {
            return Err(io::Error::from(ErrorKind::ConnectionAborted));
        }
        self.reader.read(buf)
    }
}
