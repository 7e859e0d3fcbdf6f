//! The bytes of a connection, with time limits.
ghost use Rattle.std.specs.Io.{WritesAtMost};

use std::io;
use std::io::{ErrorKind, Read, Write};
use std::net::{Shutdown, TcpStream};
use std::time::{Clock, Duration, Instant};

/// The bytes of a piece of an answer. Each piece has a time of its own.
const PIECE_BYTES: usize = 16_384;

/// The most times that a call is repeated because a signal interrupted it.
const MOST_TRIES: u64 = 4_294_967_296;

/// Limits for reading what a peer still sends after the last answer.
#[derive(Clone, Copy)]
pub struct DrainLimits {
    /// The milliseconds for all reads together.
    pub millis: u64,
    pub reads: u32,
    /// The most bytes of one read. Values above 16,384 count as 16,384.
    pub read_bytes: usize,
}

/// The limits for a browser that was refused. Such a browser must not hold a thread for longer.
pub const REFUSED_DRAIN: DrainLimits = DrainLimits {
    millis: 500,
    reads: 256,
    read_bytes: 4_096,
};

/// The limits for other browsers.
pub const BROWSER_DRAIN: DrainLimits = DrainLimits {
    millis: 2_000,
    reads: 4_096,
    read_bytes: PIECE_BYTES,
};

/// A connection. A read fails if the bytes don't arrive in time, and a write if a piece isn't taken in time. A signal
/// makes neither fail: the call is repeated with the time that is left.
#[derive(Drop)]
pub struct Wire<'s, R> {
    rt: &'s R,
    stream: &'s TcpStream,
    /// The time that a piece of an answer may take. `None` is no limit.
    idle: Option<Duration>,
    /// The end of the time for reading.
    until: Option<Instant>,
    /// The end of the time for the current piece, if a part of it was taken.
    piece_until: Option<Instant>,
    /// Whether the socket has a time limit for reads.
    is_timed: bool,
}

impl<'s, R: Clock> Wire<'s, R> {
    pub fn new(rt: &'s R, stream: &'s TcpStream, idle: Option<Duration>) -> Wire<'s, R> {
        Wire {
            rt,
            stream,
            idle,
            until: None,
            piece_until: None,
            is_timed: true,
        }
    }

    /// Sets the time for all following reads together.
    pub fn wait(&mut self, time: Option<Duration>) -> io::Result<()> {
        self.until = end_of(self.rt, time)?;
        Ok(())
    }

    /// Sets the time for each following piece of an answer.
    pub fn set_write_limit(&mut self, idle: Option<Duration>) -> io::Result<()> {
        self.idle = idle;
        self.piece_until = None;
        self.stream.set_write_timeout(idle)
    }

    /// Ends the output, and drops what the peer still sends within these limits. If a socket is closed with unread
    /// bytes, the connection is reset, and the peer might lose the last answer.
    pub fn drain_after_shutdown(&mut self, limits: DrainLimits) -> io::Result<()> {
        self.stream.shutdown(Shutdown::Write)?;
        self.wait(Some(Duration::from_millis(limits.millis)))?;
        let mut piece = [0u8; PIECE_BYTES];
        let room = limits.read_bytes.min(PIECE_BYTES);
        for _ in 0..limits.reads {
            if self.read(&mut piece[..room])? == 0 {
                break;
            }
        }
        Ok(())
    }

    // Sets the time limit of the socket's reads to the time that is left.
    fn begin_read(&mut self) -> io::Result<()> {
        let left = left_until(self.rt, self.until)?;
        if self.is_timed || left.is_some() {
            self.stream.set_read_timeout(left)?;
            self.is_timed = left.is_some();
        }
        Ok(())
    }

    // Begins a piece, or goes on with one.
    fn begin_write(&mut self) -> io::Result<()> {
        if self.piece_until.is_none() {
            self.piece_until = end_of(self.rt, self.idle)?;
        }
        self.stream
            .set_write_timeout(left_until(self.rt, self.piece_until)?)
    }

    // Writes some bytes. With a time limit, at most the rest of a piece.
    fn write_once(&mut self, buf: &[u8]) -> io::Result<usize>
        ensures { WritesAtMost result buf.now }
    {
        let mut stream = self.stream;
        if self.idle.is_none() {
            return stream.write(buf);
        }
        self.begin_write()?;
        let piece = &buf[..buf.len().min(PIECE_BYTES)];
        let taken = match stream.write(piece) {
            Ok(taken) => taken,
            Err(error) => return Err(without_retry(error)),
        };
        if taken == piece.len() {
            self.piece_until = None;
        }
        Ok(taken)
    }
}

impl<R: Clock> Read for Wire<'_, R> {
    fn read(&mut self, buf: &mut [u8]) -> io::Result<usize> {
        let mut stream = self.stream;
        'tries: for _ in 0..MOST_TRIES {
            self.begin_read()?;
            match stream.read(buf) {
                Err(error) if error.kind() == ErrorKind::Interrupted => {}
                ended => return ended,
            }
        }
        Err(io::Error::from(ErrorKind::Interrupted))
    }
}

impl<R: Clock> Write for Wire<'_, R> {
    fn write(&mut self, buf: &[u8]) -> io::Result<usize> {
        'tries: for _ in 0..MOST_TRIES {
            match self.write_once(buf) {
                Err(error) if error.kind() == ErrorKind::Interrupted => {}
                ended => return ended,
            }
        }
        Err(io::Error::from(ErrorKind::Interrupted))
    }

    fn flush(&mut self) -> io::Result<()> {
        Ok(())
    }
}

// Returns the error for a write that failed. After a timeout it isn't repeated.
fn without_retry(error: io::Error) -> io::Error {
    if error.kind() == ErrorKind::WouldBlock {
        io::Error::from(ErrorKind::TimedOut)
    } else {
        error
    }
}

/// Whether a read or a write failed because its time was over.
pub fn is_late(error: &io::Error) -> bool {
    matches!(error.kind(), ErrorKind::TimedOut | ErrorKind::WouldBlock)
}

// Returns the instant after this time.
fn end_of<R: Clock>(rt: &R, time: Option<Duration>) -> io::Result<Option<Instant>> {
    match time {
        Some(time) => Ok(Instant::now(rt)?.checked_add(time)),
        None => Ok(None),
    }
}

// Returns the time until an instant. Fails if it is over.
fn left_until<R: Clock>(rt: &R, until: Option<Instant>) -> io::Result<Option<Duration>> {
    let Some(until) = until else {
        return Ok(None);
    };
    let left = until.saturating_duration_since(Instant::now(rt)?);
    if left.is_zero() {
        return Err(io::Error::from(ErrorKind::TimedOut));
    }
    Ok(Some(left))
}
