//! The lines and answers of a connection, with time limits.
ghost use Rattle.std.specs.Prelude.{◌≡◌};
ghost use Rattle.std.specs.Io.{ReadsAtMost};

use nesl_service_records::journal::Missed;
pub use nesl_web::lines::Patience;
use nesl_web::wire::{DrainLimits, Wire, is_late};
use std::io;
use std::io::{Read, Write};
use std::net::TcpStream;
use std::time::{Clock, Duration};

/// How much is read from a peer that was turned away.
const TURNED_AWAY_DRAIN: DrainLimits = DrainLimits {
    millis: 500,
    reads: 256,
    read_bytes: 4_096,
};

/// Reads the lines of a connection. A read fails if a line doesn't arrive in time.
#[derive(Drop)]
pub(crate) struct Reader<'s, R> {
    wire: Wire<'s, R>,
    patience: Patience,
    /// Whether the first line is not complete yet.
    is_first: bool,
    /// Whether no byte of the next line was read yet.
    is_between: bool,
    /// Whether a line did not arrive in time.
    is_late: bool,
}

impl<'s, R: Clock> Reader<'s, R> {
    pub(crate) fn new(rt: &'s R, stream: &'s TcpStream, patience: Patience) -> Reader<'s, R> {
        Reader {
            wire: Wire::new(rt, stream, patience.idle),
            patience,
            is_first: true,
            is_between: true,
            is_late: false,
        }
    }

    /// Returns which line did not arrive in time, if one didn't.
    pub(crate) fn missed(&self) -> Option<Missed> {
        match self.is_late {
            true if self.is_first => Some(Missed::FirstLine),
            true => Some(Missed::Line),
            false => None,
        }
    }

    // Returns the time that the next line may take.
    fn allowed(&self) -> Option<Duration> {
        if self.is_first {
            Some(self.patience.first_line)
        } else {
            self.patience.idle
        }
    }

    // Starts the time of the next line, unless a byte of it was read already.
    fn begin(&mut self) -> io::Result<()> {
        if self.is_between {
            let allowed = self.allowed();
            self.wire.wait(allowed)?;
            self.is_between = false;
        }
        Ok(())
    }

    // Reads some bytes of the line within its time.
    fn read_in_time(&mut self, buf: &mut [u8]) -> io::Result<usize>
        ensures { ReadsAtMost result buf.new }
    {
        self.begin()?;
        self.wire.read(buf)
    }

    // Notes whether a line has ended in these bytes.
    fn note(&mut self, bytes: &[u8]) {
        if bytes.contains(&b'\n') {
            self.is_first = false;
            self.is_between = true;
        }
    }
}

impl<R: Clock> Read for Reader<'_, R> {
    fn read(&mut self, buf: &mut [u8]) -> io::Result<usize> {
        match self.read_in_time(buf) {
            Ok(count) => {
                self.note(&buf[..count]);
                Ok(count)
            }
            Err(error) => {
                self.is_late = is_late(&error);
                Err(error)
            }
        }
    }
}

/// Writes the answers of a connection. A write fails if the peer doesn't take a piece in time.
#[derive(Drop)]
pub(crate) struct Writer<'s, R> {
    wire: Wire<'s, R>,
    /// Whether pieces have a time limit.
    is_timed: bool,
    /// Whether a piece was not taken in time.
    is_late: bool,
}

impl<'s, R: Clock> Writer<'s, R> {
    pub(crate) fn new(rt: &'s R, stream: &'s TcpStream, patience: Patience) -> Writer<'s, R> {
        Writer {
            wire: Wire::new(rt, stream, patience.idle),
            is_timed: patience.idle.is_some(),
            is_late: false,
        }
    }

    /// Returns `Missed::Taking` if a piece was not taken in time.
    pub(crate) fn missed(&self) -> Option<Missed> {
        if self.is_late {
            Some(Missed::Taking)
        } else {
            None
        }
    }
}

impl<R: Clock> Write for Writer<'_, R> {
    fn write(&mut self, buf: &[u8]) -> io::Result<usize> {
        match self.wire.write(buf) {
            Ok(taken) => Ok(taken),
            Err(error) => {
                self.is_late = self.is_timed && is_late(&error);
                Err(error)
            }
        }
    }

    fn flush(&mut self) -> io::Result<()> {
        Ok(())
    }
}

/// Ends the output to a peer that was turned away, and briefly reads what it still sends.
pub(crate) fn drain_after_shutdown<R: Clock>(rt: &R, stream: &TcpStream) -> io::Result<()> {
    Wire::new(rt, stream, None).drain_after_shutdown(TURNED_AWAY_DRAIN)
}
