//! Lines and answers over a WebSocket, one message for each.
ghost use Rattle.std.specs.Prelude.{◌≡◌, ◌-◌, ◌/◌};
ghost use Rattle.std.specs.Duration.{as_nanos};

use crate::frames::FrameWriter;
use crate::messages::Incoming;
use crate::rest::Rest;
use crate::wire::{DrainLimits, Wire, is_late};
use std::alloc::{AllocError, Global};
use std::io;
use std::io::{Read, Write};
use std::net::TcpStream;
use std::time::{Clock, Duration};

/// The time limits for lines and answers.
#[derive(Clone, Copy, PartialEq, Eq, Debug)]
pub struct Patience {
    /// The time for the first line to arrive.
    pub first_line: Duration,
    /// The time for each later line to arrive, and for each piece of an answer to be taken. `None` is no limit.
    pub idle: Option<Duration>,
}

/// The part of its time that a first line has in a hurry: one tenth.
const HURRIED_PART: u32 = 10;

impl Patience {
    /// The limits in a hurry: a tenth of the time for a first line.
    pub fn hurried(self) -> Patience
        ensures first_line { as_nanos result.first_line ≡ as_nanos self.first_line / 10 }
        ensures idle { result.idle ≡ self.idle }
    {
        Patience {
            first_line: self.first_line / HURRIED_PART,
            idle: self.idle,
        }
    }

    /// The limits after this time has passed of the time for a first line.
    pub fn after(self, took: Duration) -> Patience
        ensures first_line { as_nanos result.first_line ≡ as_nanos self.first_line - as_nanos took }
        ensures idle { result.idle ≡ self.idle }
    {
        Patience {
            first_line: self.first_line.saturating_sub(took),
            idle: self.idle,
        }
    }
}

/// Reads the lines of a WebSocket as bytes. Each message is a line, and gets its line end here.
#[derive(Drop)]
pub struct MessageReader<'s, R> {
    messages: Incoming<'s, R>,
    alloc: Global,
    patience: Patience,
    is_first: bool,
    /// Whether a line did not arrive in time.
    is_late: bool,
    /// The bytes of the current line that weren't read yet.
    rest: Rest,
}

impl<'s, R: Clock> MessageReader<'s, R> {
    /// A reader of a connection that was switched to a WebSocket. `first` has the bytes that followed the head.
    pub fn new(
        rt: &'s R,
        alloc: Global,
        stream: &'s TcpStream,
        first: Vec<u8>,
        patience: Patience,
    ) -> MessageReader<'s, R> {
        MessageReader {
            messages: Incoming::new(rt, alloc, stream, first, Some(patience.first_line)),
            alloc,
            patience,
            is_first: true,
            is_late: false,
            rest: Rest::new(alloc),
        }
    }

    /// Ends the connection. What still arrives is read within these limits.
    pub fn end(self, limits: DrainLimits) {
        let MessageReader {
            messages,
            alloc: _,
            patience: _,
            is_first: _,
            is_late: _,
            rest: _,
        } = self;
        messages.end(limits);
    }

    /// Whether the first line hasn't arrived yet.
    pub fn is_first(&self) -> bool {
        self.is_first
    }

    /// Whether a line did not arrive in time.
    pub fn is_late(&self) -> bool {
        self.is_late
    }

    // Returns the time that the next line may take.
    fn allowed(&self) -> Option<Duration> {
        if self.is_first {
            Some(self.patience.first_line)
        } else {
            self.patience.idle
        }
    }

    // Waits for a line. Returns false at the end of the messages.
    fn wait_for_line(&mut self) -> io::Result<bool> {
        let allowed = self.allowed();
        match self.messages.next(allowed) {
            Ok(Some(line)) => {
                let begun = self.begin(line.as_str().as_bytes());
                drop(line);
                begun?;
                Ok(true)
            }
            Ok(None) => Ok(false),
            Err(error) => {
                self.is_late = is_late(&error);
                Err(error)
            }
        }
    }

    // Begins a line that has arrived. After the first one, a piece of an answer may take as long as a line.
    fn begin(&mut self, line: &[u8]) -> io::Result<()> {
        if self.is_first {
            self.is_first = false;
            self.messages.set_write_limit(self.patience.idle)?;
        }
        self.rest = Rest::of(self.alloc, line)?;
        Ok(())
    }
}

impl<R: Clock> Read for MessageReader<'_, R> {
    fn read(&mut self, buf: &mut [u8]) -> io::Result<usize> {
        if self.rest.is_empty() && !self.wait_for_line()? {
            return Ok(0);
        }
        Ok(self.rest.give(buf))
    }
}

/// Writes answers to a WebSocket. Everything written until a flush is one message, without its line end.
#[derive(Drop)]
pub struct MessageWriter<'s, R> {
    frames: FrameWriter<Wire<'s, R>>,
    /// Whether an answer was not taken in time.
    is_late: bool,
}

impl<'s, R: Clock> MessageWriter<'s, R> {
    /// A writer that has not sent an answer. All its memory is allocated here.
    pub fn new(
        rt: &'s R,
        alloc: Global,
        stream: &'s TcpStream,
        patience: Patience,
    ) -> Result<MessageWriter<'s, R>, AllocError> {
        let wire = Wire::new(rt, stream, patience.idle);
        Ok(MessageWriter {
            frames: FrameWriter::new(alloc, wire)?,
            is_late: false,
        })
    }

    /// Whether an answer was not taken in time.
    pub fn is_late(&self) -> bool {
        self.is_late
    }
}

impl<R: Clock> Write for MessageWriter<'_, R> {
    fn write(&mut self, buf: &[u8]) -> io::Result<usize> {
        match self.frames.write(buf) {
            Ok(taken) => Ok(taken),
            Err(error) => {
                self.is_late = is_late(&error);
                Err(error)
            }
        }
    }

    fn flush(&mut self) -> io::Result<()> {
        match self.frames.flush() {
            Ok(()) => Ok(()),
            Err(error) => {
                self.is_late = is_late(&error);
                Err(error)
            }
        }
    }
}
