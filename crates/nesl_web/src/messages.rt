//! The messages that arrive on a WebSocket.
ghost use Rattle.std.specs.Prelude.{length, IfSome};
ghost use Rattle.nesl_web.specs.Messages.{IfLine};

use crate::wire::{DrainLimits, Wire};
use std::alloc::Global;
use std::io;
use std::io::ErrorKind;
use std::net::TcpStream;
use std::time::{Clock, Duration};
use tungstenite::{
    CloseCode, CloseFrame, Error, Message, NoMask, Role, Utf8Bytes, WebSocket, WebSocketConfig,
};

/// The most bytes of a message: one more than a form may have, so that a longer form is noticed.
pub const MOST_BYTES: usize = 65_537;

/// The most bytes of one read.
const READ_BYTES: usize = 4096;

/// How many seconds the peer may take to take the last message.
const CLOSE_SECONDS: u64 = 2;

/// The result of a read.
#[derive(Drop)]
pub enum Received {
    /// A line, without its line end.
    Line(Utf8Bytes),
    /// A message that is no line, and that needs no further answer: a ping, a pong or a close.
    Control,
    /// The peer has ended the connection.
    Closed,
    /// A message that can't be a line, with the code for closing the connection.
    NotALine(CloseCode),
    /// The connection is lost, a message did not arrive in time, or memory ran out.
    Lost(io::Error),
}

impl Received {
    /// Sorts the result of a read.
    fn of(read: Result<Message, Error>) -> Received
        ensures { IfLine result }
    {
        match read {
            Ok(message) => Received::of_message(message),
            Err(error) => Received::of_failure(error),
        }
    }

    // Sorts a message.
    fn of_message(message: Message) -> Received
        ensures { IfLine result }
    {
        match message {
            Message::Text(text) => line_of(text),
            Message::Binary(_) => Received::NotALine(CloseCode::Unsupported),
            Message::Ping(_) | Message::Pong(_) | Message::Close(_) => Received::Control,
        }
    }

    // Sorts an error.
    fn of_failure(error: Error) -> Received
        ensures { IfLine result }
    {
        match Received::of_end(&error) {
            Some(received) => {
                drop(error);
                received
            }
            None => Received::Lost(failure_of(error)),
        }
    }

    // Returns how an error ends the connection, unless the connection is lost.
    fn of_end(error: &Error) -> Option<Received>
        ensures { IfSome result IfLine }
    {
        match error {
            Error::ConnectionClosed => Some(Received::Closed),
            Error::Capacity(_) => Some(Received::NotALine(CloseCode::Size)),
            Error::Utf8 => Some(Received::NotALine(CloseCode::Invalid)),
            Error::Protocol(_) => Some(Received::NotALine(CloseCode::Protocol)),
            _ => None,
        }
    }
}

/// Reads the messages of a WebSocket.
#[derive(Drop)]
pub struct Incoming<'s, R> {
    rt: &'s R,
    socket: WebSocket<Wire<'s, R>, NoMask>,
}

impl<'s, R: Clock> Incoming<'s, R> {
    /// A reader of a connection whose first bytes have arrived. It answers pings; a piece of such an answer may take
    /// `piece`.
    pub fn new(
        rt: &'s R,
        alloc: Global,
        stream: &'s TcpStream,
        first: Vec<u8>,
        piece: Option<Duration>,
    ) -> Incoming<'s, R> {
        let config = WebSocketConfig::default()
            .read_buffer_size(READ_BYTES)
            .max_message_size(Some(MOST_BYTES))
            .max_frame_size(Some(MOST_BYTES));
        let wire = Wire::new(rt, stream, piece);
        let socket = WebSocket::from_partially_read(
            alloc,
            wire,
            NoMask,
            first,
            Role::Server,
            Some(config),
        );
        Incoming { rt, socket }
    }

    /// Changes the time that a piece of an answer may take.
    pub fn set_write_limit(&mut self, piece: Option<Duration>) -> io::Result<()> {
        self.socket.get_mut().set_write_limit(piece)
    }

    /// Waits for the next line, at most for this time. Returns `None` after the peer has ended the connection. A
    /// message that can't be a line ends it too.
    pub fn next(&mut self, time: Option<Duration>) -> io::Result<Option<Utf8Bytes>> {
        self.socket.get_mut().wait(time)?;
        for _ in 0..u64::MAX {
            match Received::of(self.socket.read()) {
                Received::Line(line) => return Ok(Some(line)),
                Received::Control => {}
                Received::Closed => return Ok(None),
                Received::NotALine(code) => {
                    self.close(code);
                    return Err(lost_error());
                }
                Received::Lost(error) => return Err(error),
            }
        }
        Err(lost_error())
    }

    /// Ends the connection with a close message, unless one was sent, and reads what the peer still sends within these
    /// limits.
    pub fn end(mut self, limits: DrainLimits) {
        self.close_and_drain(limits);
        drop(self);
    }

    fn close_and_drain(&mut self, limits: DrainLimits) {
        if self.socket.can_write() {
            self.close(CloseCode::Normal);
        }
        drop(self.socket.get_mut().drain_after_shutdown(limits));
    }

    // Sends a close message with this code, to a peer that takes it in time.
    fn close(&mut self, code: CloseCode) {
        let time = Some(Duration::from_secs(CLOSE_SECONDS));
        if self.set_write_limit(time).is_ok() {
            drop(self.socket.close(Some(close_frame(code))));
        }
    }
}

// The error for a message that could not be read or sent.
fn lost_error() -> io::Error {
    io::Error::from(ErrorKind::ConnectionAborted)
}

// Returns the error for a message that could not be sent.
fn failure_of(error: Error) -> io::Error {
    match error {
        Error::Io(error) => error,
        other => {
            drop(other);
            lost_error()
        }
    }
}

// Makes a close message.
fn close_frame(code: CloseCode) -> CloseFrame {
    CloseFrame {
        code,
        reason: Utf8Bytes::new(),
    }
}

// A text is a line if it has no line end.
fn line_of(text: Utf8Bytes) -> Received
    ensures { IfLine result }
{
    if text.as_str().as_bytes().contains(&b'\n') {
        Received::NotALine(CloseCode::Unsupported)
    } else {
        Received::Line(text)
    }
}
