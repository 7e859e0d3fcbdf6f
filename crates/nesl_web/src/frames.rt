//! Sends texts on a WebSocket, frame by frame.
ghost use Rattle.std.specs.Prelude.{◌≡◌, [], false, true, not, length, take, IfOk, OnOk};
ghost use Rattle.std.specs.Io.{WritesAtMost};
ghost use Rattle.std.specs.Io.KnownBytes.{Appends};
ghost use Rattle.websocket.specs.Frame.{encode_frame};
ghost use Rattle.nesl_web.specs.Frames.{text_header};

use std::alloc::{AllocError, Global};
use std::io;
use std::io::{ErrorKind, Write};
use websocket::protocol::frame::coding::{Data, OpCode};
use websocket::protocol::frame::{FrameHeader, write_frame};

/// The most bytes of a text that are gathered before they are sent.
const GATHERED_BYTES: usize = 8192;

/// The most bytes of the head of a frame without a mask.
const HEAD_BYTES: usize = 10;

/// The most bytes of a text that one frame sends without copying.
const FRAME_BYTES: usize = 65_536;

/// Sends texts. Everything written until a flush is one text, without its line end.
///
/// A short text is gathered and sent as one frame. A longer one is sent in several frames, straight from the caller's
/// bytes. So no text is copied whole, and sending doesn't allocate. After an error nothing more may be written.
#[derive(Drop)]
pub struct FrameWriter<W> {
    writer: W,
    /// The bytes of a text that weren't sent yet.
    gathered: Vec<u8>,
    /// A frame with the gathered bytes, or the head of another frame.
    frame: Vec<u8>,
    /// Whether a frame of the current text was sent.
    is_begun: bool,
}

impl<W: Write + Drop> FrameWriter<W> {
    /// A writer that has not sent a text. Allocates its buffers.
    pub fn new(alloc: Global, writer: W) -> Result<FrameWriter<W>, AllocError>
        ensures { IfOk result (λ frames. frames.writer ≡ writer) }
    {
        Ok(FrameWriter {
            writer,
            gathered: Vec::with_capacity(alloc, GATHERED_BYTES)?,
            frame: Vec::with_capacity(alloc, HEAD_BYTES + GATHERED_BYTES)?,
            is_begun: false,
        })
    }

    /// Returns the writer below.
    pub fn into_inner(self) -> W
        ensures { result ≡ self.writer }
    {
        self.writer
    }
}

impl<W: Write> FrameWriter<W> {
    // Sends the gathered bytes as a frame. `is_last` is whether it ends the text.
    fn send_gathered(&mut self, is_last: bool) -> io::Result<()>
        ensures sent { OnOk result (Appends (W.contents self.old.writer) (W.contents self.new.writer)
            (encode_frame (text_header is_last self.old.is_begun) self.old.gathered.items)) }
        ensures rest { OnOk result (self.new.gathered.items ≡ []) }
        ensures begun { OnOk result (self.new.is_begun ≡ not is_last) }
    {
        check_text(self.gathered.as_slice())?;
        let header = text_header(is_last, self.is_begun);
        self.frame.clear();
        write_frame(&header, self.gathered.as_slice(), &mut self.frame)?;
        self.gathered.clear();
        self.is_begun = !is_last;
        self.writer.write_all(self.frame.as_slice())
    }

    // Sends the front of a long text as a frame, without copying. Returns its length in bytes.
    fn send_front(&mut self, text: &[u8]) -> io::Result<usize>
        ensures bound { WritesAtMost result text.now }
        ensures sent { IfOk result (λ count. Appends (W.contents self.old.writer) (W.contents self.new.writer)
            (encode_frame (text_header false self.old.is_begun) (take count text.now))) }
        ensures begun { OnOk result (self.new.is_begun ≡ true) }
    {
        let front = front_of(text)?;
        let header = text_header(false, self.is_begun);
        self.frame.clear();
        header.format(front.len() as u64, &mut self.frame)?;
        self.is_begun = true;
        self.writer.write_all(self.frame.as_slice())?;
        self.writer.write_all(front)?;
        Ok(front.len())
    }
}

impl<W: Write> Write for FrameWriter<W> {
    fn write(&mut self, buf: &[u8]) -> io::Result<usize> {
        if buf.len() <= GATHERED_BYTES.saturating_sub(self.gathered.len()) {
            self.gathered.extend_from_slice(buf)?;
            return Ok(buf.len());
        }
        if !self.gathered.is_empty() {
            self.send_gathered(false)?;
        }
        if buf.len() <= GATHERED_BYTES {
            self.gathered.extend_from_slice(buf)?;
            return Ok(buf.len());
        }
        self.send_front(buf)
    }

    fn flush(&mut self) -> io::Result<()> {
        if self.gathered.last() == Some(&b'\n') {
            self.gathered.pop();
        }
        self.send_gathered(true)?;
        self.writer.flush()
    }
}

// Returns the head of a frame. `is_last` is whether it ends its text, and `is_begun` whether another frame came before
// it.
fn text_header(is_last: bool, is_begun: bool) -> FrameHeader
    ensures { result ≡ text_header is_last is_begun }
{
    let kind = if is_begun { Data::Continue } else { Data::Text };
    FrameHeader {
        is_final: is_last,
        ..FrameHeader::new(OpCode::Data(kind), None)
    }
}

// Returns the front of a long text that fits a frame and ends with a character. The last byte is left out, since it may
// be the line end.
fn front_of(text: &[u8]) -> io::Result<&[u8]>
    ensures { IfOk result (λ front. front.now ≡ take (length front.now) text.now) }
{
    let front = &text[..text.len().saturating_sub(1).min(FRAME_BYTES)];
    match str::from_utf8(front) {
        Ok(_) => Ok(front),
        Err(error) if error.error_len().is_none() => {
            Ok(front.get(..error.valid_up_to()).unwrap_or(front))
        }
        Err(_) => Err(no_text()),
    }
}

// Fails if the bytes are not UTF-8.
fn check_text(bytes: &[u8]) -> io::Result<()> {
    match str::from_utf8(bytes) {
        Ok(_) => Ok(()),
        Err(_) => Err(no_text()),
    }
}

fn no_text() -> io::Error {
    io::Error::from(ErrorKind::InvalidData)
}
