//! Texts that a screen shows as they are.
ghost use Rattle.std.specs.Prelude.{◌≡◌, ◌+◌, ◌≤◌, [], All, OnErr, OnOk, length};
ghost use Rattle.nesl_cost_shown.specs.Pages.{IsPrintable};

use itoa::Buffer;
use std::alloc::{AllocError, Global};

/// The most columns of a line.
pub const WIDTH: usize = 80;

/// A text of printable ASCII, which has no line end.
#[derive(Drop)]
pub struct Printed {
    bytes: Vec<u8>,
    ghost printable: { All IsPrintable bytes.items },
}

impl Printed {
    /// An empty text.
    pub fn new(alloc: Global) -> Self
        ensures { result.bytes.items ≡ [] }
    {
        Printed {
            bytes: Vec::new(alloc),
        }
    }

    pub fn bytes(&self) -> &[u8]
        ensures bytes { result.now ≡ self.now.bytes.items }
        ensures printable { All IsPrintable result.now }
    {
        self.bytes.as_slice()
    }

    /// One more byte, or a question mark if ASCII doesn't print it.
    pub fn put(&mut self, byte: u8) -> Result<(), AllocError>
        ensures ok { OnOk result (length self.new.bytes.items ≡ length self.old.bytes.items + 1) }
        ensures err { OnErr result (self.new.bytes.items ≡ self.old.bytes.items) }
    {
        self.bytes.push(shown(byte))?;
        Ok(())
    }

    /// More bytes, as `put` has them.
    pub fn put_text(&mut self, text: &[u8]) -> Result<(), AllocError> {
        for byte in text {
            self.put(*byte)?;
        }
        Ok(())
    }

    /// A number's digits.
    pub fn put_number(&mut self, number: u64) -> Result<(), AllocError> {
        let mut buffer = Buffer::new();
        self.put_text(buffer.format(number).as_bytes())
    }
}

fn shown(byte: u8) -> u8
    ensures { IsPrintable result }
{
    match byte {
        32..=126 => byte,
        _ => b'?',
    }
}

/// A line of printable ASCII, which has at most `WIDTH` columns.
#[derive(Drop)]
pub struct Line {
    text: Printed,
    ghost narrow: { length text.bytes.items ≤ 80 },
}

impl Line {
    /// An empty line.
    pub fn new(alloc: Global) -> Self {
        Line {
            text: Printed::new(alloc),
        }
    }

    pub fn bytes(&self) -> &[u8]
        ensures narrow { length result.now ≤ 80 }
        ensures printable { All IsPrintable result.now }
    {
        self.text.bytes()
    }

    /// The number of columns that are filled.
    pub fn len(&self) -> usize
        ensures { result ≡ length self.now.text.bytes.items }
    {
        self.text.bytes().len()
    }

    /// One more byte, if there is a column left.
    pub fn put(&mut self, byte: u8) -> Result<(), AllocError> {
        if self.len() < WIDTH {
            self.text.put(byte)?;
        }
        Ok(())
    }

    /// More bytes, as far as there are columns.
    pub fn put_text(&mut self, text: &[u8]) -> Result<(), AllocError> {
        for byte in text {
            self.put(*byte)?;
        }
        Ok(())
    }

    pub fn put_number(&mut self, number: u64) -> Result<(), AllocError> {
        let mut buffer = Buffer::new();
        self.put_text(buffer.format(number).as_bytes())
    }

    /// Blanks up to this column.
    pub fn fill(&mut self, column: usize) -> Result<(), AllocError> {
        for _ in self.len()..column {
            self.put(b' ')?;
        }
        Ok(())
    }

    /// A number with blanks before it, so that it ends at this column.
    pub fn put_before(&mut self, number: u64, column: usize) -> Result<(), AllocError> {
        let mut buffer = Buffer::new();
        let digits = buffer.format(number).as_bytes();
        self.fill(column.saturating_sub(digits.len()))?;
        self.put_text(digits)
    }

    /// A text with blanks after it up to this column. Of a longer one there is the front, and two points.
    pub fn put_cut(&mut self, text: &[u8], column: usize) -> Result<(), AllocError> {
        let room = column.saturating_sub(self.len());
        if text.len() <= room {
            self.put_text(text)?;
            return self.fill(column);
        }
        let front = room.saturating_sub(2);
        self.put_text(text.get(..front).unwrap_or(b""))?;
        self.put_text(b"..")
    }
}
