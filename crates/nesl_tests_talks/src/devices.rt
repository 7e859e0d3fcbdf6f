//! A reader and a writer that may fail.

use std::alloc::Global;
use std::io::{self, Read, Write};

/// Gives a text, and then fails, if it is torn.
#[derive(Drop)]
pub struct Tape<'a> {
    pub rest: &'a [u8],
    pub is_torn: bool,
}

impl Read for Tape<'_> {
    fn read(&mut self, buf: &mut [u8]) -> io::Result<usize> {
        if self.rest.is_empty() && self.is_torn {
            return Err(io::Error::from(io::ErrorKind::Other));
        }
        let count = self.rest.len().min(buf.len());
        let (now, later) = self.rest.split_at(count);
        buf[..count].copy_from_slice(now);
        self.rest = later;
        Ok(count)
    }
}

/// Takes this many bytes, and then fails.
#[derive(Drop)]
pub struct Paper {
    pub bytes: Vec<u8>,
    pub room: usize,
}

impl Paper {
    pub fn with_room(alloc: Global, room: usize) -> Paper {
        Paper {
            bytes: Vec::new(alloc),
            room,
        }
    }
}

impl Write for Paper {
    fn write(&mut self, buf: &[u8]) -> io::Result<usize> {
        let count = buf.len().min(self.room);
        if count == 0 && !buf.is_empty() {
            return Err(io::Error::from(io::ErrorKind::Other));
        }
        self.bytes.extend_from_slice(&buf[..count])?;
        self.room -= count;
        Ok(count)
    }

    fn flush(&mut self) -> io::Result<()> {
        Ok(())
    }
}
