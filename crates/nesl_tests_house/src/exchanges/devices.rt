//! Readers and writers that fail when a test wants them to.
use std::alloc::Global;
use std::io;
use std::io::{Read, Write};

/// Gives at most `step` bytes at each read, and fails when `good` reads were made.
#[derive(Drop)]
pub struct Tape<'a> {
    pub rest: &'a [u8],
    pub step: usize,
    pub good: u32,
}

impl Read for Tape<'_> {
    fn read(&mut self, buf: &mut [u8]) -> io::Result<usize> {
        if self.good == 0 {
            return Err(io::Error::from(io::ErrorKind::Other));
        }
        self.good -= 1;
        let n = self.rest.len().min(self.step).min(buf.len());
        let (now, later) = self.rest.split_at(n);
        buf[..n].copy_from_slice(now);
        self.rest = later;
        Ok(n)
    }
}

/// So many bytes at each read.
pub fn tape_of(text: &[u8], step: usize) -> Tape<'_> {
    Tape {
        rest: text,
        step,
        good: u32::MAX,
    }
}

/// Takes at most `step` bytes at each write and `room` bytes in all, and then fails or takes none.
#[derive(Drop)]
pub struct Paper {
    pub bytes: Vec<u8>,
    pub step: usize,
    pub room: usize,
    pub stalls: bool,
    pub flushes: u32,
    pub good_flushes: u32,
}

impl Write for Paper {
    fn write(&mut self, buf: &[u8]) -> io::Result<usize> {
        let n = buf.len().min(self.step).min(self.room);
        if n == 0 && !self.stalls {
            return Err(io::Error::from(io::ErrorKind::Other));
        }
        self.bytes.extend_from_slice(&buf[..n])?;
        self.room -= n;
        Ok(n)
    }

    fn flush(&mut self) -> io::Result<()> {
        if self.flushes >= self.good_flushes {
            return Err(io::Error::from(io::ErrorKind::Other));
        }
        self.flushes += 1;
        Ok(())
    }
}

/// Takes this many bytes at each write, and this many in all.
pub fn paper_of(alloc: Global, step: usize, room: usize) -> Paper {
    Paper {
        bytes: Vec::new(alloc),
        step,
        room,
        stalls: false,
        flushes: 0,
        good_flushes: 1000000,
    }
}

pub fn blank_paper(alloc: Global) -> Paper {
    paper_of(alloc, 1000000, 1000000)
}
