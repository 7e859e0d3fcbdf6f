//! Readers and writers, with specifications of their bytes.
ghost use Rattle.std.specs.Prelude.{◌≡◌, ℕ, List, Option, Result, Err};
ghost use Rattle.std.specs.Io.KnownBytes.{ReadConsumes, WriteAppends, Keeps};
ghost use Rattle.std.specs.Io.{ReadsAtMost, WritesAtMost};
ghost use Rattle.nesl_line.specs.Tally.{ReadTally, WriteTally, after_read, after_write, after_flush};

use crate::again::{flush_again, read_again, write_again};
use std::io::{Read, Write};
use thiserror::Error;

/// A read, a write or a flush failed.
#[derive(Clone, Copy, PartialEq, Eq, Debug, Error)]
#[error("a read, a write or a flush failed")]
pub struct Failed;

/// Bytes to read.
pub trait Source {
    /// The bytes that are left to read, where they are known.
    ghost left: { Self → Option (List ℕ) };

    /// The number of reads that were made, and of those that failed. A read that a signal interrupted may be made
    /// again, and then counts once.
    ghost tally: { Self → ReadTally };

    /// Reads some bytes into the front of `buf`. The result is 0 only at the end of input, or if `buf` is empty.
    fn read(&mut self, buf: &mut [u8]) -> Result<usize, Failed>
        ensures bound { ReadsAtMost result buf.new }
        ensures bytes { ReadConsumes (left self.old) (left self.new) result buf.new }
        ensures tally { tally self.new ≡ after_read (tally self.old) result };

    /// The number of reads that failed. At 2^64 - 1 the count stays.
    fn failures(&self) -> u64
        ensures { result ≡ (tally self.now).failed };
}

/// Bytes to write.
pub trait Sink {
    /// The bytes that were written, where they are known.
    ghost held: { Self → Option (List ℕ) };

    /// The number of writes and flushes that failed, of writes that took no byte, and of flushes that went well. Also
    /// the number of bytes written since the last of these flushes.
    ghost tally: { Self → WriteTally };

    /// Writes some bytes from the front of `buf`.
    fn write(&mut self, buf: &[u8]) -> Result<usize, Failed>
        ensures bound { WritesAtMost result buf.now }
        ensures bytes { WriteAppends (held self.old) (held self.new) result buf.now }
        ensures tally { tally self.new ≡ after_write (tally self.old) buf.now result };

    /// Flushes what was written.
    fn flush(&mut self) -> Result<(), Failed>
        ensures bytes { Keeps (held self.old) (held self.new) }
        ensures tally { tally self.new ≡ after_flush (tally self.old) result };

    /// The number of writes and flushes that failed. At 2^64 - 1 the count stays.
    fn failures(&self) -> u64
        ensures { result ≡ (tally self.now).failed };
}

/// A reader or a writer of the system, which counts its calls. A call that a signal interrupted is made again, and
/// counts once. It adds no buffer: give it a `BufWriter` to gather the writes of one answer, which are flushed
/// together.
#[derive(Drop)]
pub struct Device<T> {
    inner: T,
    reads: u64,
    failed: u64,
    stalled: u64,
    flushed: u64,
    unflushed: u64,
}

impl<T> Device<T> {
    ghost use Rattle.nesl_line.specs.Device.{device_inner, device_reads, device_writes};

    /// A device that hasn't been called yet.
    pub fn new(inner: T) -> Device<T>
        ensures inner { device_inner result ≡ inner }
        ensures reads { device_reads result ≡ record { made = 0; failed = 0 } }
        ensures writes { device_writes result ≡ record { failed = 0; stalled = 0; flushed = 0; unflushed = 0 } }
    {
        Device {
            inner,
            reads: 0,
            failed: 0,
            stalled: 0,
            flushed: 0,
            unflushed: 0,
        }
    }

    /// The reader or writer.
    pub fn into_inner(self) -> T
        ensures { result ≡ device_inner self }
    {
        self.inner
    }
}

impl<T: Read> Source for Device<T> {
    ghost use Rattle.nesl_line.specs.Device.{device_inner, device_reads};

    ghost left = { λ d. T.remaining (device_inner d) };

    ghost tally = { device_reads };

    fn read(&mut self, buf: &mut [u8]) -> Result<usize, Failed> {
        self.reads = self.reads.saturating_add(1);
        match read_again(&mut self.inner, buf) {
            Ok(n) => Ok(n),
            Err(_) => {
                self.failed = self.failed.saturating_add(1);
                Err(Failed)
            }
        }
    }

    fn failures(&self) -> u64 {
        self.failed
    }
}

impl<T: Write> Sink for Device<T> {
    ghost use Rattle.nesl_line.specs.Device.{device_inner, device_writes};

    ghost held = { λ d. T.contents (device_inner d) };

    ghost tally = { device_writes };

    fn write(&mut self, buf: &[u8]) -> Result<usize, Failed> {
        match write_again(&mut self.inner, buf) {
            Ok(n) => {
                if n == 0 && !buf.is_empty() {
                    self.stalled = self.stalled.saturating_add(1);
                } else {
                    self.unflushed = self.unflushed.saturating_add(n as u64);
                }
                Ok(n)
            }
            Err(_) => {
                self.failed = self.failed.saturating_add(1);
                Err(Failed)
            }
        }
    }

    fn flush(&mut self) -> Result<(), Failed> {
        match flush_again(&mut self.inner) {
            Ok(()) => {
                self.flushed = self.flushed.saturating_add(1);
                self.unflushed = 0;
                Ok(())
            }
            Err(_) => {
                self.failed = self.failed.saturating_add(1);
                Err(Failed)
            }
        }
    }

    fn failures(&self) -> u64 {
        self.failed
    }
}
