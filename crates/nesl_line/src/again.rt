//! Reads, writes and flushes that are made again after a signal interrupted them.
ghost use Rattle.std.specs.Prelude.{◌≡◌, IfOk, OnErr, length, take};
ghost use Rattle.std.specs.Io.KnownBytes.{ReadConsumes, WriteAppends, Keeps};
ghost use Rattle.std.specs.Io.{ReadsAtMost, WritesAtMost};

use std::io;
use std::io::{ErrorKind, Read, Write};

/// The most times that a call is made.
const MOST_TRIES: u64 = 4_294_967_296;

/// Reads once. A read that a signal interrupts is made again.
pub(crate) fn read_again<T: Read>(reader: &mut T, buf: &mut [u8]) -> io::Result<usize>
    ensures bound { ReadsAtMost result buf.new }
    ensures bytes { ReadConsumes (T.remaining reader.old) (T.remaining reader.new) result buf.new }
{
    'tries: for _ in 0..MOST_TRIES {
        match reader.read(buf) {
            Err(error) if error.kind() == ErrorKind::Interrupted => {}
            ended => return ended,
        }
    }
    Err(io::Error::from(ErrorKind::Interrupted))
}

/// Writes once. A write that a signal interrupts is made again.
pub(crate) fn write_again<T: Write>(writer: &mut T, buf: &[u8]) -> io::Result<usize>
    ensures bound { WritesAtMost result buf.now }
    ensures bytes { WriteAppends (T.contents writer.old) (T.contents writer.new) result buf.now }
{
    'tries: for _ in 0..MOST_TRIES {
        match writer.write(buf) {
            Err(error) if error.kind() == ErrorKind::Interrupted => {}
            ended => return ended,
        }
    }
    Err(io::Error::from(ErrorKind::Interrupted))
}

/// Flushes once. A flush that a signal interrupts is made again.
pub(crate) fn flush_again<T: Write>(writer: &mut T) -> io::Result<()>
    ensures { Keeps (T.contents writer.old) (T.contents writer.new) }
{
    'tries: for _ in 0..MOST_TRIES {
        match writer.flush() {
            Err(error) if error.kind() == ErrorKind::Interrupted => {}
            ended => return ended,
        }
    }
    Err(io::Error::from(ErrorKind::Interrupted))
}
