//! Accepts connections.

use std::io::ErrorKind;
use std::net::{Shutdown, TcpListener, TcpStream};
use std::os::fd::OwnedFd;
use std::sync::Wait;
use std::sync::atomic::{AtomicU64, Ordering};
use std::time::{Clock, Duration};
use std::{io, thread};

/// Errors by which the system lacks something: descriptors of the process, descriptors at all, buffers, or memory.
const SCARCE: [i32; 4] = [24, 23, 105, 12];

/// Errors of `accept` on Linux for a connection that failed before it was accepted. A rule forbids it, its protocol or
/// its network failed, or its host can't be reached.
const FAILED: [i32; 7] = [1, 71, 64, 100, 101, 112, 113];

/// How many milliseconds a pause lasts while the system lacks something. With `MOST_PAUSES`, this is a minute.
const PAUSE_MILLIS: u64 = 100;

const MOST_PAUSES: u32 = 600;

/// A connection that was accepted, with the peer's port.
#[derive(Drop)]
pub(crate) struct Accepted {
    pub(crate) stream: TcpStream,
    pub(crate) port: u16,
}

/// Accepts the connections of a listener.
#[derive(Drop)]
pub(crate) struct Acceptor<'x> {
    listener: &'x TcpListener,
    /// The listener's socket again, whose shutdown ends all waiting.
    closer: TcpStream,
    /// The number of connections after which the listener is closed.
    most: u64,
    /// The number of accepted connections.
    taken: AtomicU64,
}

impl<'x> Acceptor<'x> {
    /// Accepts at most `most` connections, or any number.
    pub(crate) fn new(listener: &'x TcpListener, most: Option<u64>) -> io::Result<Acceptor<'x>> {
        let closer = TcpStream::from(OwnedFd::from(listener.try_clone()?));
        Ok(Acceptor {
            listener,
            closer,
            most: most.unwrap_or(u64::MAX),
            taken: AtomicU64::new(0),
        })
    }

    /// Ends each wait for a connection. Later waits end at once.
    pub(crate) fn close(&self) {
        let _ = self.closer.shutdown(Shutdown::Both).is_ok();
    }

    /// Waits for the next connection. While the system lacks something that another process may release, it tries again
    /// for a minute. A connection that ended or failed before it was accepted doesn't count. After the last one the
    /// port is closed, so that no peer connects in vain.
    pub(crate) fn next<R: Wait + Clock>(&self, rt: &R) -> io::Result<Accepted> {
        let mut pauses = 0;
        for _ in rt.forever() {
            match self.listener.accept() {
                Ok((stream, address)) => {
                    self.count();
                    return Ok(Accepted {
                        stream,
                        port: address.port(),
                    });
                }
                Err(error) if is_over(&error) => {}
                Err(error) if is_scarce(&error) && pauses < MOST_PAUSES => {
                    thread::sleep(rt, Duration::from_millis(PAUSE_MILLIS));
                    pauses += 1;
                }
                Err(error) => return Err(error),
            }
        }
        Err(io::Error::from(ErrorKind::TimedOut))
    }

    // Counts an accepted connection, and closes the port after the last one.
    fn count(&self) {
        let before = self.taken.fetch_add(1, Ordering::SeqCst);
        if before.saturating_add(1) == self.most {
            self.close();
        }
    }
}

// Whether a connection ended or failed before it was accepted.
fn is_over(error: &io::Error) -> bool {
    error.kind() == ErrorKind::ConnectionAborted || has_code(error, &FAILED)
}

// Whether the system lacks something.
fn is_scarce(error: &io::Error) -> bool {
    has_code(error, &SCARCE)
}

// Whether this is one of these errors of the system.
fn has_code(error: &io::Error, codes: &[i32]) -> bool {
    match error.raw_os_error() {
        Some(code) => codes.contains(&code),
        None => false,
    }
}
