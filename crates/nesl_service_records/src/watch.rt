//! Measures how long lines take.

use std::io;
use std::io::Read;
use std::sync::atomic::{AtomicU64, Ordering};
use std::time::{Clock, Duration};

/// A stopwatch, which a connection's reader starts and its writer reads. If it isn't wanted, it never reads the clock.
#[derive(Drop)]
pub struct Watch<'x, R> {
    rt: &'x R,
    is_wanted: bool,
    /// The microsecond at which it was last started.
    since: AtomicU64,
}

impl<'x, R: Clock> Watch<'x, R> {
    /// A watch that has not been started. It counts from the clock's zero until then.
    pub fn new(rt: &'x R, is_wanted: bool) -> Watch<'x, R> {
        Watch {
            rt,
            is_wanted,
            since: AtomicU64::new(0),
        }
    }

    /// Starts the watch anew.
    pub fn begin(&self) {
        if let Some(now) = self.now() {
            self.since.store(now, Ordering::SeqCst);
        }
    }

    /// The time since the watch was started, or `None` if it isn't wanted or the clock can't be read.
    pub fn passed(&self) -> Option<Duration> {
        let micros = self
            .now()?
            .saturating_sub(self.since.load(Ordering::SeqCst));
        Some(Duration::from_micros(micros))
    }

    fn now(&self) -> Option<u64> {
        if !self.is_wanted {
            return None;
        }
        u64::try_from(self.rt.monotonic().ok()?.as_micros()).ok()
    }
}

/// A reader that starts a watch after each read.
#[derive(Drop)]
pub struct Timed<'x, T, R> {
    pub reader: T,
    pub watch: &'x Watch<'x, R>,
}

impl<T: Read, R: Clock> Read for Timed<'_, T, R> {
    fn read(&mut self, buf: &mut [u8]) -> io::Result<usize> {
        let count = self.reader.read(buf)?;
        self.watch.begin();
        Ok(count)
    }
}
