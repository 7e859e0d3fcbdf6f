//! The state that all connections share for requests of helpers.

use crate::timings::Timings;
use std::sync::atomic::{AtomicU64, Ordering};

/// Counts the threads that evaluate lines or halves, and remembers how long intervals take. `processors` is how many
/// threads can run at once.
#[derive(Drop)]
pub struct Common {
    processors: u64,
    at_work: AtomicU64,
    pub(crate) timings: Timings,
}

impl Common {
    /// No thread evaluates, and no interval is known.
    pub fn new(processors: usize) -> Common {
        Common {
            processors: processors as u64,
            at_work: AtomicU64::new(0),
            timings: Timings::new(),
        }
    }

    /// Whether there are as many threads as processors.
    pub(crate) fn is_full(&self) -> bool {
        self.at_work.load(Ordering::Relaxed) >= self.processors
    }

    /// Counts a thread that begins, even if no processor is free.
    pub(crate) fn begin(&self) {
        self.at_work.fetch_add(1, Ordering::Relaxed);
    }

    /// Counts a thread that begins, if a processor is free. Returns whether one was.
    pub(crate) fn begin_on_free(&self) -> bool {
        let before = self.at_work.fetch_add(1, Ordering::Relaxed);
        if before >= self.processors {
            self.end();
            return false;
        }
        true
    }

    /// Counts a thread that ends.
    pub(crate) fn end(&self) {
        self.at_work.fetch_sub(1, Ordering::Relaxed);
    }
}
