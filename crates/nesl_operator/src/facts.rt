//! What the monitor and the file of counters are written from.

use nesl_metrics::text::Moment;
use nesl_service_records::counters::Counters;
use std::fs::{self, File};
use std::io::Read;
use std::rt::Files;
use std::sync::Arc;
use std::sync::atomic::AtomicBool;
use std::time::{Clock, Instant};

/// The bytes of a page of memory on x86-64.
const PAGE_BYTES: u64 = 4096;

/// What the system says of the process's memory: the pages of all its addresses, and those that it has.
const MEMORY: &str = "/proc/self/statm";

/// What can tell how much memory the process has.
pub trait Resident {
    /// The bytes of memory that the process has, if the system says so.
    fn resident(&self) -> Option<u64>;
}

impl<R: Files<File = File>> Resident for R {
    fn resident(&self) -> Option<u64> {
        let mut file = fs::open(self, MEMORY).ok()?;
        let mut bytes = [0u8; 64];
        let count = file.read(&mut bytes).ok()?;
        let text = str::from_utf8(bytes.get(..count)?).ok()?;
        let pages = text.split(' ').nth(1)?.parse::<u64>().ok()?;
        Some(pages.saturating_mul(PAGE_BYTES))
    }
}

/// What is known of a service.
#[derive(Drop)]
pub struct Facts {
    /// The program's version, and that of the kit with which it is proved.
    pub version: &'static str,
    pub kit: &'static str,
    pub counters: Arc<Counters>,
    pub begun: Instant,
    /// The number of seats.
    pub seats: usize,
    /// The number of threads that serve.
    pub threads: usize,
    /// Whether an operator has closed the service.
    pub is_stopping: AtomicBool,
}

impl Facts {
    /// What is read beside the counters at this moment.
    pub fn moment<R: Clock + Resident>(&self, rt: &R) -> Moment<'static> {
        let uptime = match self.begun.elapsed(rt) {
            Ok(uptime) => uptime.as_secs(),
            Err(_) => 0,
        };
        Moment {
            version: self.version,
            kit: self.kit,
            uptime,
            seats: self.seats,
            threads: self.threads,
            resident: rt.resident(),
        }
    }
}
