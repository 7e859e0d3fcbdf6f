//! The counters of a service.

use crate::answers::FAULTS;
use crate::journal::{Answered, Caller, Ending, Seat};
use crate::kept::KeptLine;
use std::alloc::{AllocError, Global};
use std::fmt::Write;
use std::sync::atomic::{AtomicU64, Ordering};
use std::time::Duration;

/// The thresholds in milliseconds for slow lines. A line counts for each threshold that it reaches.
const SLOW_MILLIS: [u64; 3] = [1, 10, 100];

/// Counts events of a service. Any thread may count. No counter names a user or a line.
#[derive(Drop)]
pub struct Counters {
    begun: AtomicU64,
    unknown: AtomicU64,
    busy: AtomicU64,
    /// One counter for each ending, in the order of `Ending::ALL`.
    ended: Vec<AtomicU64>,
    lines: AtomicU64,
    /// One counter for each fault, in the order of `FAULTS`.
    faults: Vec<AtomicU64>,
    /// One counter for each threshold, in the order of `SLOW_MILLIS`.
    slow: Vec<AtomicU64>,
    work: AtomicU64,
    /// The microseconds that measured lines took.
    micros: AtomicU64,
    granted: AtomicU64,
    refused: AtomicU64,
    written: AtomicU64,
    lost: AtomicU64,
    /// 1 if sessions are kept, and else 0.
    keeping: AtomicU64,
    kept_lines: AtomicU64,
    kept_bytes: AtomicU64,
    kept_micros: AtomicU64,
    /// One counter for each threshold, in the order of `SLOW_MILLIS`.
    slow_kept: Vec<AtomicU64>,
    not_taken_up: AtomicU64,
}

// Makes `count` counters, each at 0.
fn zeros(alloc: Global, count: usize) -> Result<Vec<AtomicU64>, AllocError> {
    let mut zeros = Vec::with_capacity(alloc, count)?;
    for _ in 0..count {
        zeros.push(AtomicU64::new(0))?;
    }
    Ok(zeros)
}

fn add(counter: &AtomicU64, more: u64) {
    counter.fetch_add(more, Ordering::SeqCst);
}

fn add_at(counters: &[AtomicU64], place: usize) {
    if let Some(counter) = counters.get(place) {
        add(counter, 1);
    }
}

// Counts a time for each threshold that it reaches.
fn add_slow(counters: &[AtomicU64], took: Duration) {
    for (place, millis) in SLOW_MILLIS.iter().enumerate() {
        if took >= Duration::from_millis(*millis) {
            add_at(counters, place);
        }
    }
}

fn read(counter: &AtomicU64) -> u64 {
    counter.load(Ordering::SeqCst)
}

fn read_at(counters: &[AtomicU64], place: usize) -> u64 {
    match counters.get(place) {
        Some(counter) => read(counter),
        None => 0,
    }
}

fn micros_in(took: Duration) -> u64 {
    u64::try_from(took.as_micros()).unwrap_or(u64::MAX)
}

// Reads counters, in order.
fn read_each(alloc: Global, counters: &[AtomicU64]) -> Result<Vec<u64>, AllocError> {
    let mut numbers = Vec::with_capacity(alloc, counters.len())?;
    for counter in counters {
        numbers.push(read(counter))?;
    }
    Ok(numbers)
}

/// The numbers of counters. They may be of different moments.
#[derive(Drop)]
pub struct Readings {
    /// The connections that have begun.
    pub begun: u64,
    /// Those that were turned away, since their user is unknown or busy.
    pub unknown: u64,
    pub busy: u64,
    /// Those that have ended, in the order of `Ending::ALL`.
    pub ended: Vec<u64>,
    /// The lines that were answered, and their faults in the order of `FAULTS`.
    pub lines: u64,
    pub faults: Vec<u64>,
    /// The lines that took 1, 10 and 100 milliseconds or longer.
    pub slow: Vec<u64>,
    pub work: u64,
    /// The microseconds that lines took.
    pub micros: u64,
    /// The requests for helpers that were granted and refused.
    pub granted: u64,
    pub refused: u64,
    /// The lines of the log that were written and lost.
    pub written: u64,
    pub lost: u64,
    /// The lines that were kept, with their bytes and microseconds, and the sessions that could not be taken up.
    pub kept_lines: u64,
    pub kept_bytes: u64,
    pub kept_micros: u64,
    pub not_taken_up: u64,
}

// Writes a text and then a number.
fn write_number(text: &mut String, before: &str, number: u64) -> Result<(), AllocError> {
    write!(text, "{before}{number}")?;
    Ok(())
}

// Writes `"NAME":NUMBER`, after a comma unless it is the first.
fn write_one(
    text: &mut String,
    place: usize,
    name: &str,
    counters: &[AtomicU64],
) -> Result<(), AllocError> {
    text.push_str(if place > 0 { ",\"" } else { "\"" })?;
    text.push_str(name)?;
    write_number(text, "\":", read_at(counters, place))
}

// Writes how many times reached each threshold.
fn write_slow(text: &mut String, counters: &[AtomicU64]) -> Result<(), AllocError> {
    text.push_str("\"slow\":{")?;
    for (place, name) in ["1 ms", "10 ms", "100 ms"].iter().enumerate() {
        write_one(text, place, name, counters)?;
    }
    text.push_str("}")
}

impl Counters {
    /// All counters at 0.
    pub fn new(alloc: Global) -> Result<Counters, AllocError> {
        Ok(Counters {
            begun: AtomicU64::new(0),
            unknown: AtomicU64::new(0),
            busy: AtomicU64::new(0),
            ended: zeros(alloc, Ending::ALL.len())?,
            lines: AtomicU64::new(0),
            faults: zeros(alloc, FAULTS.len())?,
            slow: zeros(alloc, SLOW_MILLIS.len())?,
            work: AtomicU64::new(0),
            micros: AtomicU64::new(0),
            granted: AtomicU64::new(0),
            refused: AtomicU64::new(0),
            written: AtomicU64::new(0),
            lost: AtomicU64::new(0),
            keeping: AtomicU64::new(0),
            kept_lines: AtomicU64::new(0),
            kept_bytes: AtomicU64::new(0),
            kept_micros: AtomicU64::new(0),
            slow_kept: zeros(alloc, SLOW_MILLIS.len())?,
            not_taken_up: AtomicU64::new(0),
        })
    }

    /// Counts a connection that has begun.
    pub fn begun(&self) {
        add(&self.begun, 1);
    }

    /// Counts a connection that was turned away by this answer to its first line.
    pub fn seated(&self, seat: Seat<'_>) {
        match seat {
            Seat::User(_) => {}
            Seat::Unknown => add(&self.unknown, 1),
            Seat::Busy => add(&self.busy, 1),
        }
    }

    /// Counts a connection that has ended.
    pub fn ended(&self, ending: Ending) {
        if let Some(place) = Ending::ALL.iter().position(|one| *one == ending) {
            add_at(self.ended.as_slice(), place);
        }
    }

    /// Counts a line that was answered, with its work, its fault and its time.
    pub fn answered(&self, answered: &Answered) {
        add(&self.lines, 1);
        if answered.work > 0 {
            add(&self.work, answered.work);
        }
        if let Some(place) = answered.fault {
            add_at(self.faults.as_slice(), place);
        }
        if let Some(took) = answered.took {
            add_slow(self.slow.as_slice(), took);
            add(&self.micros, micros_in(took));
        }
    }

    /// Counts a request for a helper.
    pub fn asked(&self, is_granted: bool) {
        add(
            if is_granted {
                &self.granted
            } else {
                &self.refused
            },
            1,
        );
    }

    /// Counts a line of the log, which was written or lost.
    pub fn logged(&self, is_written: bool) {
        add(
            if is_written {
                &self.written
            } else {
                &self.lost
            },
            1,
        );
    }

    /// Notes that sessions are kept.
    pub fn keep(&self) {
        self.keeping.store(1, Ordering::SeqCst);
    }

    /// Counts a line that was kept, with its bytes and its time.
    pub fn kept(&self, kept: KeptLine) {
        add(&self.kept_lines, 1);
        add(&self.kept_bytes, kept.bytes);
        add(&self.kept_micros, micros_in(kept.took));
        add_slow(self.slow_kept.as_slice(), kept.took);
    }

    /// Counts a kept session that could not be taken up.
    pub fn not_taken_up(&self) {
        add(&self.not_taken_up, 1);
    }

    /// Returns the numbers of all counters.
    pub fn readings(&self, alloc: Global) -> Result<Readings, AllocError> {
        Ok(Readings {
            begun: read(&self.begun),
            unknown: read(&self.unknown),
            busy: read(&self.busy),
            ended: read_each(alloc, self.ended.as_slice())?,
            lines: read(&self.lines),
            faults: read_each(alloc, self.faults.as_slice())?,
            slow: read_each(alloc, self.slow.as_slice())?,
            work: read(&self.work),
            micros: read(&self.micros),
            granted: read(&self.granted),
            refused: read(&self.refused),
            written: read(&self.written),
            lost: read(&self.lost),
            kept_lines: read(&self.kept_lines),
            kept_bytes: read(&self.kept_bytes),
            kept_micros: read(&self.kept_micros),
            not_taken_up: read(&self.not_taken_up),
        })
    }

    /// Returns all counters as one line of JSON, without a line end. `uptime` is rounded down to seconds.
    pub fn json(&self, alloc: Global, uptime: Duration) -> Result<String, AllocError> {
        let mut text = String::new(alloc);
        self.write_connections(&mut text, uptime)?;
        self.write_lines(&mut text)?;
        self.write_events(&mut text)?;
        self.write_kept(&mut text)?;
        Ok(text)
    }

    // Writes the uptime, and the numbers of connections.
    fn write_connections(&self, text: &mut String, uptime: Duration) -> Result<(), AllocError> {
        let mut ended = 0u64;
        for one in self.ended.as_slice() {
            ended = ended.saturating_add(read(one));
        }
        let begun = read(&self.begun);
        write_number(text, "{\"uptime\":", uptime.as_secs())?;
        write_number(text, ",\"begun\":", begun)?;
        write_number(text, ",\"open\":", begun.saturating_sub(ended))?;
        write_number(text, ",\"turned_away\":{\"unknown\":", read(&self.unknown))?;
        write_number(text, ",\"busy\":", read(&self.busy))?;
        text.push_str("},\"ended\":{")?;
        for (place, ending) in Ending::ALL.iter().enumerate() {
            write_one(text, place, ending.words(), self.ended.as_slice())?;
        }
        text.push_str("},")
    }

    // Writes the numbers of lines.
    fn write_lines(&self, text: &mut String) -> Result<(), AllocError> {
        write_number(text, "\"lines\":", read(&self.lines))?;
        write_number(text, ",\"work\":", read(&self.work))?;
        write_number(text, ",\"us\":", read(&self.micros))?;
        text.push_str(",\"faults\":{")?;
        for (place, word) in FAULTS.iter().enumerate() {
            write_one(text, place, word, self.faults.as_slice())?;
        }
        text.push_str("},")?;
        write_slow(text, self.slow.as_slice())?;
        text.push_str(",")
    }

    // Writes the numbers of requests for helpers, and of lines of the log.
    fn write_events(&self, text: &mut String) -> Result<(), AllocError> {
        write_number(text, "\"helpers\":{\"granted\":", read(&self.granted))?;
        write_number(text, ",\"refused\":", read(&self.refused))?;
        write_number(text, "},\"log\":{\"told\":", read(&self.written))?;
        write_number(text, ",\"lost\":", read(&self.lost))?;
        text.push_str("},")
    }

    // Writes the numbers of lines that were kept, and of sessions that could not be taken up.
    fn write_kept(&self, text: &mut String) -> Result<(), AllocError> {
        write_number(text, "\"keep\":{\"on\":", read(&self.keeping))?;
        write_number(text, ",\"lines\":", read(&self.kept_lines))?;
        write_number(text, ",\"bytes\":", read(&self.kept_bytes))?;
        write_number(text, ",\"us\":", read(&self.kept_micros))?;
        text.push_str(",")?;
        write_slow(text, self.slow_kept.as_slice())?;
        write_number(text, ",\"not_taken_up\":", read(&self.not_taken_up))?;
        text.push_str("}}")
    }
}
