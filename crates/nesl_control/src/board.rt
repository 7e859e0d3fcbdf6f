//! What is known of the seats of a service, which any thread may note and read.

use std::alloc::{AllocError, Global};
use std::sync::atomic::{AtomicU64, Ordering};

/// A connection, as a board tells it apart from others: its number, counted from 1, and whether it is a WebSocket.
#[derive(Clone, Copy, PartialEq, Eq, Debug)]
pub struct Occupant {
    pub number: u64,
    pub is_web: bool,
}

impl Occupant {
    // One number for each connection, and never 0.
    fn code(self) -> u64 {
        let web = if self.is_web { 1 } else { 0 };
        self.number.saturating_mul(2).saturating_add(web).max(1)
    }
}

/// What is left to a session: lines, elements and work.
#[derive(Clone, Copy, PartialEq, Eq, Debug)]
pub struct Allowance {
    pub lines: u64,
    pub elements: u64,
    pub work: u64,
}

/// What is known of a seat. The numbers may be of different moments.
#[derive(Clone, Copy, PartialEq, Eq, Debug)]
pub struct SeatRow {
    /// Whether a connection has the seat.
    pub is_here: bool,
    /// Since when, in seconds since 1970: since the connection came, or since it left. It is 0 if none ever came.
    pub since: u64,
    /// The port of the peer.
    pub port: u64,
    /// What is left to the session, if it had a line since the start.
    pub left: Option<Allowance>,
    /// The place of the last answer's fault in the list of faults, if it was one.
    pub fault: Option<usize>,
    /// How many faults in a row were answered.
    pub in_row: u64,
    /// The microseconds that all answers took.
    pub micros: u64,
}

// The numbers of one seat.
#[derive(Drop)]
struct Entry {
    // The code of the connection that has the seat, or 0.
    occupant: AtomicU64,
    since: AtomicU64,
    port: AtomicU64,
    // 1 if the next three are known.
    is_known: AtomicU64,
    lines: AtomicU64,
    elements: AtomicU64,
    work: AtomicU64,
    // The place of the last fault, and 1 more.
    fault: AtomicU64,
    in_row: AtomicU64,
    micros: AtomicU64,
}

fn zero() -> AtomicU64 {
    AtomicU64::new(0)
}

impl Entry {
    fn new() -> Entry {
        Entry {
            occupant: zero(),
            since: zero(),
            port: zero(),
            is_known: zero(),
            lines: zero(),
            elements: zero(),
            work: zero(),
            fault: zero(),
            in_row: zero(),
            micros: zero(),
        }
    }
}

fn set(number: &AtomicU64, to: u64) {
    number.store(to, Ordering::SeqCst);
}

fn read(number: &AtomicU64) -> u64 {
    number.load(Ordering::SeqCst)
}

/// The seats of a service, by their places.
#[derive(Drop)]
pub struct Board {
    entries: Vec<Entry>,
}

impl Board {
    /// A board for this number of seats, at which nobody was.
    pub fn new(alloc: Global, seats: usize) -> Result<Board, AllocError> {
        let mut entries = Vec::with_capacity(alloc, seats)?;
        for _ in 0..seats {
            entries.push(Entry::new())?;
        }
        Ok(Board { entries })
    }

    /// Notes that a connection has got a seat at this second.
    pub fn come(&self, place: usize, occupant: Occupant, port: u16, second: u64) {
        if let Some(entry) = self.entries.get(place) {
            set(&entry.port, u64::from(port));
            set(&entry.since, second);
            set(&entry.fault, 0);
            set(&entry.in_row, 0);
            set(&entry.occupant, occupant.code());
        }
    }

    /// Notes that a connection has left at this second. It is ignored if the seat is another's by now.
    pub fn leave(&self, occupant: Occupant, second: u64) {
        if let Some(entry) = self.entry_of(occupant) {
            set(&entry.occupant, 0);
            set(&entry.since, second);
        }
    }

    /// Notes what is left to the session of a seat.
    pub fn stand(&self, place: usize, left: Allowance) {
        if let Some(entry) = self.entries.get(place) {
            set(&entry.lines, left.lines);
            set(&entry.elements, left.elements);
            set(&entry.work, left.work);
            set(&entry.is_known, 1);
        }
    }

    /// Notes an answer: the place of its fault, if it was one, and how many microseconds it took.
    pub fn answer(&self, occupant: Occupant, fault: Option<usize>, micros: u64) {
        let Some(entry) = self.entry_of(occupant) else {
            return;
        };
        entry.micros.fetch_add(micros, Ordering::SeqCst);
        match fault {
            Some(place) => {
                set(&entry.fault, (place as u64).saturating_add(1));
                entry.in_row.fetch_add(1, Ordering::SeqCst);
            }
            None => {
                set(&entry.fault, 0);
                set(&entry.in_row, 0);
            }
        }
    }

    /// Returns what is known of a seat.
    pub fn row(&self, place: usize) -> Option<SeatRow> {
        let entry = self.entries.get(place)?;
        Some(SeatRow {
            is_here: read(&entry.occupant) > 0,
            since: read(&entry.since),
            port: read(&entry.port),
            left: left_of(entry),
            fault: fault_of(read(&entry.fault)),
            in_row: read(&entry.in_row),
            micros: read(&entry.micros),
        })
    }

    /// How many seats a connection has.
    pub fn taken(&self) -> usize {
        let mut taken = 0usize;
        for entry in &self.entries {
            if read(&entry.occupant) > 0 {
                taken = taken.saturating_add(1);
            }
        }
        taken
    }

    // The seat that a connection has.
    fn entry_of(&self, occupant: Occupant) -> Option<&Entry> {
        let code = occupant.code();
        let place = self
            .entries
            .iter()
            .position(|entry| read(&entry.occupant) == code)?;
        self.entries.get(place)
    }
}

fn left_of(entry: &Entry) -> Option<Allowance> {
    if read(&entry.is_known) == 0 {
        return None;
    }
    Some(Allowance {
        lines: read(&entry.lines),
        elements: read(&entry.elements),
        work: read(&entry.work),
    })
}

// The place of a fault, from a number that is 1 more.
fn fault_of(code: u64) -> Option<usize> {
    usize::try_from(code.checked_sub(1)?).ok()
}
