//! The open connections of a service.

use crate::wire::Reader;
use nesl_line::exchange::End;
use nesl_service_records::journal::Missed;
use nesl_service_records::watch::Timed;
use std::alloc::{AllocError, Global};
use std::io::{ErrorKind, Read};
use std::net::{Shutdown, TcpStream};
use std::sync::atomic::{AtomicBool, AtomicU64, Ordering};
use std::sync::{Mutex, Wait};
use std::time::{Clock, Duration};
use std::{io, thread};

/// How many milliseconds pass between two looks at whether older connections of a user have ended.
const LOOK_MILLIS: u64 = 10;

/// The most looks: five seconds.
const MOST_LOOKS: u32 = 500;

/// An open connection.
#[derive(Drop)]
struct Open {
    /// A second descriptor of its stream.
    stream: TcpStream,
    /// The place of the user whose seat it has claimed, or may have.
    seat: Option<usize>,
}

/// The streams of the open connections, which a thread can shut down for others. A thread that waits for one of them
/// goes on then.
#[derive(Drop)]
pub(crate) struct Streams {
    /// A place is empty if its connection has ended.
    places: Mutex<Vec<Option<Open>>>,
    /// Of each place, why its connection was shut down: the code of an `Exit`. They are read without a lock.
    exits: Vec<AtomicU64>,
    are_shut: AtomicBool,
}

/// The place at which the stream of a connection is listed.
#[derive(Clone, Copy, PartialEq, Eq, Debug)]
pub(crate) struct Listed {
    place: usize,
}

/// Why a connection was shut down alone.
#[derive(Clone, Copy, PartialEq, Eq, Debug)]
enum Exit {
    /// It wasn't.
    No,
    /// For a newer one of its user.
    Replaced,
    /// An operator wanted it.
    Dismissed,
}

impl Exit {
    fn code(self) -> u64 {
        match self {
            Exit::No => 0,
            Exit::Replaced => 1,
            Exit::Dismissed => 2,
        }
    }

    fn of(code: u64) -> Exit {
        match code {
            0 => Exit::No,
            1 => Exit::Replaced,
            _ => Exit::Dismissed,
        }
    }
}

/// Whether a connection may have the seat that it has claimed.
#[derive(Clone, Copy, PartialEq, Eq, Debug)]
pub(crate) enum Claim {
    /// No older connection has it.
    Granted,
    /// An older connection has not ended yet.
    Waiting,
    /// A newer connection has claimed it.
    Lost,
}

impl Streams {
    /// Places for this number of streams at a time.
    pub(crate) fn new(alloc: Global, count: usize) -> Result<Streams, AllocError> {
        let mut places = Vec::with_capacity(alloc, count)?;
        let mut exits = Vec::with_capacity(alloc, count)?;
        for _ in 0..count {
            places.push(None)?;
            exits.push(AtomicU64::new(Exit::No.code()))?;
        }
        Ok(Streams {
            places: Mutex::new(places),
            exits,
            are_shut: AtomicBool::new(false),
        })
    }

    /// Whether the stream of a connection was shut down, alone or with all others.
    pub(crate) fn is_shut(&self, listed: Option<Listed>) -> bool {
        let is_alone = match listed {
            Some(listed) => self.exit_of(listed.place) != Exit::No,
            None => false,
        };
        is_alone || self.are_shut.load(Ordering::SeqCst)
    }

    /// Returns what a connection has missed if it was shut down: its seat, which a newer one has, or a leave of its
    /// own.
    pub(crate) fn missed(&self, listed: Option<Listed>) -> Option<Missed> {
        match self.exit_of(listed?.place) {
            Exit::No => None,
            Exit::Replaced => Some(Missed::Seat),
            Exit::Dismissed => Some(Missed::Leave),
        }
    }

    /// Lists the stream of a connection that begins. If that can't be done, returns how the connection ends: without
    /// memory if there is no second descriptor or no place, and as if a read had failed if the streams were shut down.
    pub(crate) fn list<R: Wait>(&self, rt: &R, stream: &TcpStream) -> Result<Listed, End> {
        let Ok(second) = stream.try_clone() else {
            return Err(End::NoMemory);
        };
        let mut places = self.places.lock(rt);
        if self.are_shut.load(Ordering::SeqCst) {
            let _ = second.shutdown(Shutdown::Both).is_ok();
            return Err(End::ReadFault);
        }
        let Some(place) = places.iter().position(|place| place.is_none()) else {
            return Err(End::NoMemory);
        };
        places[place] = Some(Open {
            stream: second,
            seat: None,
        });
        self.set_exit(place, Exit::No);
        Ok(Listed { place })
    }

    /// Lists the stream of a connection that has ended no longer.
    pub(crate) fn unlist<R: Wait>(&self, rt: &R, listed: Listed) {
        if let Some(place) = self.places.lock(rt).get_mut(listed.place) {
            *place = None;
        }
    }

    /// Claims the seat of a user for a listed connection. All older connections that have claimed it are shut down.
    /// Then it waits until they have ended, at most for five seconds.
    pub(crate) fn claim<R: Wait + Clock>(&self, rt: &R, listed: Listed, seat: usize) -> Claim {
        let mut claim = self.take_over(rt, listed, seat);
        for _ in 0..MOST_LOOKS {
            if claim != Claim::Waiting {
                return claim;
            }
            thread::sleep(rt, Duration::from_millis(LOOK_MILLIS));
            claim = self.claim_of(self.places.lock(rt).as_slice(), listed, seat);
        }
        claim
    }

    /// Notes that a listed connection may have the seat of a user. A newer one that claims it shuts it down.
    pub(crate) fn note<R: Wait>(&self, rt: &R, listed: Listed, seat: usize) {
        if let Some(Some(open)) = self.places.lock(rt).get_mut(listed.place) {
            open.seat = Some(seat);
        }
    }

    /// Shuts down all listed streams, and each one that is listed from now on.
    pub(crate) fn shut_all<R: Wait>(&self, rt: &R) {
        let places = self.places.lock(rt);
        self.are_shut.store(true, Ordering::SeqCst);
        for place in places.as_slice() {
            if let Some(open) = place {
                let _ = open.stream.shutdown(Shutdown::Both).is_ok();
            }
        }
    }

    // Shuts down the other connections that have claimed a seat, and claims it.
    fn take_over<R: Wait>(&self, rt: &R, listed: Listed, seat: usize) -> Claim {
        let mut places = self.places.lock(rt);
        for (place, open) in places.iter_mut().enumerate() {
            match open {
                Some(open) if place == listed.place => open.seat = Some(seat),
                Some(open) if open.seat == Some(seat) => {
                    self.set_exit(place, Exit::Replaced);
                    let _ = open.stream.shutdown(Shutdown::Both).is_ok();
                }
                Some(_) | None => {}
            }
        }
        self.claim_of(places.as_slice(), listed, seat)
    }

    // Returns what has become of a claim.
    fn claim_of(&self, places: &[Option<Open>], listed: Listed, seat: usize) -> Claim {
        if self.exit_of(listed.place) != Exit::No {
            Claim::Lost
        } else if self.has_older(places, seat) {
            Claim::Waiting
        } else {
            Claim::Granted
        }
    }

    // Whether a connection that was shut down for a newer one of this user has not ended yet.
    fn has_older(&self, places: &[Option<Open>], seat: usize) -> bool {
        places.iter().enumerate().any(|(place, open)| match open {
            Some(open) => open.seat == Some(seat) && self.exit_of(place) == Exit::Replaced,
            None => false,
        })
    }

    /// Shuts down the connections that have claimed the seat of a user, or may have it, and returns how many there are.
    pub(crate) fn dismiss<R: Wait>(&self, rt: &R, seat: usize) -> usize {
        let places = self.places.lock(rt);
        let mut count = 0usize;
        for (place, open) in places.iter().enumerate() {
            if let Some(open) = open {
                if open.seat == Some(seat) {
                    self.dismiss_one(place, open);
                    count = count.saturating_add(1);
                }
            }
        }
        count
    }

    /// Shuts down all connections that are listed now.
    pub(crate) fn dismiss_all<R: Wait>(&self, rt: &R) {
        let places = self.places.lock(rt);
        for (place, open) in places.iter().enumerate() {
            if let Some(open) = open {
                self.dismiss_one(place, open);
            }
        }
    }

    // Shuts down a connection because an operator wants it, unless it was shut down before.
    fn dismiss_one(&self, place: usize, open: &Open) {
        if self.exit_of(place) == Exit::No {
            self.set_exit(place, Exit::Dismissed);
            let _ = open.stream.shutdown(Shutdown::Both).is_ok();
        }
    }

    // Why the connection at a place was shut down alone.
    fn exit_of(&self, place: usize) -> Exit {
        match self.exits.get(place) {
            Some(exit) => Exit::of(exit.load(Ordering::SeqCst)),
            None => Exit::No,
        }
    }

    // Notes why the connection at a place was shut down alone.
    fn set_exit(&self, place: usize, exit: Exit) {
        if let Some(noted) = self.exits.get(place) {
            noted.store(exit.code(), Ordering::SeqCst);
        }
    }
}

/// A reader of lines that fails once its stream was shut down. So what had come of a line by then isn't taken for the
/// last one.
#[derive(Drop)]
pub(crate) struct WholeLines<'x, R> {
    pub(crate) reader: Timed<'x, Reader<'x, R>, R>,
    pub(crate) streams: &'x Streams,
    pub(crate) listed: Option<Listed>,
}

impl<R: Clock> Read for WholeLines<'_, R> {
    fn read(&mut self, buf: &mut [u8]) -> io::Result<usize> {
        let count = self.reader.read(buf)?;
        if count == 0 && self.streams.is_shut(self.listed) {
            return Err(io::Error::from(ErrorKind::ConnectionAborted));
        }
        Ok(count)
    }
}
