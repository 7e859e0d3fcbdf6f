//! Lets an operator steer a service by a socket of the file system. A connection has one line with a request. The last
//! line of its answer is `ok`, or `error` and why.

use crate::desk::{Desk, KeyHolder, Outcome, refuse};
use nesl_control::board::{Allowance, Board, Occupant, SeatRow};
use nesl_control::request::{Request, parse, seconds_in};
use nesl_control::rows::{HEAD, write_row};
use nesl_keep_file::Storage;
use nesl_line::renew::RenewalFault;
use nesl_service_records::answers::FAULTS;
use nesl_service_records::helm::{Helm, Threads};
use nesl_service_records::journal::{Answered, Caller, Seat};
use nesl_service_records::keeping::KeepReason;
use nesl_session::limits::Remaining;
use nesl_system::key_file::ReadKeys;
use nesl_system::log_file::Append;
use nesl_system::stamp::Stamp;
use std::alloc::{AllocError, Global};
use std::fmt::Write as WriteText;
use std::io::{self, Read, Write};
use std::net::Shutdown;
use std::os::fd::OwnedFd;
use std::os::unix::net::{UnixListener, UnixStream};
use std::sync::atomic::{AtomicBool, Ordering};
use std::sync::{Mutex, Wait};
use std::thread;
use std::time::{Clock, Duration, Instant};

/// The most bytes of a request, with its line end.
const MOST_BYTES: usize = 256;

/// How many seconds a request may take to arrive, and an answer to be taken.
const SECONDS: u64 = 5;

/// How many milliseconds pass between two looks at whether the time of a service is over.
const LOOK_MILLIS: u64 = 50;

/// The most requests that wait for the end of a service.
const MOST_WAITING: usize = 16;

/// The operator's side of a service.
#[derive(Drop)]
pub struct Control<'x, R> {
    rt: &'x R,
    alloc: Global,
    listener: UnixListener,
    /// The listener's socket again, whose shutdown ends all waiting.
    closer: UnixStream,
    is_over: AtomicBool,
    users: &'x [&'x str],
    board: Board,
    stop: Mutex<Stop>,
}

/// What is known of the end that an operator wants.
#[derive(Drop)]
struct Stop {
    /// The streams of who asked for it. They end with the process, so that who asked waits for that.
    waiting: Vec<UnixStream>,
    /// When all connections are ended, if a time was given.
    limit: Option<Limit>,
}

/// A time that begins at a moment.
#[derive(Clone, Copy)]
struct Limit {
    begun: Instant,
    length: Duration,
}

impl Limit {
    // What is left of it. Nothing is left if the clock can't be read.
    fn left<R: Clock>(&self, rt: &R) -> Duration {
        match self.begun.elapsed(rt) {
            Ok(passed) => self.length.saturating_sub(passed),
            Err(_) => Duration::ZERO,
        }
    }
}

/// Why there is no request.
enum NoRequest {
    /// The peer has gone.
    Gone,
    Late,
    Long,
}

impl<'x, R: Wait + Clock> Control<'x, R> {
    /// The operator's side of a service for these users.
    pub fn new(
        rt: &'x R,
        alloc: Global,
        listener: UnixListener,
        users: &'x [&'x str],
    ) -> io::Result<Control<'x, R>> {
        let closer = UnixStream::from(OwnedFd::from(listener.try_clone()?));
        Ok(Control {
            rt,
            alloc,
            listener,
            closer,
            is_over: AtomicBool::new(false),
            users,
            board: Board::new(alloc, users.len())?,
            stop: Mutex::new(Stop {
                waiting: Vec::new(alloc),
                limit: None,
            }),
        })
    }

    /// Notes which seat a connection has.
    pub fn note_seat(&self, caller: Caller, seat: Seat<'_>) {
        let Seat::User(name) = seat else {
            return;
        };
        if let Some(place) = self.place_of(name) {
            self.board
                .come(place, occupant_of(caller), caller.port, self.second());
        }
    }

    /// Notes that a connection has ended.
    pub fn note_end(&self, caller: Caller) {
        self.board.leave(occupant_of(caller), self.second());
    }

    /// Notes an answer.
    pub fn note_answer(&self, answered: &Answered) {
        let micros = match answered.took {
            Some(took) => u64::try_from(took.as_micros()).unwrap_or(u64::MAX),
            None => 0,
        };
        self.board
            .answer(occupant_of(answered.caller), answered.fault, micros);
    }

    /// Notes what is left to the session of a place.
    pub fn note_left(&self, place: usize, left: Remaining) {
        let Remaining {
            work,
            elements,
            lines,
            bytes: _,
        } = left;
        self.board.stand(
            place,
            Allowance {
                lines,
                elements,
                work,
            },
        );
    }

    /// Ends all waiting for requests.
    pub fn close(&self) {
        self.is_over.store(true, Ordering::SeqCst);
        let _ = self.closer.shutdown(Shutdown::Both).is_ok();
    }

    fn pause(&self) {
        thread::sleep(self.rt, Duration::from_millis(LOOK_MILLIS));
    }

    // Writes a row for each user.
    fn write_seats(&self, text: &mut String) -> Result<Outcome, AllocError> {
        text.push_str(HEAD)?;
        for (place, user) in self.users.iter().enumerate() {
            if let Some(row) = self.board.row(place) {
                self.write_seat(text, user, &row)?;
            }
        }
        Ok(Outcome::Done)
    }

    fn write_seat(&self, text: &mut String, user: &str, row: &SeatRow) -> Result<(), AllocError> {
        let since = match row.since {
            0 => String::from_str(self.alloc, "-")?,
            second => {
                let stamp = Stamp::at(second);
                format!(in self.alloc; "{stamp}")?
            }
        };
        let fault = match row.fault {
            Some(place) => FAULTS.get(place).copied().unwrap_or("-"),
            None => "-",
        };
        write_row(text, user, row, since.as_str(), fault)
    }

    // Writes how many threads have a connection, and how many users are here.
    fn write_counts(&self, text: &mut String, threads: Threads) -> Result<(), AllocError> {
        let Threads { all, busy, .. } = threads;
        let (here, users) = (self.board.taken(), self.users.len());
        write!(
            text,
            "{busy} of {all} threads have a connection\n{here} of {users} users are here\n"
        )?;
        Ok(())
    }

    fn place_of(&self, name: &[u8]) -> Option<usize> {
        self.users.iter().position(|user| user.as_bytes() == name)
    }

    // The second now, since 1970.
    fn second(&self) -> u64 {
        match self.rt.since_1970() {
            Ok(since) => since.as_secs(),
            Err(_) => 0,
        }
    }

    // A time that begins now. Nothing is left of it if the clock can't be read.
    fn limit(&self, seconds: u64) -> Option<Limit> {
        Some(Limit {
            begun: Instant::now(self.rt).ok()?,
            length: Duration::from_secs(seconds),
        })
    }

    // Reads the line of a request, and returns the number of its bytes without its end.
    fn read_line(
        &self,
        stream: &UnixStream,
        bytes: &mut [u8; MOST_BYTES],
    ) -> Result<usize, NoRequest> {
        let Some(limit) = self.limit(SECONDS) else {
            return Err(NoRequest::Gone);
        };
        let mut length = 0usize;
        for _ in 0..MOST_BYTES {
            let left = limit.left(self.rt);
            if left.is_zero() {
                return Err(NoRequest::Late);
            }
            let count = read_within(stream, bytes.get_mut(length..).unwrap_or(&mut []), left)?;
            length = length.saturating_add(count);
            let read = bytes.get(..length).unwrap_or(&[]);
            if let Some(end) = read.iter().position(|byte| *byte == b'\n') {
                return Ok(end);
            }
        }
        Err(NoRequest::Long)
    }

    // Ends all connections, if their time is over.
    fn end_in_time<H: Helm>(&self, helm: &H) {
        let limit = self.stop.lock(self.rt).limit;
        if let Some(limit) = limit {
            if limit.left(self.rt).is_zero() {
                helm.end_all();
            }
        }
    }

    // Answers who asked for the end.
    fn answer_stops(&self) {
        for stream in &self.stop.lock(self.rt).waiting {
            send(stream, "ok\n");
        }
    }
}

impl<'x, R: Wait + Clock + Append + ReadKeys + Storage> Control<'x, R> {
    /// Answers requests until the service has ended.
    pub fn attend<H: Helm, K: KeyHolder>(&self, helm: &H, desk: &Desk<'_, '_, R, K>) {
        for _ in self.rt.forever() {
            if self.is_over.load(Ordering::SeqCst) {
                break;
            }
            match self.listener.accept() {
                Ok((stream, _)) => self.hear(helm, desk, stream),
                Err(_) => self.pause(),
            }
            self.end_in_time(helm);
        }
        self.answer_stops();
    }

    // Hears one request, and answers it.
    fn hear<H: Helm, K: KeyHolder>(&self, helm: &H, desk: &Desk<'_, '_, R, K>, stream: UnixStream) {
        if stream
            .set_write_timeout(Some(Duration::from_secs(SECONDS)))
            .is_err()
        {
            return;
        }
        let mut bytes = [0u8; MOST_BYTES];
        let length = match self.read_line(&stream, &mut bytes) {
            Ok(length) => length,
            Err(NoRequest::Gone) => return,
            Err(NoRequest::Late) => return send(&stream, "error no request within 5 seconds\n"),
            Err(NoRequest::Long) => return send(&stream, "error the request is too long\n"),
        };
        match parse(bytes.get(..length).unwrap_or(&[])) {
            Some(Request::Stop) => self.stop(helm, desk, stream, None),
            Some(Request::StopWithin(digits)) => match seconds_in(digits) {
                Some(seconds) => self.stop(helm, desk, stream, Some(seconds)),
                None => send(&stream, "error SECONDS is a number from 0 to 86400\n"),
            },
            Some(request) => self.answer(helm, desk, &stream, request),
            None => send(&stream, "error unknown request\n"),
        }
    }

    // Answers a request that doesn't end the service.
    fn answer<H: Helm, K: KeyHolder>(
        &self,
        helm: &H,
        desk: &Desk<'_, '_, R, K>,
        stream: &UnixStream,
        request: Request<'_>,
    ) {
        let mut text = String::new(self.alloc);
        let outcome = match request {
            Request::Seats => self.write_seats(&mut text),
            Request::Check => self.check(&mut text, helm, desk),
            Request::Reopen => desk.reopen(&mut text),
            Request::Keys => desk.read_keys(self.rt, self.alloc, &mut text),
            Request::End(user) => end(&mut text, helm, user),
            Request::Renew(user) => renew(&mut text, helm, user),
            Request::Stop | Request::StopWithin(_) => Ok(Outcome::Done),
        };
        match outcome {
            Ok(Outcome::Done) => {
                send(stream, text.as_str());
                send(stream, "ok\n");
            }
            Ok(Outcome::Refused) => {
                send(stream, "error ");
                send(stream, text.as_str());
                send(stream, "\n");
            }
            Err(AllocError) => send(stream, "error no memory\n"),
        }
    }

    // Writes how the service is doing. Fails if the disk that it needs can't be written.
    fn check<H: Helm, K: KeyHolder>(
        &self,
        text: &mut String,
        helm: &H,
        desk: &Desk<'_, '_, R, K>,
    ) -> Result<Outcome, AllocError> {
        self.write_counts(text, helm.threads())?;
        desk.check_disk(self.rt, self.alloc, text)
    }

    // Accepts no connection any more. All are ended after these seconds, if they are given; of several times the one
    // that ends first counts. The answer comes when all threads have ended.
    fn stop<H: Helm, K: KeyHolder>(
        &self,
        helm: &H,
        desk: &Desk<'_, '_, R, K>,
        stream: UnixStream,
        seconds: Option<u64>,
    ) {
        desk.note_stop();
        helm.close();
        if let Some(seconds) = seconds {
            self.set_limit(helm, seconds);
        }
        let mut stop = self.stop.lock(self.rt);
        if stop.waiting.len() >= MOST_WAITING {
            return send(&stream, "error too many wait for the end\n");
        }
        // Who can't be noted gets no answer, and the service ends all the same.
        let _ = stop.waiting.push(stream).is_ok();
    }

    // Has all connections ended after these seconds. From now on nothing waits for requests longer than for a look at
    // that time.
    fn set_limit<H: Helm>(&self, helm: &H, seconds: u64) {
        let limit = self.limit(seconds);
        let is_watched = self.listener.set_nonblocking(true).is_ok();
        match limit {
            Some(limit) if is_watched => {
                let mut stop = self.stop.lock(self.rt);
                stop.limit = Some(sooner(self.rt, stop.limit, limit));
            }
            Some(_) | None => helm.end_all(),
        }
    }
}

// Returns the one of two times that ends first.
fn sooner<R: Clock>(rt: &R, earlier: Option<Limit>, limit: Limit) -> Limit {
    match earlier {
        Some(earlier) if earlier.left(rt) < limit.left(rt) => earlier,
        Some(_) | None => limit,
    }
}

fn occupant_of(caller: Caller) -> Occupant {
    Occupant {
        number: caller.number,
        is_web: caller.is_web,
    }
}

// Reads some bytes, for which there is room, within this time.
fn read_within(stream: &UnixStream, bytes: &mut [u8], time: Duration) -> Result<usize, NoRequest> {
    if bytes.is_empty() {
        return Err(NoRequest::Long);
    }
    if stream.set_read_timeout(Some(time)).is_err() {
        return Err(NoRequest::Gone);
    }
    let mut stream = stream;
    match stream.read(bytes) {
        Ok(0) => Err(NoRequest::Gone),
        Ok(count) => Ok(count),
        Err(error) if error.kind() == io::ErrorKind::WouldBlock => Err(NoRequest::Late),
        Err(_) => Err(NoRequest::Gone),
    }
}

// Sends a text. Who doesn't take it goes without.
fn send(stream: &UnixStream, text: &str) {
    let mut stream = stream;
    let _ = stream.write_all(text.as_bytes()).is_ok();
}

// Ends the connections of a user.
fn end<H: Helm>(text: &mut String, helm: &H, user: &[u8]) -> Result<Outcome, AllocError> {
    match helm.end_user(user) {
        Some(count) => {
            write!(text, "{count} connections ended\n")?;
            Ok(Outcome::Done)
        }
        None => refuse(text, "no such user"),
    }
}

// Ends the session of a user, and begins another one.
fn renew<H: Helm>(text: &mut String, helm: &H, user: &[u8]) -> Result<Outcome, AllocError> {
    match helm.renew_user(user) {
        Ok(()) => Ok(Outcome::Done),
        Err(RenewalFault::NoUser) => refuse(text, "no such user"),
        Err(RenewalFault::Busy) => refuse(text, "the user has a connection: end it first"),
        Err(RenewalFault::TooManyLines) => refuse(text, "too many lines were recorded"),
        Err(RenewalFault::NotTakenUp(fault) | RenewalFault::NotKept(fault)) => {
            let reason = KeepReason { fault };
            write!(text, "the kept session: {reason}")?;
            Ok(Outcome::Refused)
        }
    }
}
