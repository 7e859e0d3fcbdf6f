//! The log of connections, on standard error or in a file.

use crate::log_file::Append;
use crate::stamp::Stamp;
use crate::strangers::{LeftOut, Strangers};
use crossbeam_channel::{Receiver, Sender, bounded};
use nesl_prompt::shelf::ShelfFault;
use nesl_service_records::accepting::AcceptFault;
use nesl_service_records::journal::{Caller, Seat, Visit};
use nesl_service_records::keeping::KeepFailure;
use nesl_service_records::kept::KeptSum;
use std::alloc::{AllocError, Global};
use std::fmt::Write;
use std::fs::File;
use std::io::{self, Eprint, Write as WriteBytes};
use std::sync::atomic::{AtomicU64, Ordering};
use std::sync::{Arc, Mutex, Wait};
use std::thread;
use std::thread::Threads;
use std::time::{Clock, Duration};

/// The most lines that wait to be written.
const MOST_WAITING: usize = 1024;

/// How many milliseconds a pause lasts until the last lines are written. There are at most `MOST_PAUSES`, which is a
/// second.
const PAUSE_MILLIS: u64 = 10;

const MOST_PAUSES: u32 = 100;

/// The log. A thread of its own writes the lines to standard error or to a file, so that a slow reader delays no
/// connection. A line that can't be queued is lost; the thread logs how many were. Lines about connections without a
/// seat are left out if there are too many, and a line a second says how many.
pub struct Log<'x, R> {
    rt: &'x R,
    alloc: Global,
    to: Sender<String>,
    shared: Arc<Shared>,
    strangers: Mutex<Strangers>,
    /// Its file, if it has one.
    path: Option<&'x str>,
}

// What the log and the thread that writes it share.
#[derive(Drop)]
struct Shared {
    // The number of lost lines that weren't logged yet.
    lost: AtomicU64,
    // Whether the last line was written.
    done: AtomicU64,
    // The file in which the next line is written, if that is to be another one.
    next: Mutex<Option<File>>,
}

// Where lines are written.
#[derive(Drop)]
enum Target {
    StandardError,
    File(File),
}

/// Whether the file of a log was opened anew.
#[derive(Clone, Copy, PartialEq, Eq, Debug)]
pub enum Reopened {
    Done,
    /// The log has no file.
    NoFile,
    /// The log goes on in the old file.
    Failed(ShelfFault),
}

impl<'x, R: Threads + Wait + Clock + Eprint + Append + Clone + Send + Drop + 'static> Log<'x, R> {
    /// A log in the file of this path, or else on standard error.
    pub fn new(rt: &'x R, alloc: Global, path: Option<&'x str>) -> Result<Log<'x, R>, ShelfFault> {
        let target = match path {
            Some(path) => Target::File(rt.append(path)?),
            None => Target::StandardError,
        };
        let shared = Arc::new(
            alloc,
            Shared {
                lost: AtomicU64::new(0),
                done: AtomicU64::new(0),
                next: Mutex::new(None),
            },
        )?;
        let (to, from) = bounded(alloc, MOST_WAITING)?;
        let theirs = Arc::try_clone(&shared)?;
        let own = rt.clone()?;
        let write = move || write_lines(&own, alloc, from, &theirs, target);
        match thread::spawn(rt, write) {
            Ok(_) => Ok(Log {
                rt,
                alloc,
                to,
                shared,
                strangers: Mutex::new(Strangers::new()),
                path,
            }),
            Err(_) => Err(ShelfFault::Memory),
        }
    }
}

impl<R: Wait + Append> Log<'_, R> {
    /// Opens the file anew, which may have another name by now. The next line is written there.
    pub fn reopen(&self) -> Reopened {
        let Some(path) = self.path else {
            return Reopened::NoFile;
        };
        match self.rt.append(path) {
            Ok(file) => {
                *self.shared.next.lock(self.rt) = Some(file);
                Reopened::Done
            }
            Err(fault) => Reopened::Failed(fault),
        }
    }
}

impl<R: Wait + Clock> Log<'_, R> {
    /// Ends the log. Waits at most a second until all lines are written.
    pub fn close(self) {
        let note = self.strangers.lock(self.rt).last_note();
        let _ = self.log_note(note);
        let Log {
            rt,
            alloc: _,
            to,
            shared,
            strangers: _,
            path: _,
        } = self;
        drop(to);
        for _ in 0..MOST_PAUSES {
            if shared.done.load(Ordering::SeqCst) > 0 {
                break;
            }
            thread::sleep(rt, Duration::from_millis(PAUSE_MILLIS));
        }
    }

    /// Logs the start of a connection. This and the methods below return false if the line is lost.
    pub fn log_begin(&self, caller: Caller) -> bool {
        self.log_stranger(caller, String::from_str(self.alloc, "began"))
    }

    /// Logs the user of a connection, or why it was turned away.
    pub fn log_seat(&self, caller: Caller, seat: Seat<'_>) -> bool {
        let what = describe_seat(self.alloc, seat);
        match seat {
            Seat::User(_) => self.log_event(caller, what),
            Seat::Unknown | Seat::Busy => self.log_stranger(caller, what),
        }
    }

    /// Logs the end of a connection.
    pub fn log_end(&self, caller: Caller, visit: &Visit<'_>) -> bool {
        let what = describe_end(self.alloc, visit);
        match visit.user {
            Some(_) => self.log_event(caller, what),
            None => self.log_stranger(caller, what),
        }
    }

    /// Logs why the service stopped accepting connections.
    pub fn log_fault(&self, fault: AcceptFault) -> bool {
        let stamp = Stamp::now(self.rt);
        self.queue(format!(in self.alloc; "{stamp} {fault}"))
    }

    /// Logs the folder where sessions are kept.
    pub fn log_folder(&self, folder: &str) -> bool {
        let stamp = Stamp::now(self.rt);
        self.queue(format!(in self.alloc; "{stamp} sessions are kept in {folder}"))
    }

    /// Logs why the session of a user isn't kept.
    pub fn log_unkept(&self, failure: KeepFailure<'_>) -> bool {
        let stamp = Stamp::now(self.rt);
        self.queue(format!(in self.alloc; "{stamp} {failure}"))
    }

    // Logs an event of a connection without a seat, unless there were too many. Once a second it logs how many were
    // left out.
    fn log_stranger(&self, caller: Caller, what: Result<String, AllocError>) -> bool {
        let second = match self.rt.since_1970() {
            Ok(since) => since.as_secs(),
            Err(_) => 0,
        };
        let mut strangers = self.strangers.lock(self.rt);
        let note = strangers.due_note(second);
        let is_admitted = strangers.admit(second);
        drop(strangers);
        let is_queued = self.log_note(note);
        match is_admitted {
            true => self.log_event(caller, what) && is_queued,
            false => is_queued,
        }
    }

    // Logs how many lines about connections without a seat were left out. Returns false if that line is lost; then the
    // next one counts them.
    fn log_note(&self, note: Option<LeftOut>) -> bool {
        let Some(note) = note else {
            return true;
        };
        let (stamp, LeftOut(count)) = (Stamp::now(self.rt), note);
        let is_queued = self.queue(format!(in self.alloc;
            "{stamp} connections without a seat: {count} lines left out"
        ));
        if !is_queued {
            self.strangers.lock(self.rt).put_back(note);
        }
        is_queued
    }

    // Logs an event of a connection.
    fn log_event(&self, caller: Caller, what: Result<String, AllocError>) -> bool {
        self.queue(self.make_line(caller, what))
    }

    // Queues a line for the thread that writes.
    fn queue(&self, line: Result<String, AllocError>) -> bool {
        let is_queued = match line {
            Ok(line) => self.to.try_send(self.rt, line).is_ok(),
            Err(_) => false,
        };
        if !is_queued {
            self.shared.lost.fetch_add(1, Ordering::SeqCst);
        }
        is_queued
    }

    // Makes a line from the time, the connection and the event.
    fn make_line(
        &self,
        caller: Caller,
        what: Result<String, AllocError>,
    ) -> Result<String, AllocError> {
        let (stamp, what) = (Stamp::now(self.rt), what?);
        let Caller {
            number,
            port,
            is_web,
        } = caller;
        let web = if is_web { "web " } else { "" };
        format!(in self.alloc; "{stamp} connection {web}{number} port {port} {what}")
    }
}

// Writes lines until the log ends. A line that can't be written is skipped.
fn write_lines<R: Wait + Eprint>(
    rt: &R,
    alloc: Global,
    from: Receiver<String>,
    shared: &Shared,
    target: Target,
) {
    let mut target = target;
    for line in from.iter(rt) {
        if let Some(file) = shared.next.lock(rt).take() {
            target = Target::File(file);
        }
        target.write(rt, line.as_str());
        write_lost(rt, alloc, shared, &mut target);
    }
    write_lost(rt, alloc, shared, &mut target);
    shared.done.store(1, Ordering::SeqCst);
}

// Writes how many lines were lost since the last such note, if any were.
fn write_lost<R: Eprint>(rt: &R, alloc: Global, shared: &Shared, target: &mut Target) {
    let lost = shared.lost.swap(0, Ordering::SeqCst);
    if lost > 0 {
        if let Ok(line) = format!(in alloc; "{lost} lines lost") {
            target.write(rt, line.as_str());
        }
    }
}

impl Target {
    // Writes a line. One that can't be written is skipped.
    fn write<R: Eprint>(&mut self, rt: &R, line: &str) {
        let _ = match self {
            Target::StandardError => eprintln!(rt; "{line}").is_ok(),
            Target::File(file) => add_line(file, line).is_ok(),
        };
    }
}

fn add_line(file: &mut File, line: &str) -> io::Result<()> {
    file.write_all(line.as_bytes())?;
    file.write_all(b"\n")
}

// Describes the seat of a connection, or why it was turned away.
fn describe_seat(alloc: Global, seat: Seat<'_>) -> Result<String, AllocError> {
    match seat {
        Seat::User(name) => {
            let name = str::from_utf8(name).unwrap_or("?");
            format!(in alloc; "seated {name}")
        }
        Seat::Unknown => String::from_str(alloc, "turned away: unknown"),
        Seat::Busy => String::from_str(alloc, "turned away: busy"),
    }
}

// Describes the end of a connection: its user, its lines, why it ended, how long it took, and what was kept of it.
fn describe_end(alloc: Global, visit: &Visit<'_>) -> Result<String, AllocError> {
    let user = match visit.user {
        Some(name) => str::from_utf8(name).unwrap_or("?"),
        None => "no user",
    };
    let (lines, ending) = (visit.lines, visit.ending.words());
    let mut text = format!(in alloc; "ended: {user}, {lines} lines, {ending}")?;
    if let Some(took) = visit.took {
        let millis = took.as_millis();
        write!(text, ", {millis} ms")?;
    }
    if let Some(kept) = visit.kept {
        let KeptSum {
            lines,
            bytes,
            micros,
        } = kept;
        write!(
            text,
            ", kept {lines} lines and {bytes} bytes in {micros} us"
        )?;
    }
    Ok(text)
}
