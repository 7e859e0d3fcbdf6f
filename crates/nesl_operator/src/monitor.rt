//! Answers a monitor by HTTP: the numbers of a service, and whether it is well.

use crate::facts::{Facts, Resident};
use nesl_metrics::answer::{
    Asked, Condition, read_request, write_found, write_health, write_unknown,
};
use nesl_metrics::text::{free_threads, write_metrics};
use std::alloc::{AllocError, Global};
use std::io::{Read, Write};
use std::net::{Shutdown, TcpListener, TcpStream};
use std::os::fd::OwnedFd;
use std::sync::atomic::Ordering;
use std::sync::{Arc, Wait};
use std::thread::Threads;
use std::time::{Clock, Duration, Instant};
use std::{io, thread};

/// The most bytes of a request's head.
const MOST_BYTES: usize = 4096;

/// How many seconds a request may take to arrive, and an answer to be taken.
const SECONDS: u64 = 2;

/// How many milliseconds a pause lasts after no connection could be accepted.
const PAUSE_MILLIS: u64 = 100;

/// Answers a monitor, in a thread of its own.
#[derive(Drop)]
pub struct Monitor {
    facts: Arc<Facts>,
    /// The listener's socket again, whose shutdown ends all waiting.
    closer: TcpStream,
}

impl Monitor {
    /// Starts the thread that answers the connections of a listener.
    pub fn new<R: Threads + Wait + Clock + Resident + Clone + Send + Drop + 'static>(
        rt: &R,
        alloc: Global,
        listener: TcpListener,
        facts: Arc<Facts>,
    ) -> io::Result<Monitor> {
        let closer = TcpStream::from(OwnedFd::from(listener.try_clone()?));
        let theirs = Arc::try_clone(&facts)?;
        let own = rt.clone()?;
        let watch = move || answer_all(&own, alloc, &listener, &theirs);
        let _ = thread::spawn(rt, watch)?;
        Ok(Monitor { facts, closer })
    }

    /// Notes that an operator has closed the service.
    pub fn note_stop(&self) {
        self.facts.is_stopping.store(true, Ordering::SeqCst);
    }

    /// Answers nobody any more.
    pub fn close(&self) {
        let _ = self.closer.shutdown(Shutdown::Both).is_ok();
    }
}

// Answers one connection after another. After the listener was closed each try fails.
fn answer_all<R: Wait + Clock + Resident>(
    rt: &R,
    alloc: Global,
    listener: &TcpListener,
    facts: &Facts,
) {
    for _ in rt.forever() {
        match listener.accept() {
            Ok((stream, _)) => {
                let _ = answer(rt, alloc, stream, facts).is_ok();
            }
            Err(_) => thread::sleep(rt, Duration::from_millis(PAUSE_MILLIS)),
        }
    }
}

// Reads a request's head, and answers it.
fn answer<R: Clock + Resident>(
    rt: &R,
    alloc: Global,
    stream: TcpStream,
    facts: &Facts,
) -> io::Result<()> {
    let mut stream = stream;
    stream.set_write_timeout(Some(Duration::from_secs(SECONDS)))?;
    let mut head = [0u8; MOST_BYTES];
    let length = read_head(rt, &mut stream, &mut head)?;
    let asked = read_request(head.get(..length).unwrap_or(&[]));
    let text = text_for(rt, alloc, asked, facts)?;
    stream.write_all(text.as_bytes())
}

// Reads up to the empty line after a head, or as much as there is room for. Fails if it doesn't arrive in time.
fn read_head<R: Clock>(
    rt: &R,
    stream: &mut TcpStream,
    head: &mut [u8; MOST_BYTES],
) -> io::Result<usize> {
    let begun = Instant::now(rt)?;
    let mut length = 0usize;
    for _ in 0..MOST_BYTES {
        let passed = begun.elapsed(rt)?;
        let left = Duration::from_secs(SECONDS).saturating_sub(passed);
        if left.is_zero() {
            return Err(io::Error::from(io::ErrorKind::TimedOut));
        }
        stream.set_read_timeout(Some(left))?;
        let Some(rest) = head.get_mut(length..) else {
            break;
        };
        let count = stream.read(rest)?;
        length = length.saturating_add(count);
        let read = head.get(..length).unwrap_or(&[]);
        if count == 0 || read.ends_with(b"\r\n\r\n".as_slice()) {
            break;
        }
    }
    Ok(length)
}

fn text_for<R: Clock + Resident>(
    rt: &R,
    alloc: Global,
    asked: Asked,
    facts: &Facts,
) -> Result<String, AllocError> {
    match asked {
        Asked::Metrics => {
            let readings = facts.counters.readings(alloc)?;
            let metrics = write_metrics(alloc, &readings, &facts.moment(rt))?;
            write_found(alloc, metrics.as_str())
        }
        Asked::Health => write_health(alloc, condition_of(alloc, facts)?),
        Asked::Other => write_unknown(alloc),
    }
}

fn condition_of(alloc: Global, facts: &Facts) -> Result<Condition, AllocError> {
    let readings = facts.counters.readings(alloc)?;
    Ok(if facts.is_stopping.load(Ordering::SeqCst) {
        Condition::Stopping
    } else if free_threads(&readings, facts.threads) == 0 {
        Condition::Full
    } else {
        Condition::Well
    })
}
