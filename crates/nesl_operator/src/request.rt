//! Asks something of a service by the socket of an operator.

use nesl_system::refusal::SocketRefusal;
use nesl_system::socket::{Sockets, refusal_of};
use std::io::{self, Print, Read, Write};
use std::os::unix::net::UnixStream;
use std::thread;
use std::time::{Clock, Duration};

/// How many milliseconds pass between two tries to reach a service that is being started.
const PAUSE_MILLIS: u64 = 100;

/// The most tries: ten seconds.
pub const MOST_TRIES: u32 = 100;

/// The number of bytes that one read asks for.
const CHUNK: usize = 4096;

/// The last line of an answer to what was done.
const DONE: [u8; 3] = [b'o', b'k', b'\n'];

/// Sends the line of a request, and prints the answer. Fails unless the last line of the answer is `ok`. A service that
/// nobody can reach yet is tried as often as `tries` says.
pub fn ask_by<R: Sockets + Clock + Print>(
    rt: &R,
    path: &str,
    line: &str,
    tries: u32,
) -> Result<(), SocketRefusal> {
    let stream = reach(rt, path, tries)?;
    let mut sender = &stream;
    match sender.write_all(line.as_bytes()) {
        Ok(()) => {}
        Err(error) => return Err(refusal_of(&error)),
    }
    match print_all(rt, &stream) {
        Ok(true) => Ok(()),
        Ok(false) => Err(SocketRefusal::NotDone),
        Err(error) => Err(refusal_of(&error)),
    }
}

// Reaches a service, which may not listen yet.
fn reach<R: Sockets + Clock>(rt: &R, path: &str, tries: u32) -> Result<UnixStream, SocketRefusal> {
    for _ in 1..tries {
        match rt.reach(path) {
            Err(SocketRefusal::Nobody) => thread::sleep(rt, Duration::from_millis(PAUSE_MILLIS)),
            reached => return reached,
        }
    }
    rt.reach(path)
}

// Prints all that comes, and returns whether it ended in `ok`.
fn print_all<R: Print>(rt: &R, stream: &UnixStream) -> io::Result<bool> {
    let mut stream = stream;
    let mut chunk = [0u8; CHUNK];
    let mut end = [0u8; 3];
    let mut output = io::writer(rt);
    for _ in 0..u64::MAX {
        let count = stream.read(&mut chunk)?;
        if count == 0 {
            break;
        }
        let read = chunk.get(..count).unwrap_or(&[]);
        for byte in read {
            end = [end[1], end[2], *byte];
        }
        output.write_all(read)?;
    }
    output.flush()?;
    Ok(end == DONE)
}
