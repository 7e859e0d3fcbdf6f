//! The start of a browser's connection.

use crate::answer::{Content, Refusal, file_head, methods_answer, refusal_answer, upgrade_answer};
use crate::asked::{Asked, subprotocol_of};
use crate::head::{HeadFault, read_head};
use crate::lines::Patience;
use crate::route::{PageTerms, Route, content_for, route_for};
use crate::wire::{BROWSER_DRAIN, DrainLimits, REFUSED_DRAIN, Wire};
use nesl_web_files::File;
use std::alloc::Global;
use std::io;
use std::io::{ErrorKind, Write};
use std::net::TcpStream;
use std::time::{Clock, Duration};

/// How many seconds a piece of an answer may take, except on a WebSocket.
const PIECE_SECONDS: u64 = 10;

/// What a connection became.
#[derive(Drop)]
pub enum Greeted {
    /// It requested a file or was refused. It was answered with this status, and has ended.
    Answered(u16),
    /// It is a WebSocket.
    Session(Asked),
}

/// Reads a browser's request, and answers it. The head has as much time as a first line. On a WebSocket, a piece of an
/// answer has as much time as a line.
pub fn greet<'s, R: Clock>(
    rt: &'s R,
    alloc: Global,
    stream: &'s TcpStream,
    terms: &PageTerms<'_>,
    patience: Patience,
) -> io::Result<Greeted> {
    let mut wire = Wire::new(rt, stream, Some(Duration::from_secs(PIECE_SECONDS)));
    wire.wait(Some(patience.first_line))?;
    match read_head(alloc, &mut wire) {
        Ok(bytes) => match route_for(alloc, terms, bytes.as_slice())? {
            Route::Session {
                accept_key,
                head_bytes,
            } => {
                wire.set_write_limit(patience.idle)?;
                accept_session(alloc, wire, &accept_key, bytes, head_bytes)
            }
            Route::Page(file) => send_file(alloc, wire, file, content_for(bytes.as_slice())),
            Route::Methods => send_methods(alloc, wire),
            Route::Refused(refusal) => {
                refuse(alloc, wire, refusal, content_for(bytes.as_slice()))
            }
        },
        Err(HeadFault::Refused(refusal)) => refuse(alloc, wire, refusal, Content::Sent),
        Err(HeadFault::Lost) => Err(lost_error()),
    }
}

// The error where the connection ended, or memory ran out.
fn lost_error() -> io::Error {
    io::Error::from(ErrorKind::ConnectionAborted)
}

// Sends a file of the page, or only its head, and ends the connection.
fn send_file<R: Clock>(
    alloc: Global,
    mut wire: Wire<'_, R>,
    file: File<'_>,
    content: Content,
) -> io::Result<Greeted> {
    let Ok(head) = file_head(alloc, file) else {
        return Err(lost_error());
    };
    wire.write_all(head.as_slice())?;
    if content == Content::Sent {
        wire.write_all(file.text.as_bytes())?;
    }
    Ok(finish(wire, 200, BROWSER_DRAIN))
}

// Lists the supported methods, and ends the connection.
fn send_methods<R: Clock>(alloc: Global, mut wire: Wire<'_, R>) -> io::Result<Greeted> {
    let Ok(answer) = methods_answer(alloc) else {
        return Err(lost_error());
    };
    wire.write_all(answer.as_slice())?;
    Ok(finish(wire, 204, REFUSED_DRAIN))
}

// Refuses a request, and ends the connection.
fn refuse<R: Clock>(
    alloc: Global,
    mut wire: Wire<'_, R>,
    refusal: Refusal,
    content: Content,
) -> io::Result<Greeted> {
    let Ok(answer) = refusal_answer(alloc, refusal, content) else {
        return Err(lost_error());
    };
    wire.write_all(answer.as_slice())?;
    Ok(finish(wire, refusal.status(), REFUSED_DRAIN))
}

// Ends a connection that was answered with this status.
fn finish<R: Clock>(mut wire: Wire<'_, R>, status: u16, limits: DrainLimits) -> Greeted {
    let _ = wire.drain_after_shutdown(limits).is_ok();
    Greeted::Answered(status)
}

// Switches to a WebSocket. The first `head_bytes` of the bytes are the head of its request.
fn accept_session<R: Clock>(
    alloc: Global,
    mut wire: Wire<'_, R>,
    accept_key: &[u8; 28],
    bytes: Vec<u8>,
    head_bytes: usize,
) -> io::Result<Greeted> {
    let subprotocol = subprotocol_of(alloc, bytes.as_slice())?;
    let Ok(answer) = upgrade_answer(alloc, accept_key, subprotocol) else {
        return Err(lost_error());
    };
    let first = Vec::from_slice(alloc, bytes.get(head_bytes..).unwrap_or(&[]))?;
    wire.write_all(answer.as_slice())?;
    Ok(Greeted::Session(Asked {
        head: bytes,
        first,
        subprotocol,
    }))
}
