//! Serves browsers: the files of the page, and users over WebSockets.

use crate::accept::{Accepted, Acceptor};
use crate::parts::PartWriter;
use crate::seat::Seating;
use crate::service::{ServedConnection, Service};
use crate::streams::Listed;
use crate::wire::Patience;
use nesl_eval_helpers::Gate;
use nesl_keys::admitted::Door;
use nesl_keys::sign_in::SignIn;
use nesl_line::device::Device;
use nesl_line::exchange::End;
use nesl_line::keeper::Archive;
use nesl_service_records::accepting::AcceptFault;
use nesl_service_records::answers::{AnswerObserver, ObservedWriter};
use nesl_service_records::journal::{Caller, Journal, Missed};
use nesl_service_records::watch::{Timed, Watch};
use nesl_web::asked::{Asked, Subprotocol, query_of, values_in};
use nesl_web::greet::{Greeted, greet};
use nesl_web::lines::{MessageReader, MessageWriter};
use nesl_web::route::PageTerms;
use nesl_web::wire::{BROWSER_DRAIN, REFUSED_DRAIN};
use std::io;
use std::net::{TcpListener, TcpStream};
use std::sync::Wait;
use std::sync::atomic::{AtomicU64, Ordering};
use std::sync::ledger::Ledger;
use std::thread::Threads;
use std::time::{Clock, Duration, Instant};

/// The page for browsers. `host` is a name by which it may be requested, besides those by which each machine calls
/// itself. `threads` is how many threads serve seated users and files; the same number again serves connections without
/// a seat. `lessons` are shown in place of ours; they are JSON, as `nesl_web_files` has it.
#[derive(Clone, Copy)]
pub struct Page<'x> {
    pub listener: &'x TcpListener,
    pub host: Option<&'x [u8]>,
    pub lessons: Option<&'x str>,
    pub threads: usize,
}

/// Accepts the connections of browsers, and counts their threads and sessions.
#[derive(Drop)]
pub(crate) struct PageAcceptor<'x> {
    acceptor: Acceptor<'x>,
    host: Option<&'x [u8]>,
    lessons: Option<&'x str>,
    threads: usize,
    /// The number of threads that have begun. The first ones serve the connections for lines, and the others browsers.
    begun: AtomicU64,
    /// The number of threads for lines that have ended.
    ended: AtomicU64,
    /// The number of WebSockets so far.
    sessions: AtomicU64,
    /// The number of open connections.
    open: AtomicU64,
}

impl<'x> PageAcceptor<'x> {
    pub(crate) fn new(page: Page<'x>) -> io::Result<PageAcceptor<'x>> {
        Ok(PageAcceptor {
            acceptor: Acceptor::new(page.listener, None)?,
            host: page.host,
            lessons: page.lessons,
            threads: page.threads,
            begun: AtomicU64::new(0),
            ended: AtomicU64::new(0),
            sessions: AtomicU64::new(0),
            open: AtomicU64::new(0),
        })
    }

    /// The number of threads that serve browsers.
    pub(crate) fn threads(&self) -> usize {
        self.threads.saturating_mul(2)
    }

    /// Counts a thread that begins, and returns whether it serves browsers. The first `lines` threads serve connections
    /// for lines.
    pub(crate) fn claim_browser_thread(&self, lines: usize) -> bool {
        self.begun.fetch_add(1, Ordering::SeqCst) >= lines as u64
    }

    /// Counts a thread for lines that ends. After the last of the `lines` threads, no browser is accepted.
    pub(crate) fn end_line_thread(&self, lines: usize) {
        self.ended.fetch_add(1, Ordering::SeqCst);
        if self.is_over(lines) {
            self.close();
        }
    }

    /// Accepts no more browsers.
    pub(crate) fn close(&self) {
        self.acceptor.close();
    }

    // Counts a connection that begins, and returns its time limits. If half of the threads have a connection, its head
    // and first line together have a tenth of the time. So peers without a seat can't block the others for long.
    fn begin_connection(&self, patience: Patience) -> Patience {
        if self.open.fetch_add(1, Ordering::SeqCst) < self.threads as u64 {
            patience
        } else {
            patience.hurried()
        }
    }

    // Counts a connection that ends.
    fn finish_connection(&self) {
        self.open.fetch_sub(1, Ordering::SeqCst);
    }

    // Whether all of the `lines` threads for lines have ended. Without such threads, browsers are served all the same.
    fn is_over(&self, lines: usize) -> bool {
        lines > 0 && self.ended.load(Ordering::SeqCst) >= lines as u64
    }

    // The number of the next WebSocket.
    fn next_session(&self) -> u64 {
        self.sessions
            .fetch_add(1, Ordering::SeqCst)
            .saturating_add(1)
    }
}

impl<
    'x,
    R: Threads + Wait + Clock + Sync,
    L: Ledger + Sync,
    G: Gate + Sync,
    J: Journal + Sync,
    A: Archive + Sync,
> Service<'x, R, L, G, J, A> {
    /// Serves browsers until no more are accepted.
    pub(crate) fn receive_all(&self, page: &PageAcceptor<'_>) {
        for _ in self.rt.forever() {
            if page.is_over(self.terms.threads) {
                break;
            }
            match page.acceptor.next(self.rt) {
                Ok(accepted) => {
                    self.watchroom.begin();
                    self.receive(page, &accepted);
                    self.watchroom.finish();
                }
                Err(error) => {
                    if !page.is_over(self.terms.threads) {
                        self.end_by_accept_fault(AcceptFault::new(&error, true));
                    }
                    break;
                }
            }
        }
    }

    // Reads a browser's request, and answers it.
    fn greet(
        &self,
        page: &PageAcceptor<'_>,
        stream: &TcpStream,
        patience: Patience,
    ) -> io::Result<Greeted> {
        let lasting = self.lasting();
        let lessons = page.lessons;
        match page.host {
            Some(name) => greet(
                self.rt,
                self.alloc,
                stream,
                &PageTerms {
                    names: &[name],
                    lasting,
                    lessons,
                },
                patience,
            ),
            None => greet(
                self.rt,
                self.alloc,
                stream,
                &PageTerms {
                    names: &[],
                    lasting,
                    lessons,
                },
                patience,
            ),
        }
    }

    // Serves a browser, and counts its connection meanwhile. If its stream may have to be shut down, it is listed. A
    // browser whose stream can't be listed gets no answer.
    fn receive(&self, page: &PageAcceptor<'_>, accepted: &Accepted) {
        let patience = page.begin_connection(self.terms.patience);
        if let Ok(listed) = self.list(&accepted.stream) {
            self.receive_within(page, accepted, patience, listed);
            self.unlist(listed);
        }
        page.finish_connection();
    }

    // Serves a browser: sends it a file of the page, serves it as a user, or refuses it.
    fn receive_within(
        &self,
        page: &PageAcceptor<'_>,
        accepted: &Accepted,
        patience: Patience,
        listed: Option<Listed>,
    ) {
        let stream = &accepted.stream;
        let since = Instant::now(self.rt).ok();
        // Answers are sent without delay, if the system allows it.
        let _ = stream.set_nodelay(true).is_ok();
        if let Ok(Greeted::Session(asked)) = self.greet(page, stream, patience) {
            let caller = Caller {
                number: page.next_session(),
                port: accepted.port,
                is_web: true,
            };
            self.journal.begun(caller);
            let begun = Instant::now(self.rt).ok();
            let left = self.after_head(patience, since);
            let visitor = Visitor {
                caller,
                stream,
                listed,
            };
            let attended = self.serve_asked(visitor, asked, left);
            self.end_connection(caller, begun, &attended);
        }
    }

    // Returns the time that is left for the first line of a connection that began at `since`.
    fn after_head(&self, patience: Patience, since: Option<Instant>) -> Patience {
        let took = match since {
            Some(since) => since.elapsed(self.rt).ok(),
            None => None,
        };
        patience.after(took.unwrap_or(Duration::ZERO))
    }

    // Serves a connection that asked for a session. Where a header names its user, its values are looked up first.
    // Nothing is read if memory for them runs out.
    fn serve_asked(
        &self,
        visitor: Visitor<'_>,
        asked: Asked,
        patience: Patience,
    ) -> ServedConnection {
        let Asked {
            head,
            first,
            subprotocol,
        } = asked;
        let Ok(values) = values_in(self.alloc, head.as_slice(), self.entrance.header) else {
            return ServedConnection::unread(End::NoMemory);
        };
        let Ok(sign_in) = self.entrance.page.begin(self.rt) else {
            return ServedConnection::unread(End::NoMemory);
        };
        let doors = Doors {
            user: Door::new(sign_in.lend(), values.as_slice(), &[]),
            address: door_of_address(head.as_slice()),
        };
        self.serve_messages(visitor, doors, first, subprotocol, patience)
    }

    // Serves the messages of a connection; `first` has the bytes that followed its head.
    fn serve_messages(
        &self,
        visitor: Visitor<'_>,
        doors: Doors<'_>,
        first: Vec<u8>,
        subprotocol: Subprotocol,
        patience: Patience,
    ) -> ServedConnection {
        let stream = visitor.stream;
        let watch = Watch::new(self.rt, self.journal.is_counting());
        let reader = MessageReader::new(self.rt, self.alloc, stream, first, patience);
        let Ok(writer) = MessageWriter::new(self.rt, self.alloc, stream, patience) else {
            reader.end(REFUSED_DRAIN);
            return ServedConnection::unread(End::NoMemory);
        };
        let timed = Timed {
            reader,
            watch: &watch,
        };
        let claimant = self.claimant(self.entrance.page, visitor.listed);
        let mut reader = Device::new(Seating::new(timed, doors.user, doors.address, claimant));
        let mut writer = Device::new(PartWriter::new(ObservedWriter {
            writer,
            observer: AnswerObserver::new(&watch, self.journal, visitor.caller),
        }));
        let lines = self.serve(&mut reader, &mut writer, subprotocol, visitor.listed);
        let served = lines.served;
        let Timed { reader, .. } = reader.into_inner().into_inner();
        let ObservedWriter { writer, .. } = writer.into_inner().into_inner();
        let late = missed_by(&reader).or(untaken_by(&writer));
        let missed = self.streams.missed(visitor.listed).or(late);
        let limits = match served.receipt {
            Some(_) => BROWSER_DRAIN,
            None => REFUSED_DRAIN,
        };
        // An answer that was cut off is followed by nothing.
        if served.end != End::WriteFault {
            reader.end(limits);
        }
        ServedConnection { lines, missed }
    }
}

// A connection of a browser that asked for a session.
#[derive(Clone, Copy)]
struct Visitor<'x> {
    caller: Caller,
    stream: &'x TcpStream,
    listed: Option<Listed>,
}

// The doors that a browser's first message has to open.
#[derive(Clone, Copy)]
struct Doors<'x> {
    // By the way in which users of the page are known.
    user: Door<'x>,
    // By the address, if it names a user.
    address: Door<'x>,
}

// Where the address of a request has a query, that has to name the user. Without one, the first message suffices.
fn door_of_address(head: &[u8]) -> Door<'_> {
    match query_of(head) {
        Some(query) => Door::new(SignIn::Address, &[], query),
        None => Door::new(SignIn::Word, &[], &[]),
    }
}

// Returns which line did not arrive in time, if one didn't.
fn missed_by<R: Clock>(reader: &MessageReader<'_, R>) -> Option<Missed> {
    match reader.is_late() {
        true if reader.is_first() => Some(Missed::FirstLine),
        true => Some(Missed::Line),
        false => None,
    }
}

// Returns `Missed::Taking` if an answer was not taken in time.
fn untaken_by<R: Clock>(writer: &MessageWriter<'_, R>) -> Option<Missed> {
    if writer.is_late() {
        Some(Missed::Taking)
    } else {
        None
    }
}
