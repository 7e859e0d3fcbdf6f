//! Serves users over sockets, with a thread for each connection at a time.
ghost use Rattle.std.specs.Prelude.{◌≡◌, IfOk};
ghost use Rattle.nesl_house.specs.Table.{IsClosed};

use crate::accept::{Accepted, Acceptor};
use crate::browse::{Page, PageAcceptor};
use crate::crowd::{Start, run_crowd};
use crate::front::Front;
use crate::helm::{Watchroom, Wheel};
use crate::hints::JsonHints;
use crate::seat::{Claimant, Entrance, PortSignIn, Seating, by_line};
use crate::seated::SeatedKeeper;
use crate::streams::{Listed, Streams, WholeLines};
use crate::wire::{Patience, Reader, Writer, drain_after_shutdown};
use nesl_eval_helpers::sparing::Sparing;
use nesl_eval_helpers::{Common, Free, Gate, Pool};
use nesl_house::lease::Receipt;
use nesl_house::table::{CloseFault, Closed, Table};
use nesl_keys::sign_in::SignIn;
use nesl_line::MOST_HANDED;
use nesl_line::device::{Device, Sink, Source};
use nesl_line::exchange::End;
use nesl_line::keeper::{Archive, Unkept};
use nesl_line::serve::{Room, Served, ServedAndKept, serve_and_keep, serve_with_hints};
use nesl_service_records::accepting::AcceptFault;
use nesl_service_records::answers::{AnswerObserver, ObservedWriter};
use nesl_service_records::asking::ReportingHelpers;
use nesl_service_records::helm::Helm;
use nesl_service_records::journal::{Caller, Ending, Journal, Missed, NoJournal, Visit};
use nesl_service_records::kept::{KeptSum, WatchedKeeper};
use nesl_service_records::numbers::{Fault, Numbers};
use nesl_service_records::receipts::Receipts;
use nesl_service_records::watch::{Timed, Watch};
use nesl_web::asked::Subprotocol;
use nesl_web_files::Lasting;
use std::alloc::{AllocError, Global};
use std::io::BufWriter;
use std::marker::Brand;
use std::net::{TcpListener, TcpStream};
use std::sync::ledger::{Blank, Ledger};
use std::sync::{Mutex, Wait};
use std::thread::Threads;
use std::time::{Clock, Duration, Instant};
use std::{io, thread};
use thiserror::Error;

/// Why a service failed.
#[derive(Clone, Copy, PartialEq, Eq, Debug, Error)]
pub enum ServeFault {
    /// A listening socket failed, or the ports could not be printed.
    #[error("serve: socket fault")]
    Socket,
    /// Memory ran out, or a thread could not be made.
    #[error("serve: no memory")]
    Memory,
    /// The table could not be closed.
    #[error("serve: table fault")]
    Table,
    /// A line could not be kept.
    #[error("serve: keep fault")]
    Keep,
}

impl ServeFault {
    fn of(fault: Fault) -> ServeFault
        ensures keep { fault ≡ Fault.Keep → result ≡ ServeFault.Keep }
        ensures socket { fault ≡ Fault.Socket → result ≡ ServeFault.Socket }
        ensures memory { fault ≡ Fault.Memory → result ≡ ServeFault.Memory }
    {
        match fault {
            Fault::Keep => ServeFault::Keep,
            Fault::Socket => ServeFault::Socket,
            Fault::Memory => ServeFault::Memory,
        }
    }
}

/// The size in bytes of the buffer for answers.
pub const ANSWER_BYTES: usize = 8192;

/// How many seconds a first line may take by default.
pub const FIRST_LINE_SECONDS: u64 = 10;

/// The terms of a service. `threads` threads serve lines, with at most `workers` helpers in all. It ends after
/// `connections` connections, if that is given. `patience` limits the waits for each connection.
#[derive(Clone, Copy, PartialEq, Eq, Debug)]
pub struct Terms {
    pub threads: usize,
    pub workers: u32,
    pub connections: Option<u64>,
    pub patience: Patience,
}

/// The observers of a service. The gate sees each place that an evaluation enters, and the journal each connection.
#[derive_where(Clone, Copy)]
pub struct Observers<'x, G, J> {
    pub gate: &'x G,
    pub journal: &'x J,
}

/// The lines of a connection that was served, the receipt for those that were restored before them, and what was kept
/// of them, if sessions are kept.
#[derive(Clone, Copy)]
pub(crate) struct ServedLines {
    pub(crate) served: Served,
    pub(crate) restored: Option<Receipt>,
    pub(crate) kept: Option<KeptSum>,
}

/// A connection that was served: its lines, and what it missed.
#[derive(Clone, Copy)]
pub(crate) struct ServedConnection {
    pub(crate) lines: ServedLines,
    pub(crate) missed: Option<Missed>,
}

impl ServedConnection {
    /// The result where nothing was read, by how the connection ended.
    pub(crate) fn unread(end: End) -> ServedConnection {
        ServedConnection {
            lines: ServedLines {
                served: Served {
                    lines: 0,
                    receipt: None,
                    end,
                },
                restored: None,
                kept: None,
            },
            missed: None,
        }
    }
}

/// What the threads of a service share.
#[derive_where(Clone, Copy)]
pub(crate) struct Service<'x, R, L: Ledger, G, J, A> {
    pub(crate) rt: &'x R,
    pub(crate) alloc: Global,
    acceptor: &'x Acceptor<'x>,
    page: Option<&'x PageAcceptor<'x>>,
    table: &'x Table,
    numbers: &'x Mutex<Numbers>,
    receipts: &'x Mutex<Receipts>,
    pool: &'x Pool<L>,
    common: &'x Common,
    start: &'x Start,
    pub(crate) streams: &'x Streams,
    pub(crate) watchroom: &'x Watchroom,
    archive: &'x A,
    pub(crate) entrance: &'x Entrance<'x>,
    pub(crate) terms: Terms,
    gate: &'x G,
    pub(crate) journal: &'x J,
}

impl<
    'x,
    R: Threads + Wait + Clock + Sync,
    L: Ledger + Sync,
    G: Gate + Sync,
    J: Journal + Sync,
    A: Archive + Sync,
> Service<'x, R, L, G, J, A> {
    // What an operator acts on.
    fn wheel(&self) -> Wheel<'x, R, J, A> {
        Wheel {
            rt: self.rt,
            alloc: self.alloc,
            acceptor: self.acceptor,
            page: self.page,
            table: self.table,
            numbers: self.numbers,
            receipts: self.receipts,
            streams: self.streams,
            watchroom: self.watchroom,
            archive: self.archive,
            journal: self.journal,
            threads: self.thread_count() as u64,
        }
    }

    /// Gives out no more numbers, and ends all waits for connections.
    pub(crate) fn end(&self, fault: Fault) {
        self.wheel().end(fault);
    }

    /// Ends the service, since connections can't be accepted any more. The first such fault is reported; after another
    /// fault, or once an operator has closed the service, nothing is done.
    pub(crate) fn end_by_accept_fault(&self, fault: AcceptFault) {
        if !self.watchroom.is_closed() && !self.wheel().has_ended() {
            self.journal.accept_failed(fault);
            self.end(Fault::Socket);
        }
    }

    /// How long sessions last.
    pub(crate) fn lasting(&self) -> Lasting {
        match self.archive.is_keeping() {
            true => Lasting::Kept,
            false => Lasting::InMemory,
        }
    }

    /// Lists the stream of a connection that begins, if it may have to be shut down: where sessions are kept, after a
    /// line that could not be kept; where users have keys, for a newer connection of its user; and by an operator.
    /// Returns how the connection ends if it can't be listed.
    pub(crate) fn list(&self, stream: &TcpStream) -> Result<Option<Listed>, End> {
        if !self.archive.is_keeping() && !self.entrance.has_keys() && !self.journal.has_operator() {
            return Ok(None);
        }
        match self.streams.list(self.rt, stream) {
            Ok(listed) => Ok(Some(listed)),
            Err(end) => Err(end),
        }
    }

    /// Lists the stream of a connection that has ended no longer.
    pub(crate) fn unlist(&self, listed: Option<Listed>) {
        if let Some(listed) = listed {
            self.streams.unlist(self.rt, listed);
        }
    }

    // Reports that the session of a user isn't kept. If a line of a seated user could not be kept, the service ends, so
    // that nobody goes on with what isn't kept.
    fn report_unkept(&self, served: &Served, unkept: Unkept) {
        let user = self.name_of(unkept.place);
        match served.receipt {
            Some(_) => self.wheel().end_unkept(user, unkept.fault),
            None => self.journal.not_taken_up(user, unkept.fault),
        }
    }

    /// Returns what claims the seat of a user of a port where they are known in this way, if seats are claimed. A
    /// connection with a key ends older ones.
    pub(crate) fn claimant(
        &self,
        sign_in: PortSignIn<'_>,
        listed: Option<Listed>,
    ) -> Option<Claimant<'x, R>> {
        if !self.entrance.has_keys() {
            return None;
        }
        Some(Claimant {
            rt: self.rt,
            streams: self.streams,
            listed: listed?,
            roster: self.table.roster(),
            is_newest: sign_in.is_by_keys(),
        })
    }

    // Serves one connection. Nothing is read from it if memory for its answers runs out.
    fn serve_connection(
        &self,
        caller: Caller,
        stream: &TcpStream,
        listed: Option<Listed>,
    ) -> ServedConnection {
        let patience = self.terms.patience;
        let Ok(sign_in) = self.entrance.lines.begin(self.rt) else {
            return ServedConnection::unread(End::NoMemory);
        };
        let watch = Watch::new(self.rt, self.journal.is_counting());
        let observed = ObservedWriter {
            writer: Writer::new(self.rt, stream, patience),
            observer: AnswerObserver::new(&watch, self.journal, caller),
        };
        let Ok(writer) = BufWriter::with_capacity(self.alloc, ANSWER_BYTES, observed) else {
            return ServedConnection::unread(End::NoMemory);
        };
        let lines = WholeLines {
            reader: Timed {
                reader: Reader::new(self.rt, stream, patience),
                watch: &watch,
            },
            streams: self.streams,
            listed,
        };
        let claimant = self.claimant(self.entrance.lines, listed);
        let first = by_line(sign_in.lend());
        let seating = Seating::new(lines, first, by_line(SignIn::Word), claimant);
        let mut reader = Device::new(Front::new(seating));
        let mut writer = Device::new(writer);
        let lines = self.serve(&mut reader, &mut writer, Subprotocol::Plain, listed);
        // Bytes that could not be written are dropped.
        let (observed, _) = writer.into_inner().into_parts();
        let WholeLines { reader, .. } = reader.into_inner().into_inner().into_inner();
        let Timed { reader, .. } = reader;
        let late = reader.missed().or(observed.writer.missed());
        ServedConnection {
            lines,
            missed: self.streams.missed(listed).or(late),
        }
    }

    /// Serves the lines of one connection by the session of the user that the first line names. If its stream is
    /// listed, the seat is noted there.
    pub(crate) fn serve<S: Source, W: Sink>(
        &self,
        reader: &mut S,
        writer: &mut W,
        subprotocol: Subprotocol,
        listed: Option<Listed>,
    ) -> ServedLines {
        let helpers = ReportingHelpers {
            helpers: self.pool.by(self.rt),
            journal: self.journal,
        };
        let sparing = Sparing::new(self.rt, helpers, self.terms.workers, self.common);
        let room = Room {
            alloc: self.alloc,
            table: self.table,
            helpers: &sparing,
            gate: self.gate,
        };
        let hinter = JsonHints;
        let is_keeping = self.archive.is_keeping();
        let seated = SeatedKeeper {
            keeper: self.archive.keeper(),
            rt: self.rt,
            streams: self.streams,
            listed,
        };
        let mut keeper = WatchedKeeper::new(seated, self.rt, self.journal, is_keeping);
        let ServedAndKept {
            served,
            restored,
            fault,
        } = match subprotocol {
            Subprotocol::Plain => serve_and_keep(self.rt, reader, writer, &mut keeper, &room),
            Subprotocol::Hints => {
                serve_with_hints(self.rt, reader, writer, &mut keeper, &room, &hinter)
            }
        };
        if let Some(unkept) = fault {
            self.report_unkept(&served, unkept);
        }
        ServedLines {
            served,
            restored,
            kept: if is_keeping { Some(keeper.sum()) } else { None },
        }
    }

    // Serves one connection. Meanwhile its stream is listed, if it may have to be shut down.
    fn serve_listed(&self, caller: Caller, stream: &TcpStream) -> ServedConnection {
        match self.list(stream) {
            Ok(listed) => {
                let attended = self.serve_connection(caller, stream, listed);
                self.unlist(listed);
                attended
            }
            Err(end) => ServedConnection::unread(end),
        }
    }

    // Serves a connection, and reports its start and its end to the journal.
    fn serve_and_report(&self, caller: Caller, stream: &TcpStream) {
        self.journal.begun(caller);
        let since = Instant::now(self.rt).ok();
        // Answers are sent without delay, if the system allows it.
        let _ = stream.set_nodelay(true).is_ok();
        let attended = self.serve_listed(caller, stream);
        if was_turned_away(&attended.lines.served) {
            let _ = drain_after_shutdown(self.rt, stream).is_ok();
        }
        self.end_connection(caller, since, &attended);
    }

    /// Reports the end of a connection to the journal, and adds its receipts. A receipt that can't be added ends the
    /// service.
    pub(crate) fn end_connection(
        &self,
        caller: Caller,
        since: Option<Instant>,
        attended: &ServedConnection,
    ) {
        let took = match since {
            Some(since) => since.elapsed(self.rt).ok(),
            None => None,
        };
        let visit = Visit {
            took,
            ..self.visit(attended)
        };
        self.journal.ended(caller, &visit);
        let wheel = self.wheel();
        wheel.take_in(attended.lines.restored);
        wheel.take_in(attended.lines.served.receipt);
    }

    // Describes a connection that has ended, without its time.
    fn visit(&self, attended: &ServedConnection) -> Visit<'x> {
        let served = &attended.lines.served;
        let user = match served.receipt {
            Some(receipt) => self.name_of(receipt.place),
            None => None,
        };
        Visit {
            user,
            lines: served.lines,
            ending: Ending::of(served.end, was_turned_away(served), attended.missed),
            took: None,
            kept: attended.lines.kept,
        }
    }

    // Returns the name of the user at a place of the roster.
    fn name_of(&self, place: usize) -> Option<&'x [u8]> {
        let name = self.table.roster().get(place)?;
        Some(name.as_slice())
    }

    // Waits for the next connection. Returns `None` if the service has ended.
    fn next_accepted(&self) -> Option<Accepted> {
        match self.acceptor.next(self.rt) {
            Ok(accepted) => Some(accepted),
            Err(error) => {
                self.end_by_accept_fault(AcceptFault::new(&error, false));
                None
            }
        }
    }

    // Serves connections for lines or browsers, once all threads are ready.
    fn work(&self) {
        let room = connection_buffers(self.alloc);
        self.start.wait(self.rt, room.is_ok());
        drop(room);
        self.serve_or_receive();
        if self.watchroom.end_thread() >= self.thread_count() as u64 {
            self.journal.over();
        }
    }

    // Serves connections for lines or browsers until no more are accepted.
    fn serve_or_receive(&self) {
        let lines = self.terms.threads;
        match self.page {
            Some(page) if page.claim_browser_thread(lines) => self.receive_all(page),
            Some(page) => {
                self.serve_all();
                page.end_line_thread(lines);
            }
            None => self.serve_all(),
        }
    }

    // Serves connections for lines until no number is left.
    fn serve_all(&self) {
        for _ in self.rt.forever() {
            let Some(number) = self.numbers.lock(self.rt).next() else {
                break;
            };
            let Some(accepted) = self.next_accepted() else {
                break;
            };
            self.watchroom.begin();
            self.serve_and_report(
                Caller {
                    number,
                    port: accepted.port,
                    is_web: false,
                },
                &accepted.stream,
            );
            self.watchroom.finish();
        }
    }

    // The number of threads: those for lines and those for browsers.
    fn thread_count(&self) -> usize {
        count_threads(self.terms, self.page)
    }

    // Runs all threads, and joins them.
    fn run_all(&self) {
        self.run_beside(&self.wheel());
    }

    // Runs all threads, beside what an operator acts by, and joins them.
    fn run_beside<H: Helm>(&self, helm: &H) {
        let work = |it: &Service<R, L, G, J, A>| it.work();
        let wheel = self.wheel();
        let lead = |it: &Service<R, L, G, J, A>, made: usize| wheel.open(it.start, made, helm);
        run_crowd(self.rt, self, self.thread_count(), &work, &lead);
    }
}

// The number of threads by these terms: those for lines and those for browsers.
fn count_threads(terms: Terms, page: Option<&PageAcceptor<'_>>) -> usize {
    match page {
        Some(page) => terms.threads.saturating_add(page.threads()),
        None => terms.threads,
    }
}

// Whether a peer was turned away: its first line was answered, and it got no session.
fn was_turned_away(served: &Served) -> bool {
    served.receipt.is_none() && served.lines > 0 && served.end == End::Input
}

// Allocates what one connection needs: a buffer for a line, and one for answers.
fn connection_buffers(alloc: Global) -> Result<(Vec<u8>, Vec<u8>), AllocError> {
    let line = Vec::with_capacity(alloc, MOST_HANDED)?;
    let answer = Vec::with_capacity(alloc, ANSWER_BYTES)?;
    Ok((line, answer))
}

/// What a service runs on, and where it listens.
#[derive_where(Clone, Copy)]
pub struct Site<'x, R> {
    pub rt: &'x R,
    pub alloc: Global,
    pub listener: &'x TcpListener,
}

// The number of threads that can run at once, or 1 if it isn't known.
fn processors<R: Threads>(rt: &R) -> usize {
    match thread::available_parallelism(rt) {
        Ok(count) => count.get(),
        Err(_) => 1,
    }
}

// Makes the acceptor for browsers, if there is a page.
fn page_acceptor_of(page: Option<Page<'_>>) -> io::Result<Option<PageAcceptor<'_>>> {
    match page {
        Some(page) => Ok(Some(PageAcceptor::new(page)?)),
        None => Ok(None),
    }
}

/// How users come to a service: the page for browsers, if there is one, and how users are known.
#[derive(Clone, Copy)]
pub struct Ways<'x> {
    pub page: Option<Page<'x>>,
    pub entrance: Entrance<'x>,
}

/// What a service is to do: how users come to it, its terms, who observes it, and where its sessions are kept.
#[derive_where(Clone, Copy)]
struct Plan<'x, G, J, A> {
    ways: Ways<'x>,
    terms: Terms,
    observers: Observers<'x, G, J>,
    archive: &'x A,
}

// Serves over a pool made from this blank ledger.
fn serve_in<
    L: Ledger + Send + Sync,
    R: Threads + Wait + Clock + Sync,
    G: Gate + Sync,
    J: Journal + Sync,
    A: Archive + Sync,
>(
    site: Site<'_, R>,
    table: Table,
    plan: Plan<'_, G, J, A>,
    blank: Blank,
) -> Result<Closed, ServeFault>
    requires { (blank.name ≡ L.name) × (blank.parts ≡ L.parts) × (blank.parts ≡ plan.terms.workers) }
    ensures { IfOk result (λ c. IsClosed table.roster c.house c.lines) }
{
    let Site {
        rt,
        alloc,
        listener,
    } = site;
    let terms = plan.terms;
    let Ok(acceptor) = Acceptor::new(listener, terms.connections) else {
        return Err(ServeFault::Socket);
    };
    let Ok(page) = page_acceptor_of(plan.ways.page) else {
        return Err(ServeFault::Socket);
    };
    let start = Start::new();
    let Ok(receipts) = Receipts::new(alloc) else {
        return Err(ServeFault::Memory);
    };
    let receipts = Mutex::new(receipts);
    let pool: Pool<L> = Pool::new(terms.workers, blank);
    let common = Common::new(processors(rt));
    // Each thread has one connection at a time.
    let Ok(streams) = Streams::new(alloc, count_threads(terms, page.as_ref())) else {
        return Err(ServeFault::Memory);
    };
    let watchroom = Watchroom::new();
    let entrance = plan.ways.entrance;
    let numbers = Mutex::new(Numbers::new(terms.connections.unwrap_or(u64::MAX)));
    let service = Service {
        rt,
        alloc,
        acceptor: &acceptor,
        page: page.as_ref(),
        table: &table,
        numbers: &numbers,
        receipts: &receipts,
        pool: &pool,
        common: &common,
        start: &start,
        streams: &streams,
        watchroom: &watchroom,
        archive: plan.archive,
        entrance: &entrance,
        terms,
        gate: plan.observers.gate,
        journal: plan.observers.journal,
    };
    service.run_all();
    if let Some(fault) = numbers.into_inner().fault {
        return Err(ServeFault::of(fault));
    }
    pool.close(rt);
    match table.close(receipts.into_inner().into_vec()) {
        Ok(closed) => Ok(closed),
        Err(CloseFault::StillOut { .. }) => Err(ServeFault::Table),
        Err(CloseFault::Missing { .. }) => Err(ServeFault::Table),
    }
}

/// Serves `connections` connections, or any number if that is `None`, with at most `workers` helpers in all. Returns
/// the house with all sessions. A first line may take 10 seconds, and nothing else is limited in time.
///
/// Each thread takes the next number and then accepts a connection. After a fault no number is given out and no
/// connection accepted, and the result follows when all threads have ended. A fault of a socket is returned rather than
/// one of memory. If a thread or its buffers can't be made, no connection is served. A failing connection never ends
/// the service.
pub fn serve_on<R: Threads + Wait + Clock + Sync>(
    rt: &R,
    alloc: Global,
    listener: &TcpListener,
    table: Table,
    threads: usize,
    workers: u32,
    connections: Option<u64>,
) -> Result<Closed, ServeFault>
    ensures { IfOk result (λ c. IsClosed table.roster c.house c.lines) }
{
    let terms = Terms {
        threads,
        workers,
        connections,
        patience: Patience {
            first_line: Duration::from_secs(FIRST_LINE_SECONDS),
            idle: None,
        },
    };
    let observers = Observers {
        gate: &Free,
        journal: &NoJournal,
    };
    serve_through(rt, alloc, listener, table, terms, observers)
}

/// Serves connections by these terms, and reports events to the observers. Returns the closed table.
pub fn serve_through<R: Threads + Wait + Clock + Sync, G: Gate + Sync, J: Journal + Sync>(
    rt: &R,
    alloc: Global,
    listener: &TcpListener,
    table: Table,
    terms: Terms,
    observers: Observers<'_, G, J>,
) -> Result<Closed, ServeFault>
    ensures { IfOk result (λ c. IsClosed table.roster c.house c.lines) }
{
    let site = Site {
        rt,
        alloc,
        listener,
    };
    serve_at(site, None, table, terms, observers, &())
}

/// Serves users like `serve_through`, and browsers too if there is a page: its files, and users over WebSockets.
/// Connections of browsers don't count for `terms.connections`. After the last counted connection no browser is
/// accepted, and the service ends when those that were accepted have left.
///
/// The sessions are kept in an archive. The session of a user is taken up from there at the first line of each
/// connection. The lines that are restored then count for the closed table, too. If a line can't be kept, it gets no
/// answer, all connections are shut down, and the service fails.
pub fn serve_at<
    R: Threads + Wait + Clock + Sync,
    G: Gate + Sync,
    J: Journal + Sync,
    A: Archive + Sync,
>(
    site: Site<'_, R>,
    page: Option<Page<'_>>,
    table: Table,
    terms: Terms,
    observers: Observers<'_, G, J>,
    archive: &A,
) -> Result<Closed, ServeFault>
    ensures { IfOk result (λ c. IsClosed table.roster c.house c.lines) }
{
    let ways = Ways {
        page,
        entrance: Entrance::by_word(),
    };
    serve_by(site, ways, table, terms, observers, archive)
}

/// Serves users like `serve_at`, known in these ways. Who isn't let in gets no session, and the answer to a first line
/// that names nobody. Where users are known by their keys, the newest connection of a user gets the seat: an older one
/// is shut down. Without threads for lines, the listener of the site isn't used, and the service ends only by a fault.
pub fn serve_by<
    R: Threads + Wait + Clock + Sync,
    G: Gate + Sync,
    J: Journal + Sync,
    A: Archive + Sync,
>(
    site: Site<'_, R>,
    ways: Ways<'_>,
    table: Table,
    terms: Terms,
    observers: Observers<'_, G, J>,
    archive: &A,
) -> Result<Closed, ServeFault>
    ensures { IfOk result (λ c. IsClosed table.roster c.house c.lines) }
{
    let blank = Blank::new(u64::from(terms.workers));
    let plan = Plan {
        ways,
        terms,
        observers,
        archive,
    };
    serve_in::<Brand, R, G, J, A>(site, table, plan, blank)
}
