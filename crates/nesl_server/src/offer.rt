//! Offers a service on a port, and its page on another.
ghost use Rattle.std.specs.Prelude.{◌≡◌, Err, IfErr, IfOk, OnOk, map};
ghost use Rattle.nesl_house.specs.Roster.{IsRoster};
ghost use Rattle.nesl_cli.specs.declared.failure.Failure.TheVariants.{Serve};

use crate::ring::Ring;
use nesl_cli::failure::{Failure, FolderRefusal};
use nesl_cli::run::{LIMITS, Offer, copy_names};
use nesl_eval_helpers::Free;
use nesl_house::roster::NewFault;
use nesl_house::table::{Closed, Table};
use nesl_keep_file::{Files as UserFiles, FolderFault, Storage};
use nesl_keeper::keeper::KeptFiles;
use nesl_line::keeper::Archive;
use nesl_operator::control::Control;
use nesl_operator::desk::KeysDesk;
use nesl_operator::facts::{Facts, Resident};
use nesl_operator::host::{Addresses, Host};
use nesl_operator::monitor::Monitor;
use nesl_operator::stats::Stats;
use nesl_prompt::shelf::ShelfFault;
use nesl_service::browse::Page;
use nesl_service::seat::{Entrance, PortSignIn};
use nesl_service::service::{Observers, ServeFault, Site, Ways, serve_by};
use nesl_service_records::counters::Counters;
use nesl_service_records::system::SystemError;
use nesl_session::limits::Limits;
use nesl_system::key_file::ReadKeys;
use nesl_system::log::Log;
use nesl_system::log_file::Append;
use nesl_system::refusal::KeysRefusal;
use nesl_system::replace::Replace;
use nesl_system::socket::{Sockets, refusal_of};
use nesl_words::words::{KIT, VERSION};
use std::alloc::Global;
use std::io;
use std::io::{Eprint, Print};
use std::net::{IpAddr, Ipv4Addr, Net, SocketAddr, TcpListener, TcpStream};
use std::sync::atomic::{AtomicBool, AtomicU64, Ordering};
use std::sync::{Arc, Wait};
use std::thread::Threads;
use std::time::{Clock, Instant};

/// Runs the offered service to its end. Prints where it listens once it can serve, and how much was served if it ends.
/// If the sessions are to be kept in a folder, that is locked before a port is listened to. The keys of users are read
/// from a file first, if they have any. A check ends before a port is listened to. The page
/// shows `lessons` in place of ours.
pub fn keep<
    'a,
    R: Net<Stream = TcpStream, Listener = TcpListener>
        + Threads
        + Wait
        + Clock
        + Print
        + Eprint
        + Storage
        + Replace
        + Append
        + ReadKeys
        + Resident
        + Sockets
        + Clone
        + Drop
        + Send
        + Sync
        + 'static,
>(rt: &R, alloc: Global, offer: &Offer<'a>, lessons: Option<&'a str>) -> Result<(), Failure<'a>> {
    require_fit(offer)?;
    let seats = Seats {
        lessons,
        table: make_table(alloc, offer.users.as_slice(), offer.limits())?,
        keys: read_keys(rt, alloc, offer)?,
    };
    match offer.service.keep {
        Some(folder) => match UserFiles::lock(rt, alloc, folder) {
            Ok(files) => keep_with(rt, alloc, offer, seats, &KeptFiles::new(&files)),
            Err(fault) => Err(folder_failure(folder, fault)),
        },
        None => keep_with(rt, alloc, offer, seats, &()),
    }
}

/// The sessions of the users, their keys, if they have any, and the lessons that the page shows in place of ours.
#[derive(Drop)]
struct Seats<'a> {
    lessons: Option<&'a str>,
    table: Table,
    keys: Option<Ring>,
}

// Fails if the words of a service don't fit together: a header is to name the users of a page that isn't offered, users
// without keys are to be let in from elsewhere, or sessions are to be kept and to have limits of their own. A kept
// session comes back with the usual limits, so with others its lines could be answered otherwise than before.
fn require_fit<'a>(offer: &Offer<'a>) -> Result<(), Failure<'a>> {
    let service = &offer.service;
    if service.user_header.is_some() && service.web.is_none() {
        Err(Failure::NoPage)
    } else if service.bind.is_some() && service.keys.is_none() {
        Err(Failure::Open)
    } else if service.keep.is_some() && offer.limits() != LIMITS {
        Err(Failure::KeptLimits)
    } else {
        Ok(())
    }
}

// Reads the file of keys, if users have keys.
fn read_keys<'a, R: ReadKeys>(
    rt: &R,
    alloc: Global,
    offer: &Offer<'a>,
) -> Result<Option<Ring>, Failure<'a>> {
    let Some(path) = offer.service.keys else {
        return Ok(None);
    };
    match rt.read_keys(alloc, path) {
        Ok(keys) => Ok(Some(Ring::new(keys))),
        Err(KeysRefusal::Memory) => Err(Failure::Serve(ServeFault::Memory)),
        Err(refusal) => Err(Failure::NoKeys(path, refusal)),
    }
}

// Runs the offered service to its end, with its sessions kept in this archive.
fn keep_with<
    'a,
    R: Net<Stream = TcpStream, Listener = TcpListener>
        + Threads
        + Wait
        + Clock
        + Print
        + Eprint
        + Storage
        + Replace
        + Append
        + ReadKeys
        + Resident
        + Sockets
        + Clone
        + Drop
        + Send
        + Sync
        + 'static,
    A: Archive + Sync,
>(
    rt: &R,
    alloc: Global,
    offer: &Offer<'a>,
    seats: Seats<'a>,
    archive: &A,
) -> Result<(), Failure<'a>> {
    if offer.service.is_check {
        return Ok(());
    }
    let Seats {
        lessons,
        table,
        keys,
    } = seats;
    let doors = Doors {
        service: listen_for_lines(rt, offer)?,
        page: listen_for_page(rt, offer)?,
        keys,
        lessons,
    };
    let monitor = listen_for_monitor(rt, offer)?;
    let addresses = Addresses {
        monitor: address_of(&monitor),
        ..doors.addresses()
    };
    let keys = doors.keys_desk(offer);
    let host = make_host(rt, alloc, offer, addresses, keys, monitor)?;
    let served = serve_offer(alloc, &*offer, &doors, table, &host, archive);
    let count = host.served.load(Ordering::SeqCst);
    // Who asked to stop the service waits until the process has ended.
    let _control = host.close();
    finish(rt, count, served)
}

// Returns the failure for a folder that can't be used.
fn folder_failure<'a>(folder: &'a str, fault: FolderFault) -> Failure<'a> {
    let refusal = match fault {
        FolderFault::Memory => return Failure::Serve(ServeFault::Memory),
        FolderFault::Taken => FolderRefusal::Taken,
        FolderFault::NotAFolder => FolderRefusal::NotAFolder,
        FolderFault::Failed(Some(code)) => FolderRefusal::Failed(SystemError { code }),
        FolderFault::Failed(None) => FolderRefusal::Refused,
    };
    Failure::Folder(folder, refusal)
}

/// A listener, and where it listens.
#[derive(Drop)]
struct Listening {
    listener: TcpListener,
    address: SocketAddr,
}

/// The listeners of a service, the keys of its users, if they have any, and the lessons of its page, if they aren't
/// ours.
#[derive(Drop)]
struct Doors<'a> {
    /// The listener for lines, if there is one.
    service: Option<Listening>,
    /// The listener for browsers, if there is a page.
    page: Option<Listening>,
    keys: Option<Ring>,
    lessons: Option<&'a str>,
}

impl Doors<'_> {
    fn addresses(&self) -> Addresses {
        Addresses {
            service: address_of(&self.service),
            page: address_of(&self.page),
            monitor: None,
        }
    }

    // What an operator reaches of the keys, if users have keys.
    fn keys_desk<'x>(&'x self, offer: &'x Offer<'_>) -> Option<KeysDesk<'x, Ring>> {
        match (offer.service.keys, &self.keys) {
            (Some(path), Some(holder)) => Some(KeysDesk { path, holder }),
            (Some(_), None) | (None, _) => None,
        }
    }

    // How the users of this service are known.
    fn entrance<'x>(&'x self, offer: &'x Offer<'_>) -> Entrance<'x> {
        let by_key = match &self.keys {
            Some(ring) => PortSignIn::Keys(&ring.keys),
            None => PortSignIn::Word,
        };
        match &offer.service.user_header {
            Some(header) => Entrance {
                lines: by_key,
                page: PortSignIn::Header,
                header: header.as_bytes(),
            },
            None => Entrance {
                lines: by_key,
                page: by_key,
                header: b"",
            },
        }
    }
}

fn address_of(listening: &Option<Listening>) -> Option<SocketAddr> {
    match listening {
        Some(listening) => Some(listening.address),
        None => None,
    }
}

// Serves an offer on these listeners, and reports on it.
fn serve_offer<
    'x,
    R: Threads
        + Wait
        + Clock
        + Print
        + Eprint
        + Replace
        + Append
        + ReadKeys
        + Storage
        + Clone
        + Drop
        + Send
        + Sync
        + 'static,
    A: Archive + Sync,
>(
    alloc: Global,
    offer: &'x Offer<'_>,
    doors: &'x Doors<'_>,
    table: Table,
    host: &Host<'_, R, Ring>,
    archive: &A,
) -> Result<Closed, ServeFault> {
    let observers = Observers {
        gate: &Free,
        journal: host,
    };
    let Some(first) = doors.service.as_ref().or(doors.page.as_ref()) else {
        return Err(ServeFault::Socket);
    };
    let site = Site {
        rt: host.rt,
        alloc,
        listener: &first.listener,
    };
    let ways = Ways {
        page: make_page(offer, doors),
        entrance: doors.entrance(offer),
    };
    serve_by(site, ways, table, offer.terms(), observers, archive)
}

// Prints how much a service served, if it ended well, and returns its result. `count` is the number of connections for
// lines.
fn finish<'a, R: Print>(
    rt: &R,
    count: u64,
    served: Result<Closed, ServeFault>,
) -> Result<(), Failure<'a>>
    ensures { IfErr served (λ fault. result ≡ Err (Serve fault)) }
{
    match served {
        Ok(closed) => {
            let lines = closed.lines;
            match println!(rt; "served {count} connections, {lines} lines") {
                Ok(()) => Ok(()),
                Err(_) => Err(Failure::Serve(ServeFault::Socket)),
            }
        }
        Err(fault) => Err(Failure::Serve(fault)),
    }
}

// Makes a table for these users, whose sessions have these limits.
fn make_table<'a>(alloc: Global, users: &[&'a str], limits: Limits) -> Result<Table, Failure<'a>>
    ensures roster { OnOk result (IsRoster (map (λ user. user.now) users.now)) }
    ensures made { IfOk result (λ t. t ≡ record { roster = map (λ user. user.now) users.now; limits = limits }) }
{
    let Ok(names) = copy_names(alloc, users) else {
        return Err(Failure::Serve(ServeFault::Memory));
    };
    match Table::new(alloc, names.as_slice(), limits) {
        Ok(table) => Ok(table),
        Err(NewFault::Memory) => Err(Failure::Serve(ServeFault::Memory)),
        Err(fault) => Err(Failure::of_roster(fault, users)),
    }
}

// Listens at an address of an offered service. `None` means that the text of the address is none.
fn listen<'a, R: Net<Stream = TcpStream, Listener = TcpListener>>(
    rt: &R,
    offer: &Offer<'a>,
    address: Option<SocketAddr>,
) -> Result<Listening, Failure<'a>> {
    let Some(address) = address else {
        return Err(Failure::Address(offer.service.bind.unwrap_or("")));
    };
    match bind(rt, address) {
        Ok(listening) => Ok(listening),
        Err(error) if error.kind() == io::ErrorKind::AddrInUse => {
            Err(Failure::Taken(address.port()))
        }
        Err(_) => Err(Failure::Serve(ServeFault::Socket)),
    }
}

// Binds a listener to an address. Port 0 means a free one.
fn bind<R: Net<Stream = TcpStream, Listener = TcpListener>>(
    rt: &R,
    address: SocketAddr,
) -> io::Result<Listening> {
    let listener = TcpListener::bind(rt, address)?;
    let address = listener.local_addr()?;
    Ok(Listening { listener, address })
}

// Listens on the port for lines, unless a header alone names the users.
fn listen_for_lines<'a, R: Net<Stream = TcpStream, Listener = TcpListener>>(
    rt: &R,
    offer: &Offer<'a>,
) -> Result<Option<Listening>, Failure<'a>> {
    if offer.has_lines() {
        Ok(Some(listen(rt, offer, offer.address())?))
    } else {
        Ok(None)
    }
}

// Listens on the port of the page, if one is offered.
fn listen_for_page<'a, R: Net<Stream = TcpStream, Listener = TcpListener>>(
    rt: &R,
    offer: &Offer<'a>,
) -> Result<Option<Listening>, Failure<'a>> {
    match offer.service.web {
        Some(port) => Ok(Some(listen(rt, offer, offer.page_address(port))?)),
        None => Ok(None),
    }
}

// Listens on the port for a monitor, if there is one. It is always this machine's own.
fn listen_for_monitor<'a, R: Net<Stream = TcpStream, Listener = TcpListener>>(
    rt: &R,
    offer: &Offer<'a>,
) -> Result<Option<Listening>, Failure<'a>> {
    match offer.service.operator.metrics {
        Some(port) => {
            let port = u16::try_from(port).unwrap_or(0);
            let address = SocketAddr::new(IpAddr::V4(Ipv4Addr::LOCALHOST), port);
            Ok(Some(listen(rt, offer, Some(address))?))
        }
        None => Ok(None),
    }
}

// The number of threads that serve lines and browsers.
fn thread_count(offer: &Offer<'_>) -> usize {
    let page = match offer.service.web {
        Some(_) => offer.page_threads().saturating_mul(2),
        None => 0,
    };
    offer.terms().threads.saturating_add(page)
}

// Makes the page, if one is offered.
fn make_page<'x>(offer: &'x Offer<'_>, doors: &'x Doors<'_>) -> Option<Page<'x>> {
    match &doors.page {
        Some(listening) => Some(Page {
            listener: &listening.listener,
            host: web_host(offer),
            lessons: doors.lessons,
            threads: offer.page_threads(),
        }),
        None => None,
    }
}

// Returns the further name by which the page may be requested: the one that is given, or else the address where it
// listens.
fn web_host<'x>(offer: &'x Offer<'_>) -> Option<&'x [u8]> {
    match &offer.service.web_host {
        Some(name) => Some(name.as_bytes()),
        None => match &offer.service.bind {
            Some(address) => Some(address.as_bytes()),
            None => None,
        },
    }
}

// Makes the host, which reports on the service.
fn make_host<
    'x,
    'a,
    R: Threads
        + Wait
        + Clock
        + Eprint
        + Replace
        + Append
        + ReadKeys
        + Resident
        + Sockets
        + Clone
        + Send
        + Drop
        + 'static,
>(
    rt: &'x R,
    alloc: Global,
    offer: &'x Offer<'a>,
    addresses: Addresses,
    keys: Option<KeysDesk<'x, Ring>>,
    monitor: Option<Listening>,
) -> Result<Host<'x, R, Ring>, Failure<'a>> {
    let Ok(facts) = make_facts(rt, alloc, offer) else {
        return Err(Failure::Serve(ServeFault::Memory));
    };
    let Ok(counters) = Arc::try_clone(&facts.counters) else {
        return Err(Failure::Serve(ServeFault::Memory));
    };
    let control = open_control(rt, alloc, offer)?;
    let stats = start_stats(rt, alloc, offer, &facts)?;
    let monitor = start_monitor(rt, alloc, monitor, &facts)?;
    let log = start_log(rt, alloc, offer)?;
    Ok(Host {
        rt,
        addresses,
        folder: offer.service.keep,
        log,
        stats,
        counters,
        control,
        keys,
        monitor,
        served: AtomicU64::new(0),
    })
}

// What is known of a service that begins now.
fn make_facts<R: Clock>(rt: &R, alloc: Global, offer: &Offer<'_>) -> io::Result<Arc<Facts>> {
    let facts = Facts {
        version: VERSION,
        kit: KIT,
        counters: Arc::new(alloc, Counters::new(alloc)?)?,
        begun: Instant::now(rt)?,
        seats: offer.users.len(),
        threads: thread_count(offer),
        is_stopping: AtomicBool::new(false),
    };
    Ok(Arc::new(alloc, facts)?)
}

// Starts to answer a monitor, if there is a port for one.
fn start_monitor<'a, R: Threads + Wait + Clock + Resident + Clone + Send + Drop + 'static>(
    rt: &R,
    alloc: Global,
    listening: Option<Listening>,
    facts: &Arc<Facts>,
) -> Result<Option<Monitor>, Failure<'a>> {
    let Some(
        Listening {
            listener,
            address: _,
        },
    ) = listening
    else {
        return Ok(None);
    };
    let Ok(facts) = Arc::try_clone(facts) else {
        return Err(Failure::Serve(ServeFault::Memory));
    };
    match Monitor::new(rt, alloc, listener, facts) {
        Ok(monitor) => Ok(Some(monitor)),
        Err(_) => Err(Failure::Serve(ServeFault::Memory)),
    }
}

// Listens to an operator, if one is to be heard.
fn open_control<'x, 'a, R: Wait + Clock + Sockets>(
    rt: &'x R,
    alloc: Global,
    offer: &'x Offer<'a>,
) -> Result<Option<Control<'x, R>>, Failure<'a>> {
    let Some(path) = offer.service.operator.control else {
        return Ok(None);
    };
    let listener = match rt.listen_at(path) {
        Ok(listener) => listener,
        Err(refusal) => return Err(Failure::Socket(path, refusal)),
    };
    match Control::new(rt, alloc, listener, offer.users.as_slice()) {
        Ok(control) => Ok(Some(control)),
        Err(error) => Err(Failure::Socket(path, refusal_of(&error))),
    }
}

// Starts the log, if one is wanted.
fn start_log<'x, 'a, R: Threads + Wait + Clock + Eprint + Append + Clone + Send + Drop + 'static>(
    rt: &'x R,
    alloc: Global,
    offer: &'x Offer<'a>,
) -> Result<Option<Log<'x, R>>, Failure<'a>> {
    let path = offer.service.operator.log_file;
    if path.is_none() && !offer.service.is_logged {
        return Ok(None);
    }
    match Log::new(rt, alloc, path) {
        Ok(log) => Ok(Some(log)),
        Err(ShelfFault::Memory) => Err(Failure::Serve(ServeFault::Memory)),
        Err(fault) => Err(Failure::Stats(path.unwrap_or(""), fault)),
    }
}

// Starts the file of counters, if one is wanted.
fn start_stats<
    'x,
    'a,
    R: Threads + Wait + Clock + Replace + Resident + Clone + Send + Drop + 'static,
>(
    rt: &'x R,
    alloc: Global,
    offer: &Offer<'a>,
    facts: &Arc<Facts>,
) -> Result<Option<Stats<'x, R>>, Failure<'a>> {
    let Some(file) = offer.service.stats else {
        return Ok(None);
    };
    let Ok(facts) = Arc::try_clone(facts) else {
        return Err(Failure::Serve(ServeFault::Memory));
    };
    match Stats::new(rt, alloc, file, facts) {
        Ok(stats) => Ok(Some(stats)),
        Err(ShelfFault::Memory) => Err(Failure::Serve(ServeFault::Memory)),
        Err(fault) => Err(Failure::Stats(file, fault)),
    }
}
