//! Reports on a service: its addresses on standard output, its connections on standard error, its counters in a file.

use crate::control::Control;
use crate::desk::{Desk, KeyHolder, KeysDesk};
use crate::facts::Resident;
use crate::monitor::Monitor;
use crate::stats::Stats;
use nesl_keep_file::Storage;
use nesl_line::keeper::KeepFault;
use nesl_service_records::accepting::AcceptFault;
use nesl_service_records::counters::Counters;
use nesl_service_records::helm::Helm;
use nesl_service_records::journal::{Answered, Caller, Journal, Seat, Visit};
use nesl_service_records::keeping::{KeepFailure, KeepReason, name_shown};
use nesl_service_records::kept::KeptLine;
use nesl_session::limits::Remaining;
use nesl_system::key_file::ReadKeys;
use nesl_system::log::Log;
use nesl_system::log_file::Append;
use nesl_system::replace::Replace;
use std::io;
use std::io::{Eprint, Print};
use std::net::SocketAddr;
use std::sync::atomic::{AtomicU64, Ordering};
use std::sync::{Arc, Wait};
use std::time::Clock;

/// Where the service listens.
#[derive(Clone, Copy, PartialEq, Eq, Debug)]
pub struct Addresses {
    /// For lines, if it does.
    pub service: Option<SocketAddr>,
    /// For browsers, if there is a page.
    pub page: Option<SocketAddr>,
    /// For a monitor, if there is one.
    pub monitor: Option<SocketAddr>,
}

/// The journal of a service. It prints where it listens, logs connections if there is a log, and counts for the file
/// of counters and for a monitor. `folder` is the one where sessions are kept, if they are. `control` is the operator's
/// side, `keys` are the keys of users, and `monitor` answers a monitor, if there are any. `served` is the number of
/// connections for lines.
pub struct Host<'x, R, K> {
    pub rt: &'x R,
    pub addresses: Addresses,
    pub folder: Option<&'x str>,
    pub log: Option<Log<'x, R>>,
    pub stats: Option<Stats<'x, R>>,
    pub counters: Arc<Counters>,
    pub control: Option<Control<'x, R>>,
    pub keys: Option<KeysDesk<'x, K>>,
    pub monitor: Option<Monitor>,
    pub served: AtomicU64,
}

impl<'x, R: Wait + Clock + Replace + Resident, K> Host<'x, R, K> {
    /// Ends the log and the file of counters, if there are any. Returns the operator's side, which may still hold the
    /// stream of who stopped the service.
    pub fn close(self) -> Option<Control<'x, R>> {
        let Host {
            rt: _,
            addresses: _,
            folder: _,
            log,
            stats,
            counters: _,
            control,
            keys: _,
            monitor: _,
            served: _,
        } = self;
        if let Some(log) = log {
            log.close();
        }
        if let Some(stats) = stats {
            stats.close();
        }
        control
    }
}

impl<R: Print, K> Host<'_, R, K> {
    // Prints the address of the service, and that of the page.
    fn print_addresses(&self) -> io::Result<()> {
        if let Some(address) = self.addresses.service {
            println!(self.rt; "listening on {address}")?;
        }
        if let Some(address) = self.addresses.page {
            println!(self.rt; "page at http://{address}/")?;
        }
        match self.addresses.monitor {
            Some(address) => println!(self.rt; "metrics at http://{address}/metrics"),
            None => Ok(()),
        }
    }
}

impl<R: Wait + Clock, K> Host<'_, R, K> {
    // Notes the folder where sessions are kept, if they are.
    fn note_folder(&self) {
        if let Some(folder) = self.folder {
            self.counters.keep();
            if let Some(log) = &self.log {
                self.counters.logged(log.log_folder(folder));
            }
        }
    }

    // Logs why the session of a user isn't kept.
    fn log_unkept(&self, user: Option<&[u8]>, fault: KeepFault) {
        if let Some(log) = &self.log {
            self.counters
                .logged(log.log_unkept(KeepFailure { user, fault }));
        }
    }
}

impl<R: Eprint, K> Host<'_, R, K> {
    // Prints which file a line could not be written to, and why.
    fn print_unkept(&self, user: Option<&[u8]>, fault: KeepFault) -> io::Result<()> {
        let folder = self.folder.unwrap_or("");
        let name = name_shown(user);
        let reason = KeepReason { fault };
        eprintln!(self.rt; "{folder}/{name}: {reason}")
    }
}

impl<R: Print + Eprint + Wait + Clock + Append + ReadKeys + Storage, K: KeyHolder> Journal
    for Host<'_, R, K> {
    fn opened(&self) -> bool {
        self.note_folder();
        self.print_addresses().is_ok()
    }

    fn begun(&self, caller: Caller) {
        self.counters.begun();
        if !caller.is_web {
            self.served.fetch_add(1, Ordering::SeqCst);
        }
        if let Some(log) = &self.log {
            self.counters.logged(log.log_begin(caller));
        }
    }

    fn seated(&self, caller: Caller, seat: Seat<'_>) {
        self.counters.seated(seat);
        if let Some(control) = &self.control {
            control.note_seat(caller, seat);
        }
        if let Some(log) = &self.log {
            self.counters.logged(log.log_seat(caller, seat));
        }
    }

    fn ended(&self, caller: Caller, visit: &Visit<'_>) {
        self.counters.ended(visit.ending);
        if let Some(control) = &self.control {
            control.note_end(caller);
        }
        if let Some(log) = &self.log {
            self.counters.logged(log.log_end(caller, visit));
        }
    }

    fn is_counting(&self) -> bool {
        self.stats.is_some() || self.control.is_some() || self.monitor.is_some()
    }

    fn answered(&self, answered: &Answered) {
        self.counters.answered(answered);
        if let Some(control) = &self.control {
            control.note_answer(answered);
        }
    }

    fn asked(&self, is_granted: bool) {
        self.counters.asked(is_granted);
    }

    fn kept(&self, kept: KeptLine) {
        self.counters.kept(kept);
    }

    fn accept_failed(&self, fault: AcceptFault) {
        if let Some(log) = &self.log {
            self.counters.logged(log.log_fault(fault));
        }
    }

    fn not_taken_up(&self, user: Option<&[u8]>, fault: KeepFault) {
        self.counters.not_taken_up();
        self.log_unkept(user, fault);
    }

    fn keep_failed(&self, user: Option<&[u8]>, fault: KeepFault) {
        self.log_unkept(user, fault);
        let _ = self.print_unkept(user, fault).is_ok();
    }

    fn stands(&self, place: usize, left: Remaining) {
        if let Some(control) = &self.control {
            control.note_left(place, left);
        }
    }

    fn has_operator(&self) -> bool {
        self.control.is_some()
    }

    fn attend<H: Helm>(&self, helm: &H) {
        if let Some(control) = &self.control {
            let desk = Desk {
                log: self.log.as_ref(),
                monitor: self.monitor.as_ref(),
                keys: self.keys,
                folder: self.folder,
            };
            control.attend(helm, &desk);
        }
    }

    fn over(&self) {
        if let Some(control) = &self.control {
            control.close();
        }
        if let Some(monitor) = &self.monitor {
            monitor.close();
        }
    }
}
