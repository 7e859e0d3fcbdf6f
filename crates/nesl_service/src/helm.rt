//! Steers a service while it runs.

use crate::accept::Acceptor;
use crate::browse::PageAcceptor;
use crate::crowd::Start;
use crate::streams::Streams;
use nesl_house::lease::Receipt;
use nesl_house::table::Table;
use nesl_line::keeper::{Archive, KeepFault};
use nesl_line::renew::{Renewal, RenewalFault, renew};
use nesl_service_records::helm::{Helm, Threads, all_left};
use nesl_service_records::journal::Journal;
use nesl_service_records::numbers::{Fault, Numbers};
use nesl_service_records::receipts::Receipts;
use std::alloc::Global;
use std::sync::atomic::{AtomicBool, AtomicU64, Ordering};
use std::sync::{Mutex, Wait};

/// What the threads of a service do, and whether an operator has closed it.
#[derive(Drop)]
pub(crate) struct Watchroom {
    is_closed: AtomicBool,
    /// The number of threads that have a connection.
    busy: AtomicU64,
    /// The number of threads that have ended.
    ended: AtomicU64,
}

impl Watchroom {
    pub(crate) fn new() -> Watchroom {
        Watchroom {
            is_closed: AtomicBool::new(false),
            busy: AtomicU64::new(0),
            ended: AtomicU64::new(0),
        }
    }

    /// Whether an operator has closed the service.
    pub(crate) fn is_closed(&self) -> bool {
        self.is_closed.load(Ordering::SeqCst)
    }

    /// Counts a connection that begins.
    pub(crate) fn begin(&self) {
        self.busy.fetch_add(1, Ordering::SeqCst);
    }

    /// Counts a connection that ends.
    pub(crate) fn finish(&self) {
        self.busy.fetch_sub(1, Ordering::SeqCst);
    }

    /// Counts a thread that ends, and returns how many have.
    pub(crate) fn end_thread(&self) -> u64 {
        self.ended.fetch_add(1, Ordering::SeqCst).saturating_add(1)
    }
}

/// What an operator acts on: the parts of a service that no thread of it needs for itself alone.
#[derive_where(Clone, Copy)]
pub(crate) struct Wheel<'x, R, J, A> {
    pub(crate) rt: &'x R,
    pub(crate) alloc: Global,
    pub(crate) acceptor: &'x Acceptor<'x>,
    pub(crate) page: Option<&'x PageAcceptor<'x>>,
    pub(crate) table: &'x Table,
    pub(crate) numbers: &'x Mutex<Numbers>,
    pub(crate) receipts: &'x Mutex<Receipts>,
    pub(crate) streams: &'x Streams,
    pub(crate) watchroom: &'x Watchroom,
    pub(crate) archive: &'x A,
    pub(crate) journal: &'x J,
    /// The number of threads of the service.
    pub(crate) threads: u64,
}

impl<R: Wait, J: Journal, A> Wheel<'_, R, J, A> {
    /// Gives out no more numbers, and ends all waits for connections.
    pub(crate) fn end(&self, fault: Fault) {
        self.numbers.lock(self.rt).end(fault);
        self.close_ports();
    }

    /// Whether a fault has ended the service.
    pub(crate) fn has_ended(&self) -> bool {
        self.numbers.lock(self.rt).fault.is_some()
    }

    /// Lets the threads that were made begin. If any is missing or not ready, or the journal refuses, the service has
    /// ended by then. Otherwise an operator may act by the helm until it has.
    pub(crate) fn open<H: Helm>(&self, start: &Start, made: usize, helm: &H) {
        let are_ready = start.wait_for_all(self.rt, made);
        if (made as u64) < self.threads || !are_ready {
            self.end(Fault::Memory);
        } else if !self.journal.opened() {
            self.end(Fault::Socket);
        }
        start.begin(made);
        if !self.has_ended() {
            self.journal.attend(helm);
        }
    }

    /// Ends the service and all connections, since something of a user could not be kept.
    pub(crate) fn end_unkept(&self, user: Option<&[u8]>, fault: KeepFault) {
        self.journal.keep_failed(user, fault);
        self.end(Fault::Keep);
        self.streams.shut_all(self.rt);
    }

    /// Adds a receipt, if there is one. A receipt that can't be added ends the service.
    pub(crate) fn take_in(&self, receipt: Option<Receipt>) {
        if let Some(receipt) = receipt {
            if !self.receipts.lock(self.rt).take_in(receipt) {
                self.end(Fault::Memory);
            }
        }
    }

    // Ends all waits for connections.
    fn close_ports(&self) {
        self.acceptor.close();
        if let Some(page) = self.page {
            page.close();
        }
    }

    // Returns the place of a user in the roster.
    fn place_of(&self, user: &[u8]) -> Option<usize> {
        let roster = self.table.roster();
        roster.iter().position(|name| name.as_slice() == user)
    }

    // Reports that all is left to the session of a user.
    fn note_renewal(&self, user: &[u8]) {
        if let Some(place) = self.place_of(user) {
            self.journal.stands(place, all_left(self.table.limits()));
        }
    }
}

impl<R: Wait, J: Journal, A: Archive> Helm for Wheel<'_, R, J, A> {
    fn end_user(&self, user: &[u8]) -> Option<usize> {
        let seat = self.place_of(user)?;
        Some(self.streams.dismiss(self.rt, seat))
    }

    fn renew_user(&self, user: &[u8]) -> Result<(), RenewalFault> {
        let mut keeper = self.archive.keeper();
        let Renewal { restored, outcome } = renew(
            self.rt,
            self.alloc,
            self.table,
            &mut keeper,
            user,
        );
        self.take_in(restored);
        match outcome {
            Err(RenewalFault::NotTakenUp(fault)) => self.journal.not_taken_up(Some(user), fault),
            Err(RenewalFault::NotKept(fault)) => self.end_unkept(Some(user), fault),
            Ok(()) => self.note_renewal(user),
            Err(RenewalFault::NoUser | RenewalFault::Busy | RenewalFault::TooManyLines) => {}
        }
        outcome
    }

    fn close(&self) {
        self.watchroom.is_closed.store(true, Ordering::SeqCst);
        self.numbers.lock(self.rt).close();
        self.close_ports();
    }

    fn end_all(&self) {
        self.streams.dismiss_all(self.rt);
    }

    fn threads(&self) -> Threads {
        Threads {
            all: self.threads,
            busy: self.watchroom.busy.load(Ordering::SeqCst),
            ended: self.watchroom.ended.load(Ordering::SeqCst),
        }
    }
}
