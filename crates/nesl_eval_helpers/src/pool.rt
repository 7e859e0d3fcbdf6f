//! A pool of permits for helpers, under a lock.
//!
//! The permits in use are the total of a ledger. So, while the lock is held, those in use and those that are free add
//! up to all.
ghost use Rattle.std.specs.Prelude.{◌≡◌, ◌+◌, ◌-◌, ◌≤◌, ◌<◌, IfSome, IsSome, ◌↔◌, true, false};
ghost use Rattle.std.specs.Option.{IfNone};

use crate::helpers::Helpers;
use crate::permits::Permits;
use std::sync::ledger::{Blank, Book, Ledger, Share};
use std::sync::{Mutex, Wait};

/// A permit in use. `done` returns it.
pub struct Permit<L: Ledger> {
    mark: Share<L>,
    ghost one_part: { mark.parts ≡ 1 },
    ghost one: { mark.amount ≡ 1 },
}

// The permits, and the number of those in use.
#[derive(Drop)]
struct Kept<L: Ledger> {
    permits: Permits,
    out: Book<L>,
    unused: Share<L>,
    ghost all_here: { out.total + permits.free ≡ permits.all },
    ghost parts: { unused.parts ≡ permits.free },
    ghost none: { unused.amount ≡ 0 },
}

impl<L: Ledger> Kept<L> {
    fn new(all: u32, blank: Blank) -> Kept<L>
        requires { (blank.name ≡ L.name) × (blank.parts ≡ L.parts) × (blank.parts ≡ all) }
        ensures { result.permits ≡ record { all = all; free = all; closed = false } }
    {
        let (out, unused) = blank.open::<L>();
        Kept {
            permits: Permits::new(all),
            out,
            unused,
        }
    }

    fn ask(&mut self) -> Option<Permit<L>>
        ensures granted { IsSome result ↔ ((0 < self.old.permits.free) × (self.old.permits.closed ≡ false)) }
        ensures some { IfSome result (λ _. self.new.permits
            ≡ record self.old.permits { free = self.old.permits.free - 1 }) }
        ensures none { IfNone result (self.new.permits ≡ self.old.permits) }
    {
        let Kept {
            permits,
            out,
            unused,
        } = self;
        if !permits.grant() {
            return None;
        }
        let mut mark = unused.split_off(1, 0);
        out.add(&mut mark, 1);
        Some(Permit { mark })
    }

    fn done(&mut self, permit: Permit<L>)
        ensures { self.new.permits ≡ record self.old.permits { free = self.old.permits.free + 1 } }
    {
        let Kept {
            permits,
            out,
            unused,
        } = self;
        let Permit { mut mark } = permit;
        out.sub(&mut mark, 1);
        permits.regain();
        unused.merge(mark);
    }

    fn close(&mut self)
        ensures { self.new.permits ≡ record self.old.permits { closed = true } }
    {
        self.permits.shut();
    }
}

/// A pool of permits that threads share.
#[derive(Drop)]
pub struct Pool<L: Ledger> {
    kept: Mutex<Kept<L>>,
}

impl<L: Ledger> Pool<L> {
    /// A pool in which all permits are free.
    pub fn new(all: u32, blank: Blank) -> Pool<L>
        requires { (blank.name ≡ L.name) × (blank.parts ≡ L.parts) × (blank.parts ≡ all) }
    {
        Pool {
            kept: Mutex::new(Kept::new(all, blank)),
        }
    }

    /// Returns this pool as helpers for a thread that may wait for the lock.
    pub fn by<'a, R: Wait>(&'a self, rt: &'a R) -> Asking<'a, L, R> {
        Asking { rt, pool: self }
    }

    /// Closes the pool, so that no more permits are granted.
    pub fn close<R: Wait>(&self, rt: &R) {
        self.kept.lock(rt).close();
    }

    /// Returns the number of free permits.
    pub fn free<R: Wait>(&self, rt: &R) -> u32 {
        self.kept.lock(rt).permits.free
    }
}

/// Helpers from a pool.
#[derive(Clone, Copy)]
pub struct Asking<'a, L: Ledger, R: Wait> {
    rt: &'a R,
    pool: &'a Pool<L>,
}

impl<L: Ledger, R: Wait> Helpers for Asking<'_, L, R> {
    type Permit = Permit<L>;

    fn ask(&self) -> Option<Permit<L>> {
        self.pool.kept.lock(self.rt).ask()
    }

    fn done(&self, permit: Permit<L>) {
        self.pool.kept.lock(self.rt).done(permit);
    }
}
