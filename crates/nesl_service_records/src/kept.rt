//! Measures what of a connection's lines is kept, and how long that takes.
ghost use Rattle.std.specs.Prelude.{◌≡◌};

use crate::journal::Journal;
use crate::watch::Watch;
use nesl_house::lease::Lease;
use nesl_line::keeper::{KeepFault, Keeper, Mark, NotTakenUp, TakenUp};
use nesl_session::session::Session;
use std::alloc::Global;
use std::time::{Clock, Duration};

/// The bytes of a line in its file beside its own: the gate before it, and the end of it.
const FRAME_BYTES: u64 = 2;

/// A line that was kept.
#[derive(Clone, Copy, PartialEq, Eq, Debug)]
pub struct KeptLine {
    /// By how many bytes the file grew. A reset counts none.
    pub bytes: u64,
    /// The time until it was on the disk.
    pub took: Duration,
}

/// All that was kept of a connection.
#[derive(Clone, Copy, PartialEq, Eq, Debug)]
pub struct KeptSum {
    /// The lines that changed the file.
    pub lines: u64,
    /// By how many bytes they made the file grow.
    pub bytes: u64,
    /// The microseconds that they took until they were on the disk.
    pub micros: u64,
}

impl KeptSum {
    fn nothing() -> KeptSum {
        KeptSum {
            lines: 0,
            bytes: 0,
            micros: 0,
        }
    }

    fn with(self, line: KeptLine) -> KeptSum {
        let micros = u64::try_from(line.took.as_micros()).unwrap_or(u64::MAX);
        KeptSum {
            lines: self.lines.saturating_add(1),
            bytes: self.bytes.saturating_add(line.bytes),
            micros: self.micros.saturating_add(micros),
        }
    }
}

/// A keeper whose lines are measured and reported to a journal. It keeps what the inner keeper keeps.
#[derive(Drop)]
pub struct WatchedKeeper<'x, K, R, J> {
    keeper: K,
    watch: Watch<'x, R>,
    journal: &'x J,
    sum: KeptSum,
    // The place of the session in the roster, if what is left to it is reported.
    place: Option<usize>,
}

impl<'x, K, R: Clock, J: Journal> WatchedKeeper<'x, K, R, J> {
    /// Watches a keeper. A keeper that keeps nothing is not measured.
    pub fn new(keeper: K, rt: &'x R, journal: &'x J, is_keeping: bool) -> Self
        ensures { result.keeper ≡ keeper }
    {
        WatchedKeeper {
            keeper,
            watch: Watch::new(rt, is_keeping),
            journal,
            sum: KeptSum::nothing(),
            place: None,
        }
    }

    /// What was kept so far.
    pub fn sum(&self) -> KeptSum {
        self.sum
    }

    // Reports what is left to the session of a place, if that is wanted.
    fn stands(&self, session: &Session) {
        if let Some(place) = self.place {
            self.journal.stands(place, session.remaining());
        }
    }

    // Notes the place of a session that was taken up, if what is left to it is wanted.
    fn sit(&mut self, taken: &TakenUp)
        ensures { self.new.keeper ≡ self.old.keeper }
    {
        if self.journal.has_operator() {
            self.place = Some(taken.lease.place());
            self.stands(taken.lease.session());
        }
    }

    // Notes a line that was kept, if it changed the file.
    fn note(&mut self, line: &[u8], was: Mark, is: Mark)
        ensures { self.new.keeper ≡ self.old.keeper }
    {
        if is == was {
            return;
        }
        let Some(took) = self.watch.passed() else {
            return;
        };
        let is_reset = is.cleared != was.cleared;
        let bytes = if is_reset {
            0
        } else {
            (line.len() as u64).saturating_add(FRAME_BYTES)
        };
        let kept = KeptLine { bytes, took };
        self.sum = self.sum.with(kept);
        self.journal.kept(kept);
    }
}

impl<K: Keeper, R: Clock, J: Journal> Keeper for WatchedKeeper<'_, K, R, J> {
    ghost keeps = { λ k log. K.keeps k.keeper log };

    ghost leaves = { λ old new was is. K.leaves old.keeper new.keeper was is };

    ghost has_failed = { λ k. K.has_failed k.keeper };

    fn take_up(&mut self, alloc: Global, user: &[u8], lease: Lease) -> Result<TakenUp, NotTakenUp> {
        let taken = self.keeper.take_up(alloc, user, lease);
        if let Ok(taken) = &taken {
            self.sit(taken);
        }
        taken
    }

    fn keep(
        &mut self,
        alloc: Global,
        line: &[u8],
        was: Mark,
        session: &Session,
    ) -> Result<(), KeepFault> {
        self.watch.begin();
        let kept = self.keeper.keep(alloc, line, was, session);
        if kept.is_ok() {
            self.note(line, was, Mark::of(session));
            self.stands(session);
        }
        kept
    }

    fn renew(&mut self, alloc: Global, session: &Session) -> Result<(), KeepFault> {
        self.keeper.renew(alloc, session)
    }
}
