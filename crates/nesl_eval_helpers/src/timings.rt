//! Remembers how long intervals took.
ghost use Rattle.std.specs.Prelude.{◌≡◌};
ghost use Rattle.nesl_eval_helpers.specs.Timings.{time_for, rate_of};

use crate::Asker;
use std::array;
use std::sync::atomic::{AtomicU64, Ordering};

/// The fewest microseconds of an interval for which a helper pays. Starting its thread takes some tens of microseconds.
pub(crate) const WORTH: u64 = 300;

/// The same for an interval inside one that has helpers. If one asks there, many may.
pub(crate) const WORTH_INSIDE: u64 = 1000;

/// The size of the table of kinds of intervals.
const PLACES: usize = 251;

/// At least this many units of work take a microsecond. If an interval took longer than its work needs, its thread was
/// waiting.
const LEAST_WORK: u64 = 8;

/// After helpers lost this many microseconds of a kind of intervals, it has none for a multiple of what they lost. The
/// system may let a new thread share its maker's processor, and move it only after 60 to 100 milliseconds of them.
/// Meanwhile an interval takes about a twentieth longer. If it takes much longer, the processors are busy.
const PATIENCE: u64 = 8000;

/// The first such multiple. It doubles each time, up to `LONGEST_REST`, and is halved after a helper paid.
const FIRST_REST: u64 = 16;

const LONGEST_REST: u64 = 64;

/// Of each `TURNS` intervals that may have helpers, the fourth has none. So their time without helpers stays known.
const TURNS: u64 = 32;

const TIMED: u64 = 3;

/// Rates are microseconds for this number of elements.
const ELEMENTS: u64 = 1024;

/// Returns the microseconds for `size` elements at this rate.
pub(crate) fn time_for(rate: u64, size: u64) -> u64
    ensures { result ≡ time_for rate size }
{
    rate.saturating_mul(size) / ELEMENTS
}

/// Returns the rate where `size` elements took these microseconds.
pub(crate) fn rate_of(micros: u64, size: u64) -> u64
    ensures { result ≡ rate_of micros size }
{
    micros.saturating_mul(ELEMENTS) / size.max(1)
}

/// Returns the time that an interval needed, limited by what its work can take. The rest was waiting.
pub(crate) fn time_needed(micros: u64, work: u64) -> u64 {
    micros.min(work / LEAST_WORK)
}

/// The turns that an interval has left. `size` is their approximate number of elements, and `expected` their
/// microseconds without helpers.
#[derive(Clone, Copy)]
pub(crate) struct Part {
    pub whole: Asker,
    pub size: u64,
    pub expected: u64,
}

/// What is known of one kind of intervals: those of one apply-to-each with about as many elements.
#[derive(Drop)]
struct Seen {
    kind: AtomicU64,
    // The last two rates without helpers, the newest first; 0 if there was none.
    last: AtomicU64,
    before: AtomicU64,
    // The number of those that could have had a helper.
    helped: AtomicU64,
    // The microseconds that helpers lost since the last rest, without those that they saved.
    lost: AtomicU64,
    // The microsecond until which they have no helpers, and the multiple for the next such time.
    until: AtomicU64,
    rest: AtomicU64,
}

impl Seen {
    fn new() -> Seen {
        Seen {
            kind: AtomicU64::new(0),
            last: AtomicU64::new(0),
            before: AtomicU64::new(0),
            helped: AtomicU64::new(0),
            lost: AtomicU64::new(0),
            until: AtomicU64::new(0),
            rest: AtomicU64::new(FIRST_REST),
        }
    }

    fn is_of(&self, kind: u64) -> bool {
        self.kind.load(Ordering::Relaxed) == kind
    }

    // Forgets another kind that has this place in the table.
    fn take(&self, kind: u64) {
        if !self.is_of(kind) {
            self.last.store(0, Ordering::Relaxed);
            self.lost.store(0, Ordering::Relaxed);
            self.until.store(0, Ordering::Relaxed);
            self.rest.store(FIRST_REST, Ordering::Relaxed);
            self.kind.store(kind, Ordering::Relaxed);
        }
    }

    // Returns the lower of the last two rates.
    fn rate(&self) -> u64 {
        let last = self.last.load(Ordering::Relaxed);
        last.min(self.before.load(Ordering::Relaxed))
    }

    fn note(&self, rate: u64) {
        let last = self.last.load(Ordering::Relaxed);
        self.before.store(last, Ordering::Relaxed);
        self.last.store(rate, Ordering::Relaxed);
    }

    // Notes the microseconds that helpers lost of an interval, which ends now. A rest begins at once after they lost
    // half of its expected time.
    fn note_lost(&self, micros: u64, expected: u64, now: u64) {
        let lost = self.lost.load(Ordering::Relaxed).saturating_add(micros);
        if lost < PATIENCE && micros < expected / 2 {
            self.lost.store(lost, Ordering::Relaxed);
        } else {
            self.begin_rest(lost, now);
        }
    }

    fn begin_rest(&self, lost: u64, now: u64) {
        let rest = self.rest.load(Ordering::Relaxed);
        let until = now.saturating_add(lost.saturating_mul(rest));
        self.until.store(until, Ordering::Relaxed);
        let next = rest.saturating_mul(2).min(LONGEST_REST);
        self.rest.store(next, Ordering::Relaxed);
        self.lost.store(0, Ordering::Relaxed);
    }

    // Notes the microseconds that helpers saved of an interval.
    fn note_saved(&self, micros: u64) {
        let lost = self.lost.load(Ordering::Relaxed).saturating_sub(micros);
        self.lost.store(lost, Ordering::Relaxed);
        let rest = self.rest.load(Ordering::Relaxed);
        self.rest
            .store((rest / 2).max(FIRST_REST), Ordering::Relaxed);
    }

    // Lowers the rates to this one, if they are higher.
    fn bound(&self, rate: u64) {
        self.last.fetch_min(rate, Ordering::Relaxed);
        self.before.fetch_min(rate, Ordering::Relaxed);
    }
}

// Returns the kind of an interval. Within a kind, sizes have the same number of binary digits.
fn kind_of(asker: Asker) -> u64 {
    let digits = u64::from(asker.size.max(1).ilog2());
    asker.mark.wrapping_mul(37).wrapping_add(digits)
}

/// What is known of intervals. Two kinds with the same place in the table overwrite each other.
#[derive(Drop)]
pub(crate) struct Timings {
    places: [Seen; PLACES],
}

impl Timings {
    pub(crate) fn new() -> Timings {
        Timings {
            places: array::from_fn(|_| Seen::new()),
        }
    }

    fn seen(&self, kind: u64) -> &Seen {
        &self.places[(kind % PLACES as u64) as usize]
    }

    /// Returns the likely rate of an interval without helpers: the lower of the last two, or 0 if its kind was seen
    /// less than twice.
    pub(crate) fn rate(&self, asker: Asker) -> u64 {
        let kind = kind_of(asker);
        let seen = self.seen(kind);
        if seen.is_of(kind) { seen.rate() } else { 0 }
    }

    /// Whether an interval may have a helper at this microsecond. None is allowed shortly after one didn't pay, or if
    /// it is the interval's turn to be timed.
    pub(crate) fn allows(&self, asker: Asker, now: u64) -> bool {
        let seen = self.seen(kind_of(asker));
        now >= seen.until.load(Ordering::Relaxed)
            && seen.helped.fetch_add(1, Ordering::Relaxed) % TURNS != TIMED
    }

    /// Notes the microseconds of an interval without helpers. A short one doesn't overwrite another kind.
    pub(crate) fn note(&self, asker: Asker, micros: u64) {
        let kind = kind_of(asker);
        let seen = self.seen(kind);
        if micros >= WORTH || seen.is_of(kind) {
            seen.take(kind);
            seen.note(rate_of(micros, asker.size));
        }
    }

    /// Compares the microseconds of turns that had helpers with those expected without. `threads` is the most threads
    /// that ran at once, and `now` the microsecond of the end.
    pub(crate) fn compare(&self, part: Part, micros: u64, threads: u64, now: u64) {
        let kind = kind_of(part.whole);
        let seen = self.seen(kind);
        if !seen.is_of(kind) {
            return;
        }
        // A helper pays where it saves at least a sixteenth.
        let worth = part.expected.saturating_sub(part.expected / 16);
        match micros.checked_sub(worth) {
            Some(lost) => seen.note_lost(lost, part.expected, now),
            None => seen.note_saved(worth.saturating_sub(micros)),
        }
        seen.bound(rate_of(micros.saturating_mul(threads), part.size));
    }
}
