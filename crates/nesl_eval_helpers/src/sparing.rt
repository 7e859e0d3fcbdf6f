//! Asks for helpers only where an interval takes long.

use crate::timings::{Part, WORTH, WORTH_INSIDE, rate_of, time_for, time_needed};
use crate::{Advice, Asker, Common, Helpers};
use std::sync::atomic::{AtomicU64, Ordering};
use std::time::Clock;

/// The work after which an interval of unknown length is looked at again. It must have taken `LEAST_SEEN` microseconds
/// by then; otherwise its time can't be estimated.
const FIRST_LOOK: u64 = 4000;

const LEAST_SEEN: u64 = 30;

/// The work after which the clock is read again. Until then, the time is estimated from the work.
const UNREAD: u64 = 1000;

const WORK_OF_MICROSECOND: u64 = 80;

/// Asks others for helpers, on behalf of one connection. It does so where an interval is likely to take 300
/// microseconds or longer, and a processor is free.
///
/// The first interval of a line is an outer one, and so is each that begins after the last outer one has ended. It has
/// helpers from the start if others of its kind took long: those of its apply-to-each with about as many elements. Of
/// the last two times without helpers the shorter one counts. Otherwise it is looked at again after a turn, each time
/// that its work has doubled. It then has helpers for the turns that are left, if these take 300 microseconds at the
/// same rate.
///
/// An interval inside it has helpers only if it is of the same apply-to-each, as in a recursion. It must also be likely
/// to take a millisecond, by its number of elements and by how many calls deeper it is. Intervals that can be evaluated
/// in columns have none. Neither have uneven ones, whose smaller half has less than an eighth of the elements: the
/// better cut is inside their larger half.
///
/// Helpers pay for an outer interval if they save at least a sixteenth of its time. What they lose is counted for each
/// kind, and what they save is subtracted. A kind rests after it has lost 8 milliseconds, or half of one interval's
/// time: it has no helpers for 16 times as long as it lost, the next time for 32 times, and then for 64 times. The
/// multiple is halved after an interval for which they paid. The reason for a loss may be that other programs use the
/// processors, or that the halves wait for each other. Another is that the system starts a thread on its maker's
/// processor, and moves it to a free one only after many intervals in a row. That costs little for each of them, and
/// therefore a kind doesn't rest after the first ones. One of 32 intervals has no helpers from its start, so that the
/// time without them stays known.
///
/// If the clock can't be read, the time is 0 and no interval takes long.
#[derive(Drop)]
pub struct Sparing<'a, C, H> {
    clock: &'a C,
    helpers: H,
    common: &'a Common,
    // The number of helpers, how many of them this connection has now, and how many it ever had.
    workers: u64,
    out: AtomicU64,
    granted: AtomicU64,
    outer: Outer,
    // The microsecond of the last reading of the clock, and the fuel that was left then. Both are 0 until the line has
    // read it.
    read_at: AtomicU64,
    read_fuel: AtomicU64,
}

/// The last outer interval.
#[derive(Drop)]
struct Outer {
    mark: AtomicU64,
    size: AtomicU64,
    fuel: AtomicU64,
    height: AtomicU64,
    levels: AtomicU64,
    // The number of levels that a call takes, if the interval is part of a recursion.
    step: AtomicU64,
    // The expected rate.
    rate: AtomicU64,
    // The microsecond at which it began, while it has no helper and hasn't ended; else 0.
    since: AtomicU64,
    // It asks again below this fuel; 0 if it doesn't.
    look: AtomicU64,
}

/// Turns of an outer interval that have a helper. `before` is the number of helpers granted earlier, and `since` the
/// microsecond at which they began.
#[derive(Clone, Copy)]
struct Compared {
    part: Part,
    before: u64,
    since: u64,
}

/// A granted helper. `compared` is the outer interval that it is for, if it is for one.
pub struct Granted<P> {
    permit: P,
    compared: Option<Compared>,
}

// Whether the smaller half of an interval has at least an eighth of its elements.
fn is_even(asker: Asker) -> bool {
    asker.least >= asker.size / 8
}

impl Outer {
    fn new() -> Outer {
        Outer {
            mark: AtomicU64::new(0),
            size: AtomicU64::new(0),
            fuel: AtomicU64::new(0),
            height: AtomicU64::new(0),
            levels: AtomicU64::new(0),
            step: AtomicU64::new(u64::MAX),
            rate: AtomicU64::new(0),
            since: AtomicU64::new(0),
            look: AtomicU64::new(0),
        }
    }

    fn begin(&self, asker: Asker, rate: u64, now: u64) {
        self.mark.store(asker.mark, Ordering::Relaxed);
        self.size.store(asker.size, Ordering::Relaxed);
        self.fuel.store(asker.fuel, Ordering::Relaxed);
        self.height.store(asker.height as u64, Ordering::Relaxed);
        self.levels.store(asker.levels, Ordering::Relaxed);
        self.step.store(u64::MAX, Ordering::Relaxed);
        self.rate.store(rate, Ordering::Relaxed);
        self.look.store(0, Ordering::Relaxed);
        self.since.store(now, Ordering::Relaxed);
    }

    fn asker(&self) -> Asker {
        Asker {
            mark: self.mark.load(Ordering::Relaxed),
            size: self.size.load(Ordering::Relaxed),
            fuel: self.fuel.load(Ordering::Relaxed),
            height: self.height.load(Ordering::Relaxed) as usize,
            levels: self.levels.load(Ordering::Relaxed),
            least: 0,
            taken: 0,
        }
    }

    fn is_timed(&self) -> bool {
        self.since.load(Ordering::Relaxed) > 0
    }

    fn stop(&self) {
        self.since.store(0, Ordering::Relaxed);
        self.look.store(0, Ordering::Relaxed);
    }

    // Asks again after this much work, counted from this fuel.
    fn look_after(&self, work: u64, fuel: u64) {
        self.look
            .store(fuel.saturating_sub(work), Ordering::Relaxed);
    }

    // Asks again after as much work as was done up to this fuel.
    fn look_later(&self, fuel: u64) {
        let work = self.fuel.load(Ordering::Relaxed).saturating_sub(fuel);
        self.look_after(work, fuel);
    }

    fn is_looked_at(&self, fuel: u64, height: usize) -> bool {
        fuel < self.look.load(Ordering::Relaxed)
            && height as u64 == self.height.load(Ordering::Relaxed)
    }

    // Estimates the microseconds for `size` elements, where the other elements took `micros`.
    fn time_left(&self, size: u64, micros: u64) -> u64 {
        let taken = self.size.load(Ordering::Relaxed).saturating_sub(size);
        match micros.saturating_mul(size).checked_div(taken) {
            Some(left) => left,
            None => 0,
        }
    }

    // Returns the microseconds it has taken until now. `fuel` is the fuel that is left.
    fn micros(&self, fuel: u64, now: u64) -> u64 {
        let work = self.fuel.load(Ordering::Relaxed).saturating_sub(fuel);
        time_needed(now.saturating_sub(self.since.load(Ordering::Relaxed)), work)
    }

    // Returns how many calls deeper an inner interval is. The first one of a recursion is one call deeper.
    fn calls(&self, asker: Asker) -> u64 {
        let levels = self.levels.load(Ordering::Relaxed);
        let used = levels.saturating_sub(asker.levels);
        let step = self.step.load(Ordering::Relaxed);
        if used > 0 && used < step {
            self.step.store(used, Ordering::Relaxed);
            return 1;
        }
        used / step.max(1)
    }

    // Estimates the microseconds of an inner interval of the same apply-to-each, from its elements. Each call at least
    // halves the estimate, since a recursion may take less time with as many elements.
    fn time_inside(&self, asker: Asker) -> u64 {
        if self.mark.load(Ordering::Relaxed) != asker.mark {
            return 0;
        }
        let rate = self.rate.load(Ordering::Relaxed);
        let whole = time_for(rate, self.size.load(Ordering::Relaxed));
        let most = whole >> self.calls(asker).min(63);
        most.min(time_for(rate, asker.size))
    }
}

impl<'a, C: Clock, H: Helpers> Sparing<'a, C, H> {
    pub fn new(clock: &'a C, helpers: H, workers: u32, common: &'a Common) -> Sparing<'a, C, H> {
        Sparing {
            clock,
            helpers,
            common,
            workers: u64::from(workers),
            out: AtomicU64::new(0),
            granted: AtomicU64::new(0),
            outer: Outer::new(),
            read_at: AtomicU64::new(0),
            read_fuel: AtomicU64::new(0),
        }
    }

    // Returns the current microsecond, or 0 if the clock can't be read.
    fn now(&self) -> u64 {
        match self.clock.monotonic() {
            Ok(time) => u64::try_from(time.as_micros()).unwrap_or(0),
            Err(_) => 0,
        }
    }

    // Returns the current microsecond, where this fuel is left. If little work was done since the clock was read, it is
    // estimated from that work.
    fn now_at(&self, fuel: u64) -> u64 {
        let read = self.read_fuel.load(Ordering::Relaxed);
        if fuel <= read && read - fuel < UNREAD {
            let done = (read - fuel) / WORK_OF_MICROSECOND;
            return self.read_at.load(Ordering::Relaxed).saturating_add(done);
        }
        let now = self.now();
        self.read_fuel.store(fuel, Ordering::Relaxed);
        self.read_at.store(now, Ordering::Relaxed);
        now
    }

    // Whether an outer interval is likely to take long. Its timing begins here.
    fn takes_long(&self, asker: Asker) -> bool {
        let rate = self.common.timings.rate(asker);
        self.outer.begin(asker, rate, self.now_at(asker.fuel));
        let takes_long = time_for(rate, asker.size) >= WORTH;
        if !takes_long {
            self.outer.look_after(FIRST_LOOK, asker.fuel);
        }
        takes_long
    }

    // Whether the outer interval should ask again, by what it has left and how long its first turns took.
    fn advise_again(&self, asker: Asker) -> Advice {
        let micros = self.outer.micros(asker.fuel, self.now_at(asker.fuel));
        let left = self.outer.time_left(asker.size, micros);
        self.outer.look_later(asker.fuel);
        if micros < LEAST_SEEN || left < WORTH || self.common.is_full() {
            return Advice::Pass;
        }
        let rate = rate_of(left, asker.size);
        self.outer.rate.store(rate, Ordering::Relaxed);
        let whole = micros.saturating_add(left);
        self.common.timings.note(self.outer.asker(), whole);
        Advice::Ask
    }

    // Returns what is compared when the helpers of an interval come back. Inside an interval that has helpers, nothing
    // is.
    fn compared(&self, asker: Asker) -> Option<Compared> {
        if self.out.load(Ordering::Relaxed) > 0 {
            return None;
        }
        let rate = self.outer.rate.load(Ordering::Relaxed);
        let part = Part {
            whole: self.outer.asker(),
            size: asker.size,
            expected: time_for(rate, asker.size),
        };
        Some(Compared {
            part,
            before: self.granted.load(Ordering::Relaxed),
            since: self.now(),
        })
    }

    // Asks for a helper, after a processor was taken for it. An outer interval with a helper isn't timed any more.
    fn grant(&self, compared: Option<Compared>) -> Option<Granted<H::Permit>> {
        let permit = self.helpers.ask()?;
        if compared.is_some() {
            self.outer.stop();
        }
        self.out.fetch_add(1, Ordering::Relaxed);
        self.granted.fetch_add(1, Ordering::Relaxed);
        Some(Granted { permit, compared })
    }
}

impl<C: Clock, H: Helpers> Helpers for Sparing<'_, C, H> {
    type Permit = Granted<H::Permit>;

    /// Returns `None`, since nothing is known of the interval.
    fn ask(&self) -> Option<Granted<H::Permit>> {
        None
    }

    fn done(&self, permit: Granted<H::Permit>) {
        let Granted { permit, compared } = permit;
        self.helpers.done(permit);
        self.common.begin();
        self.out.fetch_sub(1, Ordering::Relaxed);
        if let Some(compared) = compared {
            let helpers = self
                .granted
                .load(Ordering::Relaxed)
                .saturating_sub(compared.before);
            let threads = helpers.saturating_add(1);
            let now = self.now();
            let micros = now.saturating_sub(compared.since);
            self.common
                .timings
                .compare(compared.part, micros, threads, now);
        }
    }

    fn begin(&self) {
        self.common.begin();
        self.read_fuel.store(0, Ordering::Relaxed);
    }

    fn end(&self, fuel: u64) {
        self.common.end();
        self.end_timed(fuel);
    }

    fn timed_at(&self) -> Option<usize> {
        if self.outer.is_timed() {
            Some(self.outer.height.load(Ordering::Relaxed) as usize)
        } else {
            None
        }
    }

    fn end_timed(&self, fuel: u64) {
        if self.outer.is_timed() {
            let micros = self.outer.micros(fuel, self.now_at(fuel));
            self.common.timings.note(self.outer.asker(), micros);
            self.outer.stop();
        }
    }

    fn advise(&self, asker: Asker) -> Advice {
        if self.workers == 0 {
            return Advice::Pass;
        }
        if asker.taken > 0 {
            return self.advise_again(asker);
        }
        let is_inside = self.outer.is_timed() || self.out.load(Ordering::Relaxed) > 0;
        let takes_long = if is_inside {
            self.outer.time_inside(asker) >= WORTH_INSIDE
        } else {
            self.takes_long(asker)
        };
        if takes_long && is_even(asker) && !self.common.is_full() {
            Advice::AskUnlessInColumns
        } else {
            Advice::Pass
        }
    }

    fn ask_for(&self, asker: Asker) -> Option<Granted<H::Permit>> {
        let compared = self.compared(asker);
        if compared.is_some_and(|it| !self.common.timings.allows(it.part.whole, it.since)) {
            self.outer.rate.store(0, Ordering::Relaxed);
            return None;
        }
        if !self.common.begin_on_free() {
            return None;
        }
        let granted = self.grant(compared);
        if granted.is_none() {
            self.common.end();
        }
        granted
    }

    fn asks_again(&self, fuel: u64, height: usize) -> bool {
        self.outer.is_looked_at(fuel, height)
    }

    fn end_half(&self) {
        self.common.end();
    }
}
