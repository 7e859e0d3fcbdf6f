//! Two users are served at the same time, by `serve` on two threads.
ghost use Rattle.std.specs.Prelude.{◌≡◌};

use crate::client::ann_and_bob;
use nesl_eval_helpers::{Gate, Place, Pool};
use nesl_house::table::Table;
use nesl_line::device::Device;
use nesl_line::serve::serve;
use nesl_service::crowd::run_crowd;
use std::alloc::Global;
use std::marker::Brand;
use std::sync::Wait;
use std::sync::atomic::{AtomicU64, Ordering};
use std::sync::ledger::{Blank, Ledger};
use std::test::Fail;
use std::thread;
use std::thread::Threads;
use std::time::{Clock, Duration};

const TURNS: u32 = 100_000;

// How many lines of ann and of bob, and how many first halves, have entered, and how often that was waited for in vain.
#[derive(Drop)]
pub(crate) struct Entered {
    ann: AtomicU64,
    bob: AtomicU64,
    halves: AtomicU64,
    late: AtomicU64,
}

impl Entered {
    fn new() -> Entered {
        Entered {
            ann: AtomicU64::new(0),
            bob: AtomicU64::new(0),
            halves: AtomicU64::new(0),
            late: AtomicU64::new(0),
        }
    }

    fn count(&self, place: Place) {
        let entered = match place {
            Place::Line(0) => &self.ann,
            Place::Line(_) => &self.bob,
            Place::Half(0, 1) => &self.halves,
            Place::Half(..) => return,
        };
        entered.fetch_add(1, Ordering::SeqCst);
    }

    // Whether a line of each has, or two first halves.
    fn have_both(&self, place: Place) -> bool {
        match place {
            Place::Line(_) => {
                self.ann.load(Ordering::SeqCst) > 0 && self.bob.load(Ordering::SeqCst) > 0
            }
            Place::Half(0, 1) => self.halves.load(Ordering::SeqCst) > 1,
            Place::Half(..) => true,
        }
    }

    // Whether two lines and two first halves have, and none waited in vain.
    fn are_all_in_time(&self) -> bool {
        self.halves.load(Ordering::SeqCst) == 2 && self.late.load(Ordering::SeqCst) == 0
    }
}

// Holds each line until those of both users have entered, and each first half until two have.
#[derive(Drop)]
struct TwoAtOnce<'r, R: Clock> {
    rt: &'r R,
    entered: &'r Entered,
}

impl<R: Clock> Gate for TwoAtOnce<'_, R> {
    fn enter(&self, place: Place) {
        self.entered.count(place);
        for _ in 0..TURNS {
            if self.entered.have_both(place) {
                return;
            }
            thread::sleep(self.rt, Duration::from_micros(100));
        }
        self.entered.late.fetch_add(1, Ordering::SeqCst);
    }
}

// What both connections share.
#[derive(Drop)]
pub(crate) struct AtOnce<'x, R, L: Ledger> {
    rt: &'x R,
    alloc: Global,
    table: &'x Table,
    pool: &'x Pool<L>,
    entered: &'x Entered,
    begun: AtomicU64,
    served: AtomicU64,
}

// What a connection says, and what is answered.
const ANN: (&str, &str) = (
    "user ann\n{a * a : a in [1, 2]};\n",
    "user ann\nit = [1, 4] : [int] (work 12, depth 7)\n",
);

const BOB: (&str, &str) = (
    "user bob\n{a * a : a in [1, 2]};\n",
    "user bob\nit = [1, 4] : [int] (work 12, depth 7)\n",
);

impl<R: Threads + Wait + Clock + Sync, L: Ledger + Send + Sync> AtOnce<'_, R, L> {
    // Whether a connection that says this is answered so.
    fn is_served(&self, said: &str, wanted: &str) -> bool {
        let gate = TwoAtOnce {
            rt: self.rt,
            entered: self.entered,
        };
        let mut reader = Device::new(said.as_bytes());
        let mut writer = Device::new(Vec::new(self.alloc));
        let served = serve(
            self.rt,
            self.alloc,
            &mut reader,
            &mut writer,
            self.table,
            &self.pool.by(self.rt),
            &gate,
        );
        served.receipt.is_some() && writer.into_inner().as_slice() == wanted.as_bytes()
    }

    // Serves ann or bob, whose turn it is.
    fn serve_next(&self) {
        let (said, wanted) = if self.begun.fetch_add(1, Ordering::SeqCst) % 2 == 0 {
            ANN
        } else {
            BOB
        };
        if self.is_served(said, wanted) {
            self.served.fetch_add(1, Ordering::SeqCst);
        }
    }
}

// How many connections two threads answer, where each waits for the other within its line.
fn serve_both<R: Threads + Wait + Clock + Sync, L: Ledger + Send + Sync>(
    rt: &R,
    alloc: Global,
    table: &Table,
    entered: &Entered,
    blank: Blank,
) -> u64
    requires { (blank.name ≡ L.name) × (blank.parts ≡ L.parts) × (blank.parts ≡ 2) }
{
    let pool: Pool<L> = Pool::new(2, blank);
    let shared = AtOnce {
        rt,
        alloc,
        table,
        pool: &pool,
        entered,
        begun: AtomicU64::new(0),
        served: AtomicU64::new(0),
    };
    let work = |it: &AtOnce<R, L>| it.serve_next();
    let lead = |_: &AtOnce<R, L>, _: usize| {};
    run_crowd(rt, &shared, 2, &work, &lead);
    shared.served.load(Ordering::SeqCst)
}

#[test]
fn two_users_are_served_at_once(rt: HostRuntime) -> Result<(), Fail> {
    let table = ann_and_bob(rt.alloc())?;
    let entered = Entered::new();
    let served = serve_both::<_, Brand>(&rt, rt.alloc(), &table, &entered, Blank::new(2));
    assert!(rt; served == 2 && entered.are_all_in_time());
    Ok(())
}
