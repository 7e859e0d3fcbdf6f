//! Eight threads count for two users.
use crate::client::ann_and_bob;
use nesl_eval_helpers::{Free, NoHelpers};
use nesl_house::lease::{Lease, Receipt};
use nesl_house::table::Table;
use nesl_service::crowd::run_crowd;
use std::alloc::Global;
use std::sync::atomic::{AtomicU64, Ordering};
use std::sync::{Mutex, Wait};
use std::test::Fail;
use std::thread;
use std::thread::Threads;

const THREADS: usize = 8;

const TURNS: u64 = 100;

// The numbers in all answers, and the receipts.
#[derive(Drop)]
pub(crate) struct Told {
    numbers: Vec<u64>,
    receipts: Vec<Receipt>,
}

impl Told {
    fn note(&mut self, receipt: Receipt, number: u64) {
        let _ = self.receipts.push(receipt);
        let _ = self.numbers.push(number);
    }
}

// What the threads share.
#[derive(Drop)]
pub(crate) struct Counting<'x, R> {
    rt: &'x R,
    alloc: Global,
    table: &'x Table,
    told: &'x Mutex<Told>,
    begun: AtomicU64,
}

// The number of an answer `n = NUMBER : ..` to this user: ann counts from 0, and bob from 1000.
fn number_in(answer: &[u8], is_ann: bool) -> Option<u64> {
    let text = str::from_utf8(answer).ok()?;
    let (number, _) = text.strip_prefix("n = ")?.split_once(" ")?;
    let number = number.parse::<u64>().ok()?;
    if is_ann == (number < 1000) {
        Some(number)
    } else {
        None
    }
}

impl<R: Threads + Wait + Sync> Counting<'_, R> {
    // Tries until the session is at home.
    fn taken(&self, user: &[u8]) -> Lease {
        for _ in self.rt.forever() {
            if let Ok(lease) = self.table.take(self.rt, user) {
                return lease;
            }
            thread::yield_now();
        }
        unreachable!()
    }

    // One line more of one user.
    fn count(&self, is_ann: bool) {
        let user = if is_ann { b"ann" } else { b"bob" };
        let mut lease = self.taken(user.as_slice());
        let answer = lease.line_split(self.rt, self.alloc, b"n = n + 1;", &NoHelpers, &Free);
        let receipt = self.table.give(self.rt, lease);
        let number = number_in(answer.bytes(), is_ann).unwrap_or(0);
        self.told.lock(self.rt).note(receipt, number);
    }

    // All lines of one thread, in turns of both users; every second thread begins with bob.
    fn count_all(&self) {
        let first = self.begun.fetch_add(1, Ordering::SeqCst);
        for turn in 0..TURNS {
            self.count(turn % 2 == first % 2);
        }
    }
}

// Both users' first lines.
fn begin<R: Threads + Wait + Sync>(rt: &R, alloc: Global, table: &Table) -> Option<Vec<Receipt>> {
    let mut receipts = Vec::new(alloc);
    for (user, line) in [("ann", "n = 0;"), ("bob", "n = 1000;")] {
        let mut lease = table.take(rt, user.as_bytes()).ok()?;
        let _ = lease.line_split(rt, alloc, line.as_bytes(), &NoHelpers, &Free);
        receipts.push(table.give(rt, lease)).ok()?;
    }
    Some(receipts)
}

// All threads.
fn run_all<R: Threads + Wait + Sync>(rt: &R, alloc: Global, table: &Table, told: &Mutex<Told>) {
    let counting = Counting {
        rt,
        alloc,
        table,
        told,
        begun: AtomicU64::new(0),
    };
    let count = |it: &Counting<R>| it.count_all();
    let lead = |_: &Counting<R>, _: usize| {};
    run_crowd(rt, &counting, THREADS, &count, &lead);
}

// Whether these are the numbers of 400 lines of each user, in some order.
fn are_all(mut numbers: Vec<u64>) -> bool {
    if numbers.sort().is_err() {
        return false;
    }
    let (of_ann, of_bob) = numbers.as_slice().split_at(numbers.len().min(400));
    of_ann.iter().copied().eq(1..=400) && of_bob.iter().copied().eq(1001..=1400)
}

#[test]
fn no_number_is_told_twice_or_left_out(rt: HostRuntime) -> Result<(), Fail> {
    let alloc = rt.alloc();
    let table = ann_and_bob(alloc)?;
    let told = Mutex::new(Told {
        numbers: Vec::new(alloc),
        receipts: begin(&rt, alloc, &table).expect(&rt, "two lines"),
    });
    run_all(&rt, alloc, &table, &told);
    let Told { numbers, receipts } = told.into_inner();
    let lines = table.close(receipts).ok().map(|closed| closed.lines);
    assert!(rt; are_all(numbers) && lines == Some(802));
    Ok(())
}
