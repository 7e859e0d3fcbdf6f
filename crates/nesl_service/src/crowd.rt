//! Threads that share one task.
ghost use Rattle.std.specs.Prelude.{◌≡◌, ℕ};

use std::sync::Wait;
use std::sync::atomic::{AtomicU64, Ordering};
use std::thread;
use std::thread::{Builder, Scope, Threads};

/// The bytes of the stack of a thread that answers lines. Recursive functions descend trees that are at most 100 high.
/// Evaluation in columns through calls nests at most 128 nodes. Each level takes at most 3 KiB, and other calls take no
/// stack.
pub const STACK_BYTES: usize = 1_048_576;

/// The point where threads wait for each other before they begin.
#[derive(Drop)]
pub struct Start {
    /// The number of threads that have arrived and weren't counted yet.
    arrived: AtomicU64,
    /// The number of threads that have arrived and are not ready.
    unready: AtomicU64,
    /// The number of threads that may begin and haven't yet.
    begun: AtomicU64,
}

impl Start {
    /// No thread has arrived.
    pub fn new() -> Start {
        Start {
            arrived: AtomicU64::new(0),
            unready: AtomicU64::new(0),
            begun: AtomicU64::new(0),
        }
    }

    /// Reports whether this thread is ready, and waits until it may begin.
    pub fn wait<R: Wait>(&self, rt: &R, is_ready: bool) {
        if !is_ready {
            self.unready.fetch_add(1, Ordering::SeqCst);
        }
        self.arrived.fetch_add(1, Ordering::SeqCst);
        self.begun.wait_and_decrement(rt);
    }

    /// Waits until this number of threads have arrived, and returns whether all of them are ready.
    pub fn wait_for_all<R: Wait>(&self, rt: &R, threads: usize) -> bool {
        for _ in 0..threads {
            self.arrived.wait_and_decrement(rt);
        }
        self.unready.load(Ordering::SeqCst) == 0
    }

    /// Lets this number of threads begin.
    pub fn begin(&self, threads: usize) {
        self.begun.fetch_add(threads as u64, Ordering::SeqCst);
    }
}

/// Makes up to `threads` threads that each run `work`, and joins them. After the first thread that can't be made no
/// other is tried. `lead` runs beside the threads, with the number that were made.
pub fn run_crowd<R: Threads + Wait + Sync, S: Sync, F: Fn(&S) + Sync, L: Fn(&S, usize)>(
    rt: &R,
    shared: &S,
    threads: usize,
    work: &F,
    lead: &L,
)
    requires work { F.pre work.now shared }
    requires lead { (made : ℕ) → L.pre lead.now shared made }
{
    thread::scope(
        thread::scope_env(),
        rt,
        |scope|
            requires work { F.pre work.now shared }
            requires lead { (made : ℕ) → L.pre lead.now shared made }
        {
            let mut made = 0;
            for count in 0..threads {
                let run = move || -> ()
                    requires { F.pre work.now shared }
                { work(shared) };
                let builder = Builder::new().stack_size(STACK_BYTES);
                if builder.spawn_scoped(scope, run).is_err() {
                    break;
                }
                made = count + 1;
            }
            lead(shared, made);
        },
    );
}
