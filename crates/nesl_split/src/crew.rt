//! The means of an evaluation in halves: threads, helpers, and the gate.
ghost use Rattle.std.specs.Prelude.{◌≡◌, ℕ};

use std::alloc::Global;
use std::thread::{Threads, join};

/// What each thread of an evaluation is given.
#[derive_where(Clone, Copy)]
pub struct Crew<'a, R, H, G, T> {
    pub rt: &'a R,
    pub helpers: &'a H,
    pub gate: &'a G,
    /// The definitions at the top level.
    pub tops: &'a T,
    pub alloc: Global,
}

/// Runs two halves of something shared, and returns both results. The right one runs on a thread of its own, if one can
/// be made.
pub fn fork<R: Threads + Sync, S: Sync, X: Send, F: Fn(&S, usize, usize) -> X + Sync>(
    rt: &R,
    shared: &S,
    half: &F,
    left: (usize, usize),
    right: (usize, usize),
) -> (X, X)
    requires left { F.pre half.now shared left.0 left.1 }
    requires right { F.pre half.now shared right.0 right.1 }
    ensures left { F.post half.now shared.entry left.0 left.1 result.0 }
    ensures right { F.post half.now shared.entry right.0 right.1 result.1 }
{
    let (second, first) = join(
        rt,
        || -> X
            requires { F.pre half.now shared right.0 right.1 }
            ensures { F.post half.entry.now shared.entry right.0 right.1 result }
        { half(shared, right.0, right.1) },
        || -> X
            requires { F.pre half.now shared left.0 left.1 }
            ensures { F.post half.entry.now shared.entry left.0 left.1 result }
        { half(shared, left.0, left.1) },
    );
    (first, second)
}
