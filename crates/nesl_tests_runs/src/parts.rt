//! The parts of a run.

ghost use Rattle.std.specs.Prelude.{◌≡◌};

use crate::comparing::try_outcomes;
use crate::halves::try_halves;
use crate::sessions::try_sessions;
use crate::writing::put_line;
use nesl_eval_helpers::Pool;
use std::alloc::{AllocError, Global};
use std::rt::Clock;
use std::sync::Wait;
use std::sync::ledger::{Blank, Ledger};
use std::thread::Threads;

/// What is written of each part, and whether there was memory for all of it. A pool of three permits is for all.
pub fn try_parts<L: Ledger + Send + Sync, R: Threads + Wait + Clock + Sync>(
    rt: &R,
    alloc: Global,
    blank: Blank,
    text: String,
) -> (Vec<u8>, Result<(), AllocError>)
    requires { (blank.name ≡ L.name) × (blank.parts ≡ L.parts) × (blank.parts ≡ 3) }
{
    let pool: Pool<L> = Pool::new(3, blank);
    let mut out = Vec::new(alloc);
    let done = try_each(rt, alloc, &pool, text.as_str(), &mut out);
    (out, done)
}

fn try_each<L: Ledger + Send + Sync, R: Threads + Wait + Clock + Sync>(
    rt: &R,
    alloc: Global,
    pool: &Pool<L>,
    text: &str,
    out: &mut Vec<u8>,
) -> Result<(), AllocError> {
    for part in text.split("\n== ") {
        try_part(rt, alloc, pool, part, out)?;
    }
    Ok(())
}

// Tries the rows of a part, which follow its head.
fn try_part<L: Ledger + Send + Sync, R: Threads + Wait + Clock + Sync>(
    rt: &R,
    alloc: Global,
    pool: &Pool<L>,
    part: &str,
    out: &mut Vec<u8>,
) -> Result<(), AllocError> {
    let (head, lines) = part.split_once('\n').unwrap_or((part, ""));
    let head = head.strip_prefix("== ").unwrap_or(head);
    if head == "outcomes" {
        try_outcomes(rt, alloc, lines, out)
    } else if head == "halves" {
        try_halves(rt, alloc, pool, lines, out)
    } else if head == "sessions" {
        try_sessions(alloc, lines, out)
    } else {
        put_line(out, b"no such part")
    }
}
