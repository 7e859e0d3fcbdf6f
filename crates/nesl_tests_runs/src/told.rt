//! Outcomes of evaluations.

use crate::writing::put;
use nesl_eval::Outcome;
use std::alloc::{AllocError, Allocator, Global};

/// The budget of a line of the program.
pub const WORK: u64 = 1_000_000;

/// The levels of a line of the program.
pub const LEVELS: u32 = 1000;

/// Writes an outcome.
pub fn put_outcome(
    alloc: Global,
    told: &Outcome<Global>,
    out: &mut Vec<u8>,
) -> Result<(), AllocError> {
    match told {
        Outcome::Done { work, depth, .. } => {
            put(out, format!(in alloc; "work {work}, depth {depth}"))
        }
        Outcome::Fault { trap, span, work } => put(
            out,
            format!(in alloc; "{trap:?} at {}..{}, work {work}", span.start, span.end),
        ),
        Outcome::Over => out.extend_from_slice(b"over"),
        Outcome::Memory => out.extend_from_slice(b"memory"),
    }
}

/// Whether two outcomes are the same, memory aside.
pub fn is_same<A: Allocator>(told: &Outcome<A>, other: &Outcome<Global>) -> bool {
    match (told, other) {
        (
            Outcome::Done { value, work, depth },
            Outcome::Done {
                value: v,
                work: w,
                depth: d,
            },
        ) => work == w && depth == d && value.same(v),
        (
            Outcome::Fault { trap, span, work },
            Outcome::Fault {
                trap: t,
                span: s,
                work: w,
            },
        ) => trap == t && span == s && work == w,
        (Outcome::Over, Outcome::Over) => true,
        _ => false,
    }
}

/// The work of an outcome, unless it has none.
pub fn work_of(told: &Outcome<Global>) -> Option<u64> {
    match told {
        Outcome::Done { work, .. } => Some(*work),
        Outcome::Fault { work, .. } => Some(*work),
        _ => None,
    }
}
