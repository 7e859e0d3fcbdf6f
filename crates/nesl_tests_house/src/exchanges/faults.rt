//! Flushes that fail.
use crate::exchanges::batches::outcome_of;
use crate::exchanges::devices::{Paper, paper_of, tape_of};
use nesl_line::exchange::{End, Ran};
use std::alloc::{AllocError, Global};

// Whether the batch ends at the flush after this many.
fn ends_at_flush(alloc: Global, good_flushes: u32) -> Result<bool, AllocError> {
    let paper = Paper {
        good_flushes,
        ..paper_of(alloc, 1000, 1000)
    };
    let outcome = outcome_of(alloc, tape_of(b"user ann\n9;\nuser zed\n", 1000000), paper)?;
    let end = if good_flushes < 3 {
        End::WriteFault
    } else {
        End::Input
    };
    let lines = u64::from(good_flushes.min(2)) + 1;
    Ok(outcome.ran == Ran { lines, end } && outcome.paper.flushes == good_flushes)
}

#[test]
fn each_answer_is_flushed(rt: HostRuntime) {
    for good_flushes in 0..4 {
        assert!(rt;
            ends_at_flush(rt.alloc(), good_flushes).expect(&rt, "memory"),
            "{good_flushes}"
        );
    }
}
