//! Helpers that are granted by a rule.
use nesl_eval_helpers::Helpers;
use std::sync::atomic::{AtomicU64, Ordering};

/// A granted helper.
pub struct Leave;

/// Grants at each question or at every second one, and counts the helpers that are out and those that were granted.
#[derive(Drop)]
pub struct Granting {
    state: AtomicU64,
    step: u64,
    out: AtomicU64,
    granted: AtomicU64,
}

impl Granting {
    /// Grants always.
    pub fn always() -> Granting {
        Granting::by(1, 0)
    }

    /// Grants at every second question.
    pub fn every_second() -> Granting {
        Granting::by(0, 1)
    }

    fn by(state: u64, step: u64) -> Granting {
        Granting {
            state: AtomicU64::new(state),
            step,
            out: AtomicU64::new(0),
            granted: AtomicU64::new(0),
        }
    }

    /// Whether some were granted, and all are back.
    pub fn have_helped(&self) -> bool {
        self.granted.load(Ordering::SeqCst) > 0 && self.out.load(Ordering::SeqCst) == 0
    }
}

impl Helpers for Granting {
    type Permit = Leave;

    fn ask(&self) -> Option<Leave> {
        if self.state.fetch_add(self.step, Ordering::SeqCst) % 2 == 0 {
            return None;
        }
        self.out.fetch_add(1, Ordering::SeqCst);
        self.granted.fetch_add(1, Ordering::SeqCst);
        Some(Leave)
    }

    fn done(&self, permit: Leave) {
        let Leave = permit;
        self.out.fetch_sub(1, Ordering::SeqCst);
    }
}
