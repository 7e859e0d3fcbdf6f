//! Helpers that grant by a rule.

use nesl_eval_helpers::Helpers;
use std::sync::atomic::{AtomicU64, Ordering};

/// A granted helper.
pub struct Leave;

/// Grants where a number that each question changes says so, and counts those that are out.
#[derive(Drop)]
pub struct Granting {
    state: AtomicU64,
    step: u64,
    out: AtomicU64,
    granted: AtomicU64,
}

impl Granting {
    /// Grants always.
    pub fn always() -> Granting {
        Granting::by(1, 0)
    }

    /// Grants at every second question.
    pub fn every_second() -> Granting {
        Granting::by(0, 1)
    }

    /// Grants at about every second question, as the seed says.
    pub fn seeded(seed: u64) -> Granting {
        let mixed = seed.wrapping_mul(0x9E37_79B9_7F4A_7C15);
        Granting::by(mixed, mixed.wrapping_mul(0xBF58_476D_1CE4_E5B9) | 1)
    }

    fn by(state: u64, step: u64) -> Granting {
        Granting {
            state: AtomicU64::new(state),
            step,
            out: AtomicU64::new(0),
            granted: AtomicU64::new(0),
        }
    }

    /// How many are out.
    pub fn out(&self) -> u64 {
        self.out.load(Ordering::SeqCst)
    }

    /// How many were granted.
    pub fn granted(&self) -> u64 {
        self.granted.load(Ordering::SeqCst)
    }
}

// Whether the number says so: its lowest bit, or a bit of what it is mixed to.
fn grants(state: u64, step: u64) -> bool {
    if step < 2 {
        return state % 2 == 1;
    }
    let mixed = (state ^ (state >> 31)).wrapping_mul(0x94D0_49BB_1331_11EB);
    (mixed >> 40) % 2 == 1
}

impl Helpers for Granting {
    type Permit = Leave;

    fn ask(&self) -> Option<Leave> {
        let state = self.state.fetch_add(self.step, Ordering::SeqCst);
        if !grants(state, self.step) {
            return None;
        }
        self.out.fetch_add(1, Ordering::SeqCst);
        self.granted.fetch_add(1, Ordering::SeqCst);
        Some(Leave)
    }

    fn done(&self, permit: Leave) {
        let Leave = permit;
        self.out.fetch_sub(1, Ordering::SeqCst);
    }
}
