//! A gate at which halves meet.

use nesl_eval_helpers::{Gate, Place};
use std::rt::Clock;
use std::sync::atomic::{AtomicU64, Ordering};
use std::thread;
use std::time::Duration;

const TURNS: u32 = 100_000;

/// Holds each half of two places until the other has entered.
#[derive(Drop)]
pub struct HalfGate<'r, R: Clock> {
    rt: &'r R,
    left: AtomicU64,
    right: AtomicU64,
    other: AtomicU64,
    late: AtomicU64,
}

impl<'r, R: Clock> HalfGate<'r, R> {
    pub fn new(rt: &'r R) -> HalfGate<'r, R> {
        HalfGate {
            rt,
            left: AtomicU64::new(0),
            right: AtomicU64::new(0),
            other: AtomicU64::new(0),
            late: AtomicU64::new(0),
        }
    }

    /// How often the left half was entered, the right one and any other place, and how often one waited in vain.
    pub fn counts(&self) -> (u64, u64, u64, u64) {
        (
            self.left.load(Ordering::SeqCst),
            self.right.load(Ordering::SeqCst),
            self.other.load(Ordering::SeqCst),
            self.late.load(Ordering::SeqCst),
        )
    }

    fn wait_for(&self, number: &AtomicU64) {
        for _ in 0..TURNS {
            if number.load(Ordering::SeqCst) >= 1 {
                return;
            }
            thread::sleep(self.rt, Duration::from_micros(100));
        }
        self.late.fetch_add(1, Ordering::SeqCst);
    }
}

impl<R: Clock> Gate for HalfGate<'_, R> {
    fn enter(&self, place: Place) {
        if place == Place::Half(0, 1) {
            self.left.fetch_add(1, Ordering::SeqCst);
            self.wait_for(&self.right);
        } else if place == Place::Half(1, 2) {
            self.right.fetch_add(1, Ordering::SeqCst);
            self.wait_for(&self.left);
        } else {
            self.other.fetch_add(1, Ordering::SeqCst);
        }
    }
}
