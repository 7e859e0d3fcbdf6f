//! Shared parts of evaluation in halves: who grants helpers, a pool of permits for them, and the joining of two halves
//! of an interval.
#![tactic(auto)]

mod common;
mod halving;
mod helpers;
mod permits;
mod pool;
pub mod sparing;
mod timings;

pub use common::Common;
pub use halving::{Half, begin_meter, cost_since, join_places, join_values};
pub use helpers::{Advice, Asker, Free, Gate, Helpers, NoHelpers, NoPermit, Place};
pub use permits::Permits;
pub use pool::{Asking, Permit, Pool};
