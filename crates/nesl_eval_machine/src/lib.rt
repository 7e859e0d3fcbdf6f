//! A machine that runs code in the order of evaluation, with a stack of its own.
#![tactic(auto)]

mod blocks;
mod calls;
mod columns;
mod ends;
mod hand;
mod moves;
mod next;
mod rounds;
mod run;
pub mod state;

pub use moves::take_off;
pub use run::evaluate_ops;
