//! Sequences in the making, which keep leaves of one kind packed.
#![tactic(auto)]

mod builder;
mod leaf;
mod run;

pub use builder::SequenceBuilder;
