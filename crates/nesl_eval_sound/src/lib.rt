//! What types promise of values: an expression that has a type never gets stuck. Also which functions refer to a name.
#![tactic(auto)]

pub mod laws;
mod refers;

pub use refers::refers_to;
