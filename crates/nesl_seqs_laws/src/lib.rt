//! What functions on sequences evaluate to, in words that no code needs.
#![tactic(auto)]

pub mod laws;
