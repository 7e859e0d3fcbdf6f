//! What an expression evaluates to, as definitions, and laws about it: a value with its work and depth, or a fault.
#![tactic(auto)]

pub mod laws;
