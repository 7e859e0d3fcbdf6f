//! The top level: each name with its type, its payload, and the code and the operations of its body.
#![tactic(auto)]

pub mod env;
mod top_level;

pub use env::{Env, Payload, TopLevel, prepare};
