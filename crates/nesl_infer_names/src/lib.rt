//! What names refer to, and the first name that refers to nothing.
#![tactic(auto)]

mod found;
mod known;
pub mod laws;
mod patterns;
mod scope;
mod types;
mod unknown;
mod walk;

pub use unknown::{unknown_in_exp, unknown_in_function, unknown_in_type};
