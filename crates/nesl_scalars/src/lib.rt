//! Costs, the faults of evaluation, and the functions on numbers, truth values and characters.
#![tactic(auto)]

pub mod binary;
pub mod cost;
pub mod laws;
mod number;
pub mod trap;
pub mod unary;

pub use binary::Binary;
pub use cost::Cost;
pub use trap::Trap;
pub use unary::Unary;
