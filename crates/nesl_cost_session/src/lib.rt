//! The account of an expression of a session, for a person at a prompt.
#![tactic(auto)]

mod account;
mod called;
mod costs;
mod form;

pub use account::account_lines;
pub use costs::{EvaluationEnd, Measured, measure};
