//! Evaluation: what an expression evaluates to, under a budget.
#![tactic(auto)]

mod copies;
mod one;
mod outcome;
mod reached;

pub use copies::eval_one_in;
pub use nesl_eval_top_level::Env;
pub use one::eval_one;
pub use outcome::{Outcome, outcome_of};
