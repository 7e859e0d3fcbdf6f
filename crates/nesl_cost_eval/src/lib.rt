//! Evaluation with an account: what an expression evaluates to, and where each part of its cost comes from.
#![tactic(auto)]

pub mod account;
mod evaluating;
mod made;
mod run;
mod scope;
mod top;
pub mod unfinished;
