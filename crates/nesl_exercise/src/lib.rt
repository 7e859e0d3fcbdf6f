//! Exercises that are written in Markdown: what they give, their tests, their bounds, and outcomes of their tests.
#![tactic(auto)]

pub mod bound;
mod bytes;
pub mod exercise;
pub mod fault;
mod limits;
pub mod measure;
pub mod outcome;
mod parse_bound;
mod parse_test;
mod row;
pub mod test;
