//! The definitions of a session's step: the answer to a line, and what the line changes. Also the laws that follow.
#![tactic(auto)]

pub mod laws;
pub mod limits;
