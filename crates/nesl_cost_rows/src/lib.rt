//! What an evaluation cost, written down mark by mark, and what is read from the marks.
#![tactic(auto)]

pub mod charge;
pub mod path;
pub mod reading;
pub mod trace;
