//! Kept sessions, looked at: which of them come back, and what their lines are answered.
#![tactic(auto)]

pub mod again;
pub mod cells;
pub mod collection;
pub mod failure;
pub mod folder;
mod name;
mod rows;
mod shown;
