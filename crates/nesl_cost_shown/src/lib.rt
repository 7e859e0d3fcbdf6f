//! Accounts as texts: for a person at the prompt, and as JSON.
#![tactic(auto)]

pub mod bounds;
pub mod json;
pub mod parts;
pub mod printed;
pub mod prompt;
pub mod table;
