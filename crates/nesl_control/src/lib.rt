//! What an operator asks of a service while it runs, and what is answered.
#![tactic(auto)]

pub mod board;
pub mod request;
pub mod rows;
