//! What an operator and a monitor reach while a service runs, and what it reports to them.
#![tactic(auto)]

pub mod control;
pub mod desk;
pub mod facts;
pub mod host;
pub mod monitor;
pub mod request;
pub mod stats;
