//! The records of a service: its connections, their answers, and the counters of both.
#![tactic(auto)]

pub mod accepting;
pub mod answers;
pub mod asking;
pub mod counters;
pub mod helm;
pub mod journal;
pub mod keeping;
pub mod kept;
pub mod numbers;
pub mod receipts;
pub mod system;
pub mod watch;
