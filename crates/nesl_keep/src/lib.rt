//! The file of a user: lines that outlast the process. Each is on the disk before its answer is given.
#![tactic(auto)]

pub mod blocks;
pub mod device;
pub mod memory;
pub mod scroll;
