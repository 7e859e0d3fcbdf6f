//! What a service uses of its machine: files, sockets and the time, and its log.
#![tactic(auto)]

pub mod files;
pub mod key_file;
pub mod log;
pub mod log_file;
pub mod refusal;
pub mod replace;
pub mod socket;
pub mod stamp;
mod strangers;
