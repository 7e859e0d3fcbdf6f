//! The texts of faults, values and replies, byte for byte.
#![tactic(auto)]

pub mod fault;
mod leaf;
pub mod reply;
pub mod value;
mod whole;
mod writing;

pub use fault::{Fault, Stop};
pub use reply::{Reply, Used, no_memory, reply_text};
pub use value::value_text;
