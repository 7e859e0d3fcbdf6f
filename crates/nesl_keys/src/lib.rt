//! Decides which user a connection may be: by the first line alone, by a key, or by what a proxy says.
#![tactic(auto)]

pub mod admitted;
mod cut;
pub mod doors;
pub mod entry;
mod first_line;
pub mod keys;
pub mod laws;
pub mod make;
pub mod name;
mod porter;
pub mod secret;
pub mod sign_in;
