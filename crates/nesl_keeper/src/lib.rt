//! Sessions that outlast the process: each user's session is kept in a file of its lines.
#![tactic(auto)]

pub mod head;
pub mod keeper;
pub mod replay;
