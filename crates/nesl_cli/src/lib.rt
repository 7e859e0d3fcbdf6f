//! The command line, and what it asks for: a batch or a prompt, which is run here, or a service, which the caller
//! offers.
#![tactic(auto)]

pub mod costs;
pub mod failure;
mod kept;
pub mod prompt;
pub mod run;
pub mod terms;
