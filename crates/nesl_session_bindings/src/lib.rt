//! The top-level names of a session, kept well typed.
#![tactic(auto)]

mod bindings;
mod kind;
mod nodes;
mod others;
mod redefinition;
mod refusal;

pub use bindings::Bindings;
pub use kind::Kind;
pub use refusal::Refusal;
