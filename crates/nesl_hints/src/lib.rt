//! The hint on a line that a session refuses.
#![tactic(auto)]

mod asking;
mod faults;
mod names;

pub use asking::{hint, hint_below};
pub use nesl_hints_tokens::Hint;
