//! The built-in functions: which name or sign is which, and their types.
#![tactic(auto)]

pub mod builtin;
mod shapes;
mod types;

pub use builtin::{Builtin, named, of_infix, of_prefix};
pub use types::{classes, gives, scheme, takes};
