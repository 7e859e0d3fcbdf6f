//! Hints on names that mean nothing.

mod bound;
mod near;
mod unknowns;

pub use bound::bound_names;
pub use unknowns::{Unknown, unknown_name};
