//! Hints on lines without types, and on lines with more than one.

mod sentences;
mod told;
mod words;

pub use sentences::sign_of;
pub use told::{ambiguous, ill_typed};
