//! The types of a form's parts, the first part whose type is not what the rest wants, and what is said of it.
#![tactic(auto)]

mod calls;
mod clash;
mod copies;
mod functions;
mod guesses;
mod join;
mod names;
mod patterns;
mod typing;
mod walk;

pub use typing::{ambiguous, ill_typed, sign_of};
