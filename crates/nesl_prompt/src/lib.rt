//! A prompt for one user, with a session of its own.
#![tactic(auto)]

mod caret;
pub mod converse;
mod cut;
mod desk;
mod functions;
mod help;
pub mod hints;
mod kept;
pub mod laws;
mod open;
mod rows;
pub mod shelf;
pub mod style;
mod typed;
mod word;
mod wrapped;
