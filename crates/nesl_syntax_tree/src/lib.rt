//! The trees of lines, which trees the grammar gives to tokens, and parts of a line that are read already.
#![tactic(auto)]

mod laws;
pub mod parts;
pub mod tree;

pub use laws::spans_in_order;
