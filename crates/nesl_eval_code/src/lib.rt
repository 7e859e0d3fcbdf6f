//! The prepared code of expressions, as a tree and in the order of evaluation.
#![tactic(auto)]

mod blocks;
pub mod code;
mod frames;
mod laws;
mod layers;
mod names;
mod places;
mod preparing;

pub use blocks::blocks_run_as_code;
pub use code::{Code, Step};
pub use laws::runs_as_meant;
pub use places::Places;
pub use preparing::{code_of_body, code_of_expression};
