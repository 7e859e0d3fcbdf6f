//! What the functions on sequences have in common: their names, arguments and prices, the elements of sequences,
//! and what each function evaluates to.
#![tactic(auto)]

pub mod argument;
pub mod arguments;
pub mod copies;
pub mod item;
pub mod joint;
pub mod nodes;
pub mod order;
pub mod places;
pub mod price;
pub mod seq_fn;
