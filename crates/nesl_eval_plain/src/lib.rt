//! Plain code in columns: one part of it at a block of places, and then the next part. Code is plain where its value at
//! each place of an apply-to-each is made of leaves that are computed from leaves, and of values from outside.
#![tactic(auto)]

mod bodies;
mod parts;
mod plain;
mod whole;

pub use bodies::{Bodies, bodies_at, filter_at};
pub use nesl_eval_column_results::block::Block;
pub use plain::is_plain;
pub use whole::{LEAST, bodies_in_columns, filters_in_columns};
