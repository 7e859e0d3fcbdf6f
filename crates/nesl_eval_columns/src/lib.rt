//! Columns: leaves of one kind that lie packed, and the functions of scalars at all of them.
#![tactic(auto)]

mod binary;
mod column;
mod gather;
mod leaf;
mod made;
mod sides;
mod unary;

pub use binary::of_two;
pub use column::Column;
pub use gather::{gathered, leaves_at, leaves_of_sides};
pub use made::{each_of, each_of_two};
pub use sides::{Sides, split_sides};
pub use unary::of_one;
