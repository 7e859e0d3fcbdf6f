//! Code laid out in the order of evaluation: operations, each with those after it.
#![tactic(auto)]

mod building;
mod copying;
mod laying;
mod leaves;
pub mod ops;
mod places;
mod sizes;
mod spans;

pub use laying::{body_ops, expression_ops};
pub use ops::{
    Block, Body, Callee, Laid, Leaf, Many, ManyNode, OneNode, Ops, Part, Plain, Two, TwoNode, What,
};
pub use spans::ShortSpan;
