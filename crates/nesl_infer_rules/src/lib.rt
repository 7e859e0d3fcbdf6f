//! The rules of typing, and what each of them adds to the equations of an expression.
#![tactic(auto)]

pub mod apply;
pub mod each;
mod instance;
pub mod leaf;
pub mod locals;
pub mod outer;
pub mod pattern;
mod record;
pub mod signature;
pub mod state;
pub mod written;
