//! The principal type of an expression, the scheme of a function and the content of a datatype.
#![tactic(auto)]

mod constrain;
mod fault;
mod infer;
mod integer;
pub mod laws;
mod leaf;
mod long;
mod scheme;
mod uses;
mod whole;

pub use fault::InferFault;
pub use infer::{infer_datatype, infer_exp, infer_function};
