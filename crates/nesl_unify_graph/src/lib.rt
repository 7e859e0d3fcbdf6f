//! Graphs of types: what is said of the type at each place, instances that are expanded only where they are looked at,
//! and the most general types that fit.
#![tactic(auto)]

mod expand;
pub mod fault;
pub mod form;
pub mod instances;
pub mod node;
pub mod read;
mod table;
mod twins;
pub mod unify;
pub mod walk;

pub use fault::SolveFault;
pub use instances::{Instance, Instances, Source};
pub use node::Node;
pub use unify::Pair;
pub use walk::are_within;
