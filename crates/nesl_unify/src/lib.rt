//! Equations between types and classes of their variables, which are recorded as facts and solved by a graph.
#![tactic(auto)]

mod equation;
mod fact;
pub mod flat;
mod instance;
pub mod narrow;
mod room;
mod shapes;
mod solution;
pub mod solve;
mod start;
pub mod system;
mod types;

pub use flat::Flat;
pub use nesl_unify_graph::SolveFault;
pub use system::System;
