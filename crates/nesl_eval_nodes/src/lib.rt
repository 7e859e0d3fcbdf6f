//! What the nodes of an expression make of what their parts evaluate to, and what evaluation keeps beside them: the
//! top level as it is lent, the local names, and the meter. Nothing here recurs over code.
#![tactic(auto)]

pub mod elements;
pub mod held;
pub mod meter;
pub mod nodes;
pub mod places;
pub mod scope;
