//! What is recorded of the types of variables.

use nesl_unify_graph::Node;

/// The type of a variable is as the node has it. The places in the node are variables too.
#[derive(Clone, Copy)]
pub struct Fact {
    pub variable: usize,
    pub node: Node,
}
