//! Most general solutions of systems.

ghost use Rattle.std.specs.Prelude.{◌≡◌, ◌≤◌, length, IfOk};
ghost use Rattle.nesl_unify_graph.specs.Graph.{IsFlat};
ghost use Rattle.nesl_unify_graph.specs.Instances.{AreBelow};
ghost use Rattle.nesl_unify_graph.specs.Readings.{AreReadWithin};
ghost use Rattle.nesl_unify_graph.specs.Tables.{IsTable};
ghost use Rattle.nesl_unify.specs.Solved.{graph_props};

use nesl_types::{Class, Ty};
use nesl_unify_graph::read::read;
use nesl_unify_graph::{Instances, Node};
use std::alloc::{AllocError, Global};

/// A most general solution: a type for each variable, and the class of each variable that is left in these types.
#[derive(Drop)]
pub struct Solution {
    pub(crate) instances: Instances,
    /// The graph of the types: the first `count` places are those of the variables.
    pub(crate) nodes: Vec<Node>,
    pub(crate) count: usize,
    /// The class of each variable at the variable's place; a variable past the end is in `Any`.
    pub classes: Vec<Class>,
    pub ghost below: { AreBelow (length nodes.items) instances },
    pub ghost table: { IsTable instances count nodes.items } by { Prim.hlevel graph_props },
    pub ghost flat: { IsFlat nodes.items } by { Prim.hlevel graph_props },
    pub ghost read: { ∥ AreReadWithin instances nodes.items 4096 ∥₁ },
    pub ghost within: { count ≤ length nodes.items },
}

impl Solution {
    ghost use Rattle.nesl_unify.specs.Solves.{type_of};

    /// What a variable stands for.
    pub fn variable(&self, alloc: Global, variable: u64) -> Result<Ty, AllocError>
        ensures { IfOk result (λ t. t ≡ type_of self.now variable) }
    {
        let place = variable as usize;
        if place < self.count {
            read(alloc, &self.instances, self.nodes.as_slice(), place)
        } else {
            Ty::variable(alloc, variable)
        }
    }
}
