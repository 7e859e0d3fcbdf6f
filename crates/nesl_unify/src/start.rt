//! The table of facts: their variables, and after these what the facts say.

ghost use Rattle.std.specs.Prelude.{◌≡◌, length, replicate, IfOk};
ghost use Rattle.nesl_unify.specs.Starts.{IsStart};

use crate::fact::Fact;
use nesl_unify_graph::{Node, Pair};
use std::alloc::{AllocError, Global};

/// A table, and the places in it that have to be made one.
pub struct Start {
    pub nodes: Vec<Node>,
    pub pairs: Vec<Pair>,
}

/// For how many parts of instances, which are put at the end of a table, room is taken at first.
const PARTS_ROOM: usize = 32;

/// A table of as many variables, of which nothing is known, with room for so many nodes more.
fn free_nodes(alloc: Global, count: usize, more: usize) -> Result<Vec<Node>, AllocError>
    ensures { IfOk result (λ ns. ns.items ≡ replicate count Node.Free) }
{
    let mut nodes = Vec::with_capacity(alloc, count.saturating_add(more))?;
    nodes.resize(count, Node::Free)?;
    Ok(nodes)
}

/// The table of as many variables and these facts: for each of them a place after the variables, whose type is that of
/// the fact's variable.
pub fn start_table(alloc: Global, count: usize, facts: &[Fact]) -> Result<Start, AllocError>
    ensures { IfOk result (λ a. IsStart count (length facts.now) facts.now a.nodes.items a.pairs.items) }
{
    let mut nodes = free_nodes(alloc, count, facts.len().saturating_add(PARTS_ROOM))?;
    let mut pairs = Vec::with_capacity(alloc, facts.len())?;
    for fact in facts {
        let second = nodes.len();
        nodes.push(fact.node)?;
        pairs.push(Pair {
            first: fact.variable,
            second,
        })?;
    }
    Ok(Start { nodes, pairs })
}
