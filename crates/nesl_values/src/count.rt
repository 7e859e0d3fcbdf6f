// How many nodes values have. Each value with parts knows its number.
ghost use Rattle.std.specs.Prelude.{◌≡◌, ◌+◌, ◌<◌, ◌≤◌, ◌^◌, SomeIff, MatchOption};
ghost use Rattle.nesl_values.specs.Tree.{size, sizes};
ghost use Rattle.nesl_values.specs.View.{tree_of, parts_tree, trees_view};

use crate::node::{Node, Parts};
use crate::value::Value;
use std::alloc::Allocator;

impl<A: Allocator> Value<A> {
    /// The number of nodes, in one step.
    pub fn nodes(&self) -> u64
        ensures { result ≡ size (tree_of self.now) }
    {
        match self {
            Value::Int(_) | Value::Bool(_) | Value::Char(_) => 1,
            Value::Shared(shared) => {
                let node: &Node<A> = shared;
                node.nodes
            }
        }
    }

    /// The number of nodes, where it is at most `limit`, in one step.
    pub fn nodes_up_to(&self, limit: u64) -> Option<u64>
        ensures { SomeIff result (size (tree_of self.now) ≤ limit) (size (tree_of self.now)) }
    {
        let nodes = self.nodes();
        if nodes <= limit { Some(nodes) } else { None }
    }
}

impl<A: Allocator> Node<A> {
    // The node of these parts, where its number of nodes fits.
    pub(crate) fn of(parts: Parts<A>) -> Option<Node<A>>
        ensures { SomeIff result (size (parts_tree parts) < 2 ^ 64) (parts_tree parts) }
    {
        let nodes = nodes_of_parts(&parts)?;
        Some(Node { nodes, parts })
    }
}

// The number of nodes of the value that has these parts, where it fits.
fn nodes_of_parts<A: Allocator>(parts: &Parts<A>) -> Option<u64>
    ensures { SomeIff result (size (parts_tree parts.now) < 2 ^ 64) (size (parts_tree parts.now)) }
{
    match parts {
        Parts::Pair(left, right) => left.nodes().checked_add(right.nodes())?.checked_add(1),
        Parts::Tagged(_, inner) => inner.nodes().checked_add(1),
        Parts::Seq(items) => nodes_of_all(items)?.checked_add(1),
        Parts::Ints(items) => Some(items.len() as u64 + 1),
        Parts::Bools(items) => Some(items.len() as u64 + 1),
        Parts::Chars(items) => Some(items.len() as u64 + 1),
    }
}

// The number of nodes of these values together, where it fits.
fn nodes_of_all<A: Allocator>(items: &[Value<A>]) -> Option<u64>
    ensures { SomeIff result (sizes (trees_view items.now) < 2 ^ 64) (sizes (trees_view items.now)) }
{
    let mut total: u64 = 0;
    for item in items {
        match total.checked_add(item.nodes()) {
            Some(sum) => total = sum,
            None => return None,
        }
    }
    Some(total)
}
