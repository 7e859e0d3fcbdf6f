// How many nodes there are, within a limit.
ghost use Rattle.std.specs.Prelude.{◌≡◌, ◌≤◌, ◌<◌, ◌+◌, ◌-◌, ◌++◌, length, map, true, SomeIff};
ghost use Rattle.nesl_values.specs.Tree.{ValueTree, boolean, size, sizes, sequence, trees_of};
ghost use Rattle.nesl_values.specs.View.{tree_of, trees_view, element_tree, item_trees};
ghost use Rattle.nesl_seqs_base.specs.Pieces.{sequence_of_two};
ghost use Rattle.nesl_seqs_base.specs.Prices.{price};

use crate::price::Price;
use nesl_values::{Element, Items, Value};
use std::alloc::Allocator;

/// The nodes of a value, in one step.
pub fn value_nodes<A: Allocator>(value: &Value<A>, limit: u128) -> Option<u128>
    ensures { SomeIff result (size (tree_of value.now) ≤ limit) (size (tree_of value.now)) }
{
    let nodes = value.nodes() as u128;
    if nodes <= limit { Some(nodes) } else { None }
}

fn nodes_of_all<A: Allocator>(values: &[Value<A>], limit: u128) -> Option<u128>
    ensures { SomeIff result (sizes (trees_view values.now) ≤ limit) (sizes (trees_view values.now)) }
{
    let mut used = 0;
    for value in values {
        used += value_nodes(value, limit - used)?;
    }
    Some(used)
}

/// The nodes of `count` leaves.
pub fn leaves(count: usize, limit: u128) -> Option<u128>
    ensures { SomeIff result (count ≤ limit) count }
{
    let count = count as u128;
    if count <= limit { Some(count) } else { None }
}

/// The nodes of all items.
pub fn item_nodes<A: Allocator>(items: Items<'_, A>, limit: u128) -> Option<u128>
    ensures { SomeIff result
        (sizes (trees_of (item_trees items.entry)) ≤ limit)
        (sizes (trees_of (item_trees items.entry))) }
{
    match items {
        Items::Ints(ints) => leaves(ints.len(), limit),
        Items::Bools(bools) => leaves(bools.len(), limit),
        Items::Chars(chars) => leaves(chars.len(), limit),
        Items::Values(values) => nodes_of_all(values, limit),
    }
}

/// The nodes of the items of both.
pub fn nodes_of_both<A: Allocator>(
    one: Items<'_, A>,
    other: Items<'_, A>,
    limit: u128,
) -> Option<u128>
    ensures { SomeIff result
        (sizes (trees_of (item_trees one.entry)) + sizes (trees_of (item_trees other.entry)) ≤ limit)
        (sizes (trees_of (item_trees one.entry)) + sizes (trees_of (item_trees other.entry))) }
{
    let first = item_nodes(one, limit)?;
    let second = item_nodes(other, limit - first)?;
    Some(first + second)
}

/// The price of the sequence of these items, where it was made from `read` elements.
pub fn price_of_items<A: Allocator>(items: Items<'_, A>, read: u128, limit: u128) -> Option<Price>
    ensures { SomeIff result
        (1 + read + (size (sequence (item_trees items.entry)) - 1) ≤ limit)
        (price read 1 (sequence (item_trees items.entry))) }
{
    if limit <= read {
        return None;
    }
    let below = item_nodes(items, limit - 1 - read)?;
    Some(Price {
        work: 1 + read + below,
        depth: 1,
        nodes: 1 + below,
    })
}

/// The price of one element that is looked up.
pub fn price_of_element<A: Allocator>(element: Element<'_, A>, limit: u128) -> Option<Price>
    ensures { SomeIff result
        (1 + 0 + (size (element_tree element.entry) - 1) ≤ limit)
        (price 0 1 (element_tree element.entry)) }
{
    let nodes = match element {
        Element::Int(_) | Element::Bool(_) | Element::Char(_) => leaves(1, limit)?,
        Element::Node(value) => value_nodes(value, limit)?,
    };
    Some(Price {
        work: nodes,
        depth: 1,
        nodes,
    })
}

/// The price of a leaf that was made from `read` elements.
pub fn price_of_leaf(read: usize, depth: u64, limit: u128) -> Option<Price>
    ensures { SomeIff result
        (1 + read + (size (boolean true) - 1) ≤ limit) (price read depth (boolean true)) }
{
    let read = read as u128;
    if limit <= read {
        return None;
    }
    Some(Price {
        work: 1 + read,
        depth,
        nodes: 1,
    })
}

/// The price of the sequence of the items of the one and then of the other.
#[tactic(auto, using(crate::proofs::Totals::sizes_append))]
pub fn price_of_joined<A: Allocator>(
    one: Items<'_, A>,
    other: Items<'_, A>,
    read: u128,
    limit: u128,
) -> Option<Price>
    ensures { SomeIff result
        (1 + read + (size (sequence (item_trees one.entry ++ item_trees other.entry)) - 1) ≤ limit)
        (price read 1 (sequence (item_trees one.entry ++ item_trees other.entry))) }
{
    if limit <= read {
        return None;
    }
    let below = nodes_of_both(one, other, limit - 1 - read)?;
    Some(Price {
        work: 1 + read + below,
        depth: 1,
        nodes: 1 + below,
    })
}

/// The price of the sequence of two sequences, of the items of the one and of the other.
pub fn price_of_two<A: Allocator>(
    one: Items<'_, A>,
    other: Items<'_, A>,
    read: u128,
    limit: u128,
) -> Option<Price>
    ensures { SomeIff result
        (1 + read + (size (sequence_of_two (item_trees one.entry) (item_trees other.entry)) - 1) ≤ limit)
        (price read 1 (sequence_of_two (item_trees one.entry) (item_trees other.entry))) }
{
    if limit <= read || limit - read < 3 {
        return None;
    }
    let below = nodes_of_both(one, other, limit - 3 - read)?;
    Some(Price {
        work: 3 + read + below,
        depth: 1,
        nodes: 3 + below,
    })
}

/// The price of a tree that was made from these values, and has all their nodes but the roots, and `more`.
#[tactic(auto, using(crate::proofs::Sizes::length_le))]
pub fn price_without_roots<A: Allocator>(
    values: &[Value<A>],
    more: u128,
    limit: u128,
) -> Option<Price>
    requires { 1 ≤ more }
    ensures { (t : ValueTree)
        → size t + length values.now ≡ more + sizes (trees_of (map tree_of values.now))
        → SomeIff result
        (1 + length values.now + (size t - 1) ≤ limit) (price (length values.now) 1 t) }
{
    if limit < more {
        return None;
    }
    let total = item_nodes(Items::Values(values), limit - more)?;
    Some(Price {
        work: more + total,
        depth: 1,
        nodes: more + (total - values.len() as u128),
    })
}

/// The price of a tree that was made from `read` elements, and has the nodes of these items and `more`.
pub fn price_of_more<A: Allocator>(
    items: Items<'_, A>,
    more: u128,
    read: u128,
    limit: u128,
) -> Option<Price>
    requires { 1 ≤ more }
    ensures { (t : ValueTree) → size t ≡ more + sizes (trees_of (item_trees items.entry))
        → SomeIff result (1 + read + (size t - 1) ≤ limit) (price read 1 t) }
{
    if limit < read || limit - read < more {
        return None;
    }
    let below = item_nodes(items, limit - read - more)?;
    Some(Price {
        work: read + more + below,
        depth: 1,
        nodes: more + below,
    })
}
