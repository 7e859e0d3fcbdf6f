//! Parts of instances, expanded by one level in a table of nodes.

ghost use Rattle.std.specs.Prelude.{◌≡◌, ◌<◌, ◌≤◌, ◌+◌, ℕ, [], length, sum_by, OnOk, IfOk};
ghost use Rattle.nesl_unify_graph.specs.Graph.{node_at};
ghost use Rattle.nesl_unify_graph.specs.Instances.{IsPart};
ghost use Rattle.nesl_unify_graph.specs.Tables.{IsTable};
ghost use Rattle.nesl_unify_graph.specs.Steps.{IsGraph, IsPiece, IsPut, IsSpread, Moves, expandable, weight};

use crate::instances::Instances;
use crate::node::Node;
use nesl_types_shared::Shape;
use std::alloc::AllocError;

/// For how many places of a table parts are expanded. Typing is charged no work, so what takes more than that is
/// refused as out of memory.
const MOST_PLACES: usize = 1 << 21;

/// The place of a part of an instance's type: that of its variable, or a new one at the end of the table.
fn put_part(
    instances: &Instances,
    nodes: &mut Vec<Node>,
    instance: usize,
    part: usize,
) -> Result<usize, AllocError>
    requires { IsPiece instances.now instance part }
    ensures { IfOk result (λ place. IsPut instances.now nodes.old.items nodes.new.items instance part place) }
{
    if let Shape::Var(variable) = instances.parts(instance).shape(part) {
        return Ok(instances.place(instance, variable));
    }
    let place = nodes.len();
    nodes.push(Node::Part { instance, part })?;
    Ok(place)
}

/// What a part of an instance's type is made of, with places for its parts.
fn spread(
    instances: &Instances,
    nodes: &mut Vec<Node>,
    instance: usize,
    part: usize,
) -> Result<Node, AllocError>
    requires graph { IsGraph instances.now nodes.old.items }
    requires part { IsPart instances.now instance part }
    ensures { IfOk result (λ node. IsSpread instances.now nodes.old.items nodes.new.items instance part node) }
{
    Ok(match instances.parts(instance).shape(part) {
        Shape::Int => Node::Int,
        Shape::Bool => Node::Bool,
        Shape::Char => Node::Char,
        Shape::Var(variable) => Node::Same(instances.place(instance, variable)),
        Shape::Named(tag) => Node::Named(tag),
        Shape::SeqOf(item) => Node::SeqOf(put_part(instances, nodes, instance, item)?),
        Shape::Both(first, second) => {
            let left = put_part(instances, nodes, instance, first)?;
            let right = put_part(instances, nodes, instance, second)?;
            Node::Both(left, right)
        }
    })
}

/// Where a part of an instance is at a place, puts what it is made of there instead, with new places for its parts.
/// `AllocError` also where the table has `MOST_PLACES`.
pub fn expand(instances: &Instances, nodes: &mut Vec<Node>, place: usize) -> Result<(), AllocError>
    requires graph { IsGraph instances.now nodes.old.items }
    requires place { place < length nodes.old.items }
    ensures moves { OnOk result (Moves instances.now nodes.old.items [] nodes.new.items []) }
    ensures table { OnOk result ((count : ℕ) → IsTable instances.now count nodes.old.items
        → IsTable instances.now count nodes.new.items) }
    ensures kept { OnOk result ((p : ℕ) → p < length nodes.old.items → (p ≡ place → ⊥)
        → node_at nodes.new.items p ≡ node_at nodes.old.items p) }
    ensures fewer { OnOk result (sum_by (weight instances.now) nodes.new.items
        + expandable (node_at nodes.old.items place) ≤ sum_by (weight instances.now) nodes.old.items) }
{
    match nodes[place] {
        Node::Part { instance, part } => {
            if nodes.len() >= MOST_PLACES {
                return Err(AllocError);
            }
            let node = spread(instances, nodes, instance, part)?;
            nodes[place] = node;
            Ok(())
        }
        _ => Ok(()),
    }
}
