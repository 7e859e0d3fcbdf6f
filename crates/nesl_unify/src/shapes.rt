//! The shapes of the types at the places of a graph.

ghost use Rattle.std.specs.Prelude.{◌≡◌, ◌<◌, ℕ, length};
ghost use Rattle.nesl_types_shared.specs.Term.{Term, variable};
ghost use Rattle.nesl_types_shared.specs.Shapes.{shape_type};
ghost use Rattle.nesl_unify_graph.specs.Graph.{node_at, node_type, target, IsRoot, IsFlat};
ghost use Rattle.nesl_unify_graph.specs.Forms.{IsTableOf};
ghost use Rattle.nesl_unify.specs.Solves.{inner_types, HasShape, IsReading};

use nesl_types_shared::Shape;
use nesl_unify_graph::{Instances, Node};

/// What is said of a place: nothing past the end.
fn node_at(nodes: &[Node], place: usize) -> Node
    ensures { result ≡ node_at nodes.now place }
{
    match nodes.get(place) {
        Some(node) => *node,
        None => Node::Free,
    }
}

/// The place to which a place is linked, or the place itself where it has no link.
fn target(nodes: &[Node], place: usize) -> usize
    ensures { result ≡ target nodes.now place }
{
    match node_at(nodes, place) {
        Node::Same(other) => other,
        _ => place,
    }
}

/// The shape of the type at a place without a link.
#[tactic(auto, using(crate::proofs::ShapeReadings::part_shape))]
fn root_shape(instances: &Instances, nodes: &[Node], place: usize) -> Shape
    requires table { IsTableOf instances.now nodes.now }
    requires place { place < length nodes.now }
    requires root { IsRoot (node_at nodes.now place) }
    ensures { (w : ℕ → Term) → node_type instances.now w (variable place) (node_at nodes.now place)
        ≡ shape_type (inner_types instances.now w (node_at nodes.now place)) result }
{
    match node_at(nodes, place) {
        Node::Free | Node::Same(_) => Shape::Var(place as u64),
        Node::Int => Shape::Int,
        Node::Bool => Shape::Bool,
        Node::Char => Shape::Char,
        Node::Named(tag) => Shape::Named(tag),
        Node::SeqOf(item) => Shape::SeqOf(item),
        Node::Both(first, second) => Shape::Both(first, second),
        Node::Part { instance, part } => instances.parts(instance).shape(part),
    }
}

/// The shape of the type at a place. It doesn't depend on what the parts are.
pub fn top_shape(instances: &Instances, nodes: &[Node], place: usize) -> Shape
    requires table { IsTableOf instances.now nodes.now }
    requires flat { IsFlat nodes.now }
    requires place { place < length nodes.now }
    ensures { (g : ℕ → Term) → IsReading instances.now nodes.now g → HasShape (g place) result }
{
    root_shape(instances, nodes, target(nodes, place))
}
