//! Links of a table of nodes.

ghost use Rattle.std.specs.Prelude.{◌≡◌, ◌<◌, ◌↔◌, ℕ, length, slice_set, sum_by};
ghost use Rattle.nesl_types_shared.specs.Term.{Term};
ghost use Rattle.nesl_unify_graph.specs.declared.instances.Instances.{Instances};
ghost use Rattle.nesl_unify_graph.specs.Graph.{IsRoot, IsFlat, Fits, node_at, target};
ghost use Rattle.nesl_unify_graph.specs.Tables.{IsTable};
ghost use Rattle.nesl_unify_graph.specs.Steps.{LeadDown, shortened, weight};

use crate::node::Node;

/// What is said of a place: nothing past the end.
pub fn node_at(nodes: &[Node], place: usize) -> Node
    ensures { result ≡ node_at nodes.now place }
{
    match nodes.get(place) {
        Some(node) => *node,
        None => Node::Free,
    }
}

/// The place that a place is linked to, or the place itself where it has no link.
pub fn target(nodes: &[Node], place: usize) -> usize
    ensures { result ≡ target nodes.now place }
{
    match node_at(nodes, place) {
        Node::Same(up) => up,
        _ => place,
    }
}

/// Links a place to where its link's place is linked to.
fn shorten(nodes: &mut [Node], place: usize)
    requires links { LeadDown nodes.old }
    requires place { place < length nodes.old }
    ensures { nodes.new ≡ slice_set nodes.old place (shortened nodes.old (node_at nodes.old place)) }
{
    if let Node::Same(up) = nodes[place] {
        nodes[place] = Node::Same(target(nodes, up));
    }
}

/// The place without a link where the links from a place end. The links on the way are made shorter.
pub fn find(nodes: &mut [Node], place: usize) -> usize
    requires links { LeadDown nodes.old }
    requires place { place < length nodes.old }
    ensures root { IsRoot (node_at nodes.new result) }
    ensures within { result < length nodes.new }
    ensures links { LeadDown nodes.new }
    ensures same { (i : Instances) → (w : ℕ → Term) → Fits i w nodes.new ↔ Fits i w nodes.old }
    ensures equal { (i : Instances) → (w : ℕ → Term) → Fits i w nodes.new → w place ≡ w result }
    ensures table { (i : Instances) → (count : ℕ) → IsTable i count nodes.old → IsTable i count nodes.new }
    ensures kept { (p : ℕ) → IsRoot (node_at nodes.old p) → node_at nodes.new p ≡ node_at nodes.old p }
    ensures weight { (i : Instances) → sum_by (weight i) nodes.new ≡ sum_by (weight i) nodes.old }
{
    let mut root = place;
    'links: while let Node::Same(_) = nodes[root] {
        shorten(nodes, root);
        root = target(nodes, root);
    }
    root
}

/// Links each place that has a link to a place that has none.
pub fn flatten(nodes: &mut [Node])
    requires { LeadDown nodes.old }
    ensures flat { IsFlat nodes.new }
    ensures same { (i : Instances) → (w : ℕ → Term) → Fits i w nodes.new ↔ Fits i w nodes.old }
    ensures table { (i : Instances) → (count : ℕ) → IsTable i count nodes.old → IsTable i count nodes.new }
{
    for place in 0..nodes.len() {
        shorten(nodes, place);
    }
}
