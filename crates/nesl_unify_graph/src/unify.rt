//! Places of a table made equal.

ghost use Rattle.std.specs.Prelude.{◌≡◌, ◌<◌, ◌≤◌, ◌+◌, ◌++◌, ℕ, [], ◌∷◌, All, length, sum_by};
ghost use Rattle.std.specs.Prelude.{IsErrOf, OnOk};
ghost use Rattle.nesl_types_shared.specs.Term.{Term};
ghost use Rattle.nesl_unify_graph.specs.Graph.{IsRoot, IsFlat, Fits, node_at};
ghost use Rattle.nesl_unify_graph.specs.Instances.{AreBelow};
ghost use Rattle.nesl_unify_graph.specs.Tables.{IsTable, IsPairBelow, AreEqual, Joins};
ghost use Rattle.nesl_unify_graph.specs.Steps.{IsFound, IsGraph, IsMeeting, LeadDown, Moves};
ghost use Rattle.nesl_unify_graph.specs.Steps.{expandable, joined, merged};
ghost use Rattle.nesl_unify_graph.specs.Steps.{pairs_of, weight};

use crate::expand::expand;
use crate::fault::SolveFault;
use crate::instances::Instances;
use crate::node::Node;
use crate::table::{find, flatten};
use crate::twins::{match_variables, twins_of};
use std::alloc::AllocError;

/// Two places whose types have to be one.
#[derive(Clone, Copy)]
pub struct Pair {
    pub first: usize,
    pub second: usize,
}

/// What is left to be made equal where two nodes are.
#[derive(Clone, Copy)]
enum Rest {
    Nothing,
    One(Pair),
    Two(Pair, Pair),
}

/// What two nodes are together.
#[derive(Clone, Copy)]
enum Meeting {
    /// One node, where the rest is made equal.
    Where(Rest),
    /// No type is both.
    Never,
    /// It isn't known before the parts of instances among them are expanded.
    Later,
}

/// The node that says the most of two nodes that are to be equal.
fn merged(first: Node, second: Node) -> Node
    ensures { result ≡ merged first second }
{
    match first {
        Node::Free => second,
        node => node,
    }
}

/// What two nodes without links are together.
fn compare(first: Node, second: Node) -> Meeting
    requires first { IsRoot first }
    requires second { IsRoot second }
    ensures { IsMeeting first second result }
{
    match (first, second) {
        (Node::Free, _) => Meeting::Where(Rest::Nothing),
        (_, Node::Free) => Meeting::Where(Rest::Nothing),
        (
            Node::Part { instance, part },
            Node::Part {
                instance: other,
                part: piece,
            },
        ) => {
            if instance == other && part == piece {
                Meeting::Where(Rest::Nothing)
            } else {
                Meeting::Later
            }
        }
        (Node::Part { .. }, _) => Meeting::Later,
        (_, Node::Part { .. }) => Meeting::Later,
        (Node::Int, Node::Int) => Meeting::Where(Rest::Nothing),
        (Node::Bool, Node::Bool) => Meeting::Where(Rest::Nothing),
        (Node::Char, Node::Char) => Meeting::Where(Rest::Nothing),
        (Node::Named(tag), Node::Named(other)) => {
            if tag == other {
                Meeting::Where(Rest::Nothing)
            } else {
                Meeting::Never
            }
        }
        (Node::SeqOf(first), Node::SeqOf(second)) => {
            Meeting::Where(Rest::One(Pair { first, second }))
        }
        (Node::Both(first, second), Node::Both(third, fourth)) => Meeting::Where(Rest::Two(
            Pair {
                first,
                second: third,
            },
            Pair {
                first: second,
                second: fourth,
            },
        )),
        _ => Meeting::Never,
    }
}

/// Adds what is left to be made equal.
fn add_rest(pending: &mut Vec<Pair>, rest: Rest) -> Result<(), AllocError>
    ensures { OnOk result (pending.new.items ≡ pending.old.items ++ pairs_of rest) }
{
    match rest {
        Rest::Nothing => {}
        Rest::One(pair) => pending.push(pair)?,
        Rest::Two(pair, other) => {
            pending.push(pair)?;
            pending.push(other)?;
        }
    }
    Ok(())
}

/// Puts what is known of two places at the first, and links the other to it.
fn link(nodes: &mut Vec<Node>, pair: Pair)
    requires { IsPairBelow (length nodes.old.items) pair }
    ensures { nodes.new.items ≡ joined nodes.old.items pair.first pair.second }
{
    nodes[pair.first] = merged(nodes[pair.first], nodes[pair.second]);
    nodes[pair.second] = Node::Same(pair.first);
}

/// Makes the types at two places without links one, at least one of which is a part of an instance. Two instances of
/// one whole type are one where their variables are. Else expands the parts, and leaves the pair for later.
fn meet_later(
    instances: &Instances,
    nodes: &mut Vec<Node>,
    pending: &mut Vec<Pair>,
    pair: Pair,
) -> Result<(), AllocError>
    requires graph { IsGraph instances.now nodes.old.items }
    requires pending { All (IsPairBelow (length nodes.old.items)) pending.old.items }
    requires order { pair.first < pair.second }
    requires within { pair.second < length nodes.old.items }
    requires root { IsRoot (node_at nodes.old.items pair.second) }
    requires some { 1 ≤ expandable (node_at nodes.old.items pair.first)
        + expandable (node_at nodes.old.items pair.second) }
    ensures moves { OnOk result (Moves instances.now nodes.old.items (pending.old.items ++ pair ∷ []) nodes.new.items
        pending.new.items) }
    ensures table { OnOk result ((count : ℕ) → IsTable instances.now count nodes.old.items
        → IsTable instances.now count nodes.new.items) }
    ensures pending { OnOk result (All (IsPairBelow (length nodes.new.items)) pending.new.items) }
    ensures fewer { OnOk result (sum_by (weight instances.now) nodes.new.items + length pending.new.items
        ≤ sum_by (weight instances.now) nodes.old.items + length pending.old.items) }
{
    if let Some(twins) = twins_of(instances, nodes[pair.first], nodes[pair.second]) {
        link(nodes, pair);
        match_variables(instances, twins, pending)?;
        return Ok(());
    }
    expand(instances, nodes, pair.first)?;
    expand(instances, nodes, pair.second)?;
    pending.push(pair)?;
    Ok(())
}

/// Makes the types at two places without links one, the first of which is the smaller: what is known goes there, and
/// the other is linked to it. Where parts of instances have to be expanded first, only does that.
fn meet(
    instances: &Instances,
    nodes: &mut Vec<Node>,
    pending: &mut Vec<Pair>,
    pair: Pair,
) -> Result<(), SolveFault>
    requires graph { IsGraph instances.now nodes.old.items }
    requires pending { All (IsPairBelow (length nodes.old.items)) pending.old.items }
    requires order { pair.first < pair.second }
    requires within { pair.second < length nodes.old.items }
    requires first { IsRoot (node_at nodes.old.items pair.first) }
    requires second { IsRoot (node_at nodes.old.items pair.second) }
    ensures moves { OnOk result (Moves instances.now nodes.old.items (pending.old.items ++ pair ∷ []) nodes.new.items
        pending.new.items) }
    ensures none { IsErrOf result SolveFault.NoSolution → (w : ℕ → Term) → Fits instances.now w nodes.old.items
        → w pair.first ≡ w pair.second → ⊥ }
    ensures table { OnOk result ((count : ℕ) → IsTable instances.now count nodes.old.items
        → IsTable instances.now count nodes.new.items) }
    ensures pending { OnOk result (All (IsPairBelow (length nodes.new.items)) pending.new.items) }
    ensures fewer { OnOk result (sum_by (weight instances.now) nodes.new.items + length pending.new.items
        ≤ sum_by (weight instances.now) nodes.old.items + length pending.old.items) }
{
    match compare(nodes[pair.first], nodes[pair.second]) {
        Meeting::Where(rest) => {
            link(nodes, pair);
            add_rest(pending, rest)?;
            Ok(())
        }
        Meeting::Never => Err(SolveFault::NoSolution),
        Meeting::Later => {
            meet_later(instances, nodes, pending, pair)?;
            Ok(())
        }
    }
}

/// The places without links where the links from two places end, the smaller first.
fn find_both(nodes: &mut [Node], pair: Pair) -> Pair
    requires links { LeadDown nodes.old }
    requires pair { IsPairBelow (length nodes.old) pair }
    ensures order { result.first ≤ result.second }
    ensures within { result.second < length nodes.new }
    ensures first { IsRoot (node_at nodes.new result.first) }
    ensures second { IsRoot (node_at nodes.new result.second) }
    ensures found { (i : Instances) → IsFound i nodes.old nodes.new pair result }
{
    let first = find(nodes, pair.first);
    let second = find(nodes, pair.second);
    if first <= second {
        Pair { first, second }
    } else {
        Pair {
            first: second,
            second: first,
        }
    }
}

/// The places without links where the links from two places of a growing table end, the smaller first.
fn find_ends(nodes: &mut Vec<Node>, pair: Pair) -> Pair
    requires links { LeadDown nodes.old.items }
    requires pair { IsPairBelow (length nodes.old.items) pair }
    ensures order { result.first ≤ result.second }
    ensures within { result.second < length nodes.new.items }
    ensures first { IsRoot (node_at nodes.new.items result.first) }
    ensures second { IsRoot (node_at nodes.new.items result.second) }
    ensures found { (i : Instances) → IsFound i nodes.old.items nodes.new.items pair result }
{
    find_both(nodes.as_mut_slice(), pair)
}

/// Makes the types at two places one.
fn equate(
    instances: &Instances,
    nodes: &mut Vec<Node>,
    pending: &mut Vec<Pair>,
    pair: Pair,
) -> Result<(), SolveFault>
    requires graph { IsGraph instances.now nodes.old.items }
    requires pending { All (IsPairBelow (length nodes.old.items)) pending.old.items }
    requires pair { IsPairBelow (length nodes.old.items) pair }
    ensures moves { OnOk result (Moves instances.now nodes.old.items (pending.old.items ++ pair ∷ []) nodes.new.items
        pending.new.items) }
    ensures none { IsErrOf result SolveFault.NoSolution → (w : ℕ → Term) → Fits instances.now w nodes.old.items
        → w pair.first ≡ w pair.second → ⊥ }
    ensures table { OnOk result ((count : ℕ) → IsTable instances.now count nodes.old.items
        → IsTable instances.now count nodes.new.items) }
    ensures pending { OnOk result (All (IsPairBelow (length nodes.new.items)) pending.new.items) }
    ensures fewer { OnOk result (sum_by (weight instances.now) nodes.new.items + length pending.new.items
        ≤ sum_by (weight instances.now) nodes.old.items + length pending.old.items) }
{
    let roots = find_ends(nodes, pair);
    if roots.first < roots.second {
        meet(instances, nodes, pending, roots)?;
    }
    Ok(())
}

/// Makes the types at the places of each pair one.
fn equate_all(
    instances: &Instances,
    nodes: &mut Vec<Node>,
    mut pending: Vec<Pair>,
) -> Result<(), SolveFault>
    requires graph { IsGraph instances.now nodes.old.items }
    requires pending { All (IsPairBelow (length nodes.old.items)) pending.items }
    ensures moves { OnOk result (Moves instances.now nodes.old.items pending.items nodes.new.items []) }
    ensures none { IsErrOf result SolveFault.NoSolution → (w : ℕ → Term) → Fits instances.now w nodes.old.items
        → AreEqual w pending.items → ⊥ }
    ensures table { OnOk result ((count : ℕ) → IsTable instances.now count nodes.old.items
        → IsTable instances.now count nodes.new.items) }
{
    'pairs: while let Some(pair) = pending.pop() {
        equate(instances, nodes, &mut pending, pair)?;
    }
    Ok(())
}

/// Makes the types at the places of each pair one, and nothing else, and links each place to the last of its links.
pub fn unify(
    instances: &Instances,
    count: usize,
    nodes: &mut Vec<Node>,
    pending: Vec<Pair>,
) -> Result<(), SolveFault>
    requires made { AreBelow count instances.now }
    requires count { count ≤ length nodes.old.items }
    requires table { IsTable instances.now count nodes.old.items }
    requires pending { All (IsPairBelow (length nodes.old.items)) pending.items }
    ensures joined { OnOk result (Joins instances.now nodes.old.items pending.items nodes.new.items) }
    ensures none { IsErrOf result SolveFault.NoSolution → (w : ℕ → Term) → Fits instances.now w nodes.old.items
        → AreEqual w pending.items → ⊥ }
    ensures table { OnOk result (IsTable instances.now count nodes.new.items) }
    ensures flat { OnOk result (IsFlat nodes.new.items) }
{
    equate_all(instances, nodes, pending)?;
    flatten(nodes.as_mut_slice());
    Ok(())
}
