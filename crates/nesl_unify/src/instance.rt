//! Types with variables of their own, and the variables of a system that are put for these.

ghost use Rattle.std.specs.Prelude.{◌≡◌, ◌<◌, ◌++◌, ℕ, All, length, slice_index, IfNone, IfOk, IfSome, OnOk};
ghost use Rattle.nesl_types_shared.specs.Term.{Term, variable};
ghost use Rattle.nesl_types_shared.specs.Numbering.{IsBelow};
ghost use Rattle.nesl_types_shared.specs.Substitution.{substitute};
ghost use Rattle.nesl_unify_graph.specs.Graph.{node_type};
ghost use Rattle.nesl_unify.specs.Facts.{IsSaid, IsPutIn, IsInstanceNode};

use crate::room::push_with_room;
use nesl_types::{Kind, Part, Ty};
use nesl_unify_graph::{Instance, Instances, Node, Source};
use std::alloc::{AllocError, Global};

/// The node of an instance of a type without parts, if it has none. `fresh` gives each variable the one that stands for
/// it.
fn leaf_node(fresh: &[u64], part: &Part<'_>) -> Option<Node>
    requires { IsBelow (length fresh.now) part.now }
    ensures said { IfSome result (λ m. (i : Instances) → (n : ℕ) → All (λ v. v < n) fresh.now → IsSaid i n m) }
    ensures same { IfSome result (λ m. (i : Instances) → (s : ℕ → Term) → (u : Term)
        → node_type i s u m ≡ substitute (λ v. s (slice_index fresh.now v)) part.now) }
    ensures whole { IfNone result ((v : ℕ) → part.now ≡ variable v → ⊥) }
{
    match part.kind() {
        Kind::Int => Some(Node::Int),
        Kind::Bool => Some(Node::Bool),
        Kind::Char => Some(Node::Char),
        Kind::Var(variable) => Some(Node::Same(fresh[variable as usize] as usize)),
        Kind::Named(tag) => Some(Node::Named(tag)),
        Kind::SeqOf(_) => None,
        Kind::Both(_, _) => None,
    }
}

/// Adds the places of variables.
fn add_places(places: &mut Vec<usize>, fresh: &[u64]) -> Result<(), AllocError>
    ensures { OnOk result (places.new.items ≡ places.old.items ++ fresh.now) }
{
    for variable in fresh {
        push_with_room(places, *variable as usize)?;
    }
    Ok(())
}

/// Where the places of an instance's variables begin, if the next place is this one. One without variables begins past
/// all places, by which it is known.
fn first_place(next: usize, fresh: &[u64]) -> usize
    ensures { 0 < length fresh.now → result ≡ next }
{
    if fresh.is_empty() { usize::MAX } else { next }
}

/// Adds an instance whose variables are those of `fresh`, and gives its place.
fn add_instance(
    instances: &mut Instances,
    source: Source,
    fresh: &[u64],
) -> Result<usize, AllocError>
    ensures { IfOk result (IsPutIn instances.old instances.new source fresh.now) }
{
    let base = first_place(instances.fresh.len(), fresh);
    add_places(&mut instances.fresh, fresh)?;
    let instance = instances.made.len();
    instances.made.push(Instance { source, base })?;
    Ok(instance)
}

/// Puts a type with parts among those that the instances share. The node of an instance of it.
fn put_shared(
    alloc: Global,
    instances: &mut Instances,
    fresh: &[u64],
    part: &Part<'_>,
) -> Result<Node, AllocError>
    requires below { IsBelow (length fresh.now) part.now }
    requires whole { (v : ℕ) → part.now ≡ variable v → ⊥ }
    ensures { IfOk result (IsInstanceNode instances.old instances.new fresh.now part.now) }
{
    let place = part.put(alloc, &mut instances.shared, &[])?;
    let instance = add_instance(instances, Source::Shared, fresh)?;
    Ok(Node::Part {
        instance,
        part: place,
    })
}

/// The node of an instance of a type with parts, which the instance keeps.
fn put_own(
    alloc: Global,
    instances: &mut Instances,
    fresh: &[u64],
    ty: &Ty,
) -> Result<Node, AllocError>
    requires below { IsBelow (length fresh.now) ty.now }
    requires whole { (v : ℕ) → ty.now ≡ variable v → ⊥ }
    ensures { IfOk result (IsInstanceNode instances.old instances.new fresh.now ty.now) }
{
    let place = ty.parts().len() - 1;
    let own = Source::Own(ty.duplicate(alloc)?);
    let instance = add_instance(instances, own, fresh)?;
    Ok(Node::Part {
        instance,
        part: place,
    })
}

/// The node of an instance of a type. A type with parts is put among those that the instances share.
pub fn shared_node(
    alloc: Global,
    instances: &mut Instances,
    fresh: &[u64],
    part: &Part<'_>,
) -> Result<Node, AllocError>
    requires { IsBelow (length fresh.now) part.now }
    ensures { IfOk result (IsInstanceNode instances.old instances.new fresh.now part.now) }
{
    match leaf_node(fresh, part) {
        Some(node) => Ok(node),
        None => put_shared(alloc, instances, fresh, part),
    }
}

/// The node of an instance of a whole type. The instance keeps a type with parts.
pub fn own_node(
    alloc: Global,
    instances: &mut Instances,
    fresh: &[u64],
    ty: &Ty,
) -> Result<Node, AllocError>
    requires { IsBelow (length fresh.now) ty.now }
    ensures { IfOk result (IsInstanceNode instances.old instances.new fresh.now ty.now) }
{
    match leaf_node(fresh, &ty.whole()) {
        Some(node) => Ok(node),
        None => put_own(alloc, instances, fresh, ty),
    }
}
