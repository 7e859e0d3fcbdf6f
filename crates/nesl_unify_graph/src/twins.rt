//! Two instances of one whole type, which are one where their variables are.

ghost use Rattle.std.specs.Prelude.{◌≡◌, ◌<◌, ℕ, true, length, IfSome, OnOk};
ghost use Rattle.nesl_types_shared.specs.Term.{Term};
ghost use Rattle.nesl_types_shared.specs.Types.{type_at};
ghost use Rattle.nesl_types_shared.specs.Lists.{parts_of};
ghost use Rattle.nesl_unify_graph.specs.Instances.{parts_in};
ghost use Rattle.nesl_unify_graph.specs.Steps.{AreTwins, HaveWhole, IsMatched};

use crate::instances::{Instances, Source};
use crate::node::Node;
use crate::unify::Pair;
use nesl_types_shared::Shape;
use std::alloc::AllocError;

/// Two instances of one type, by their places.
#[derive(Clone, Copy)]
pub struct Twins {
    pub first: usize,
    pub second: usize,
}

/// Whether both instances keep the same type, of which the part is the whole.
fn are_twins(instances: &Instances, twins: Twins, part: usize) -> bool
    requires first { twins.first < length instances.now.made.items }
    requires second { twins.second < length instances.now.made.items }
    ensures { result ≡ true → (t : Term) × ((parts_in instances.now twins.first ≡ parts_of t)
        × ((parts_in instances.now twins.second ≡ parts_of t) × (type_at (parts_of t) part ≡ t))) }
{
    match (
        &instances.made[twins.first].source,
        &instances.made[twins.second].source,
    ) {
        (Source::Own(ty), Source::Own(other)) => {
            let parts = ty.parts();
            part == parts.len() - 1 && ty.same(other)
        }
        _ => false,
    }
}

/// The instances of two nodes, where they are of the same whole type.
pub fn twins_of(instances: &Instances, first: Node, second: Node) -> Option<Twins>
    requires first { (r : ℕ) → (k : ℕ) → first ≡ Node.Part r k → r < length instances.now.made.items }
    requires second { (r : ℕ) → (k : ℕ) → second ≡ Node.Part r k → r < length instances.now.made.items }
    ensures { IfSome result (AreTwins instances.now first second) }
{
    match (first, second) {
        (
            Node::Part { instance, part },
            Node::Part {
                instance: other,
                part: piece,
            },
        ) => {
            let twins = Twins {
                first: instance,
                second: other,
            };
            if part == piece && are_twins(instances, twins, part) {
                Some(twins)
            } else {
                None
            }
        }
        _ => None,
    }
}

/// Adds the pairs of the places of both instances' variables, which are those of this type.
fn match_places(
    instances: &Instances,
    twins: Twins,
    pending: &mut Vec<Pair>,
) -> Result<(), AllocError>
    requires first { twins.first < length instances.now.made.items }
    requires second { twins.second < length instances.now.made.items }
    requires whole { (t : Term) × HaveWhole instances.now twins t }
    ensures { OnOk result ((t : Term) → HaveWhole instances.now twins t
        → IsMatched instances.now twins t pending.old.items pending.new.items) }
{
    let parts = instances.parts(twins.first);
    for place in 0..parts.len() {
        if let Shape::Var(variable) = parts.shape(place) {
            pending.push(Pair {
                first: instances.place(twins.first, variable),
                second: instances.place(twins.second, variable),
            })?;
        }
    }
    Ok(())
}

/// Adds the pairs of the places of both instances' variables. A type without variables isn't gone through.
pub fn match_variables(
    instances: &Instances,
    twins: Twins,
    pending: &mut Vec<Pair>,
) -> Result<(), AllocError>
    requires first { twins.first < length instances.now.made.items }
    requires second { twins.second < length instances.now.made.items }
    requires whole { (t : Term) × HaveWhole instances.now twins t }
    ensures { OnOk result ((t : Term) → HaveWhole instances.now twins t
        → IsMatched instances.now twins t pending.old.items pending.new.items) }
{
    if !instances.has_places(twins.first) {
        return Ok(());
    }
    match_places(instances, twins, pending)
}
