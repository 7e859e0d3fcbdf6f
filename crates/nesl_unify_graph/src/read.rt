//! Types read out of a graph.

ghost use Rattle.std.specs.Prelude.{◌≡◌, ◌<◌, ◌≤◌, ◌++◌, ℕ, [], length, IfOk, IfSome, IfNone, OnOk};
ghost use Rattle.nesl_types_shared.specs.Term.{Term, nodes as nodes_of};
ghost use Rattle.nesl_types_shared.specs.Shapes.{IsShapeBelow};
ghost use Rattle.nesl_unify_graph.specs.Instances.{AreBelow};
ghost use Rattle.nesl_unify_graph.specs.Graph.{IsFlat};
ghost use Rattle.nesl_unify_graph.specs.Readings.{Reads};
ghost use Rattle.nesl_unify_graph.specs.Forms.{form_parts, IsTableOf, IsLarger};
ghost use Rattle.nesl_unify_graph.specs.Outlines.{form_shape, placed_shape, IsOutline, FitsOutline, IsOutlineOf};

use crate::form::{Form, Item, form_of};
use crate::instances::Instances;
use crate::node::Node;
use nesl_types_shared::{Bank, Shape, Ty};
use std::alloc::{AllocError, Global};

/// The most nodes of a type that is read.
const MOST: usize = 4096;

/// For how many nodes of a type room is taken at first.
const ROOM: usize = 16;

/// The shape of a form, whose parts are added to the items.
fn push_parts(items: &mut Vec<Item>, form: Form) -> Result<Shape, AllocError>
    ensures items { OnOk result (items.new.items ≡ items.old.items ++ form_parts form) }
    ensures shape { IfOk result (λ s. s ≡ form_shape (length items.old.items) form) }
{
    let next = items.len();
    match form {
        Form::Free(place) => Ok(Shape::Var(place as u64)),
        Form::Int => Ok(Shape::Int),
        Form::Bool => Ok(Shape::Bool),
        Form::Char => Ok(Shape::Char),
        Form::Named(tag) => Ok(Shape::Named(tag)),
        Form::SeqOf(item) => {
            items.push(item)?;
            Ok(Shape::SeqOf(next))
        }
        Form::Both(first, second) => {
            items.push(first)?;
            let after = items.len();
            items.push(second)?;
            Ok(Shape::Both(next, after))
        }
    }
}

/// The shapes of the nodes of the type at a place, each before those that it is made of, or `None` where they are more
/// than `MOST`. A part is known by its place among the shapes.
fn outline(
    alloc: Global,
    instances: &Instances,
    nodes: &[Node],
    place: usize,
) -> Result<Option<Vec<Shape>>, AllocError>
    requires made { AreBelow (length nodes.now) instances.now }
    requires table { IsTableOf instances.now nodes.now }
    requires flat { IsFlat nodes.now }
    requires place { place < length nodes.now }
    ensures some { IfOk result (λ r. IfSome r (λ shapes. IsOutlineOf instances.now nodes.now place shapes.items)) }
    ensures none { IfOk result (λ r. IfNone r (IsLarger instances.now nodes.now 4096 place)) }
{
    let mut items = Vec::with_capacity(alloc, ROOM)?;
    let mut shapes = Vec::with_capacity(alloc, ROOM)?;
    items.push(Item::At(place))?;
    let mut next = 0;
    while next < items.len() {
        if next == MOST {
            return Ok(None);
        }
        let item = items[next];
        let form = form_of(instances, nodes, item);
        let shape = push_parts(&mut items, form)?;
        shapes.push(shape)?;
        next += 1;
    }
    Ok(Some(shapes))
}

/// A shape of an outline, where `places` has the places in a bank of its parts.
fn placed(places: &[usize], shape: Shape) -> Shape
    requires { IsShapeBelow (length places.now) shape }
    ensures { result ≡ placed_shape places.now shape }
{
    match shape {
        Shape::SeqOf(item) => Shape::SeqOf(places[item]),
        Shape::Both(first, second) => Shape::Both(places[first], places[second]),
        _ => shape,
    }
}

/// The type of an outline.
fn outline_type(alloc: Global, shapes: &[Shape]) -> Result<Ty, AllocError>
    requires { IsOutline shapes.now }
    ensures { IfOk result (λ t. (g : ℕ → Term) × (FitsOutline g shapes.now × (t ≡ g 0))) }
{
    let mut bank = Bank::new(alloc);
    let mut places = vec![in alloc; 0usize; shapes.len()]?;
    let mut left = shapes.len();
    while left > 0 {
        left -= 1;
        let shape = shapes[left];
        let shape = placed(places.as_slice(), shape);
        let place = bank.put(shape)?;
        places[left] = place;
    }
    let first = places[0];
    Ty::read(alloc, &bank, first)
}

/// The type at a place of a graph, where it has at most 4,096 nodes. Some type otherwise.
pub fn read(
    alloc: Global,
    instances: &Instances,
    nodes: &[Node],
    place: usize,
) -> Result<Ty, AllocError>
    requires made { AreBelow (length nodes.now) instances.now }
    requires table { IsTableOf instances.now nodes.now }
    requires flat { IsFlat nodes.now }
    requires place { place < length nodes.now }
    ensures { IfOk result (λ t. (u : Term) → Reads instances.now nodes.now place u → nodes_of u ≤ 4096 → t ≡ u) }
{
    match outline(alloc, instances, nodes, place)? {
        Some(shapes) => outline_type(alloc, shapes.as_slice()),
        None => Ty::int(alloc),
    }
}
