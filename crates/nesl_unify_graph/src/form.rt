//! Types of a graph, looked at one node at a time.

use crate::instances::Instances;
use crate::node::Node;
use crate::table::{node_at, target};
use nesl_types_shared::Shape;

/// A type that is still to be looked at.
#[derive(Clone, Copy)]
pub(crate) enum Item {
    /// It is the type at a place.
    At(usize),
    /// It is a part of an instance's type.
    Part { instance: usize, part: usize },
}

/// What a type is, but for what its parts are.
#[derive(Clone, Copy)]
pub(crate) enum Form {
    /// The variable of a place.
    Free(usize),
    Int,
    Bool,
    Char,
    Named(u64),
    SeqOf(Item),
    Both(Item, Item),
}

/// A type: the one at a place, or one whose form is known.
#[derive(Clone, Copy)]
pub(crate) enum Settled {
    At(usize),
    Made(Form),
}

ghost use Rattle.std.specs.Prelude.{◌≡◌, ◌<◌, ℕ, length};
ghost use Rattle.nesl_types_shared.specs.Term.{Term};
ghost use Rattle.nesl_types_shared.specs.Types.{type_at};
ghost use Rattle.nesl_unify_graph.specs.Instances.{IsPart, AreBelow, instance_type, parts_in};
ghost use Rattle.nesl_unify_graph.specs.Graph.{node_at, target, IsRoot, IsFlat};
ghost use Rattle.nesl_unify_graph.specs.Forms.{form_type, shape_form, HasPart, IsItem, AreItems, IsForm};
ghost use Rattle.nesl_unify_graph.specs.Forms.{IsFormAt, IsSettled, IsSettledBelow, IsTableOf};

/// The form of a part of an instance's type that has a shape other than a variable.
fn shape_form(instance: usize, shape: Shape) -> Form
    ensures { result ≡ shape_form instance shape }
{
    match shape {
        Shape::Int => Form::Int,
        Shape::Bool => Form::Bool,
        Shape::Char => Form::Char,
        Shape::Var(variable) => Form::Free(variable as usize),
        Shape::Named(tag) => Form::Named(tag),
        Shape::SeqOf(part) => Form::SeqOf(Item::Part { instance, part }),
        Shape::Both(first, second) => Form::Both(
            Item::Part {
                instance,
                part: first,
            },
            Item::Part {
                instance,
                part: second,
            },
        ),
    }
}

/// The form of a part of an instance's type, which is no variable.
fn whole_form(instances: &Instances, instance: usize, part: usize) -> Form
    requires { IsPart instances.now instance part }
    ensures form { (w : ℕ → Term)
        → instance_type instances.now w instance (type_at (parts_in instances.now instance) part)
        ≡ form_type instances.now w result }
    ensures within { (n : ℕ) → AreItems instances.now n result }
{
    let shape = instances.parts(instance).shape(part);
    shape_form(instance, shape)
}

/// The form of the type at a place without a link.
pub(crate) fn root_form(instances: &Instances, nodes: &[Node], place: usize) -> Form
    requires table { IsTableOf instances.now nodes.now }
    requires place { place < length nodes.now }
    requires root { IsRoot (node_at nodes.now place) }
    ensures form { IsFormAt instances.now nodes.now place result }
    ensures within { AreItems instances.now (length nodes.now) result }
{
    match node_at(nodes, place) {
        Node::Free | Node::Same(_) => Form::Free(place),
        Node::Int => Form::Int,
        Node::Bool => Form::Bool,
        Node::Char => Form::Char,
        Node::Named(tag) => Form::Named(tag),
        Node::SeqOf(item) => Form::SeqOf(Item::At(item)),
        Node::Both(first, second) => Form::Both(Item::At(first), Item::At(second)),
        Node::Part { instance, part } => whole_form(instances, instance, part),
    }
}

/// A part of an instance's type: the type at a place where it is a variable.
fn settle_part(instances: &Instances, instance: usize, part: usize) -> Settled
    requires { HasPart instances.now instance part }
    ensures same { IsSettled instances.now (Item.Part instance part) result }
    ensures within { (n : ℕ) → AreBelow n instances.now → IsSettledBelow instances.now n result }
{
    match instances.parts(instance).shape(part) {
        Shape::Var(variable) => Settled::At(instances.place(instance, variable)),
        shape => Settled::Made(shape_form(instance, shape)),
    }
}

/// The same type, as the one at a place where it is a variable of an instance's type.
pub(crate) fn settle(instances: &Instances, item: Item) -> Settled
    requires { (n : ℕ) × IsItem instances.now n item }
    ensures same { IsSettled instances.now item result }
    ensures within { (n : ℕ) → AreBelow n instances.now → IsItem instances.now n item
        → IsSettledBelow instances.now n result }
{
    match item {
        Item::At(place) => Settled::At(place),
        Item::Part { instance, part } => settle_part(instances, instance, part),
    }
}

/// The form of a type.
pub(crate) fn form_of(instances: &Instances, nodes: &[Node], item: Item) -> Form
    requires made { AreBelow (length nodes.now) instances.now }
    requires table { IsTableOf instances.now nodes.now }
    requires flat { IsFlat nodes.now }
    requires item { IsItem instances.now (length nodes.now) item }
    ensures form { IsForm instances.now nodes.now item result }
    ensures within { AreItems instances.now (length nodes.now) result }
{
    match settle(instances, item) {
        Settled::At(place) => root_form(instances, nodes, target(nodes, place)),
        Settled::Made(form) => form,
    }
}
