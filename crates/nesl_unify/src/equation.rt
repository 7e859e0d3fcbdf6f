//! Equations between two types, taken apart until one side of each is a variable.

ghost use Rattle.std.specs.Prelude.{◌≡◌, ℕ, [], All, IfNone, IfOk, IfSome, IsErrOf, OnOk};
ghost use Rattle.nesl_types_shared.specs.Term.{Term};
ghost use Rattle.nesl_unify.specs.Equations.{IsInner, part_node, AreEnds, IsAlike, AreAlike, Differ, IsSplit};
ghost use Rattle.nesl_unify.specs.Equations.{IsTakenApart, AreTakenApart, IsAdded, IsEqual, IsEquated};

use crate::fact::Fact;
use nesl_types::Ty;
use nesl_types_shared::{Parts, Shape};
use nesl_unify_graph::{Instance, Instances, Node, SolveFault, Source};
use std::alloc::{AllocError, Global};

/// Two types that have to be one.
#[derive(Drop)]
pub struct Equation {
    pub left: Ty,
    pub right: Ty,
}

/// A part of the left side and one of the right, by their places, which have to be one.
#[derive(Clone, Copy)]
pub struct Ends {
    pub left: usize,
    pub right: usize,
}

/// The types of both sides, and the instances that have them.
#[derive(Drop)]
struct Sides<'a> {
    left: Parts<'a>,
    right: Parts<'a>,
    first: usize,
    second: usize,
}

/// The variable that a shape is, if it is one.
fn variable_of(shape: Shape) -> Option<u64>
    ensures some { IfSome result (λ v. shape ≡ Shape.Var v) }
    ensures none { IfNone result (IsInner shape) }
{
    match shape {
        Shape::Var(variable) => Some(variable),
        _ => None,
    }
}

/// The node of a part of an instance's type.
fn part_node(instance: usize, part: usize, shape: Shape) -> Node
    ensures { result ≡ part_node instance part shape }
{
    match shape {
        Shape::Var(variable) => Node::Same(variable as usize),
        _ => Node::Part { instance, part },
    }
}

/// Adds what is left to be made equal where two shapes that are no variables are equal.
fn split(pending: &mut Vec<Ends>, left: Shape, right: Shape) -> Result<(), SolveFault>
    requires left { IsInner left }
    requires right { IsInner right }
    ensures split { OnOk result (IsSplit left right pending.old.items pending.new.items) }
    ensures none { IsErrOf result SolveFault.NoSolution → Differ left right }
{
    match (left, right) {
        (Shape::Int, Shape::Int) => Ok(()),
        (Shape::Bool, Shape::Bool) => Ok(()),
        (Shape::Char, Shape::Char) => Ok(()),
        (Shape::Named(tag), Shape::Named(other)) => {
            if tag == other {
                Ok(())
            } else {
                Err(SolveFault::NoSolution)
            }
        }
        (Shape::SeqOf(left), Shape::SeqOf(right)) => {
            pending.push(Ends { left, right })?;
            Ok(())
        }
        (Shape::Both(left, second), Shape::Both(right, other)) => {
            pending.push(Ends { left, right })?;
            pending.push(Ends {
                left: second,
                right: other,
            })?;
            Ok(())
        }
        _ => Err(SolveFault::NoSolution),
    }
}

/// Takes what is to be one at these ends apart: into a fact where one of them is a variable, else into their parts.
fn take_apart(
    facts: &mut Vec<Fact>,
    pending: &mut Vec<Ends>,
    sides: &Sides<'_>,
    ends: Ends,
) -> Result<(), SolveFault>
    requires pending { All (AreEnds sides.now) pending.old.items }
    requires ends { AreEnds sides.now ends }
    ensures taken { OnOk result
        (IsTakenApart sides.now facts.old.items facts.new.items pending.old.items ends pending.new.items) }
    ensures none { IsErrOf result SolveFault.NoSolution → (s : ℕ → Term) → IsAlike s sides.now ends → ⊥ }
{
    let left = sides.left.shape(ends.left);
    let right = sides.right.shape(ends.right);
    if let Some(variable) = variable_of(left) {
        let node = part_node(sides.second, ends.right, right);
        let variable = variable as usize;
        facts.push(Fact { variable, node })?;
        return Ok(());
    }
    if let Some(variable) = variable_of(right) {
        let node = part_node(sides.first, ends.left, left);
        let variable = variable as usize;
        facts.push(Fact { variable, node })?;
        return Ok(());
    }
    split(pending, left, right)
}

/// Takes two types apart.
fn take_all_apart(
    facts: &mut Vec<Fact>,
    mut pending: Vec<Ends>,
    sides: &Sides<'_>,
) -> Result<(), SolveFault>
    requires { All (AreEnds sides.now) pending.items }
    ensures all { OnOk result (AreTakenApart sides.now facts.old.items facts.new.items pending.items []) }
    ensures none { IsErrOf result SolveFault.NoSolution → (s : ℕ → Term) → AreAlike s sides.now pending.items → ⊥ }
{
    while let Some(ends) = pending.pop() {
        take_apart(facts, &mut pending, sides, ends)?;
    }
    Ok(())
}

/// Adds a type as an instance whose variables are those of the equations.
fn add_type(alloc: Global, instances: &mut Instances, ty: &Ty) -> Result<usize, AllocError>
    ensures { IfOk result (IsAdded instances.old instances.new ty.now) }
{
    let own = Source::Own(ty.duplicate(alloc)?);
    let instance = instances.made.len();
    instances.made.push(Instance {
        source: own,
        base: 0,
    })?;
    Ok(instance)
}

/// Adds the facts of an equation.
pub fn equate(
    alloc: Global,
    instances: &mut Instances,
    facts: &mut Vec<Fact>,
    equation: &Equation,
) -> Result<(), SolveFault>
    ensures equated { OnOk result
        (IsEquated instances.old instances.new facts.old.items facts.new.items equation.now) }
    ensures none { IsErrOf result SolveFault.NoSolution → (s : ℕ → Term) → IsEqual s equation.now → ⊥ }
{
    let first = add_type(alloc, instances, &equation.left)?;
    let second = add_type(alloc, instances, &equation.right)?;
    let left = equation.left.parts();
    let right = equation.right.parts();
    let mut pending = Vec::new(alloc);
    pending.push(Ends {
        left: left.len() - 1,
        right: right.len() - 1,
    })?;
    let sides = Sides {
        left,
        right,
        first,
        second,
    };
    take_all_apart(facts, pending, &sides)
}
