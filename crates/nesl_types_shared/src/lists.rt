//! The parts of types, in lists.

ghost use Rattle.std.specs.Prelude.{◌≡◌, ◌<◌, ◌≤◌, ◌↔◌, [], None, IsTrue, length, replicate, IfSome, IfOk, OnOk};
ghost use Rattle.nesl_types_shared.specs.Shapes.{IsShapeBelow};
ghost use Rattle.nesl_types_shared.specs.Term.{Term, seq_of};
ghost use Rattle.nesl_types_shared.specs.Types.{type_at, types, AreDistinct};
ghost use Rattle.nesl_types_shared.specs.Lists.{AreParts, IsCount, IsStep, moved_to, last_type};
ghost use Rattle.nesl_types_shared.specs.Moving.{IsListed};

use crate::bank::Bank;
use crate::parts::Parts;
use crate::shape::Shape;
use std::alloc::{AllocError, Global};

/// What comes next for a type whose parts are put into a list.
#[derive(Clone, Copy)]
enum Step {
    /// All but the type itself are there, and this is its shape.
    Push(Shape),
    /// The part at this place is to be put there before.
    Part(usize),
}

/// The place in the list to which a type was moved.
pub(crate) fn moved_to(places: &[Option<usize>], place: usize) -> Option<usize>
    ensures { result ≡ moved_to places.now place }
{
    match places.get(place) {
        Some(at) => *at,
        None => None,
    }
}

/// What comes next for a type of a shape.
fn next_step(places: &[Option<usize>], shape: Shape) -> Step
    ensures { IsStep places.now shape result }
{
    match shape {
        Shape::SeqOf(item) => match moved_to(places, item) {
            Some(at) => Step::Push(Shape::SeqOf(at)),
            None => Step::Part(item),
        },
        Shape::Both(first, second) => match (moved_to(places, first), moved_to(places, second)) {
            (Some(first), Some(second)) => Step::Push(Shape::Both(first, second)),
            (None, _) => Step::Part(first),
            (_, None) => Step::Part(second),
        },
        _ => Step::Push(shape),
    }
}

/// How many steps are taken for a type at most: one for each of its parts, and one for the type itself.
const MOST_STEPS: u64 = 3;

/// How deep a type is listed without a stack.
const DEPTH: u64 = 32;

/// For how many parts that are being moved room is taken at first.
const STACK_ROOM: usize = 8;

/// For at most how many parts of a type room is taken at first.
const PARTS_ROOM: u64 = 8;

/// For how many parts room is taken at first, for a type with this number of nodes.
pub(crate) fn first_room(count: Option<u64>) -> usize {
    match count {
        Some(count) => count.min(PARTS_ROOM) as usize,
        None => PARTS_ROOM as usize,
    }
}

/// Puts the shapes of the parts of the type at a place into a list, each after those that it is made of. In `places`
/// is room for the place in the list of each part, and the stack is lent.
fn push_listed(
    from: &Parts<'_>,
    place: usize,
    shapes: &mut Vec<Shape>,
    places: &mut [Option<usize>],
    stack: &mut Vec<usize>,
) -> Result<(), AllocError>
    requires place { place < length from.now }
    requires distinct { AreDistinct from.now }
    requires shapes { shapes.old.items ≡ [] }
    requires places { places.old ≡ replicate (length from.now) None }
    requires stack { stack.old.items ≡ [] }
    ensures { OnOk result (AreParts shapes.new.items (type_at from.now place)) }
{
    stack.push(place)?;
    while let Some(next) = stack.pop() {
        match next_step(places, from.shape(next)) {
            Step::Push(shape) => {
                places[next] = Some(shapes.len());
                shapes.push(shape)?;
            }
            Step::Part(part) => {
                stack.push(next)?;
                stack.push(part)?;
            }
        }
    }
    Ok(())
}

/// Among how many types the parts of one are listed without memory but for the list.
const FEW: usize = 32;

/// Puts the shapes of the type at a place and of its parts that aren't there yet into a list, each after those that
/// it is made of. In `places` is the place in the list of each part that is there. Whether it was no deeper than
/// `depth`.
fn list_within(
    from: &Parts<'_>,
    place: usize,
    shapes: &mut Vec<Shape>,
    places: &mut [Option<usize>],
    depth: u64,
) -> Result<bool, AllocError>
    requires place { place < length from.now }
    requires distinct { AreDistinct from.now }
    requires places { length places.old ≡ length from.now }
    ensures places { OnOk result (length places.new ≡ length from.now) }
    ensures listed { IfOk result (λ done. IsTrue done
        → IsListed from.now shapes.old.items places.old shapes.new.items places.new place) }
{
    let less = match depth.checked_sub(1) {
        Some(less) => less,
        None => return Ok(false),
    };
    let shape = from.shape(place);
    for _ in 0..MOST_STEPS {
        match next_step(places, shape) {
            Step::Push(shape) => {
                places[place] = Some(shapes.len());
                shapes.push(shape)?;
                return Ok(true);
            }
            Step::Part(part) => {
                if !list_within(from, part, shapes, places, less)? {
                    return Ok(false);
                }
            }
        }
    }
    Ok(false)
}

/// The shapes of the parts of the type at a place of few types, as `list_parts` gives them, or `None` where it is too
/// deep.
fn list_of_few(
    alloc: Global,
    from: &Parts<'_>,
    place: usize,
    room: usize,
) -> Result<Option<Vec<Shape>>, AllocError>
    requires place { place < length from.now }
    requires few { length from.now ≤ 32 }
    ensures { IfOk result (λ o. IfSome o (λ shapes. AreParts shapes.items (type_at from.now place))) }
{
    let count = from.len();
    let mut shapes = Vec::with_capacity(alloc, room)?;
    let mut places: [Option<usize>; FEW] = [None; FEW];
    if list_within(from, place, &mut shapes, &mut places[..count], DEPTH)? {
        return Ok(Some(shapes));
    }
    Ok(None)
}

/// The shapes of the parts of the type at a place, each after those that it is made of, and its own last. Equal types
/// have equal lists. Room is taken for `room` at first.
pub(crate) fn list_parts(
    alloc: Global,
    from: &Parts<'_>,
    place: usize,
    room: usize,
) -> Result<Vec<Shape>, AllocError>
    requires { place < length from.now }
    ensures { IfOk result (λ shapes. AreParts shapes.items (type_at from.now place)) }
{
    let count = from.len();
    if count <= FEW {
        if let Some(shapes) = list_of_few(alloc, from, place, room)? {
            return Ok(shapes);
        }
    }
    let mut shapes = Vec::with_capacity(alloc, room)?;
    let mut places: Vec<Option<usize>> = vec![in alloc; None; count]?;
    let mut stack = Vec::with_capacity(alloc, STACK_ROOM)?;
    push_listed(from, place, &mut shapes, places.as_mut_slice(), &mut stack)?;
    Ok(shapes)
}

/// The shapes of the parts of the sequences of a type, whose own are given.
pub(crate) fn list_of_seq(alloc: Global, item: &[Shape]) -> Result<Vec<Shape>, AllocError>
    requires { AreParts item.now (last_type (types item.now)) }
    ensures { IfOk result (λ shapes. AreParts shapes.items (seq_of (last_type (types item.now)))) }
{
    let mut shapes = Vec::with_capacity(alloc, item.len() + 1)?;
    shapes.extend_from_slice(item)?;
    shapes.push(Shape::SeqOf(item.len() - 1))?;
    Ok(shapes)
}

/// How many nodes the sequences of a type have, from how many the type has.
pub(crate) fn one_more(count: Option<u64>) -> Option<u64>
    ensures { (t : Term) → IsCount count t → IsCount result (seq_of t) }
{
    match count {
        Some(count) => count.checked_add(1),
        None => None,
    }
}

/// How many nodes the type at a place has, or `None` where they are more than `u64::MAX`.
pub(crate) fn count(bank: &Bank, place: usize) -> Option<u64>
    requires { place < length bank.now }
    ensures { IsCount result (type_at bank.now place) }
{
    match bank.shape(place) {
        Shape::SeqOf(item) => bank.nodes(item).checked_add(1),
        Shape::Both(first, second) => {
            let parts = bank.nodes(first).checked_add(bank.nodes(second))?;
            parts.checked_add(1)
        }
        _ => Some(1),
    }
}

/// Whether both lists are the same.
pub(crate) fn are_same(first: &[Shape], second: &[Shape]) -> bool
    ensures { IsTrue result ↔ (first.now ≡ second.now) }
{
    first == second
}

/// A number with another one mixed into it.
fn mixed(number: u64, word: u64) -> u64 {
    let next = (number ^ word).wrapping_mul(0x9e37_79b9_7f4a_7c15);
    next ^ (next >> 29)
}

/// A number with a shape mixed into it.
fn mixed_shape(number: u64, shape: Shape) -> u64 {
    match shape {
        Shape::Int => mixed(number, 1),
        Shape::Bool => mixed(number, 2),
        Shape::Char => mixed(number, 3),
        Shape::Var(variable) => mixed(mixed(number, 4), variable),
        Shape::Named(tag) => mixed(mixed(number, 5), tag),
        Shape::SeqOf(item) => mixed(mixed(number, 6), item as u64),
        Shape::Both(first, second) => mixed(mixed(mixed(number, 7), first as u64), second as u64),
    }
}

/// A number made of shapes.
pub(crate) fn number_of(shapes: &[Shape]) -> u64 {
    let mut number = 0;
    for shape in shapes {
        number = mixed_shape(number, *shape);
    }
    number
}
