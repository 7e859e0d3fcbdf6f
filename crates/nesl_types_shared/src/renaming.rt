//! Types with types in place of their variables.

ghost use Rattle.std.specs.Prelude.{◌≡◌, ◌<◌, ◌≤◌, All, length, replicate, slice_index, IsTrue, IfOk, OnOk, false};
ghost use Rattle.nesl_types_shared.specs.Substitution.{substitute};
ghost use Rattle.nesl_types_shared.specs.Shapes.{IsShapeBelow};
ghost use Rattle.nesl_types_shared.specs.Visits.{parts, with_marks, AreReached};
ghost use Rattle.nesl_types_shared.specs.Types.{type_at, Extends, IsPut};
ghost use Rattle.nesl_types_shared.specs.Renames.{renamed, replacement, HaveVariablesOf, AreRenamed, IsWanted, Matches};

use crate::bank::Bank;
use crate::parts::Parts;
use crate::shape::Shape;
use std::alloc::{AllocError, Global};

/// Among how many types one is renamed without memory of its own.
const FEW: usize = 16;

/// The place in `to` of a type with others in place of its variables. Its shape is given, and for each of its parts
/// the place in `to`.
fn put_renamed(
    to: &mut Bank,
    shape: Shape,
    places: &[usize],
    of: &[usize],
) -> Result<usize, AllocError>
    requires below { IsShapeBelow (length places.now) shape }
    requires parts { All (λ q. slice_index places.now q < length to.old) (parts shape) }
    requires of { All (λ p. p < length to.old) of.now }
    ensures extends { Extends to.old to.new }
    ensures put { IfOk result
        (IsPut to.old to.new (renamed (replacement to.old of.now)
        (λ q. type_at to.old (slice_index places.now q)) shape)) }
{
    match shape {
        Shape::Var(variable) => match of.get(variable as usize) {
            Some(place) => Ok(*place),
            None => Ok(to.put(shape)?),
        },
        Shape::SeqOf(item) => Ok(to.put(Shape::SeqOf(places[item]))?),
        Shape::Both(first, second) => Ok(to.put(Shape::Both(places[first], places[second]))?),
        _ => Ok(to.put(shape)?),
    }
}

/// Marks the parts of a shape.
fn mark_parts(marks: &mut [bool], shape: Shape)
    requires { IsShapeBelow (length marks.old) shape }
    ensures { marks.new ≡ with_marks marks.old (parts shape) }
{
    match shape {
        Shape::SeqOf(item) => marks[item] = true,
        Shape::Both(first, second) => {
            marks[second] = true;
            marks[first] = true;
        }
        _ => {}
    }
}

/// Marks the places of a type and of all that it is made of.
fn mark_reached(marks: &mut [bool], from: &Parts<'_>, place: usize)
    requires place { place < length from.now }
    requires none { marks.old ≡ replicate (length from.now) false }
    ensures { AreReached from.now place marks.new }
{
    let mut next = from.len();
    marks[place] = true;
    while next > 0 {
        next -= 1;
        if marks[next] {
            mark_parts(marks, from.shape(next));
        }
    }
}

/// Puts the type at a place of `from` into `to`, with the type at place `of[v]` of `to` in place of each variable v,
/// and gives its place there. A variable past the end of `of` stays. Only what the type is made of is put into `to`.
pub fn rename_type(
    alloc: Global,
    from: &Bank,
    place: usize,
    to: &mut Bank,
    of: &[usize],
) -> Result<usize, AllocError>
    requires place { place < length from.now }
    requires places { All (λ p. p < length to.old) of.now }
    ensures extends { Extends to.old to.new }
    ensures within { IfOk result (λ p. p < length to.new) }
    ensures here { IfOk result (λ p. type_at to.new p
        ≡ substitute (replacement to.old of.now) (type_at from.now place)) }
{
    rename_part(alloc, &from.parts(), place, to, of)
}

/// Puts the type at a place of borrowed types into `to`, as `rename_type` does that of a bank, where what it is made of
/// is marked. In `places` is room for the place in `to` of each.
fn rename_marked(
    from: &Parts<'_>,
    place: usize,
    to: &mut Bank,
    of: &[usize],
    marks: &[bool],
    places: &mut [usize],
) -> Result<usize, AllocError>
    requires place { place < length from.now }
    requires places { All (λ p. p < length to.old) of.now }
    requires marks { AreReached from.now place marks.now }
    requires room { length places.old ≡ length from.now }
    ensures extends { Extends to.old to.new }
    ensures within { IfOk result (λ p. p < length to.new) }
    ensures here { IfOk result (λ p. type_at to.new p
        ≡ substitute (replacement to.old of.now) (type_at from.now place)) }
    ensures below { OnOk result
        (HaveVariablesOf to.old to.new (substitute (replacement to.old of.now) (type_at from.now place))) }
{
    for next in 0..from.len() {
        if !marks[next] {
            continue;
        }
        places[next] = put_renamed(to, from.shape(next), places, of)?;
    }
    Ok(places[place])
}

/// Puts the type at a place of few borrowed types into `to`. It takes no memory of its own.
fn rename_of_few(
    from: &Parts<'_>,
    place: usize,
    to: &mut Bank,
    of: &[usize],
) -> Result<usize, AllocError>
    requires place { place < length from.now }
    requires places { All (λ p. p < length to.old) of.now }
    requires few { length from.now ≤ 16 }
    ensures extends { Extends to.old to.new }
    ensures within { IfOk result (λ p. p < length to.new) }
    ensures here { IfOk result (λ p. type_at to.new p
        ≡ substitute (replacement to.old of.now) (type_at from.now place)) }
    ensures below { OnOk result
        (HaveVariablesOf to.old to.new (substitute (replacement to.old of.now) (type_at from.now place))) }
{
    let count = from.len();
    let mut marks = [false; FEW];
    let mut places = [0usize; FEW];
    mark_reached(&mut marks[..count], from, place);
    rename_marked(from, place, to, of, &marks[..count], &mut places[..count])
}

/// Puts the type at a place of borrowed types into `to`, as `rename_type` does that of a bank.
pub(crate) fn rename_part(
    alloc: Global,
    from: &Parts<'_>,
    place: usize,
    to: &mut Bank,
    of: &[usize],
) -> Result<usize, AllocError>
    requires place { place < length from.now }
    requires places { All (λ p. p < length to.old) of.now }
    ensures extends { Extends to.old to.new }
    ensures within { IfOk result (λ p. p < length to.new) }
    ensures here { IfOk result (λ p. type_at to.new p
        ≡ substitute (replacement to.old of.now) (type_at from.now place)) }
    ensures below { OnOk result
        (HaveVariablesOf to.old to.new (substitute (replacement to.old of.now) (type_at from.now place))) }
{
    let count = from.len();
    if count <= FEW {
        return rename_of_few(from, place, to, of);
    }
    let mut marks = vec![in alloc; false; count]?;
    let mut places = vec![in alloc; 0usize; count]?;
    mark_reached(marks.as_mut_slice(), from, place);
    rename_marked(from, place, to, of, marks.as_slice(), places.as_mut_slice())
}

/// Puts each type of `from` into `to`, with the type at place `of[v]` of `to` in place of each variable v, and gives
/// the place in `to` for each place of `from`. A variable past the end of `of` stays.
pub fn rename(
    alloc: Global,
    from: &Bank,
    to: &mut Bank,
    of: &[usize],
) -> Result<Vec<usize>, AllocError>
    requires places { All (λ p. p < length to.old) of.now }
    ensures extends { Extends to.old to.new }
    ensures renamed { IfOk result (λ places. AreRenamed (replacement to.old of.now) from.now to.new places.items) }
{
    let mut places = Vec::with_capacity(alloc, from.len())?;
    for place in 0..from.len() {
        let renamed = put_renamed(to, from.shape(place), &places, of)?;
        places.push(renamed)?;
    }
    Ok(places)
}

/// Notes that a part has to be at a place of the bank. Whether it was noted for no other place before.
fn want(wanted: &mut Vec<Option<usize>>, part: usize, place: usize) -> bool
    requires { part < length wanted.old.items }
    ensures { IsTrue result → IsWanted wanted.old.items wanted.new.items part place }
{
    let before = wanted[part];
    wanted[part] = Some(place);
    match before {
        Some(other) => other == place,
        None => true,
    }
}

/// Whether the type at a place of the bank has a shape, with the type at place `of[v]` of the bank in place of each
/// variable v, and notes at which places of the bank the shape's parts have to be then.
fn matches_shape(
    wanted: &mut Vec<Option<usize>>,
    shape: Shape,
    bank: &Bank,
    place: usize,
    of: &[usize],
) -> bool
    requires parts { IsShapeBelow (length wanted.old.items) shape }
    requires place { place < length bank.now }
    requires of { All (λ p. p < length bank.now) of.now }
    ensures { IsTrue result
        → Matches (replacement bank.now of.now) bank.now wanted.old.items wanted.new.items shape place }
{
    match shape {
        Shape::Var(variable) => {
            let given = of.get(variable as usize);
            match given {
                Some(given) => *given == place,
                None => bank.shape(place) == shape,
            }
        }
        Shape::SeqOf(item) => match bank.shape(place) {
            Shape::SeqOf(other) => want(wanted, item, other),
            _ => false,
        },
        Shape::Both(first, second) => match bank.shape(place) {
            Shape::Both(left, right) => {
                let is_right = want(wanted, second, right);
                is_right && want(wanted, first, left)
            }
            _ => false,
        },
        _ => bank.shape(place) == shape,
    }
}

/// Whether the type at a place of the bank is the one at place `part` of `from`, with the type at place `of[v]` of the
/// bank in place of each variable v. Looks at each part once, each before those that it is made of.
pub(crate) fn is_renamed_part(
    alloc: Global,
    from: &Parts<'_>,
    part: usize,
    bank: &Bank,
    place: usize,
    of: &[usize],
) -> Result<bool, AllocError>
    requires part { part < length from.now }
    requires of { All (λ p. p < length bank.now) of.now }
    ensures { IfOk result (λ holds. IsTrue holds
        → type_at bank.now place ≡ substitute (replacement bank.now of.now) (type_at from.now part)) }
{
    if place >= bank.len() {
        return Ok(false);
    }
    let mut next = from.len();
    let mut wanted: Vec<Option<usize>> = vec![in alloc; None; next]?;
    wanted[part] = Some(place);
    while next > 0 {
        next -= 1;
        if let Some(at) = wanted[next] {
            if !matches_shape(&mut wanted, from.shape(next), bank, at, of) {
                return Ok(false);
            }
        }
    }
    Ok(true)
}
