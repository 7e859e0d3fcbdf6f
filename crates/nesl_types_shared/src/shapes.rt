//! The shapes of a bank's types, no two of them equal, and where each is.

ghost use Rattle.std.specs.Prelude.{◌≡◌, ◌<◌, ◌++◌, ◌∷◌, [], ℕ, length, IfSome, IfNone, IfOk, OnOk, OnErr};
ghost use Rattle.nesl_types_shared.specs.Shapes.{IsShapeBelow, shape_at};
ghost use Rattle.nesl_types_shared.specs.Types.{AreMade, StandOnce, IsPlaced, IsAbsent};

use crate::shape::Shape;
use indexmap::IndexSet;
use std::alloc::{AllocError, Global};

/// Among how many shapes one is looked for without an index.
const FEW: usize = 32;

/// A place before which the shape can't be: it comes after its parts.
fn first_place(shape: Shape) -> usize
    ensures { (p : ℕ) → p < result → IsShapeBelow p shape → ⊥ }
{
    match shape {
        Shape::SeqOf(item) => item,
        Shape::Both(first, second) => first.max(second),
        _ => 0,
    }
}

/// The place of a shape, where it is there.
#[inline]
pub(crate) fn place_in(shapes: &[Shape], shape: Shape) -> Option<usize>
    requires { AreMade shapes.now }
    ensures some { IfSome result (λ p. (p < length shapes.now) × (shape_at shapes.now p ≡ shape)) }
    ensures none { IfNone result (IsAbsent shapes.now shape) }
{
    for place in first_place(shape)..shapes.len() {
        if shapes[place] == shape {
            return Some(place);
        }
    }
    None
}

/// The place of a shape, which is added where it isn't there, and whether it was added.
#[inline(never)]
pub(crate) fn place_of(
    index: &mut IndexSet<Shape>,
    shape: Shape,
) -> Result<(usize, bool), AllocError>
    ensures ok { IfOk result (λ r. IsPlaced index.old.keys index.new.keys shape r.0 r.1) }
    ensures err { OnErr result (index.new.keys ≡ index.old.keys) }
{
    Ok(index.insert_full(shape)?)
}

/// Adds a shape that isn't there.
fn insert_absent(index: &mut IndexSet<Shape>, shape: Shape) -> Result<(), AllocError>
    requires { IsAbsent index.old.keys shape }
    ensures { OnOk result (index.new.keys ≡ index.old.keys ++ shape ∷ []) }
{
    index.insert(shape)?;
    Ok(())
}

/// The shapes with their places by their hashes.
fn index_of(alloc: Global, shapes: &[Shape]) -> Result<IndexSet<Shape>, AllocError>
    requires { StandOnce shapes.now }
    ensures { IfOk result (λ index. index.keys ≡ shapes.now) }
{
    let mut index = IndexSet::with_capacity(alloc, shapes.len() * 2)?;
    for place in 0..shapes.len() {
        insert_absent(&mut index, shapes[place])?;
    }
    Ok(index)
}

/// The shapes and one more, with their places by their hashes.
#[inline(never)]
fn index_of_more(
    alloc: Global,
    shapes: &[Shape],
    shape: Shape,
) -> Result<Box<IndexSet<Shape>>, AllocError>
    requires once { StandOnce shapes.now }
    requires absent { IsAbsent shapes.now shape }
    ensures { IfOk result (λ index. index.value.keys ≡ shapes.now ++ shape ∷ []) }
{
    let mut index = index_of(alloc, shapes)?;
    insert_absent(&mut index, shape)?;
    let index = Box::new(alloc, index)?;
    Ok(index)
}

/// The shapes and one more, with their places by their hashes, where they are many.
pub(crate) fn index_with(
    alloc: Global,
    shapes: &[Shape],
    shape: Shape,
) -> Result<Option<Box<IndexSet<Shape>>>, AllocError>
    requires once { StandOnce shapes.now }
    requires absent { IsAbsent shapes.now shape }
    ensures { IfOk result (λ o. IfSome o (λ index. index.value.keys ≡ shapes.now ++ shape ∷ [])) }
{
    if shapes.len() < FEW {
        return Ok(None);
    }
    let index = index_of_more(alloc, shapes, shape)?;
    Ok(Some(index))
}
