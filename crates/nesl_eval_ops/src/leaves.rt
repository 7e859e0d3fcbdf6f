//! Code that has no parts.
ghost use Rattle.std.specs.Prelude.{◌≡◌, ◌∷◌, ◌≤◌, [], false, IfOk, Some, map, option_map, length};
ghost use Rattle.nesl_eval_code.specs.Block.{local};
ghost use Rattle.nesl_eval_code.specs.Flat as laying;
ghost use Rattle.nesl_eval_code.specs.Flat.{local_what, leaf_of, leaves_of, place_of};
ghost use Rattle.nesl_eval_ops.specs.View.{what_is, leaf_is, sizes_of};
ghost use Rattle.nesl_eval_ops.specs.Lists.{parts_on, IsNoLeaf, EndsAt};

use crate::ops::{Leaf, Part, What};
use crate::places::Place;
use crate::sizes::place_of;
use crate::spans::ShortSpan;
use nesl_eval_code::{Code, Step};
use nesl_lex::token::Span;
use std::alloc::{AllocError, Global};

/// Whether code has no parts.
pub(crate) fn is_leaf(code: &Code) -> bool
    ensures { result ≡ false → IsNoLeaf code.now }
{
    match code {
        Code::Number { .. } => true,
        Code::Truth { .. } => true,
        Code::Character { .. } => true,
        Code::Text { .. } => true,
        Code::Local { .. } => true,
        Code::Top { .. } => true,
        Code::Named { .. } => true,
        Code::Empty { .. } => true,
        _ => false,
    }
}

/// A copy of steps. Most names have none.
#[inline(always)]
pub(crate) fn copied(alloc: Global, steps: &[Step]) -> Result<Vec<Step>, AllocError>
    ensures { IfOk result (λ v. v.items ≡ steps.now) }
{
    if steps.is_empty() {
        Ok(Vec::new(alloc))
    } else {
        Vec::from_slice(alloc, steps)
    }
}

/// What steps reach from the value at a place.
fn part(alloc: Global, place: usize, steps: &[Step]) -> Result<What, AllocError>
    ensures { IfOk result (λ w. what_is w ≡ local place steps.now) }
{
    match steps {
        [] => Ok(What::Local(place)),
        [Step::Left] => Ok(What::Left(place)),
        [Step::Right] => Ok(What::Right(place)),
        _ => {
            let steps = Vec::from_slice(alloc, steps)?;
            let part = Box::new(alloc, Part { place, steps })?;
            Ok(What::Part(part))
        }
    }
}

/// A copy of a text or a name, in a box.
fn boxed(alloc: Global, bytes: &[u8]) -> Result<Box<Vec<u8>>, AllocError>
    ensures { IfOk result (λ b. b.value.items ≡ bytes.now) }
{
    let copy = Vec::from_slice(alloc, bytes)?;
    let boxed = Box::new(alloc, copy)?;
    Ok(boxed)
}

/// A local name, by the place of its value.
fn local(at: &Place<'_>, up: usize, index: usize, steps: &[Step]) -> Result<What, AllocError>
    ensures { IfOk result (λ w. what_is w ≡ local_what (place_of (sizes_of at.now.sizes.now) up index) steps.now) }
{
    match place_of(at.sizes, up, index)? {
        Some(place) => part(at.alloc, place, steps),
        None => Ok(What::Missing),
    }
}

/// A leaf of this span.
#[inline(always)]
fn made(span: Span, what: What) -> Result<Option<Leaf>, AllocError>
    ensures { IfOk result (λ l. option_map leaf_is l ≡ Some (laying.leaf span (what_is what))) }
{
    let span = ShortSpan::new(span)?;
    Ok(Some(Leaf { span, what }))
}

/// The leaf that code is, if it is one.
#[inline(never)]
pub(crate) fn leaf(at: &Place<'_>, code: &Code) -> Result<Option<Leaf>, AllocError>
    ensures { IfOk result (λ l. option_map leaf_is l ≡ leaf_of (sizes_of at.now.sizes.now) code.now) }
{
    match code {
        Code::Number { span, value } => made(*span, What::Number(*value)),
        Code::Truth { span, value } => made(*span, What::Truth(*value)),
        Code::Character { span, value } => made(*span, What::Character(*value)),
        Code::Text { span, bytes } => made(*span, What::Text(boxed(at.alloc, bytes)?)),
        Code::Local {
            span,
            up,
            index,
            steps,
        } => made(*span, local(at, *up, *index, steps)?),
        Code::Top { span, place } => made(*span, What::Top(*place)),
        Code::Named { span, name } => made(*span, What::Named(boxed(at.alloc, name)?)),
        Code::Empty { span } => made(*span, What::Empty),
        _ => Ok(None),
    }
}

#[inline(never)]
pub(crate) fn leaf_alone(at: &Place<'_>, leaf: Leaf) -> Result<Vec<Leaf>, AllocError>
    ensures { IfOk result (λ ls. map leaf_is ls.items ≡ leaf_is leaf ∷ []) }
{
    let mut leaves = Vec::with_capacity(at.alloc, 1)?;
    leaves.push(leaf)?;
    Ok(leaves)
}

#[inline(never)]
pub(crate) fn two_leaves(at: &Place<'_>, first: Leaf, second: Leaf) -> Result<Vec<Leaf>, AllocError>
    ensures { IfOk result (λ ls. map leaf_is ls.items ≡ leaf_is first ∷ leaf_is second ∷ []) }
{
    let mut leaves = Vec::with_capacity(at.alloc, 2)?;
    leaves.push(first)?;
    leaves.push(second)?;
    Ok(leaves)
}

#[inline(never)]
pub(crate) fn three_leaves(
    at: &Place<'_>,
    first: Leaf,
    second: Leaf,
    third: Leaf,
) -> Result<Vec<Leaf>, AllocError>
    ensures { IfOk result (λ ls. map leaf_is ls.items ≡ leaf_is first ∷ leaf_is second ∷ leaf_is third ∷ []) }
{
    let mut leaves = Vec::with_capacity(at.alloc, 3)?;
    leaves.push(first)?;
    leaves.push(second)?;
    leaves.push(third)?;
    Ok(leaves)
}

/// How many codes there are up to the last one that has parts.
pub(crate) fn with_parts(codes: &[Code]) -> usize
    ensures ends { EndsAt codes.now result }
    ensures within { result ≤ length codes.now }
{
    let mut count = 0;
    for (index, code) in codes.iter().enumerate() {
        if !is_leaf(code) {
            count = index + 1;
        }
    }
    count
}

/// The leaves that codes are.
#[inline(never)]
pub(crate) fn leaves(at: &Place<'_>, codes: &[Code]) -> Result<Vec<Leaf>, AllocError>
    ensures { let h = at.now.height in let ks = sizes_of at.now.sizes.now in IfOk result (λ ls.
        leaves_of (parts_on h ks codes.now) ≡ Some (map leaf_is ls.items)) }
{
    let mut leaves = Vec::with_capacity(at.alloc, codes.len())?;
    for code in codes {
        match leaf(at, code)? {
            Some(leaf) => leaves.push(leaf)?,
            None => return Err(AllocError),
        }
    }
    Ok(leaves)
}
