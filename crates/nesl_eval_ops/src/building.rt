//! Functions that make one operation each, or what it holds.
//!
//! None that holds an operation on the stack until it is boxed is inlined into those that recur over code.
ghost use Rattle.std.specs.Prelude.{◌≡◌, ◌∷◌, [], IfOk, IfSome, None, map, option_map};
ghost use Rattle.nesl_eval_code.specs.Block.{push, enter, make, call, bind, each, filtered};
ghost use Rattle.nesl_eval_code.specs.Block.{of_one, of_pair, called_by};
ghost use Rattle.nesl_eval_code.specs.Flat.{rest, deciding, forgetting, flat, room};
ghost use Rattle.nesl_eval_ops.specs.Copies.{IsLaidAs};
ghost use Rattle.nesl_eval_ops.specs.View.{block_of, block_in, body_block, sizes_of};
ghost use Rattle.nesl_eval_ops.specs.View.{leaf_is, two_is, many_is, callee_is};

use crate::copying::{copy_plain, is_plain};
use crate::ops::{Block, Body, Callee, Leaf, ManyNode, OneNode, Ops, Plain, Two, TwoNode};
use crate::places::Place;
use crate::sizes::{list_of, room};
use crate::spans::ShortSpan;
use nesl_builtins::Builtin;
use nesl_eval_code::Code;
use nesl_lex::token::Span;
use std::alloc::{AllocError, Global};

fn boxed(alloc: Global, ops: Ops) -> Result<Box<Block>, AllocError>
    ensures { IfOk result (λ b. b.value ≡ block_of ops) }
{
    let boxed = Box::new(alloc, Block::new(ops))?;
    Ok(boxed)
}

/// What comes after, or nothing more.
#[inline(never)]
pub(crate) fn rest(at: &Place<'_>, next: Option<Box<Block>>) -> Result<Box<Block>, AllocError>
    ensures { IfOk result (λ b. block_in b ≡ rest (option_map block_in next)) }
{
    match next {
        Some(next) => Ok(next),
        None => boxed(at.alloc, Ops::Finish),
    }
}

#[inline(always)]
pub(crate) fn push(at: &Place<'_>, leaf: Leaf, next: Box<Block>) -> Result<Box<Block>, AllocError>
    ensures { IfOk result (λ o. block_in o ≡ push at.now.height (leaf_is leaf) (block_in next)) }
{
    let push = Ops::Push {
        height: at.height,
        leaf,
        next,
    };
    boxed(at.alloc, push)
}

#[inline(never)]
pub(crate) fn enter(at: &Place<'_>, span: Span, next: Box<Block>) -> Result<Box<Block>, AllocError>
    ensures { IfOk result (λ o. block_in o ≡ enter at.now.height span (block_in next)) }
{
    let enter = Ops::Enter {
        height: at.height,
        span,
        next,
    };
    boxed(at.alloc, enter)
}

/// A function of a leaf.
#[inline(never)]
pub(crate) fn of_leaf(
    alloc: Global,
    node: OneNode,
    leaf: Leaf,
    next: Box<Block>,
) -> Result<Box<Block>, AllocError>
    ensures { IfOk result (λ o. block_in o
        ≡ make node.height node.span (of_one node.function) 0 (leaf_is leaf ∷ []) (block_in next)) }
{
    boxed(alloc, Ops::OfLeaf { node, leaf, next })
}

/// A function of the value on top.
#[inline(never)]
pub(crate) fn of_top(
    alloc: Global,
    node: OneNode,
    next: Box<Block>,
) -> Result<Box<Block>, AllocError>
    ensures { IfOk result (λ o. block_in o ≡ make node.height node.span (of_one node.function) 1 [] (block_in next)) }
{
    boxed(alloc, Ops::OfTop { node, next })
}

/// A node of two values, at the height of its parts.
#[inline(always)]
pub(crate) fn two_node(at: &Place<'_>, span: Span, two: Two) -> Result<TwoNode, AllocError>
    ensures { IfOk result (λ n. (n.height ≡ at.now.height) × (n.span ≡ span) × (two_is n.two ≡ two_is two)) }
{
    Ok(TwoNode {
        height: at.height,
        span: ShortSpan::new(span)?,
        two,
    })
}

/// A function of a pair that is written out with the span `within`, at the height of its parts.
#[inline(never)]
pub(crate) fn pair_node(
    at: &Place<'_>,
    span: Span,
    function: Builtin,
    within: Span,
) -> Result<TwoNode, AllocError>
    ensures { IfOk result (λ n. (n.height ≡ at.now.height) × (n.span ≡ span)
        × (two_is n.two ≡ of_pair within function)) }
{
    let within = ShortSpan::new(within)?;
    two_node(at, span, Two::OfPair(function, within))
}

/// A node of the two values on top.
#[inline(never)]
pub(crate) fn of_tops(
    alloc: Global,
    node: TwoNode,
    next: Box<Block>,
) -> Result<Box<Block>, AllocError>
    ensures { IfOk result (λ o. block_in o ≡ make node.height node.span (two_is node.two) 2 [] (block_in next)) }
{
    boxed(alloc, Ops::OfTops { node, next })
}

/// A node of the value on top and a leaf.
#[inline(always)]
pub(crate) fn of_top_and_leaf(
    alloc: Global,
    node: TwoNode,
    right: Leaf,
    next: Box<Block>,
) -> Result<Box<Block>, AllocError>
    ensures { IfOk result (λ o. block_in o
        ≡ make node.height node.span (two_is node.two) 1 (leaf_is right ∷ []) (block_in next)) }
{
    boxed(alloc, Ops::OfTopAndLeaf { node, right, next })
}

/// A node of two leaves.
#[inline(always)]
pub(crate) fn of_leaves(
    alloc: Global,
    node: TwoNode,
    left: Leaf,
    right: Leaf,
    next: Box<Block>,
) -> Result<Box<Block>, AllocError>
    ensures { IfOk result (λ o. block_in o
        ≡ make node.height node.span (two_is node.two) 0 (leaf_is left ∷ leaf_is right ∷ []) (block_in next)) }
{
    let made = Ops::OfLeaves {
        node,
        left,
        right,
        next,
    };
    boxed(alloc, made)
}

/// A node of `count` values on top and of leaves.
#[inline(never)]
pub(crate) fn of_many(
    alloc: Global,
    node: ManyNode,
    count: usize,
    leaves: Vec<Leaf>,
    next: Box<Block>,
) -> Result<Box<Block>, AllocError>
    ensures { IfOk result (λ o. block_in o
        ≡ make node.height node.span (many_is node.many) count (map leaf_is leaves.items) (block_in next)) }
{
    let made = Ops::OfMany {
        node,
        count,
        leaves,
        next,
    };
    boxed(alloc, made)
}

/// One of two blocks, and then what comes after.
#[inline(never)]
pub(crate) fn deciding(
    at: &Place<'_>,
    yes: Box<Block>,
    no: Box<Block>,
    next: Option<Box<Block>>,
) -> Result<Box<Block>, AllocError>
    ensures { IfOk result (λ o. block_in o ≡ deciding (block_in yes) (block_in no) (option_map block_in next)) }
{
    match next {
        Some(next) => boxed(at.alloc, Ops::Choose { yes, no, next }),
        None => boxed(at.alloc, Ops::Last { yes, no }),
    }
}

/// After a `let`: its names are forgotten, where anything comes after.
#[inline(never)]
pub(crate) fn forgetting(
    at: &Place<'_>,
    next: Option<Box<Block>>,
) -> Result<Option<Box<Block>>, AllocError>
    ensures { IfOk result (λ o. option_map block_in o
        ≡ forgetting (room (sizes_of at.now.sizes.now)) (option_map block_in next)) }
{
    let Some(next) = next else {
        return Ok(None);
    };
    let places = room(at.sizes)?;
    let forget = boxed(at.alloc, Ops::Forget { places, next })?;
    Ok(Some(forget))
}

#[inline(never)]
pub(crate) fn bound(at: &Place<'_>, next: Box<Block>) -> Result<Box<Block>, AllocError>
    ensures { IfOk result (λ o. block_in o ≡ bind (block_in next)) }
{
    boxed(at.alloc, Ops::Bind { next })
}

/// A name that is called and has no place yet.
#[inline(never)]
pub(crate) fn named(at: &Place<'_>, name: &[u8]) -> Result<Callee, AllocError>
    ensures { IfOk result (λ c. callee_is c ≡ called_by name.now) }
{
    let name = Vec::from_slice(at.alloc, name)?;
    Ok(Callee::Named(name))
}

/// The operation that calls.
#[inline(never)]
pub(crate) fn calling(
    at: &Place<'_>,
    span: Span,
    callee: Callee,
    next: Box<Block>,
) -> Result<Box<Block>, AllocError>
    ensures { IfOk result (λ o. block_in o ≡ call at.now.height span (callee_is callee) (block_in next)) }
{
    let call = Ops::Call {
        height: at.height,
        span,
        callee,
        next,
    };
    boxed(at.alloc, call)
}

/// The operation that takes a body to all places of `count` sequences.
#[inline(never)]
pub(crate) fn each_of(
    at: &Place<'_>,
    span: Span,
    count: usize,
    body: Box<Body>,
    next: Box<Block>,
) -> Result<Box<Block>, AllocError>
    ensures { IfOk result (λ o. block_in o ≡ each span count (body_block body.value) (block_in next)) }
{
    let each = Ops::Each {
        span,
        count,
        body,
        next,
    };
    boxed(at.alloc, each)
}

/// The operation that takes a body to the places of `count` sequences where a filter holds.
#[inline(never)]
pub(crate) fn filtered_of(
    at: &Place<'_>,
    span: Span,
    count: usize,
    body: Box<Body>,
    filter: Box<Body>,
    next: Box<Block>,
) -> Result<Box<Block>, AllocError>
    ensures { IfOk result (λ o. block_in o
        ≡ filtered span count (body_block body.value) (body_block filter.value) (block_in next)) }
{
    let each = Ops::Filtered {
        span,
        count,
        body,
        filter,
        next,
    };
    boxed(at.alloc, each)
}

/// The code that operations are laid from, and the sizes of the frames round it.
#[derive(Drop)]
struct Source {
    code: Code,
    sizes: Vec<usize>,
}

/// A copy of the code with the sizes of the frames round it, if it may have columns and these are few. Without memory
/// for a copy there is none: operations mean the same without.
fn source_of(at: &Place<'_>, code: &Code) -> Result<Option<Source>, AllocError>
    ensures { IfOk result (λ o. IfSome o (λ s. (s.sizes.items ≡ sizes_of at.now.sizes.now)
        × IsLaidAs s.code code.now)) }
{
    if !is_plain(code) {
        return Ok(None);
    }
    let Some(sizes) = list_of(at.alloc, at.sizes)? else {
        return Ok(None);
    };
    match copy_plain(at.alloc, code) {
        Ok(code) => Ok(Some(Source { code, sizes })),
        Err(_) => Ok(None),
    }
}

/// Operations with the code that they are laid from, if it may have columns and the frames round it are few.
#[inline(never)]
pub(crate) fn kept(at: &Place<'_>, ops: Box<Block>, code: &Code) -> Result<Box<Body>, AllocError>
    requires { block_in ops ≡ flat at.now.height (sizes_of at.now.sizes.now) code.now None }
    ensures { IfOk result (λ b. body_block b.value ≡ flat at.now.height (sizes_of at.now.sizes.now) code.now None) }
{
    match source_of(at, code)? {
        Some(source) => with_source(at, Box::into_inner(ops), source),
        None => without_source(at, Box::into_inner(ops)),
    }
}

/// A body of these operations, with the code that they are laid from.
#[inline(always)]
fn with_source(at: &Place<'_>, block: Block, source: Source) -> Result<Box<Body>, AllocError>
    requires { block ≡ flat at.now.height source.sizes.items source.code None }
    ensures { IfOk result (λ b. body_block b.value ≡ block) }
{
    let Source { code, sizes } = source;
    let plain = Plain {
        ops: block.into_ops(),
        height: at.height,
        sizes,
        code,
    };
    let boxed = Box::new(at.alloc, Body::Plain(plain))?;
    Ok(boxed)
}

/// A body of these operations alone.
#[inline(never)]
fn without_source(at: &Place<'_>, block: Block) -> Result<Box<Body>, AllocError>
    ensures { IfOk result (λ b. body_block b.value ≡ block) }
{
    let boxed = Box::new(at.alloc, Body::Any(block))?;
    Ok(boxed)
}
