//! Code laid out in the order of evaluation.
//!
//! It recurs as deep as the code is high. So that a level takes little of the stack, operations are passed in boxes, no
//! function that makes some is inlined into those that recur, and there is a function for each kind of node.
ghost use Rattle.std.specs.Prelude.{◌≡◌, ◌∷◌, [], IfOk, Some, None, suc, option_map, length};
ghost use Rattle.nesl_eval_code.specs.Block.{enter, call, called_by, each, filtered, listing, of_three};
ghost use Rattle.nesl_eval_code.specs.Flat.{making, pushing, rest, deciding, forgetting, flat, applying, block, room};
ghost use Rattle.nesl_eval_ops.specs.View.{two_is, many_is, callee_is, block_of, block_in, body_block, sizes_of};
ghost use Rattle.nesl_eval_ops.specs.Lists.{part_on, parts_on, binding_on};

use crate::building::{
    bound, calling, deciding, each_of, enter, filtered_of, forgetting, kept, named, of_leaf,
    of_leaves, of_many, of_top, of_top_and_leaf, of_tops, pair_node, push, rest, two_node,
};
use crate::leaves::{is_leaf, leaf, leaf_alone, leaves, three_leaves, two_leaves, with_parts};
use crate::ops::{Block, Body, Callee, Many, ManyNode, OneNode, Ops, Two, TwoNode};
use crate::places::{Place, top, within};
use nesl_builtins::Builtin;
use nesl_eval_code::Code;
use nesl_lex::token::Span;
use std::alloc::{AllocError, Global};

/// The operations of an expression of the top level, which sees no local name.
pub fn expression_ops(alloc: Global, code: &Code) -> Result<Ops, AllocError>
    ensures { IfOk result (λ o. block_of o ≡ block [] code.now) }
{
    let sizes = top();
    let at = Place {
        alloc,
        height: 0,
        sizes: &sizes,
    };
    let block = laid(&at, code, None)?;
    Ok(Box::into_inner(block).into_ops())
}

/// The operations of a function's body, which sees its argument alone.
pub fn body_ops(alloc: Global, code: &Code) -> Result<Ops, AllocError>
    ensures { IfOk result (λ o. block_of o ≡ block (1 ∷ []) code.now) }
{
    let outer = top();
    let sizes = within(1, &outer);
    let at = Place {
        alloc,
        height: 0,
        sizes: &sizes,
    };
    let block = laid(&at, code, None)?;
    Ok(Box::into_inner(block).into_ops())
}

/// The operations of code that has no parts, and then those that come after it.
#[inline(never)]
fn alone(at: &Place<'_>, code: &Code, next: Option<Box<Block>>) -> Result<Box<Block>, AllocError>
    ensures { IfOk result (λ o. block_in o
        ≡ flat at.now.height (sizes_of at.now.sizes.now) code.now (option_map block_in next)) }
{
    match leaf(at, code)? {
        Some(leaf) => push(at, leaf, rest(at, next)?),
        None => Err(AllocError),
    }
}

/// The operations of a node, and then those that come after it. It recurs as deep as the code is high.
#[cycle(laying)]
#[inline(never)]
fn laid(at: &Place<'_>, code: &Code, next: Option<Box<Block>>) -> Result<Box<Block>, AllocError>
    ensures { IfOk result (λ o. block_in o
        ≡ flat at.now.height (sizes_of at.now.sizes.now) code.now (option_map block_in next)) }
{
    match code {
        Code::Pair { .. } => laid_two(at, code, next),
        Code::Apply { .. } => laid_one(at, code, next),
        Code::ApplyTwo { .. } => laid_two(at, code, next),
        Code::ApplyThree { .. } => laid_three(at, code, next),
        Code::Call { .. } => laid_call(at, code, next),
        Code::CallNamed { .. } => laid_named(at, code, next),
        Code::Choice { .. } => laid_choice(at, code, next),
        Code::Sequence { .. } => laid_sequence(at, code, next),
        Code::Let { .. } => laid_let(at, code, next),
        Code::Each { .. } => laid_each(at, code, next),
        Code::FilteredEach { .. } => laid_filtered(at, code, next),
        _ => alone(at, code, next),
    }
}

/// A function of one value.
#[cycle(laying)]
#[inline(never)]
fn laid_one(at: &Place<'_>, code: &Code, next: Option<Box<Block>>) -> Result<Box<Block>, AllocError>
    ensures { IfOk result (λ o. block_in o
        ≡ flat at.now.height (sizes_of at.now.sizes.now) code.now (option_map block_in next)) }
{
    match code {
        Code::Apply {
            span,
            function,
            argument,
        } => enter_one(at, *span, *function, argument, next),
        _ => Err(AllocError),
    }
}

/// A pair, or a function of two parts.
#[cycle(laying)]
#[inline(never)]
fn laid_two(at: &Place<'_>, code: &Code, next: Option<Box<Block>>) -> Result<Box<Block>, AllocError>
    ensures { IfOk result (λ o. block_in o
        ≡ flat at.now.height (sizes_of at.now.sizes.now) code.now (option_map block_in next)) }
{
    match code {
        Code::Pair { span, left, right } => enter_two(at, *span, Two::Pair, left, right, next),
        Code::ApplyTwo {
            span,
            function,
            left,
            right,
        } => enter_two(at, *span, Two::Of(*function), left, right, next),
        _ => Err(AllocError),
    }
}

/// A function of three parts.
#[cycle(laying)]
#[inline(never)]
fn laid_three(
    at: &Place<'_>,
    code: &Code,
    next: Option<Box<Block>>,
) -> Result<Box<Block>, AllocError>
    ensures { IfOk result (λ o. block_in o
        ≡ flat at.now.height (sizes_of at.now.sizes.now) code.now (option_map block_in next)) }
{
    match code {
        Code::ApplyThree {
            span,
            function,
            first,
            second,
            third,
        } => {
            let node = node_of_three(at, *span, *function)?;
            enter_three(at, node, first, second, third, next)
        }
        _ => Err(AllocError),
    }
}

#[cycle(laying)]
#[inline(never)]
fn laid_call(
    at: &Place<'_>,
    code: &Code,
    next: Option<Box<Block>>,
) -> Result<Box<Block>, AllocError>
    ensures { IfOk result (λ o. block_in o
        ≡ flat at.now.height (sizes_of at.now.sizes.now) code.now (option_map block_in next)) }
{
    match code {
        Code::Call {
            span,
            place,
            argument,
        } => of_call(at, *span, Callee::Placed(*place), argument, next),
        _ => Err(AllocError),
    }
}

/// A call of a name that has no place yet.
#[cycle(laying)]
#[inline(never)]
fn laid_named(
    at: &Place<'_>,
    code: &Code,
    next: Option<Box<Block>>,
) -> Result<Box<Block>, AllocError>
    ensures { IfOk result (λ o. block_in o
        ≡ flat at.now.height (sizes_of at.now.sizes.now) code.now (option_map block_in next)) }
{
    match code {
        Code::CallNamed {
            span,
            name,
            argument,
        } => of_call_named(at, *span, name, argument, next),
        _ => Err(AllocError),
    }
}

#[cycle(laying)]
#[inline(never)]
fn laid_choice(
    at: &Place<'_>,
    code: &Code,
    next: Option<Box<Block>>,
) -> Result<Box<Block>, AllocError>
    ensures { IfOk result (λ o. block_in o
        ≡ flat at.now.height (sizes_of at.now.sizes.now) code.now (option_map block_in next)) }
{
    match code {
        Code::Choice {
            span,
            test,
            yes,
            no,
        } => of_choice(at, *span, test, yes, no, next),
        _ => Err(AllocError),
    }
}

#[cycle(laying)]
#[inline(never)]
fn laid_sequence(
    at: &Place<'_>,
    code: &Code,
    next: Option<Box<Block>>,
) -> Result<Box<Block>, AllocError>
    ensures { IfOk result (λ o. block_in o
        ≡ flat at.now.height (sizes_of at.now.sizes.now) code.now (option_map block_in next)) }
{
    match code {
        Code::Sequence { span, parts } => enter_sequence(at, *span, parts, next),
        _ => Err(AllocError),
    }
}

#[cycle(laying)]
#[inline(never)]
fn laid_let(at: &Place<'_>, code: &Code, next: Option<Box<Block>>) -> Result<Box<Block>, AllocError>
    ensures { IfOk result (λ o. block_in o
        ≡ flat at.now.height (sizes_of at.now.sizes.now) code.now (option_map block_in next)) }
{
    match code {
        Code::Let {
            span,
            bindings,
            body,
        } => enter_let(at, *span, bindings, body, next),
        _ => Err(AllocError),
    }
}

/// An apply-to-each.
#[cycle(laying)]
#[inline(never)]
fn laid_each(
    at: &Place<'_>,
    code: &Code,
    next: Option<Box<Block>>,
) -> Result<Box<Block>, AllocError>
    ensures { IfOk result (λ o. block_in o
        ≡ flat at.now.height (sizes_of at.now.sizes.now) code.now (option_map block_in next)) }
{
    match code {
        Code::Each {
            span,
            sources,
            body,
        } => of_each(at, *span, sources, body, next),
        _ => Err(AllocError),
    }
}

/// An apply-to-each with a filter.
#[cycle(laying)]
#[inline(never)]
fn laid_filtered(
    at: &Place<'_>,
    code: &Code,
    next: Option<Box<Block>>,
) -> Result<Box<Block>, AllocError>
    ensures { IfOk result (λ o. block_in o
        ≡ flat at.now.height (sizes_of at.now.sizes.now) code.now (option_map block_in next)) }
{
    match code {
        Code::FilteredEach {
            span,
            sources,
            body,
            filter,
        } => of_filtered(at, *span, sources, body, filter, next),
        _ => Err(AllocError),
    }
}

/// A node of two parts that are leaves.
#[inline(never)]
fn of_two_leaves(
    at: &Place<'_>,
    node: TwoNode,
    left: &Code,
    right: &Code,
    next: Box<Block>,
) -> Result<Box<Block>, AllocError>
    ensures { let h = at.now.height in let ks = sizes_of at.now.sizes.now in IfOk result (λ o. block_in o
        ≡ making node.height node.span (two_is node.two) 0 (part_on h ks left.now ∷ part_on h ks right.now ∷ [])
        (block_in next)) }
{
    let Some(second) = leaf(at, right)? else {
        return Err(AllocError);
    };
    match leaf(at, left)? {
        Some(first) => of_leaves(at.alloc, node, first, second, next),
        None => Err(AllocError),
    }
}

/// A node of the value on top and a part that is a leaf.
#[inline(never)]
fn before_leaf(
    at: &Place<'_>,
    node: TwoNode,
    right: &Code,
    next: Box<Block>,
) -> Result<Box<Block>, AllocError>
    ensures { let h = at.now.height in let ks = sizes_of at.now.sizes.now in IfOk result (λ o. block_in o
        ≡ making node.height node.span (two_is node.two) 1 (part_on h ks right.now ∷ []) (block_in next)) }
{
    match leaf(at, right)? {
        Some(second) => of_top_and_leaf(at.alloc, node, second, next),
        None => Err(AllocError),
    }
}

/// Enters a function of one value, and lays it out.
#[cycle(laying)]
#[inline(always)]
fn enter_one(
    at: &Place<'_>,
    span: Span,
    function: Builtin,
    argument: &Code,
    next: Option<Box<Block>>,
) -> Result<Box<Block>, AllocError>
    ensures { let h = at.now.height in let ks = sizes_of at.now.sizes.now in IfOk result (λ o. block_in o
        ≡ enter h span (applying (suc h) ks span function (λ b. flat (suc h) ks argument.now (Some b)) argument.now
        (rest (option_map block_in next)))) }
{
    let inner = at.above()?;
    let after = rest(at, next)?;
    let made = applying(&inner, span, function, argument, after)?;
    enter(at, span, made)
}

/// Enters a node of two parts, and lays it out.
#[cycle(laying)]
#[inline(always)]
fn enter_two(
    at: &Place<'_>,
    span: Span,
    two: Two,
    left: &Code,
    right: &Code,
    next: Option<Box<Block>>,
) -> Result<Box<Block>, AllocError>
    ensures { let h = at.now.height in let ks = sizes_of at.now.sizes.now in IfOk result (λ o. block_in o
        ≡ enter h span (making (suc h) span (two_is two) 0
        (part_on (suc h) ks left.now ∷ part_on (suc h) ks right.now ∷ []) (rest (option_map block_in next)))) }
{
    let inner = at.above()?;
    let node = two_node(&inner, span, two)?;
    let after = rest(at, next)?;
    let made = of_two(&inner, node, left, right, after)?;
    enter(at, span, made)
}

/// A function of three values, with the height of its parts.
#[inline(never)]
fn node_of_three(at: &Place<'_>, span: Span, function: Builtin) -> Result<ManyNode, AllocError>
    ensures { IfOk result (λ n. (n.height ≡ suc at.now.height) × (n.span ≡ span)
        × (many_is n.many ≡ of_three function)) }
{
    let inner = at.above()?;
    Ok(ManyNode {
        height: inner.height,
        span,
        many: Many::OfThree(function),
    })
}

/// Enters a node of three parts, and lays it out.
#[cycle(laying)]
#[inline(always)]
fn enter_three(
    at: &Place<'_>,
    node: ManyNode,
    first: &Code,
    second: &Code,
    third: &Code,
    next: Option<Box<Block>>,
) -> Result<Box<Block>, AllocError>
    ensures { let h = at.now.height in let ks = sizes_of at.now.sizes.now in IfOk result (λ o. block_in o
        ≡ enter h node.span (making node.height node.span (many_is node.many) 0
        (part_on (suc h) ks first.now ∷ part_on (suc h) ks second.now ∷ part_on (suc h) ks third.now ∷ [])
        (rest (option_map block_in next)))) }
{
    let inner = at.above()?;
    let after = rest(at, next)?;
    let made = of_three(&inner, node, first, second, third, after)?;
    enter(at, node.span, made)
}

/// Enters a sequence, and lays it out.
#[cycle(laying)]
#[inline(always)]
fn enter_sequence(
    at: &Place<'_>,
    span: Span,
    parts: &[Code],
    next: Option<Box<Block>>,
) -> Result<Box<Block>, AllocError>
    ensures { let h = at.now.height in let ks = sizes_of at.now.sizes.now in IfOk result (λ o. block_in o
        ≡ enter h span (making (suc h) span listing 0 (parts_on (suc h) ks parts.now)
        (rest (option_map block_in next)))) }
{
    let inner = at.above()?;
    let after = rest(at, next)?;
    let made = of_sequence(&inner, span, parts, after)?;
    enter(at, span, made)
}

/// Enters a `let`, and lays it out.
#[cycle(laying)]
#[inline(always)]
fn enter_let(
    at: &Place<'_>,
    span: Span,
    bindings: &[Code],
    body: &Code,
    next: Option<Box<Block>>,
) -> Result<Box<Block>, AllocError>
    ensures { let h = at.now.height in let ks = sizes_of at.now.sizes.now in IfOk result (λ o. block_in o
        ≡ enter h span (binding_on (suc h) ks 0 bindings.now
        (λ k. flat (suc h) (k ∷ ks) body.now (forgetting (room ks) (option_map block_in next))))) }
{
    let inner = at.above()?;
    let made = of_let(&inner, bindings, body, next)?;
    enter(at, span, made)
}

/// A call, whose argument comes before it.
#[cycle(laying)]
#[inline(always)]
fn of_call(
    at: &Place<'_>,
    span: Span,
    callee: Callee,
    argument: &Code,
    next: Option<Box<Block>>,
) -> Result<Box<Block>, AllocError>
    ensures { let h = at.now.height in IfOk result (λ o. block_in o
        ≡ enter h span (flat (suc h) (sizes_of at.now.sizes.now) argument.now
        (Some (call h span (callee_is callee) (rest (option_map block_in next)))))) }
{
    let after = rest(at, next)?;
    let call = calling(at, span, callee, after)?;
    let inner = at.above()?;
    let made = laid(&inner, argument, Some(call))?;
    enter(at, span, made)
}

/// A call of a name that has no place yet.
#[cycle(laying)]
#[inline(always)]
fn of_call_named(
    at: &Place<'_>,
    span: Span,
    name: &[u8],
    argument: &Code,
    next: Option<Box<Block>>,
) -> Result<Box<Block>, AllocError>
    ensures { let h = at.now.height in IfOk result (λ o. block_in o
        ≡ enter h span (flat (suc h) (sizes_of at.now.sizes.now) argument.now
        (Some (call h span (called_by name.now) (rest (option_map block_in next)))))) }
{
    let callee = named(at, name)?;
    of_call(at, span, callee, argument, next)
}

/// A choice, whose test comes before it.
#[cycle(laying)]
#[inline(always)]
fn of_choice(
    at: &Place<'_>,
    span: Span,
    test: &Code,
    yes: &Code,
    no: &Code,
    next: Option<Box<Block>>,
) -> Result<Box<Block>, AllocError>
    ensures { let h = at.now.height in let ks = sizes_of at.now.sizes.now in IfOk result (λ o. block_in o
        ≡ enter h span (flat (suc h) ks test.now (Some (deciding (flat (suc h) ks yes.now None)
        (flat (suc h) ks no.now None) (option_map block_in next))))) }
{
    let inner = at.above()?;
    let yes = laid(&inner, yes, None)?;
    let no = laid(&inner, no, None)?;
    let choice = deciding(at, yes, no, next)?;
    let made = laid(&inner, test, Some(choice))?;
    enter(at, span, made)
}

/// An apply-to-each, whose sequences come before it.
#[cycle(laying)]
#[inline(always)]
fn of_each(
    at: &Place<'_>,
    span: Span,
    sources: &[Code],
    body: &Code,
    next: Option<Box<Block>>,
) -> Result<Box<Block>, AllocError>
    ensures { let h = at.now.height in let ks = sizes_of at.now.sizes.now in let n = length sources.now in
        IfOk result (λ o. block_in o ≡ enter h span (pushing (parts_on (suc h) ks sources.now)
        (each span n (flat (suc h) (n ∷ ks) body.now None) (rest (option_map block_in next))))) }
{
    let inner = at.above()?;
    let body = each_body(&inner, sources.len(), body)?;
    let after = rest(at, next)?;
    let each = each_of(at, span, sources.len(), body, after)?;
    let made = pushed(&inner, sources, each)?;
    enter(at, span, made)
}

/// An apply-to-each with a filter, whose sequences come before it.
#[cycle(laying)]
#[inline(always)]
fn of_filtered(
    at: &Place<'_>,
    span: Span,
    sources: &[Code],
    body: &Code,
    filter: &Code,
    next: Option<Box<Block>>,
) -> Result<Box<Block>, AllocError>
    ensures { let h = at.now.height in let ks = sizes_of at.now.sizes.now in let n = length sources.now in
        IfOk result (λ o. block_in o ≡ enter h span (pushing (parts_on (suc h) ks sources.now)
        (filtered span n (flat (suc h) (n ∷ ks) body.now None) (flat (suc h) (n ∷ ks) filter.now None)
        (rest (option_map block_in next))))) }
{
    let inner = at.above()?;
    let body = each_body(&inner, sources.len(), body)?;
    let filter = each_body(&inner, sources.len(), filter)?;
    let after = rest(at, next)?;
    let each = filtered_of(at, span, sources.len(), body, filter, after)?;
    let made = pushed(&inner, sources, each)?;
    enter(at, span, made)
}

/// The operations of code inside one more frame, of `size` values.
#[cycle(laying)]
#[inline(never)]
fn inside(
    at: &Place<'_>,
    size: usize,
    code: &Code,
    next: Option<Box<Block>>,
) -> Result<Box<Block>, AllocError>
    ensures { IfOk result (λ o. block_in o
        ≡ flat at.now.height (size ∷ sizes_of at.now.sizes.now) code.now (option_map block_in next)) }
{
    let sizes = within(size, at.sizes);
    let inner = Place {
        alloc: at.alloc,
        height: at.height,
        sizes: &sizes,
    };
    laid(&inner, code, next)
}

/// The body or the filter of an apply-to-each of `count` sequences.
#[cycle(laying)]
#[inline(never)]
fn each_body(at: &Place<'_>, count: usize, code: &Code) -> Result<Box<Body>, AllocError>
    ensures { IfOk result (λ b. body_block b.value
        ≡ flat at.now.height (count ∷ sizes_of at.now.sizes.now) code.now None) }
{
    let sizes = within(count, at.sizes);
    let inner = Place {
        alloc: at.alloc,
        height: at.height,
        sizes: &sizes,
    };
    let ops = laid(&inner, code, None)?;
    kept(&inner, ops, code)
}

/// A node of two parts.
#[cycle(laying)]
#[inline(never)]
fn of_two(
    at: &Place<'_>,
    node: TwoNode,
    left: &Code,
    right: &Code,
    next: Box<Block>,
) -> Result<Box<Block>, AllocError>
    ensures { let h = at.now.height in let ks = sizes_of at.now.sizes.now in IfOk result (λ o. block_in o
        ≡ making node.height node.span (two_is node.two) 0 (part_on h ks left.now ∷ part_on h ks right.now ∷ [])
        (block_in next)) }
{
    if !is_leaf(right) {
        let tops = of_tops(at.alloc, node, next)?;
        let after = laid(at, right, Some(tops))?;
        return laid(at, left, Some(after));
    }
    if is_leaf(left) {
        return of_two_leaves(at, node, left, right, next);
    }
    let top = before_leaf(at, node, right, next)?;
    laid(at, left, Some(top))
}

/// A node of three parts.
#[cycle(laying)]
#[inline(never)]
fn of_three(
    at: &Place<'_>,
    node: ManyNode,
    first: &Code,
    second: &Code,
    third: &Code,
    next: Box<Block>,
) -> Result<Box<Block>, AllocError>
    ensures { let h = at.now.height in let ks = sizes_of at.now.sizes.now in IfOk result (λ o. block_in o
        ≡ making node.height node.span (many_is node.many) 0
        (part_on h ks first.now ∷ part_on h ks second.now ∷ part_on h ks third.now ∷ []) (block_in next)) }
{
    let Some(last) = leaf(at, third)? else {
        let tops = of_many(at.alloc, node, 3, Vec::new(at.alloc), next)?;
        let after = laid(at, third, Some(tops))?;
        let middle = laid(at, second, Some(after))?;
        return laid(at, first, Some(middle));
    };
    let Some(middle) = leaf(at, second)? else {
        let leaves = leaf_alone(at, last)?;
        let top = of_many(at.alloc, node, 2, leaves, next)?;
        let after = laid(at, second, Some(top))?;
        return laid(at, first, Some(after));
    };
    match leaf(at, first)? {
        Some(one) => {
            let leaves = three_leaves(at, one, middle, last)?;
            of_many(at.alloc, node, 0, leaves, next)
        }
        None => {
            let leaves = two_leaves(at, middle, last)?;
            let top = of_many(at.alloc, node, 1, leaves, next)?;
            laid(at, first, Some(top))
        }
    }
}

/// A function of one value. It is not built where it is a pair that is written out.
#[cycle(laying)]
#[inline(never)]
fn applying(
    at: &Place<'_>,
    span: Span,
    function: Builtin,
    argument: &Code,
    next: Box<Block>,
) -> Result<Box<Block>, AllocError>
    ensures { let h = at.now.height in let ks = sizes_of at.now.sizes.now in IfOk result (λ o. block_in o
        ≡ applying h ks span function (λ b. flat h ks argument.now (Some b)) argument.now (block_in next)) }
{
    match argument {
        Code::Pair {
            span: within,
            left,
            right,
        } => {
            let inner = at.above()?;
            let node = pair_node(&inner, span, function, *within)?;
            let made = of_two(&inner, node, left, right, next)?;
            enter(at, *within, made)
        }
        _ => {
            let node = OneNode {
                height: at.height,
                span,
                function,
            };
            match leaf(at, argument)? {
                Some(leaf) => of_leaf(at.alloc, node, leaf, next),
                None => {
                    let top = of_top(at.alloc, node, next)?;
                    laid(at, argument, Some(top))
                }
            }
        }
    }
}

/// A sequence of parts.
#[cycle(laying)]
#[inline(never)]
fn of_sequence(
    at: &Place<'_>,
    span: Span,
    codes: &[Code],
    next: Box<Block>,
) -> Result<Box<Block>, AllocError>
    ensures { let h = at.now.height in let ks = sizes_of at.now.sizes.now in IfOk result (λ o. block_in o
        ≡ making h span listing 0 (parts_on h ks codes.now) (block_in next)) }
{
    let count = with_parts(codes);
    let leaves = leaves(at, &codes[count..])?;
    let node = ManyNode {
        height: at.height,
        span,
        many: Many::Sequence,
    };
    let made = of_many(at.alloc, node, count, leaves, next)?;
    pushed(at, &codes[..count], made)
}

/// All parts one after the other, and then what comes after.
#[cycle(laying)]
#[inline(never)]
fn pushed(at: &Place<'_>, codes: &[Code], next: Box<Block>) -> Result<Box<Block>, AllocError>
    ensures { let h = at.now.height in let ks = sizes_of at.now.sizes.now in IfOk result (λ o. block_in o
        ≡ pushing (parts_on h ks codes.now) (block_in next)) }
{
    let mut made = next;
    for turn in 0..codes.len() {
        let code = &codes[codes.len() - 1 - turn];
        made = laid(at, code, Some(made))?;
    }
    Ok(made)
}

/// The bindings of a `let`, each of which sees those before it, and its body.
#[cycle(laying)]
#[inline(never)]
fn of_let(
    at: &Place<'_>,
    bindings: &[Code],
    body: &Code,
    next: Option<Box<Block>>,
) -> Result<Box<Block>, AllocError>
    ensures { let h = at.now.height in let ks = sizes_of at.now.sizes.now in IfOk result (λ o. block_in o
        ≡ binding_on h ks 0 bindings.now
        (λ k. flat h (k ∷ ks) body.now (forgetting (room ks) (option_map block_in next)))) }
{
    let after = forgetting(at, next)?;
    let mut made = inside(at, bindings.len(), body, after)?;
    for turn in 0..bindings.len() {
        let index = bindings.len() - 1 - turn;
        let later = bound(at, made)?;
        made = inside(at, index, &bindings[index], Some(later))?;
    }
    Ok(made)
}
