// Parts of a tree, built only up to height 100.

ghost use Rattle.std.specs.Prelude.{◌≡◌, ◌≤◌, ◌<◌, ◌+◌, max, None, IfOk, IfSome, MatchOption};
ghost use Rattle.nesl_syntax_tree.specs.Trees.{Tree, TypeTree, height, node, span_of, type_span, tree_on};
ghost use Rattle.nesl_syntax_tree.specs.Trees as trees;
ghost use Rattle.nesl_syntax_tree.specs.declared.parts.part.Part.TheVariants as part;
ghost use Rattle.nesl_syntax_tree.specs.Patterns.{is_pattern};
ghost use Rattle.nesl_syntax_tree.specs.Grammar.{spanning};
ghost use Rattle.nesl_syntax_tree.specs.Parts.{Sees, SeesType};
ghost use Rattle.nesl_syntax_tree.specs.Views.{tree_of};

use crate::parts::types::TypePart;
use crate::tree::{Exp, Node, Operator, Prefix};
use nesl_lex::token::{Name, Span};
use std::alloc::{AllocError, Global};

/// The greatest height of a tree that is built.
pub const LIMIT: u8 = 100;

/// An expression with its height, or one that is too high and isn't built; and whether its tokens could be a pattern.
/// The expression lies on the heap from the first: what is open stays small, and the node over it takes it as it is.
/// A part is moved at each token. So its small fields come first, where they take no room of their own.
#[derive(Drop)]
pub enum Part {
    Built {
        pattern: bool,
        height: u8,
        exp: Box<Exp>,
    },
    High(bool),
}

/// Drops the parts of what is too high.
pub fn too_high<T: Drop>(parts: T, pattern: bool) -> Part
    ensures { result ≡ part.High pattern }
{
    drop(parts);
    Part::High(pattern)
}

/// Drops the parts of what is too high, in place of returning them.
pub(crate) fn none<T: Drop, U>(parts: T) -> Option<U>
    ensures { result ≡ None }
{
    drop(parts);
    None
}

/// A node in these bytes, on the heap.
pub fn make_node(alloc: Global, span: Span, node: Node) -> Result<Box<Exp>, AllocError>
    ensures { IfOk result (λ r. r.value ≡ record { span = span; node = node }) }
{
    boxed(alloc, Exp { span, node })
}

/// A node over parts of at most this height.
pub(crate) fn built(exp: Box<Exp>, height: u8, pattern: bool) -> Part
    requires { height < 100 }
    ensures { result ≡ part.Built pattern (height + 1) exp }
{
    Part::Built {
        pattern,
        height: height + 1,
        exp,
    }
}

/// An expression with its height, where a node over it isn't too high.
pub(crate) fn low_enough(part: Part) -> Option<(Box<Exp>, u8)>
    ensures low { IfSome result (λ r. r.1 < 100) }
    ensures seen { (x : Tree) → Sees part x →
        MatchOption result (100 ≤ height x) (λ r. (tree_of r.0.value ≡ x) × (r.1 ≡ height x)) }
{
    match part {
        Part::Built { exp, height, .. } if height < LIMIT => Some((exp, height)),
        other => none(other),
    }
}

// Two expressions with their greater height, where a node over them isn't too high.
#[inline(always)]
fn both(left: Part, right: Part) -> Option<(Box<Exp>, Box<Exp>, u8)>
    ensures low { IfSome result (λ r. r.2 < 100) }
    ensures seen { (x y : Tree) → Sees left x → Sees right y → let greater = max (height x) (height y) in
        MatchOption result (100 ≤ greater)
        (λ r. (tree_of r.0.value ≡ x) × (tree_of r.1.value ≡ y) × (r.2 ≡ greater)) }
{
    let Some((left, m)) = low_enough(left) else {
        return none(right);
    };
    let Some((right, n)) = low_enough(right) else {
        return none(left);
    };
    Some((left, right, m.max(n)))
}

/// A value on the heap.
pub(crate) fn boxed<T: Drop>(alloc: Global, value: T) -> Result<Box<T>, AllocError>
    ensures { IfOk result (λ r. r.value ≡ value) }
{
    Ok(Box::new(alloc, value)?)
}

/// Two values on the heap.
pub(crate) fn boxes<T: Drop>(
    alloc: Global,
    left: T,
    right: T,
) -> Result<(Box<T>, Box<T>), AllocError>
    ensures { IfOk result (λ r. (r.0.value ≡ left) × (r.1.value ≡ right)) }
{
    let left = boxed(alloc, left)?;
    let right = boxed(alloc, right)?;
    Ok((left, right))
}

/// From the first byte of one to the last of the other.
pub fn over(from: Span, to: Span) -> Span
    ensures { result ≡ spanning from to }
{
    Span {
        start: from.start,
        end: to.end,
    }
}

/// Whether its tokens could be a pattern.
pub fn may_be_pattern(part: &Part) -> bool
    ensures { (x : Tree) → Sees part.now x → result ≡ is_pattern x }
{
    match part {
        Part::Built { pattern, .. } => *pattern,
        Part::High(pattern) => *pattern,
    }
}

/// A part of these bytes in place of its own.
pub fn widen(part: Part, span: Span) -> Part
    ensures { (x : Tree) → Sees part x → Sees result (tree_on span x) }
{
    match part {
        Part::Built {
            pattern,
            height,
            mut exp,
        } => {
            exp.span = span;
            Part::Built {
                pattern,
                height,
                exp,
            }
        }
        Part::High(pattern) => Part::High(pattern),
    }
}

pub fn call_of(alloc: Global, name: Name, part: Part, span: Span) -> Result<Part, AllocError>
    ensures { IfOk result (λ r. (x : Tree) → Sees part x → Sees r (node span (trees.call name.letters.items x))) }
{
    let pattern = may_be_pattern(&part);
    let Some((argument, height)) = low_enough(part) else {
        return Ok(Part::High(pattern));
    };
    let exp = make_node(alloc, span, Node::Call { name, argument })?;
    Ok(built(exp, height, pattern))
}

pub fn pair_of(alloc: Global, left: Part, right: Part) -> Result<Part, AllocError>
    ensures { IfOk result (λ r. (x y : Tree) → Sees left x → Sees right y →
        Sees r (node (spanning (span_of x) (span_of y)) (trees.pair x y))) }
{
    let pattern = may_be_pattern(&left) && may_be_pattern(&right);
    let Some((left, right, height)) = both(left, right) else {
        return Ok(Part::High(pattern));
    };
    let span = over(left.span, right.span);
    let exp = make_node(alloc, span, Node::Pair { left, right })?;
    Ok(built(exp, height, pattern))
}

pub fn prefix_of(alloc: Global, prefix: Prefix, sign: Span, part: Part) -> Result<Part, AllocError>
    ensures { IfOk result (λ r. (x : Tree) → Sees part x →
        Sees r (node (spanning sign (span_of x)) (trees.prefix_of prefix x))) }
{
    let Some((operand, height)) = low_enough(part) else {
        return Ok(Part::High(false));
    };
    let span = over(sign, operand.span);
    let node = Node::Prefix {
        operator: prefix,
        operand,
    };
    Ok(built(make_node(alloc, span, node)?, height, false))
}

pub fn infix_of(
    alloc: Global,
    operator: Operator,
    left: Part,
    right: Part,
) -> Result<Part, AllocError>
    ensures { IfOk result (λ r. (x y : Tree) → Sees left x → Sees right y →
        Sees r (node (spanning (span_of x) (span_of y)) (trees.infix_of operator x y))) }
{
    let Some((left, right, height)) = both(left, right) else {
        return Ok(Part::High(false));
    };
    let span = over(left.span, right.span);
    let node = Node::Infix {
        operator,
        left,
        right,
    };
    Ok(built(make_node(alloc, span, node)?, height, false))
}

pub fn index_of(alloc: Global, base: Part, index: Part, close: Span) -> Result<Part, AllocError>
    ensures { IfOk result (λ r. (x y : Tree) → Sees base x → Sees index y →
        Sees r (node (spanning (span_of x) close) (trees.index x y))) }
{
    let Some((sequence, index, height)) = both(base, index) else {
        return Ok(Part::High(false));
    };
    let span = over(sequence.span, close);
    let exp = make_node(alloc, span, Node::Index { sequence, index })?;
    Ok(built(exp, height, false))
}

pub fn range_of(alloc: Global, from: Part, to: Part, span: Span) -> Result<Part, AllocError>
    ensures { IfOk result (λ r. (x y : Tree) → Sees from x → Sees to y → Sees r (node span (trees.range x y))) }
{
    let Some((from, to, height)) = both(from, to) else {
        return Ok(Part::High(false));
    };
    let exp = make_node(alloc, span, Node::Range { from, to })?;
    Ok(built(exp, height, false))
}

// Three expressions with their greatest height, where a node over them isn't too high.
fn all_three(first: Part, second: Part, third: Part) -> Option<(Box<Exp>, Box<Exp>, Box<Exp>, u8)>
    ensures low { IfSome result (λ r. r.3 < 100) }
    ensures seen { (x y z : Tree) → Sees first x → Sees second y → Sees third z →
        let greatest = max (height x) (max (height y) (height z)) in
        MatchOption result (100 ≤ greatest)
        (λ r. (tree_of r.0.value ≡ x) × (tree_of r.1.value ≡ y) × (tree_of r.2.value ≡ z) × (r.3 ≡ greatest)) }
{
    let Some((first, second, m)) = both(first, second) else {
        return none(third);
    };
    let Some((third, n)) = low_enough(third) else {
        return none((first, second));
    };
    Some((first, second, third, m.max(n)))
}

pub fn strided_range_of(
    alloc: Global,
    from: Part,
    to: Part,
    stride: Part,
    span: Span,
) -> Result<Part, AllocError>
    ensures { IfOk result (λ r. (x y z : Tree) → Sees from x → Sees to y → Sees stride z →
        Sees r (node span (trees.strided_range x y z))) }
{
    let Some((from, to, stride, height)) = all_three(from, to, stride) else {
        return Ok(Part::High(false));
    };
    let exp = make_node(alloc, span, Node::StridedRange { from, to, stride })?;
    Ok(built(exp, height, false))
}

#[inline(never)]
pub fn choice_of(
    alloc: Global,
    word: Span,
    test: Part,
    yes: Part,
    no: Part,
) -> Result<Part, AllocError>
    ensures { IfOk result (λ r. (x y z : Tree) → Sees test x → Sees yes y → Sees no z →
        Sees r (node (spanning word (span_of z)) (trees.choice x y z))) }
{
    let Some((test, yes, no, height)) = all_three(test, yes, no) else {
        return Ok(Part::High(false));
    };
    let span = over(word, no.span);
    let exp = make_node(alloc, span, Node::Choice { test, yes, no })?;
    Ok(built(exp, height, false))
}

/// An empty sequence whose `[` is here.
pub fn empty_of(alloc: Global, written: TypePart, from: Span) -> Result<Part, AllocError>
    ensures { IfOk result (λ r. (x : TypeTree) → SeesType written x →
        Sees r (node (spanning from (type_span x)) (trees.empty x))) }
{
    match written {
        TypePart::Built { written, height } if height < LIMIT => {
            let span = over(from, written.span);
            Ok(built(make_node(alloc, span, Node::Empty(written))?, height, false))
        }
        other => Ok(too_high(other, false)),
    }
}
