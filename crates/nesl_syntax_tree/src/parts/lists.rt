// Lists of parts: the elements of a sequence, and binders with what they are bound to.

ghost use Rattle.std.specs.Prelude.{◌≡◌, ◌≤◌, ◌<◌, ◌∷◌, [], ◌++◌, max, IfOk, IfSome, MatchOption, Option};
ghost use Rattle.std.specs.Prelude.{vec_len, vec_capacity};
ghost use Rattle.nesl_syntax_tree.specs.Trees.{Tree, Trees, Binders, PatternTree, height, greatest_binder_height, node};
ghost use Rattle.nesl_syntax_tree.specs.Trees.{span_of, with_last, with_last_binder};
ghost use Rattle.nesl_syntax_tree.specs.Trees as trees;
ghost use Rattle.nesl_syntax_tree.specs.declared.parts.lists.Elements.TheVariants as elements;
ghost use Rattle.nesl_syntax_tree.specs.declared.parts.lists.Bindings.TheVariants as many;
ghost use Rattle.nesl_syntax_tree.specs.Views.{shape_of, trees_in, binders_in, tree_of};
ghost use Rattle.nesl_syntax_tree.specs.Grammar.{spanning, unwritten_body};
ghost use Rattle.nesl_syntax_tree.specs.Made.{body_or};
ghost use Rattle.nesl_syntax_tree.specs.Parts.{Sees, SeesAll, SeesBound, SeesBody, SeesPattern};

use crate::parts::part::{LIMIT, Part, boxed, built, low_enough, make_node, none, over, too_high};
use crate::parts::pattern::{PatternPart, pattern_from};
use crate::tree::{Binding, Exp, Node};
use nesl_lex::token::Span;
use std::alloc::{AllocError, Global};

/// Elements so far with their greatest height, or some that are too high.
#[derive(Drop)]
pub enum Elements {
    Built { height: u8, items: Vec<Exp> },
    High,
}

/// Binders so far with the greatest height of their parts, or some that are too high.
#[derive(Drop)]
pub enum Bindings {
    Built { height: u8, items: Vec<Binding> },
    High,
}

/// How many elements room is taken for at first.
const FIRST_ELEMENTS: usize = 2;

/// How many binders room is taken for at first. They are large, and most lists of them have one.
const FIRST_BINDERS: usize = 1;

// Takes room in a list that has none left: for `first` items at first, and later for as many as it has.
#[inline(never)]
fn take_room<T>(list: &mut Vec<T>, first: usize) -> Result<(), AllocError>
    requires { 1 ≤ first }
    ensures items { list.new.items ≡ list.old.items }
    ensures room { IfOk result (λ u. vec_len list.new < vec_capacity list.new) }
{
    list.reserve_exact(first.max(list.len()))
}

// A list with one more, in which room for `first` is taken at first.
#[inline(always)]
fn pushed<T: Drop>(list: Vec<T>, first: usize, item: T) -> Result<Vec<T>, AllocError>
    requires { 1 ≤ first }
    ensures { IfOk result (λ v. v.items ≡ list.items ++ item ∷ []) }
{
    let mut list = list;
    if list.len() >= list.capacity() {
        take_room(&mut list, first)?;
    }
    list.push_reserved(item);
    Ok(list)
}

// Drops the elements of what is too high.
fn no_elements<T: Drop>(parts: T) -> Elements
    ensures { result ≡ elements.High }
{
    drop(parts);
    Elements::High
}

#[tactic(auto, using(crate::proofs::Rows::greatest_and_then, crate::proofs::Rows::trees_push))]
pub fn push_part(elements: Elements, part: Part) -> Result<Elements, AllocError>
    ensures { IfOk result (λ r. (xs : Trees) (x : Tree) → SeesAll elements xs → Sees part x →
        SeesAll r (with_last xs x)) }
{
    let Elements::Built { items, height: m } = elements else {
        return Ok(no_elements(part));
    };
    let Part::Built { exp, height: n, .. } = part else {
        return Ok(no_elements(items));
    };
    Ok(Elements::Built {
        height: m.max(n),
        items: pushed(items, FIRST_ELEMENTS, Box::into_inner(exp))?,
    })
}

// Drops the parts of what is too high.
fn not_built<T: Drop>(parts: T) -> Bindings
    ensures { result ≡ many.High }
{
    drop(parts);
    Bindings::High
}

#[tactic(auto, using(crate::proofs::Rows::greatest_and_bind, crate::proofs::Rows::binders_push))]
pub fn push_binding(
    alloc: Global,
    bindings: Bindings,
    pattern: PatternPart,
    value: Part,
) -> Result<Bindings, AllocError>
    ensures { IfOk result (λ r. (bs : Binders) (p : PatternTree) (x : Tree) → SeesBound bindings bs →
        SeesPattern pattern p → Sees value x →
        SeesBound r (with_last_binder bs p x)) }
{
    let Bindings::Built { items, height: m } = bindings else {
        return Ok(not_built((pattern, value)));
    };
    let PatternPart::Built {
        exp: pattern,
        height: n,
    } = pattern
    else {
        return Ok(not_built((items, value)));
    };
    let Part::Built {
        exp: value,
        height: k,
        ..
    } = value
    else {
        return Ok(not_built((items, pattern)));
    };
    let Some(pattern) = pattern_from(alloc, Box::into_inner(pattern))? else {
        return Ok(not_built((items, value)));
    };
    let value = Box::into_inner(value);
    Ok(Bindings::Built {
        height: m.max(n.max(k)),
        items: pushed(items, FIRST_BINDERS, Binding { pattern, value })?,
    })
}

fn sequence_node(items: Vec<Exp>) -> Node
    ensures { shape_of result ≡ trees.sequence (trees_in items.items) }
{
    Node::Sequence(items)
}

fn let_node(items: Vec<Binding>, body: Box<Exp>) -> Node
    ensures { shape_of result ≡ trees.let_in (binders_in items.items) (tree_of body.value) }
{
    Node::Let {
        bindings: items,
        body,
    }
}

fn each_node(body: Box<Exp>, items: Vec<Binding>) -> Node
    ensures { shape_of result ≡ trees.each (tree_of body.value) (binders_in items.items) }
{
    Node::Each {
        body,
        bindings: items,
    }
}

fn filtered_node(body: Box<Exp>, items: Vec<Binding>, filter: Box<Exp>) -> Node
    ensures { shape_of result
        ≡ trees.filtered_each (tree_of body.value) (binders_in items.items) (tree_of filter.value) }
{
    Node::FilteredEach {
        body,
        bindings: items,
        filter,
    }
}

pub fn sequence_of(alloc: Global, elements: Elements, span: Span) -> Result<Part, AllocError>
    ensures { IfOk result (λ r. (xs : Trees) → SeesAll elements xs → Sees r (node span (trees.sequence xs))) }
{
    match elements {
        Elements::Built { items, height } if height < LIMIT => {
            Ok(built(make_node(alloc, span, sequence_node(items))?, height, false))
        }
        other => Ok(too_high(other, false)),
    }
}

// Binders with their height, where a node over them isn't too high.
fn low_bindings(bindings: Bindings) -> Option<(Vec<Binding>, u8)>
    ensures low { IfSome result (λ r. r.1 < 100) }
    ensures seen { (bs : Binders) → SeesBound bindings bs →
        MatchOption result (100 ≤ greatest_binder_height bs)
        (λ r. (binders_in r.0.items ≡ bs) × (r.1 ≡ greatest_binder_height bs)) }
{
    match bindings {
        Bindings::Built { items, height } if height < LIMIT => Some((items, height)),
        other => none(other),
    }
}

#[inline(never)]
pub fn let_of(alloc: Global, word: Span, bindings: Bindings, body: Part) -> Result<Part, AllocError>
    ensures { IfOk result (λ r. (bs : Binders) (x : Tree) → SeesBound bindings bs → Sees body x →
        Sees r (node (spanning word (span_of x)) (trees.let_in bs x))) }
{
    let Some((items, m)) = low_bindings(bindings) else {
        return Ok(too_high(body, false));
    };
    let Some((body, n)) = low_enough(body) else {
        return Ok(too_high(items, false));
    };
    let span = over(word, body.span);
    let exp = make_node(alloc, span, let_node(items, body))?;
    Ok(built(exp, m.max(n), false))
}

// The body of an apply-to-each that has none.
fn element_of(items: &[Binding]) -> Exp
    ensures { tree_of result ≡ unwritten_body (binders_in items.now) }
{
    let span = match items {
        [] => Span { start: 0, end: 0 },
        [first, ..] => first.pattern.span,
    };
    Exp {
        span,
        node: Node::Element,
    }
}

// The body of an apply-to-each.
fn body_of(alloc: Global, body: Option<Part>, items: &[Binding]) -> Result<Part, AllocError>
    ensures { IfOk result (λ r. (b : Option Tree) → SeesBody body b → Sees r (body_or b (binders_in items.now))) }
{
    match body {
        Some(part) => Ok(part),
        None => Ok(Part::Built {
            pattern: false,
            height: 1,
            exp: boxed(alloc, element_of(items))?,
        }),
    }
}

/// The body and the binders of an apply-to-each with their greater height, where a node over them isn't too high.
type LowEach = Option<(Box<Exp>, Vec<Binding>, u8)>;

// The body and the binders of an apply-to-each with their greater height, where a node over them isn't too high.
fn low_each(alloc: Global, body: Option<Part>, bindings: Bindings) -> Result<LowEach, AllocError>
    ensures low { IfOk result (λ found. IfSome found (λ r. r.2 < 100)) }
    ensures seen { IfOk result (λ found. (b : Option Tree) (bs : Binders) → SeesBody body b → SeesBound bindings bs →
        let greater = max (height (body_or b bs)) (greatest_binder_height bs) in
        MatchOption found (100 ≤ greater)
        (λ r. (tree_of r.0.value ≡ body_or b bs) × (binders_in r.1.items ≡ bs) × (r.2 ≡ greater))) }
{
    let Some((items, m)) = low_bindings(bindings) else {
        return Ok(none(body));
    };
    let body = body_of(alloc, body, items.as_slice())?;
    let Some((body, n)) = low_enough(body) else {
        return Ok(none(items));
    };
    Ok(Some((body, items, n.max(m))))
}

pub fn each_of(
    alloc: Global,
    body: Option<Part>,
    bindings: Bindings,
    span: Span,
) -> Result<Part, AllocError>
    ensures { IfOk result (λ r. (b : Option Tree) (bs : Binders) → SeesBody body b → SeesBound bindings bs →
        Sees r (node span (trees.each (body_or b bs) bs))) }
{
    let Some((body, items, height)) = low_each(alloc, body, bindings)? else {
        return Ok(Part::High(false));
    };
    let exp = make_node(alloc, span, each_node(body, items))?;
    Ok(built(exp, height, false))
}

pub fn filtered_each_of(
    alloc: Global,
    body: Option<Part>,
    bindings: Bindings,
    filter: Part,
    span: Span,
) -> Result<Part, AllocError>
    ensures { IfOk result (λ r. (b : Option Tree) (bs : Binders) (x : Tree) → SeesBody body b →
        SeesBound bindings bs → Sees filter x →
        Sees r (node span (trees.filtered_each (body_or b bs) bs x))) }
{
    let Some((body, items, m)) = low_each(alloc, body, bindings)? else {
        return Ok(too_high(filter, false));
    };
    let Some((filter, n)) = low_enough(filter) else {
        return Ok(too_high((body, items), false));
    };
    let exp = make_node(alloc, span, filtered_node(body, items, filter))?;
    Ok(built(exp, m.max(n), false))
}
