// Sequences that are written to.
ghost use Rattle.std.specs.Prelude.{◌≡◌, ◌+◌, ◌-◌, ◌*◌, ◌/◌, ◌≤◌, ◌<◌, ℕ, None, length, map, take, drop, is_some};
ghost use Rattle.std.specs.Prelude.{reverse, unwrap_or, option_map, slice_index, SomeIff, IfSome, IfOk, IsTrue};
ghost use Rattle.std.specs.List.{list_all};
ghost use Rattle.std.specs.Option.{MatchOption};
ghost use Rattle.nesl_values.specs.Tree.{ValueTree, size, sizes, sequence, trees_of, int, boolean, character};
ghost use Rattle.nesl_values.specs.View.{tree_of, element_tree, item_trees};
ghost use Rattle.nesl_values.specs.Parts.{as_pair};
ghost use Rattle.nesl_seqs_base.specs.Lent.{argument_tree};
ghost use Rattle.nesl_seqs_base.specs.Meaning.{outcome_of};
ghost use Rattle.nesl_seqs_base.specs.Places.{arrival};
ghost use Rattle.nesl_seqs_base.specs.Prices.{reads, price};
ghost use Rattle.nesl_seqs_index.specs.Plans.{Plans};
ghost use Rattle.nesl_seqs_base.specs.Reductions.{all_of};
ghost use Rattle.nesl_seqs_base.specs.Write.{int_and_tree, overwritten, write_of, writes_of, told_by, is_leaf};
ghost use Rattle.nesl_seqs_base.specs.Write.{writes_leaf};
ghost use Rattle.nesl_seqs_base.specs.declared.seq_fn.SeqFn.TheVariants.{Write};

use crate::plan::Plan;
use nesl_scalars::Trap;
use nesl_seqs_base::argument::Argument;
use nesl_seqs_base::arguments::{WRONG_SHAPE, two_sequences};
use nesl_seqs_base::nodes::{leaves, value_nodes};
use nesl_seqs_base::places::place_of;
use nesl_seqs_base::price::Price;
use nesl_values::{Element, Items, Value};
use std::alloc::{AllocError, Allocator};

/// How many places a table of writers has.
const TABLE: usize = 4096;

/// The plan of `v <- p`.
pub fn plan_write<A: Allocator>(argument: Argument<'_, A>) -> Result<Plan<'_, A>, Trap>
    ensures { Plans (outcome_of Write (argument_tree argument.entry))
        (reads Write (argument_tree argument.entry)) result }
{
    let Some((items, others)) = two_sequences(argument) else {
        return Err(WRONG_SHAPE);
    };
    let Some(pairs) = values_in(others) else {
        return Err(WRONG_SHAPE);
    };
    if !all_write(pairs, items.len()) {
        return Err(Trap::Range);
    }
    Ok(Plan::Written { items, pairs })
}

// The items as values, where they are held so or there are none.
fn values_in<A: Allocator>(items: Items<'_, A>) -> Option<&[Value<A>]>
    ensures { MatchOption result
        (all_of int_and_tree (item_trees items.entry) ≡ None)
        (λ values. map tree_of values.now ≡ item_trees items.entry) }
{
    if items.len() == 0 {
        return Some(&[]);
    }
    match items {
        Items::Values(values) => Some(values),
        Items::Ints(_) => None,
        Items::Bools(_) => None,
        Items::Chars(_) => None,
    }
}

// What is written where, where the pair names a place.
fn write_of<A: Allocator>(pair: &Value<A>, len: usize) -> Option<(usize, &Value<A>)>
    ensures write { option_map (λ w. (w.0, tree_of w.1.now)) result
        ≡ write_of len (tree_of pair.now) }
    ensures within { IfSome result (λ w. w.0 < len) }
{
    let (index, value) = pair.as_pair()?;
    let place = place_of(index, len)?;
    Some((place, value))
}

// Where the pair writes, where it names a place.
fn written_place<A: Allocator>(pair: &Value<A>, len: usize) -> Option<usize>
    ensures { result ≡ option_map (λ w. w.0) (write_of len (tree_of pair.now)) }
{
    let (place, _) = write_of(pair, len)?;
    Some(place)
}

// Whether the pair names a place.
fn names_place<A: Allocator>(pair: &Value<A>, len: usize) -> bool
    ensures { result ≡ is_some (write_of len (tree_of pair.now)) }
{
    write_of(pair, len).is_some()
}

// Whether each pair names a place.
fn all_write<A: Allocator>(pairs: &[Value<A>], len: usize) -> bool
    ensures { result ≡ list_all (λ p. is_some (write_of len (tree_of p))) pairs.now }
{
    pairs.iter().all(|pair| names_place(pair, len))
}

pub(crate) fn price_of_overwritten<A: Allocator>(
    items: Items<'_, A>,
    pairs: &[Value<A>],
    limit: u128,
) -> Option<Price>
    ensures { SomeIff result
        (1 + (length (item_trees items.entry) + length pairs.now)
        + (size (sequence (overwritten (item_trees items.entry)
        (writes_of (length (item_trees items.entry)) (map tree_of pairs.now)))) - 1) ≤ limit)
        (price (length (item_trees items.entry) + length pairs.now) 1
        (sequence (overwritten (item_trees items.entry)
        (writes_of (length (item_trees items.entry)) (map tree_of pairs.now))))) }
{
    let read = items.len() as u128 + pairs.len() as u128;
    if limit <= read {
        return None;
    }
    let below = overwritten_nodes(items, pairs, limit - 1 - read)?;
    Some(Price {
        work: 1 + read + below,
        depth: 1,
        nodes: 1 + below,
    })
}

// The nodes of all elements as they are in the end.
fn overwritten_nodes<A: Allocator>(
    items: Items<'_, A>,
    pairs: &[Value<A>],
    limit: u128,
) -> Option<u128>
    ensures { SomeIff result
        (sizes (trees_of (overwritten (item_trees items.entry)
        (writes_of (length (item_trees items.entry)) (map tree_of pairs.now)))) ≤ limit)
        (sizes (trees_of (overwritten (item_trees items.entry)
        (writes_of (length (item_trees items.entry)) (map tree_of pairs.now))))) }
{
    if is_packed(items) && all_write_leaves(pairs) {
        return leaves(items.len(), limit);
    }
    nodes_of_windows(items, pairs, limit)
}

// Whether the items are held as leaves.
fn is_packed<A: Allocator>(items: Items<'_, A>) -> bool
    ensures { IsTrue result → IsTrue (list_all is_leaf (item_trees items.entry)) }
{
    match items {
        Items::Ints(_) => true,
        Items::Bools(_) => true,
        Items::Chars(_) => true,
        Items::Values(_) => false,
    }
}

// Whether each pair writes a leaf.
fn all_write_leaves<A: Allocator>(pairs: &[Value<A>]) -> bool
    ensures { result ≡ list_all (λ p. writes_leaf (tree_of p)) pairs.now }
{
    pairs.iter().all(|pair| writes_leaf(pair))
}

fn writes_leaf<A: Allocator>(pair: &Value<A>) -> bool
    ensures { result ≡ writes_leaf (tree_of pair.now) }
{
    match second_of(pair) {
        Some(value) => is_leaf(value),
        None => false,
    }
}

fn is_leaf<A: Allocator>(value: &Value<A>) -> bool
    ensures { result ≡ is_leaf (tree_of value.now) }
{
    value.as_int().is_some() || value.as_bool().is_some() || value.as_char().is_some()
}

// The nodes of all elements as they are in the end, one window of places after the other.
fn nodes_of_windows<A: Allocator>(
    items: Items<'_, A>,
    pairs: &[Value<A>],
    limit: u128,
) -> Option<u128>
    ensures { SomeIff result
        (sizes (trees_of (overwritten (item_trees items.entry)
        (writes_of (length (item_trees items.entry)) (map tree_of pairs.now)))) ≤ limit)
        (sizes (trees_of (overwritten (item_trees items.entry)
        (writes_of (length (item_trees items.entry)) (map tree_of pairs.now))))) }
{
    let mut used = 0;
    for window in 0..items.len() / TABLE + 1 {
        used += nodes_in(items, pairs, window, limit - used)?;
    }
    Some(used)
}

// The nodes of the elements of one window. Written apart for its table on the stack.
#[inline(never)]
fn nodes_in<A: Allocator>(
    items: Items<'_, A>,
    pairs: &[Value<A>],
    window: usize,
    limit: u128,
) -> Option<u128>
    requires { window ≤ length (item_trees items) / 4096 }
    ensures { SomeIff result
        (sizes (trees_of (take 4096 (drop (window * 4096) (overwritten (item_trees items.entry)
        (writes_of (length (item_trees items.entry)) (map tree_of pairs.now)))))) ≤ limit)
        (sizes (trees_of (take 4096 (drop (window * 4096) (overwritten (item_trees items.entry)
        (writes_of (length (item_trees items.entry)) (map tree_of pairs.now))))))) }
{
    let last = last_writers(pairs, items.len(), window);
    let start = window * TABLE;
    let mut used = 0;
    for offset in 0..TABLE.min(items.len() - start) {
        let element = items.at(start + offset);
        used += nodes_at(element, pairs, last[offset], limit - used)?;
    }
    Some(used)
}

// The numbers of the pairs that write last to the places of a window, counted from 1.
fn last_writers<A: Allocator>(pairs: &[Value<A>], len: usize, window: usize) -> [usize; 4096]
    ensures { (q : ℕ) → q < 4096 → told_by (map tree_of pairs.now) (slice_index result q)
        ≡ arrival (reverse (writes_of len (map tree_of pairs.now))) (window * 4096 + q) }
{
    let mut last = [0; 4096];
    for number in 0..pairs.len() {
        if let Some(place) = written_place(&pairs[number], len) {
            if place / TABLE == window {
                last[place % TABLE] = number + 1;
            }
        }
    }
    last
}

// What the pair of that number writes, counted from 1.
fn told_by<A: Allocator>(pairs: &[Value<A>], number: usize) -> Option<&Value<A>>
    ensures { option_map (λ v. tree_of v.now) result ≡ told_by (map tree_of pairs.now) number }
{
    if number == 0 || number > pairs.len() {
        return None;
    }
    second_of(&pairs[number - 1])
}

fn second_of<A: Allocator>(pair: &Value<A>) -> Option<&Value<A>>
    ensures { option_map (λ v. tree_of v.now) result
        ≡ option_map (λ p. p.1) (as_pair (tree_of pair.now)) }
{
    let (_, value) = pair.as_pair()?;
    Some(value)
}

// The nodes of what the pair of that number writes, or else of the element.
fn nodes_at<A: Allocator>(
    element: Element<'_, A>,
    pairs: &[Value<A>],
    number: usize,
    limit: u128,
) -> Option<u128>
    ensures { SomeIff result
        (size (unwrap_or (told_by (map tree_of pairs.now) number) (element_tree element.entry)) ≤ limit)
        (size (unwrap_or (told_by (map tree_of pairs.now) number) (element_tree element.entry))) }
{
    match told_by(pairs, number) {
        Some(value) => value_nodes(value, limit),
        None => match element {
            Element::Int(_) | Element::Bool(_) | Element::Char(_) => leaves(1, limit),
            Element::Node(value) => value_nodes(value, limit),
        },
    }
}

// The sequence after all writes: packed where all that is written is alike.
pub(crate) fn overwritten_copy<A: Allocator + Copy>(
    alloc: A,
    items: Items<'_, A>,
    pairs: &[Value<A>],
) -> Result<Value<A>, AllocError>
    ensures { IfOk result (λ v. tree_of v ≡ sequence (overwritten (item_trees items.entry)
        (writes_of (length (item_trees items.entry)) (map tree_of pairs.now)))) }
{
    match packed_copy(alloc, items, pairs)? {
        Some(value) => Ok(value),
        None => Value::sequence(alloc, overwritten_values(alloc, items, pairs)?),
    }
}

// The sequence after all writes, packed, where all that is written is such a leaf as the items.
fn packed_copy<A: Allocator + Copy>(
    alloc: A,
    items: Items<'_, A>,
    pairs: &[Value<A>],
) -> Result<Option<Value<A>>, AllocError>
    ensures { IfOk result (λ o. IfSome o (λ v. tree_of v
        ≡ sequence (overwritten (item_trees items.entry)
        (writes_of (length (item_trees items.entry)) (map tree_of pairs.now))))) }
{
    match items {
        Items::Ints(ints) => match overwritten_leaves(alloc, ints, pairs)? {
            Some(made) => Ok(Some(Value::ints(alloc, made)?)),
            None => Ok(None),
        },
        Items::Bools(bools) => match overwritten_leaves(alloc, bools, pairs)? {
            Some(made) => Ok(Some(Value::bools(alloc, made)?)),
            None => Ok(None),
        },
        Items::Chars(chars) => match overwritten_leaves(alloc, chars, pairs)? {
            Some(made) => Ok(Some(Value::chars(alloc, made)?)),
            None => Ok(None),
        },
        Items::Values(_) => Ok(None),
    }
}

/// A leaf as a packed sequence holds it.
trait Leaf: Copy {
    ghost leaf: { Self → ValueTree };

    fn of<A: Allocator>(value: &Value<A>) -> Option<Self>
        ensures { IfSome result (λ x. tree_of value.now ≡ leaf x) };
}

impl Leaf for i64 {
    ghost leaf = { int };

    fn of<A: Allocator>(value: &Value<A>) -> Option<i64> {
        value.as_int()
    }
}

impl Leaf for bool {
    ghost leaf = { boolean };

    fn of<A: Allocator>(value: &Value<A>) -> Option<bool> {
        value.as_bool()
    }
}

impl Leaf for u8 {
    ghost leaf = { character };

    fn of<A: Allocator>(value: &Value<A>) -> Option<u8> {
        value.as_char()
    }
}

// The leaves after all writes, where all that is written are such leaves.
fn overwritten_leaves<T: Leaf, A: Allocator>(
    alloc: A,
    items: &[T],
    pairs: &[Value<A>],
) -> Result<Option<Vec<T, A>>, AllocError>
    ensures { IfOk result (λ o. IfSome o (λ v. map T.leaf v.items
        ≡ overwritten (map T.leaf items.now)
        (writes_of (length items.now) (map tree_of pairs.now)))) }
{
    let mut made = Vec::from_slice(alloc, items)?;
    for pair in pairs {
        if let Some((place, value)) = write_of(pair, items.len()) {
            match T::of(value) {
                Some(leaf) => made[place] = leaf,
                None => return Ok(None),
            }
        }
    }
    Ok(Some(made))
}

fn overwritten_values<A: Allocator + Copy>(
    alloc: A,
    items: Items<'_, A>,
    pairs: &[Value<A>],
) -> Result<Vec<Value<A>, A>, AllocError>
    ensures { IfOk result (λ v. map tree_of v.items
        ≡ overwritten (item_trees items.entry)
        (writes_of (length (item_trees items.entry)) (map tree_of pairs.now))) }
{
    let mut made = copied_values(alloc, items)?;
    for pair in pairs {
        if let Some((place, value)) = write_of(pair, items.len()) {
            made[place] = value.share()?;
        }
    }
    Ok(made)
}

// The items as values of their own.
fn copied_values<A: Allocator + Copy>(
    alloc: A,
    items: Items<'_, A>,
) -> Result<Vec<Value<A>, A>, AllocError>
    ensures { IfOk result (λ v. map tree_of v.items ≡ item_trees items.entry) }
{
    let mut made = Vec::with_capacity(alloc, items.len())?;
    for place in 0..items.len() {
        made.push(items.at(place).share()?)?;
    }
    Ok(made)
}
