// Every other element of a sequence, and sequences that are woven together.
ghost use Rattle.std.specs.Prelude.{◌≡◌, ◌+◌, ◌-◌, ◌*◌, ◌≤◌, ◌||◌, length, drop, map, nat_eq, IfOk, SomeIff};
ghost use Rattle.nesl_values.specs.Tree.{size, sizes, sequence, trees_of};
ghost use Rattle.nesl_values.specs.View.{tree_of, item_trees};
ghost use Rattle.nesl_seqs_base.specs.Lent.{argument_tree};
ghost use Rattle.nesl_seqs_base.specs.Woven.{evens, woven};
ghost use Rattle.nesl_seqs_base.specs.Meaning.{outcome_of};
ghost use Rattle.nesl_seqs_base.specs.Prices.{reads, price};
ghost use Rattle.nesl_seqs_index.specs.Plans.{Plans};
ghost use Rattle.nesl_seqs_base.specs.declared.seq_fn.SeqFn.TheVariants.{OddElts, EvenElts, Interleave};

use crate::plan::Plan;
use nesl_scalars::Trap;
use nesl_seqs_base::argument::Argument;
use nesl_seqs_base::arguments::{WRONG_SHAPE, sequence, two_sequences};
use nesl_seqs_base::copies::extend;
use nesl_seqs_base::nodes::{leaves, price_of_joined, value_nodes};
use nesl_seqs_base::price::Price;
use nesl_values::{Items, Value};
use nesl_values_builder::SequenceBuilder;
use std::alloc::{AllocError, Allocator};

pub fn plan_even_elts<A: Allocator>(argument: Argument<'_, A>) -> Result<Plan<'_, A>, Trap>
    ensures { Plans (outcome_of EvenElts (argument_tree argument.entry))
        (reads EvenElts (argument_tree argument.entry)) result }
{
    match sequence(argument) {
        Some(items) => Ok(Plan::EveryOther {
            items,
            read: items.len(),
        }),
        None => Err(WRONG_SHAPE),
    }
}

pub fn plan_odd_elts<A: Allocator>(argument: Argument<'_, A>) -> Result<Plan<'_, A>, Trap>
    ensures { Plans (outcome_of OddElts (argument_tree argument.entry))
        (reads OddElts (argument_tree argument.entry)) result }
{
    match sequence(argument) {
        Some(items) => Ok(Plan::EveryOther {
            items: all_but_first(items),
            read: items.len(),
        }),
        None => Err(WRONG_SHAPE),
    }
}

// All items but the first.
fn all_but_first<A: Allocator>(items: Items<'_, A>) -> Items<'_, A>
    ensures { item_trees result ≡ drop 1 (item_trees items.entry) }
{
    let len = items.len();
    items.part(len.min(1), len)
}

// The price of the first item, the third and so on, where the function reads `read` elements.
pub(crate) fn price_of_every_other<A: Allocator>(
    items: Items<'_, A>,
    read: u128,
    limit: u128,
) -> Option<Price>
    ensures { SomeIff result
        (1 + read + (size (sequence (evens (item_trees items.entry))) - 1) ≤ limit)
        (price read 1 (sequence (evens (item_trees items.entry)))) }
{
    if limit <= read {
        return None;
    }
    let below = nodes_of_every_other(items, limit - 1 - read)?;
    Some(Price {
        work: 1 + read + below,
        depth: 1,
        nodes: 1 + below,
    })
}

fn nodes_of_every_other<A: Allocator>(items: Items<'_, A>, limit: u128) -> Option<u128>
    ensures { SomeIff result
        (sizes (trees_of (evens (item_trees items.entry))) ≤ limit)
        (sizes (trees_of (evens (item_trees items.entry)))) }
{
    match items {
        Items::Values(values) => nodes_of_every_other_value(values, limit),
        packed => leaves(packed.len().div_ceil(2), limit),
    }
}

fn nodes_of_every_other_value<A: Allocator>(values: &[Value<A>], limit: u128) -> Option<u128>
    ensures { SomeIff result
        (sizes (trees_of (evens (map tree_of values.now))) ≤ limit)
        (sizes (trees_of (evens (map tree_of values.now)))) }
{
    let mut used = 0;
    for place in 0..values.len().div_ceil(2) {
        used += value_nodes(&values[2 * place], limit - used)?;
    }
    Some(used)
}

pub(crate) fn copy_of_every_other<A: Allocator + Copy>(
    alloc: A,
    items: Items<'_, A>,
) -> Result<Value<A>, AllocError>
    ensures { IfOk result (λ v. tree_of v ≡ sequence (evens (item_trees items.entry))) }
{
    match items {
        Items::Ints(ints) => Value::ints(alloc, every_other(alloc, ints)?),
        Items::Bools(bools) => Value::bools(alloc, every_other(alloc, bools)?),
        Items::Chars(chars) => Value::chars(alloc, every_other(alloc, chars)?),
        Items::Values(values) => Value::sequence(alloc, every_other_value(alloc, values)?),
    }
}

fn every_other<T: Copy, A: Allocator>(alloc: A, items: &[T]) -> Result<Vec<T, A>, AllocError>
    ensures { IfOk result (λ v. v.items ≡ evens items.now) }
{
    let count = items.len().div_ceil(2);
    let mut taken = Vec::with_capacity(alloc, count)?;
    for place in 0..count {
        taken.push(items[2 * place])?;
    }
    Ok(taken)
}

fn every_other_value<A: Allocator + Copy>(
    alloc: A,
    values: &[Value<A>],
) -> Result<Vec<Value<A>, A>, AllocError>
    ensures { IfOk result (λ v. map tree_of v.items ≡ evens (map tree_of values.now)) }
{
    let count = values.len().div_ceil(2);
    let mut taken = Vec::with_capacity(alloc, count)?;
    for place in 0..count {
        taken.push(values[2 * place].share()?)?;
    }
    Ok(taken)
}

// Whether sequences of these lengths can be woven.
fn can_weave(one: usize, other: usize) -> bool
    ensures { result ≡ (nat_eq one other || nat_eq one (other + 1)) }
{
    other <= one && one - other <= 1
}

pub fn plan_interleave<A: Allocator>(argument: Argument<'_, A>) -> Result<Plan<'_, A>, Trap>
    ensures { Plans (outcome_of Interleave (argument_tree argument.entry))
        (reads Interleave (argument_tree argument.entry)) result }
{
    let Some((one, other)) = two_sequences(argument) else {
        return Err(WRONG_SHAPE);
    };
    if !can_weave(one.len(), other.len()) {
        return Err(Trap::Length);
    }
    Ok(Plan::Woven(one, other))
}

#[tactic(auto, using(nesl_seqs_base::proofs::Weaving::size_woven))]
pub(crate) fn price_of_woven<A: Allocator>(
    one: Items<'_, A>,
    other: Items<'_, A>,
    limit: u128,
) -> Option<Price>
    ensures { SomeIff result
        (1 + (length (item_trees one.entry) + length (item_trees other.entry))
        + (size (sequence (woven (item_trees one.entry) (item_trees other.entry))) - 1) ≤ limit)
        (price (length (item_trees one.entry) + length (item_trees other.entry)) 1
        (sequence (woven (item_trees one.entry) (item_trees other.entry)))) }
{
    let read = one.len() as u128 + other.len() as u128;
    price_of_joined(one, other, read, limit)
}

pub(crate) fn woven_copy<A: Allocator + Copy>(
    alloc: A,
    one: Items<'_, A>,
    other: Items<'_, A>,
) -> Result<Value<A>, AllocError>
    requires { length (item_trees other) ≤ length (item_trees one) }
    ensures { IfOk result (λ v. tree_of v
        ≡ sequence (woven (item_trees one.entry) (item_trees other.entry))) }
{
    match (one, other) {
        (Items::Ints(one), Items::Ints(other)) => Value::ints(alloc, woven(alloc, one, other)?),
        (Items::Bools(one), Items::Bools(other)) => Value::bools(alloc, woven(alloc, one, other)?),
        (Items::Chars(one), Items::Chars(other)) => Value::chars(alloc, woven(alloc, one, other)?),
        _ => woven_items(alloc, one, other),
    }
}

fn woven<T: Copy, A: Allocator>(alloc: A, one: &[T], other: &[T]) -> Result<Vec<T, A>, AllocError>
    requires { length other.now ≤ length one.now }
    ensures { IfOk result (λ v. v.items ≡ woven one.now other.now) }
{
    let mut made = Vec::with_capacity(alloc, one.len().saturating_add(other.len()))?;
    for place in 0..other.len() {
        made.push(one[place])?;
        made.push(other[place])?;
    }
    made.extend_from_slice(&one[other.len()..])?;
    Ok(made)
}

// The items of the two in turn, where they are not packed alike.
fn woven_items<A: Allocator + Copy>(
    alloc: A,
    one: Items<'_, A>,
    other: Items<'_, A>,
) -> Result<Value<A>, AllocError>
    requires { length (item_trees other) ≤ length (item_trees one) }
    ensures { IfOk result (λ v. tree_of v
        ≡ sequence (woven (item_trees one.entry) (item_trees other.entry))) }
{
    let mut builder = SequenceBuilder::with_room(alloc, one.len().saturating_add(other.len()));
    for place in 0..other.len() {
        builder.push_shared(one.at(place))?;
        builder.push_shared(other.at(place))?;
    }
    extend(&mut builder, one.part(other.len(), one.len()))?;
    builder.finish()
}
