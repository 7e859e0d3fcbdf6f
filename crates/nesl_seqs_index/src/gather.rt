// Elements at the places that numbers name.
ghost use Rattle.std.specs.Prelude.{◌≡◌, ◌+◌, ◌-◌, ◌≤◌, length, map, IfOk, IsTrue, SomeIff, is_some};
ghost use Rattle.std.specs.List.{list_all};
ghost use Rattle.nesl_values.specs.Tree.{size, sizes, sequence, trees_of};
ghost use Rattle.nesl_values.specs.Parts.{as_int};
ghost use Rattle.nesl_values.specs.View.{tree_of, trees_view, item_trees};
ghost use Rattle.nesl_seqs_base.specs.Lent.{argument_tree};
ghost use Rattle.nesl_seqs_base.specs.Gather.{gathered};
ghost use Rattle.nesl_seqs_base.specs.Outcome.{OutcomeGives, if_there};
ghost use Rattle.nesl_seqs_base.specs.Meaning.{outcome_of};
ghost use Rattle.nesl_seqs_base.specs.Places.{elements_at, place_of, places_of};
ghost use Rattle.nesl_seqs_base.specs.Prices.{reads, price};
ghost use Rattle.nesl_seqs_index.specs.Plans.{Plans};
ghost use Rattle.nesl_seqs_base.specs.Reductions.{all_of};
ghost use Rattle.nesl_seqs_base.specs.declared.seq_fn.SeqFn.TheVariants.{Gather};

use crate::plan::Plan;
use nesl_scalars::Trap;
use nesl_seqs_base::argument::Argument;
use nesl_seqs_base::arguments::{WRONG_SHAPE, two_sequences};
use nesl_seqs_base::item::Item;
use nesl_seqs_base::nodes::{leaves, value_nodes};
use nesl_seqs_base::places::place_of;
use nesl_seqs_base::price::Price;
use nesl_values::{Items, Value};
use std::alloc::{AllocError, Allocator};

/// The plan of `v -> i`.
pub fn plan_gather<A: Allocator>(argument: Argument<'_, A>) -> Result<Plan<'_, A>, Trap>
    ensures { Plans (outcome_of Gather (argument_tree argument.entry))
        (reads Gather (argument_tree argument.entry)) result }
{
    let Some((items, indices)) = two_sequences(argument) else {
        return Err(WRONG_SHAPE);
    };
    check_indices(items, indices)?;
    Ok(Plan::Gathered { items, indices })
}

/// Whether each index names a place in a sequence of that length.
pub fn all_name<I: Item>(indices: &[I], len: usize) -> bool
    ensures { result ≡ list_all (λ i. is_some (place_of len (I.tree i))) indices.now }
{
    let mut all = true;
    for index in indices {
        all &= place_of(index, len).is_some();
    }
    all
}

// Whether each index is a number that names a place, and else the fault.
fn check_named<A: Allocator, I: Item>(items: Items<'_, A>, indices: &[I]) -> Result<(), Trap>
    ensures { OutcomeGives (λ t _. (t ≡ sequence (elements_at (item_trees items.entry)
        (places_of (length (item_trees items.entry)) (map I.tree indices.now))))
        × IsTrue (list_all (λ t. is_some (place_of (length (item_trees items.entry)) t)) (map I.tree indices.now)))
        (if_there (all_of as_int (map I.tree indices.now)) (gathered (item_trees items.entry))) result }
{
    if !all_name(indices, items.len()) {
        return Err(Trap::Range);
    }
    Ok(())
}

fn check_indices<A: Allocator>(items: Items<'_, A>, indices: Items<'_, A>) -> Result<(), Trap>
    ensures { OutcomeGives (λ t _. (t ≡ sequence (elements_at (item_trees items.entry)
        (places_of (length (item_trees items.entry)) (item_trees indices.entry))))
        × IsTrue (list_all (λ t. is_some (place_of (length (item_trees items.entry)) t)) (item_trees indices.entry)))
        (if_there (all_of as_int (item_trees indices.entry)) (gathered (item_trees items.entry))) result }
{
    match indices {
        Items::Ints(indices) => check_named(items, indices),
        Items::Bools(indices) => check_named(items, indices),
        Items::Chars(indices) => check_named(items, indices),
        Items::Values(indices) => check_named(items, indices),
    }
}

/// The price of the elements at the indices.
pub(crate) fn price_of_gathered<A: Allocator>(
    items: Items<'_, A>,
    indices: Items<'_, A>,
    limit: u128,
) -> Option<Price>
    requires { IsTrue (list_all (λ t. is_some (place_of (length (item_trees items)) t)) (item_trees indices)) }
    ensures { let t = sequence (elements_at (item_trees items.entry)
        (places_of (length (item_trees items.entry)) (item_trees indices.entry))) in
        let read = length (item_trees items.entry) + length (item_trees indices.entry) in
        SomeIff result (1 + read + (size t - 1) ≤ limit) (price read 1 t) }
{
    match indices {
        Items::Ints(indices) => price_of_picked(items, indices, limit),
        Items::Bools(indices) => price_of_picked(items, indices, limit),
        Items::Chars(indices) => price_of_picked(items, indices, limit),
        Items::Values(indices) => price_of_picked(items, indices, limit),
    }
}

fn price_of_picked<A: Allocator, I: Item>(
    items: Items<'_, A>,
    indices: &[I],
    limit: u128,
) -> Option<Price>
    requires { IsTrue (list_all
        (λ i. is_some (place_of (length (item_trees items)) (I.tree i))) indices.now) }
    ensures { SomeIff result
        (1 + (length (item_trees items.entry) + length indices.now)
        + (size (sequence (elements_at (item_trees items.entry)
        (places_of (length (item_trees items.entry)) (map I.tree indices.now)))) - 1) ≤ limit)
        (price (length (item_trees items.entry) + length indices.now) 1
        (sequence (elements_at (item_trees items.entry)
        (places_of (length (item_trees items.entry)) (map I.tree indices.now))))) }
{
    let read = items.len() as u128 + indices.len() as u128;
    if limit <= read {
        return None;
    }
    let below = picked_nodes(items, indices, limit - 1 - read)?;
    Some(Price {
        work: 1 + read + below,
        depth: 1,
        nodes: 1 + below,
    })
}

// The nodes of the elements that are picked.
fn picked_nodes<A: Allocator, I: Item>(
    items: Items<'_, A>,
    indices: &[I],
    limit: u128,
) -> Option<u128>
    requires { IsTrue (list_all
        (λ i. is_some (place_of (length (item_trees items)) (I.tree i))) indices.now) }
    ensures { SomeIff result
        (sizes (trees_of (elements_at (item_trees items.entry)
        (places_of (length (item_trees items.entry)) (map I.tree indices.now)))) ≤ limit)
        (sizes (trees_of (elements_at (item_trees items.entry)
        (places_of (length (item_trees items.entry)) (map I.tree indices.now))))) }
{
    match items {
        Items::Ints(_) => leaves(indices.len(), limit),
        Items::Bools(_) => leaves(indices.len(), limit),
        Items::Chars(_) => leaves(indices.len(), limit),
        Items::Values(values) => nodes_of_picked(values, indices, limit),
    }
}

fn nodes_of_picked<A: Allocator, I: Item>(
    values: &[Value<A>],
    indices: &[I],
    limit: u128,
) -> Option<u128>
    ensures { SomeIff result
        (sizes (trees_view (elements_at values.now
        (places_of (length values.now) (map I.tree indices.now)))) ≤ limit)
        (sizes (trees_view (elements_at values.now
        (places_of (length values.now) (map I.tree indices.now))))) }
{
    let mut used = 0;
    for index in indices {
        if let Some(place) = place_of(index, values.len()) {
            used += value_nodes(&values[place], limit - used)?;
        }
    }
    Some(used)
}

/// The sequence of the elements at the indices.
pub(crate) fn copy_of_gathered<A: Allocator + Copy>(
    alloc: A,
    items: Items<'_, A>,
    indices: Items<'_, A>,
) -> Result<Value<A>, AllocError>
    ensures { IfOk result (λ v. tree_of v ≡ sequence (elements_at (item_trees items.entry)
        (places_of (length (item_trees items.entry)) (item_trees indices.entry)))) }
{
    match indices {
        Items::Ints(indices) => picked_copy(alloc, items, indices),
        Items::Bools(indices) => picked_copy(alloc, items, indices),
        Items::Chars(indices) => picked_copy(alloc, items, indices),
        Items::Values(indices) => picked_copy(alloc, items, indices),
    }
}

/// The sequence of the elements at the places that the indices name.
pub fn picked_copy<A: Allocator + Copy, I: Item>(
    alloc: A,
    items: Items<'_, A>,
    indices: &[I],
) -> Result<Value<A>, AllocError>
    ensures { IfOk result (λ v. tree_of v ≡ sequence (elements_at (item_trees items.entry)
        (places_of (length (item_trees items.entry)) (map I.tree indices.now)))) }
{
    match items {
        Items::Ints(ints) => Value::ints(alloc, picked(alloc, ints, indices)?),
        Items::Bools(bools) => Value::bools(alloc, picked(alloc, bools, indices)?),
        Items::Chars(chars) => Value::chars(alloc, picked(alloc, chars, indices)?),
        Items::Values(values) => Value::sequence(alloc, picked_values(alloc, values, indices)?),
    }
}

fn picked<T: Copy, A: Allocator, I: Item>(
    alloc: A,
    items: &[T],
    indices: &[I],
) -> Result<Vec<T, A>, AllocError>
    ensures { IfOk result (λ v. v.items
        ≡ elements_at items.now (places_of (length items.now) (map I.tree indices.now))) }
{
    let mut made = Vec::with_capacity(alloc, indices.len())?;
    for index in indices {
        if let Some(place) = place_of(index, items.len()) {
            made.push_reserved(items[place]);
        }
    }
    Ok(made)
}

fn picked_values<A: Allocator + Copy, I: Item>(
    alloc: A,
    values: &[Value<A>],
    indices: &[I],
) -> Result<Vec<Value<A>, A>, AllocError>
    ensures { IfOk result (λ v. map tree_of v.items
        ≡ map tree_of (elements_at values.now
        (places_of (length values.now) (map I.tree indices.now)))) }
{
    let mut made = Vec::with_capacity(alloc, indices.len())?;
    for index in indices {
        if let Some(place) = place_of(index, values.len()) {
            made.push(values[place].share()?)?;
        }
    }
    Ok(made)
}
