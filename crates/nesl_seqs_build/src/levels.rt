// Sequences of sequences.
ghost use Rattle.std.specs.Prelude.{◌≡◌, ◌+◌, ◌-◌, ◌≤◌, ℤ, pos, List, Some, None, length, map, take, drop, slice_range};
ghost use Rattle.std.specs.Prelude.{is_some, option_map, unwrap_or, unsigned_abs, true, IfOk, IfSome, IsSome, SomeIff};
ghost use Rattle.std.specs.List.{flat_map, list_all};
ghost use Rattle.nesl_values.specs.Tree.{sequence, size};
ghost use Rattle.nesl_values.specs.Parts.{as_int, as_sequence, elements};
ghost use Rattle.nesl_values.specs.View.{tree_of, item_trees};
ghost use Rattle.nesl_seqs_base.specs.Lent.{argument_tree};
ghost use Rattle.nesl_seqs_base.specs.Levels.{sequences, are_lengths, pieces, Checks};
ghost use Rattle.nesl_seqs_base.specs.Reductions.{all_of};
ghost use Rattle.nesl_seqs_base.specs.Meaning.{outcome_of};
ghost use Rattle.nesl_seqs_base.specs.Prices.{reads, price};
ghost use Rattle.nesl_seqs_build.specs.Plans.{Plans, counts_in};
ghost use Rattle.nesl_seqs_base.specs.declared.seq_fn.SeqFn.TheVariants.{Flatten, Partition};

use crate::plan::Plan;
use nesl_scalars::Trap;
use nesl_seqs_base::argument::Argument;
use nesl_seqs_base::arguments::{WRONG_SHAPE, sequence, two_sequences};
use nesl_seqs_base::copies::{copy_of, extend};
use nesl_seqs_base::item::{Item, unpacked};
use nesl_seqs_base::nodes::{price_of_more, price_without_roots};
use nesl_seqs_base::price::Price;
use nesl_values::{Items, Value};
use nesl_values_builder::SequenceBuilder;
use std::alloc::{AllocError, Allocator};

fn are_sequences<A: Allocator>(values: &[Value<A>]) -> bool
    ensures { result ≡ list_all (λ v. is_some (as_sequence (tree_of v))) values.now }
{
    values.iter().all(|value| value.sequence_len().is_some())
}

/// The sequences of which it is a sequence.
fn sequences<A: Allocator>(argument: Argument<'_, A>) -> Option<&[Value<A>]>
    ensures some { IfSome result (λ values.
        (as_sequence (argument_tree argument.entry) ≡ Some (map tree_of values.now))
        × IsSome (all_of as_sequence (map tree_of values.now))) }
    ensures none { result ≡ None → sequences (argument_tree argument.entry) ≡ None }
{
    let values = unpacked(sequence(argument)?)?;
    if are_sequences(values) {
        Some(values)
    } else {
        None
    }
}

pub fn plan_flatten<A: Allocator>(argument: Argument<'_, A>) -> Result<Plan<'_, A>, Trap>
    ensures { Plans (outcome_of Flatten (argument_tree argument.entry))
        (reads Flatten (argument_tree argument.entry)) result }
{
    match sequences(argument) {
        Some(values) => Ok(Plan::Flattened(values)),
        None => Err(WRONG_SHAPE),
    }
}

/// The price of the elements of these sequences, one after the other.
pub(crate) fn price_of_flattened<A: Allocator>(values: &[Value<A>], limit: u128) -> Option<Price>
    requires { IsSome (all_of as_sequence (map tree_of values.now)) }
    ensures { SomeIff result
        (1 + length values.now + (size (sequence (flat_map (λ v. elements (tree_of v)) values.now)) - 1) ≤ limit)
        (price (length values.now) 1 (sequence (flat_map (λ v. elements (tree_of v)) values.now))) }
{
    price_without_roots(values, 1, limit)
}

// How many elements all of them have.
fn length_of_all<A: Allocator>(values: &[Value<A>]) -> usize {
    let mut room: usize = 0;
    for value in values {
        room = room.saturating_add(value.items().len());
    }
    room
}

// The elements of all of them.
pub(crate) fn all_elements<A: Allocator + Copy>(
    alloc: A,
    values: &[Value<A>],
) -> Result<Value<A>, AllocError>
    ensures { IfOk result (λ v. tree_of v
        ≡ sequence (flat_map (λ v. elements (tree_of v)) values.now)) }
{
    let mut builder = SequenceBuilder::with_room(alloc, length_of_all(values));
    for value in values {
        extend(&mut builder, value.items())?;
    }
    builder.finish()
}

// Whether the counts are lengths of pieces of `len` items.
fn check_counts<A: Allocator>(counts: Items<'_, A>, len: usize) -> Result<(), Trap>
    ensures { Checks (option_map (are_lengths len) (all_of as_int (item_trees counts.entry))) result }
{
    match counts {
        Items::Ints(ints) => check(ints, len),
        Items::Bools(bools) => check(bools, len),
        Items::Chars(chars) => check(chars, len),
        Items::Values(values) => check(values, len),
    }
}

fn check<T: Item>(counts: &[T], len: usize) -> Result<(), Trap>
    ensures { Checks (option_map (are_lengths len) (all_of as_int (map T.tree counts.now))) result }
{
    let mut left = len;
    for count in counts {
        let Some(count) = count.as_int() else {
            return Err(WRONG_SHAPE);
        };
        if count < 0 || count as usize > left {
            return Err(Trap::Count);
        }
        left -= count as usize;
    }
    if left > 0 {
        return Err(Trap::Count);
    }
    Ok(())
}

pub fn plan_partition<A: Allocator>(argument: Argument<'_, A>) -> Result<Plan<'_, A>, Trap>
    ensures { Plans (outcome_of Partition (argument_tree argument.entry))
        (reads Partition (argument_tree argument.entry)) result }
{
    let Some((items, counts)) = two_sequences(argument) else {
        return Err(WRONG_SHAPE);
    };
    check_counts(counts, items.len())?;
    Ok(Plan::Pieces { items, counts })
}

/// The price of pieces of these lengths.
pub(crate) fn price_of_pieces<A: Allocator>(
    items: Items<'_, A>,
    counts: Items<'_, A>,
    limit: u128,
) -> Option<Price>
    requires counts { IsSome (all_of as_int (item_trees counts)) }
    requires lengths { are_lengths (length (item_trees items)) (counts_in (item_trees counts)) ≡ true }
    ensures { let t = sequence (map sequence (pieces (item_trees items.entry) (counts_in (item_trees counts.entry)))) in
        let read = length (item_trees items.entry) + length (item_trees counts.entry) in
        SomeIff result (1 + read + (size t - 1) ≤ limit) (price read 1 t) }
{
    let pieces = counts.len() as u128;
    price_of_more(items, 1 + pieces, items.len() as u128 + pieces, limit)
}

// The pieces of these lengths. Counts that are not packed are packed first.
pub(crate) fn partition_by<A: Allocator + Copy>(
    alloc: A,
    items: Items<'_, A>,
    counts: Items<'_, A>,
) -> Result<Value<A>, AllocError>
    ensures { IfOk result (λ v. (zs : List ℤ) → all_of as_int (item_trees counts.entry) ≡ Some zs
        → tree_of v ≡ sequence (map sequence (pieces (item_trees items.entry) zs))) }
{
    match counts {
        Items::Ints(ints) => all_pieces(alloc, items, ints),
        Items::Values(values) => {
            let ints = packed_numbers(alloc, values)?;
            all_pieces(alloc, items, &ints)
        }
        Items::Bools(_) => all_pieces(alloc, items, &[]),
        Items::Chars(_) => all_pieces(alloc, items, &[]),
    }
}

fn packed_numbers<A: Allocator>(alloc: A, values: &[Value<A>]) -> Result<Vec<i64, A>, AllocError>
    ensures { IfOk result (λ v. v.items ≡ map (λ v. unwrap_or (as_int (tree_of v)) (pos 0)) values.now) }
{
    let mut ints = Vec::with_capacity(alloc, values.len())?;
    for value in values {
        ints.push(value.as_int().unwrap_or(0))?;
    }
    Ok(ints)
}

fn all_pieces<A: Allocator + Copy>(
    alloc: A,
    items: Items<'_, A>,
    counts: &[i64],
) -> Result<Value<A>, AllocError>
    ensures { IfOk result (λ v. tree_of v
        ≡ sequence (map sequence (pieces (item_trees items.entry) counts.now))) }
{
    let mut made = Vec::with_capacity(alloc, counts.len())?;
    let mut start = 0;
    for count in counts {
        let end = end_of(items, start, *count);
        made.push(copy_of(alloc, items.part(start, end))?)?;
        start = end;
    }
    Value::sequence(alloc, made)
}

// Where the piece that begins there ends: it has `count` items, or all that are left.
fn end_of<A: Allocator>(items: Items<'_, A>, start: usize, count: i64) -> usize
    requires { start ≤ length (item_trees items) }
    ensures within { (start ≤ result) × (result ≤ length (item_trees items.entry)) }
    ensures piece { slice_range (item_trees items.entry) start result
        ≡ take (unsigned_abs count) (drop start (item_trees items.entry)) }
    ensures rest { drop result (item_trees items.entry)
        ≡ drop (unsigned_abs count) (drop start (item_trees items.entry)) }
{
    let left = items.len() - start;
    start + left.min(count.unsigned_abs() as usize)
}
