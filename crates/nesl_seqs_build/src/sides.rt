// Sequences that are taken apart in two.
ghost use Rattle.std.specs.Prelude.{◌≡◌, ◌+◌, ◌-◌, ◌≤◌, ◌++◌, ◌∷◌, Bool, true, false, List, [], Some, None, length};
ghost use Rattle.std.specs.Prelude.{is_some, map, unwrap_or, IfOk, IfSome, IsSome, OnOk, SomeIff};
ghost use Rattle.std.specs.List.{list_all};
ghost use Rattle.nesl_values.specs.Tree.{ValueTree, pair, sequence, size};
ghost use Rattle.nesl_values.specs.Parts.{as_bool, as_pair, as_sequence};
ghost use Rattle.nesl_values.specs.View.{tree_of, item_trees};
ghost use Rattle.nesl_values_builder.specs.Elements.{elements_of};
ghost use Rattle.nesl_seqs_base.specs.Lent.{argument_tree};
ghost use Rattle.nesl_seqs_base.specs.Reductions.{all_of};
ghost use Rattle.nesl_seqs_base.specs.Pieces.{sequence_of_two};
ghost use Rattle.nesl_seqs_base.specs.Sides.{sequence_of_pairs, marked};
ghost use Rattle.nesl_seqs_base.specs.Meaning.{outcome_of};
ghost use Rattle.nesl_seqs_base.specs.Prices.{reads, price};
ghost use Rattle.nesl_seqs_build.specs.Plans.{Plans, flags_in, pairs_in, sides};
ghost use Rattle.nesl_seqs_base.specs.declared.seq_fn.SeqFn.TheVariants.{Unzip, Split};

use crate::building::{finished, sequence_of_two};
use crate::plan::Plan;
use nesl_scalars::Trap;
use nesl_seqs_base::argument::Argument;
use nesl_seqs_base::arguments::{WRONG_SHAPE, sequence, two_sequences};
use nesl_seqs_base::item::unpacked;
use nesl_seqs_base::nodes::{price_of_more, price_without_roots};
use nesl_seqs_base::price::Price;
use nesl_values::{Element, Items, Value};
use nesl_values_builder::SequenceBuilder;
use std::alloc::{AllocError, Allocator};

fn is_pair<A: Allocator>(value: &Value<A>) -> bool
    ensures { result ≡ is_some (as_pair (tree_of value.now)) }
{
    value.as_pair().is_some()
}

fn are_pairs<A: Allocator>(values: &[Value<A>]) -> bool
    ensures { result ≡ list_all (λ v. is_some (as_pair (tree_of v))) values.now }
{
    values.iter().all(|value| is_pair(value))
}

/// Its elements, where it is a sequence that can be one of pairs.
fn sequence_of_values<A: Allocator>(argument: Argument<'_, A>) -> Option<&[Value<A>]>
    ensures some { IfSome result (λ values.
        as_sequence (argument_tree argument.entry) ≡ Some (map tree_of values.now)) }
    ensures none { result ≡ None → sequence_of_pairs (argument_tree argument.entry) ≡ None }
{
    unpacked(sequence(argument)?)
}

/// The pairs of which it is a sequence.
fn sequence_of_pairs<A: Allocator>(argument: Argument<'_, A>) -> Option<&[Value<A>]>
    ensures some { IfSome result (λ values.
        (as_sequence (argument_tree argument.entry) ≡ Some (map tree_of values.now))
        × IsSome (all_of as_pair (map tree_of values.now))) }
    ensures none { result ≡ None → sequence_of_pairs (argument_tree argument.entry) ≡ None }
{
    let values = sequence_of_values(argument)?;
    if are_pairs(values) {
        Some(values)
    } else {
        None
    }
}

pub fn plan_unzip<A: Allocator>(argument: Argument<'_, A>) -> Result<Plan<'_, A>, Trap>
    ensures { Plans (outcome_of Unzip (argument_tree argument.entry))
        (reads Unzip (argument_tree argument.entry)) result }
{
    match sequence_of_pairs(argument) {
        Some(values) => Ok(Plan::Unzipped(values)),
        None => Err(WRONG_SHAPE),
    }
}

/// The price of the two sides of these pairs.
pub(crate) fn price_of_unzipped<A: Allocator>(values: &[Value<A>], limit: u128) -> Option<Price>
    requires { IsSome (all_of as_pair (map tree_of values.now)) }
    ensures { SomeIff result
        (1 + length values.now + (size (sides (pairs_in (map tree_of values.now))) - 1) ≤ limit)
        (price (length values.now) 1 (sides (pairs_in (map tree_of values.now)))) }
{
    price_without_roots(values, 3, limit)
}

// The left parts and the right ones.
pub(crate) fn both_sides<A: Allocator + Copy>(
    alloc: A,
    values: &[Value<A>],
) -> Result<Value<A>, AllocError>
    ensures { IfOk result (λ v. (ps : List (ValueTree × ValueTree)) → all_of as_pair (map tree_of values.now) ≡ Some ps
        → tree_of v ≡ pair (sequence (map (λ p. p.0) ps)) (sequence (map (λ p. p.1) ps))) }
{
    let mut lefts = SequenceBuilder::with_room(alloc, values.len());
    let mut rights = SequenceBuilder::with_room(alloc, values.len());
    let outcome = push_sides(&mut lefts, &mut rights, values);
    let lefts = finished(lefts, outcome);
    let rights = finished(rights, outcome);
    pair_of_made(alloc, lefts, rights)
}

// The pair of the two, where both were made.
fn pair_of_made<A: Allocator + Copy>(
    alloc: A,
    lefts: Result<Value<A>, AllocError>,
    rights: Result<Value<A>, AllocError>,
) -> Result<Value<A>, AllocError>
    ensures { (a : ValueTree) (b : ValueTree) → IfOk lefts (λ v. tree_of v ≡ a)
        → IfOk rights (λ v. tree_of v ≡ b) → IfOk result (λ v. tree_of v ≡ pair a b) }
{
    match (lefts, rights) {
        (Ok(lefts), Ok(rights)) => Value::pair(alloc, lefts, rights),
        _ => Err(AllocError),
    }
}

fn push_sides<A: Allocator + Copy>(
    lefts: &mut SequenceBuilder<A>,
    rights: &mut SequenceBuilder<A>,
    values: &[Value<A>],
) -> Result<(), AllocError>
    ensures lefts { (ps : List (ValueTree × ValueTree)) → all_of as_pair (map tree_of values.now) ≡ Some ps
        → OnOk result (elements_of lefts.new ≡ elements_of lefts.old ++ map (λ p. p.0) ps) }
    ensures rights { (ps : List (ValueTree × ValueTree)) → all_of as_pair (map tree_of values.now) ≡ Some ps
        → OnOk result (elements_of rights.new ≡ elements_of rights.old ++ map (λ p. p.1) ps) }
{
    for value in values {
        if let Some((left, right)) = value.as_pair() {
            push_part(lefts, left)?;
            push_part(rights, right)?;
        }
    }
    Ok(())
}

// Adds an element at the end, which stays where it is too. A number needs no look at what is shared.
fn push_part<A: Allocator + Copy>(
    builder: &mut SequenceBuilder<A>,
    part: &Value<A>,
) -> Result<(), AllocError>
    ensures { OnOk result (elements_of builder.new ≡ elements_of builder.old ++ tree_of part.now ∷ []) }
{
    match part.as_int() {
        Some(n) => builder.push_int(n),
        None => builder.push_shared(Element::Node(part)),
    }
}

fn are_truths<A: Allocator>(flags: Items<'_, A>) -> bool
    ensures { result ≡ is_some (all_of as_bool (item_trees flags.entry)) }
{
    match flags {
        Items::Bools(_) => true,
        Items::Ints(ints) => ints.is_empty(),
        Items::Chars(chars) => chars.is_empty(),
        Items::Values(values) => are_all_truths(values),
    }
}

fn are_all_truths<A: Allocator>(values: &[Value<A>]) -> bool
    ensures { result ≡ list_all (λ v. is_some (as_bool (tree_of v))) values.now }
{
    values.iter().all(|value| value.as_bool().is_some())
}

pub fn plan_split<A: Allocator>(argument: Argument<'_, A>) -> Result<Plan<'_, A>, Trap>
    ensures { Plans (outcome_of Split (argument_tree argument.entry))
        (reads Split (argument_tree argument.entry)) result }
{
    let Some((items, flags)) = two_sequences(argument) else {
        return Err(WRONG_SHAPE);
    };
    if !are_truths(flags) {
        return Err(WRONG_SHAPE);
    }
    if items.len() != flags.len() {
        return Err(Trap::Length);
    }
    Ok(Plan::Split { items, flags })
}

/// The price of the items with `F` and those with `T`.
pub(crate) fn price_of_sides<A: Allocator>(
    items: Items<'_, A>,
    flags: Items<'_, A>,
    limit: u128,
) -> Option<Price>
    requires flags { IsSome (all_of as_bool (item_trees flags)) }
    requires lengths { length (item_trees items) ≡ length (item_trees flags) }
    ensures { let bs = flags_in (item_trees flags.entry) in
        let t = sequence_of_two (marked false (item_trees items.entry) bs) (marked true (item_trees items.entry) bs) in
        let read = length (item_trees items.entry) + length (item_trees flags.entry) in
        SomeIff result (1 + read + (size t - 1) ≤ limit) (price read 1 t) }
{
    let read = items.len() as u128 + flags.len() as u128;
    price_of_more(items, 3, read, limit)
}

// The items with `F` and those with `T`. Flags that are not packed are packed first.
pub(crate) fn split_by<A: Allocator + Copy>(
    alloc: A,
    items: Items<'_, A>,
    flags: Items<'_, A>,
) -> Result<Value<A>, AllocError>
    ensures { IfOk result (λ v. (bs : List Bool) → all_of as_bool (item_trees flags.entry) ≡ Some bs
        → tree_of v
        ≡ sequence_of_two (marked false (item_trees items.entry) bs) (marked true (item_trees items.entry) bs)) }
{
    match flags {
        Items::Bools(bools) => both_pieces(alloc, items, bools),
        Items::Values(values) => {
            let bools = packed_truths(alloc, values)?;
            both_pieces(alloc, items, &bools)
        }
        Items::Ints(_) => both_pieces(alloc, items, &[]),
        Items::Chars(_) => both_pieces(alloc, items, &[]),
    }
}

fn packed_truths<A: Allocator>(alloc: A, values: &[Value<A>]) -> Result<Vec<bool, A>, AllocError>
    ensures { IfOk result (λ v. v.items ≡ map (λ v. unwrap_or (as_bool (tree_of v)) false) values.now) }
{
    let mut bools = Vec::with_capacity(alloc, values.len())?;
    for value in values {
        bools.push(value.as_bool().unwrap_or(false))?;
    }
    Ok(bools)
}

fn both_pieces<A: Allocator + Copy>(
    alloc: A,
    items: Items<'_, A>,
    flags: &[bool],
) -> Result<Value<A>, AllocError>
    ensures { IfOk result (λ v. tree_of v
        ≡ sequence_of_two (marked false (item_trees items.entry) flags.now)
        (marked true (item_trees items.entry) flags.now)) }
{
    let apart = items_beside(alloc, items, flags, false)?;
    let chosen = items_beside(alloc, items, flags, true)?;
    sequence_of_two(alloc, apart, chosen)
}

// The items that have that flag beside them.
fn items_beside<A: Allocator + Copy>(
    alloc: A,
    items: Items<'_, A>,
    flags: &[bool],
    wanted: bool,
) -> Result<Value<A>, AllocError>
    ensures { IfOk result (λ v. tree_of v
        ≡ sequence (marked wanted (item_trees items.entry) flags.now)) }
{
    match items {
        Items::Ints(ints) => Value::ints(alloc, beside(alloc, ints, flags, wanted)?),
        Items::Bools(bools) => Value::bools(alloc, beside(alloc, bools, flags, wanted)?),
        Items::Chars(chars) => Value::chars(alloc, beside(alloc, chars, flags, wanted)?),
        Items::Values(values) => Value::sequence(
            alloc,
            values_beside(alloc, values, flags, wanted)?,
        ),
    }
}

fn count_equal(flags: &[bool], wanted: bool) -> usize {
    flags.iter().filter(|flag| **flag == wanted).count()
}

fn beside<T: Copy, A: Allocator>(
    alloc: A,
    items: &[T],
    flags: &[bool],
    wanted: bool,
) -> Result<Vec<T, A>, AllocError>
    ensures { IfOk result (λ v. v.items ≡ marked wanted items.now flags.now) }
{
    let mut kept = Vec::with_capacity(alloc, count_equal(flags, wanted))?;
    for place in 0..items.len().min(flags.len()) {
        if flags[place] == wanted {
            kept.push(items[place])?;
        }
    }
    Ok(kept)
}

fn values_beside<A: Allocator + Copy>(
    alloc: A,
    values: &[Value<A>],
    flags: &[bool],
    wanted: bool,
) -> Result<Vec<Value<A>, A>, AllocError>
    ensures { IfOk result (λ v. map tree_of v.items ≡ marked wanted (map tree_of values.now) flags.now) }
{
    let mut kept = Vec::with_capacity(alloc, count_equal(flags, wanted))?;
    for place in 0..values.len().min(flags.len()) {
        if flags[place] == wanted {
            kept.push(values[place].share()?)?;
        }
    }
    Ok(kept)
}
