// Sequences that are parts of others, or that are put together from them.
ghost use Rattle.std.specs.Prelude.{◌≡◌, ◌+◌, ◌-◌, ◌/◌, ◌<◌, ◌≤◌, ◌^◌, length, reverse, MatchResult, IfOk, SomeIff};
ghost use Rattle.nesl_values.specs.Tree.{sequence, size};
ghost use Rattle.nesl_values.specs.View.{tree_of, element_tree, item_trees};
ghost use Rattle.nesl_seqs_base.specs.Lent.{argument_tree};
ghost use Rattle.nesl_seqs_base.specs.Outcome.{gives, traps};
ghost use Rattle.nesl_seqs_base.specs.Pieces.{element_at, taken, dropped, places_on, sequence_of_two};
ghost use Rattle.nesl_seqs_base.specs.Meaning.{outcome_of};
ghost use Rattle.nesl_seqs_base.specs.Prices.{reads, price};
ghost use Rattle.nesl_seqs_build.specs.Plans.{Plans};
ghost use Rattle.nesl_seqs_base.specs.declared.seq_fn.SeqFn.TheVariants.{Length, ElementAt, Append, Bottop, Take, Drop};
ghost use Rattle.nesl_seqs_base.specs.declared.seq_fn.SeqFn.TheVariants.{Reverse, Rotate};

use crate::building::sequence_of_two;
use crate::plan::Plan;
use nesl_scalars::Trap;
use nesl_seqs_base::argument::Argument;
use nesl_seqs_base::arguments::{WRONG_SHAPE, sequence, sequence_and_int, two_sequences};
use nesl_seqs_base::copies::copy_of;
use nesl_seqs_base::nodes::price_of_items;
use nesl_seqs_base::price::Price;
use nesl_values::{Element, Items, Value};
use std::alloc::{AllocError, Allocator};

/// The plan of `#v`.
pub fn plan_length<A: Allocator>(argument: Argument<'_, A>) -> Result<Plan<'_, A>, Trap>
    ensures { Plans (outcome_of Length (argument_tree argument.entry))
        (reads Length (argument_tree argument.entry)) result }
{
    match sequence(argument) {
        Some(items) => Ok(Plan::Length(items.len() as i64)),
        None => Err(WRONG_SHAPE),
    }
}

// The element at a place.
fn element_at<A: Allocator>(items: Items<'_, A>, place: i64) -> Result<Element<'_, A>, Trap>
    ensures { MatchResult result
        (λ element. element_at (item_trees items.entry) place ≡ gives (element_tree element))
        (λ trap. element_at (item_trees items.entry) place ≡ traps trap) }
{
    if place < 0 || place as usize >= items.len() {
        return Err(Trap::Range);
    }
    Ok(items.at(place as usize))
}

/// The plan of `v[i]`.
pub fn plan_element_at<A: Allocator>(argument: Argument<'_, A>) -> Result<Plan<'_, A>, Trap>
    ensures { Plans (outcome_of ElementAt (argument_tree argument.entry))
        (reads ElementAt (argument_tree argument.entry)) result }
{
    let Some((items, place)) = sequence_and_int(argument) else {
        return Err(WRONG_SHAPE);
    };
    let element = element_at(items, place)?;
    Ok(Plan::Element(element))
}

/// The plan of `v ++ w`.
pub fn plan_append<A: Allocator>(argument: Argument<'_, A>) -> Result<Plan<'_, A>, Trap>
    ensures { Plans (outcome_of Append (argument_tree argument.entry))
        (reads Append (argument_tree argument.entry)) result }
{
    match two_sequences(argument) {
        Some((one, other)) => Ok(Plan::Joined(one, other)),
        None => Err(WRONG_SHAPE),
    }
}

// How many items the first half has.
fn half_of(len: usize) -> usize
    ensures half { result ≡ (len + 1) / 2 }
    ensures within { result ≤ len }
{
    len / 2 + len % 2
}

pub fn plan_bottop<A: Allocator>(argument: Argument<'_, A>) -> Result<Plan<'_, A>, Trap>
    ensures { Plans (outcome_of Bottop (argument_tree argument.entry))
        (reads Bottop (argument_tree argument.entry)) result }
{
    let Some(items) = sequence(argument) else {
        return Err(WRONG_SHAPE);
    };
    let len = items.len();
    let half = half_of(len);
    Ok(Plan::Two(items.part(0, half), items.part(half, len)))
}

/// The sequence of the sequences of the items of both.
pub(crate) fn two_copies<A: Allocator + Copy>(
    alloc: A,
    one: Items<'_, A>,
    other: Items<'_, A>,
) -> Result<Value<A>, AllocError>
    ensures { IfOk result (λ v. tree_of v ≡ sequence_of_two (item_trees one.entry) (item_trees other.entry)) }
{
    let first = copy_of(alloc, one)?;
    let second = copy_of(alloc, other)?;
    sequence_of_two(alloc, first, second)
}

/// `take`: the first items, or the last ones where the count is below 0.
fn taken<A: Allocator>(items: Items<'_, A>, count: i64) -> Result<Items<'_, A>, Trap>
    ensures { MatchResult result
        (λ part. taken (item_trees items.entry) count ≡ gives (sequence (item_trees part)))
        (λ trap. taken (item_trees items.entry) count ≡ traps trap) }
{
    let len = items.len();
    let kept = count.unsigned_abs() as usize;
    if kept > len {
        return Err(Trap::Range);
    }
    if count < 0 {
        return Ok(items.part(len - kept, len));
    }
    Ok(items.part(0, kept))
}

pub fn plan_take<A: Allocator>(argument: Argument<'_, A>) -> Result<Plan<'_, A>, Trap>
    ensures { Plans (outcome_of Take (argument_tree argument.entry))
        (reads Take (argument_tree argument.entry)) result }
{
    let Some((items, count)) = sequence_and_int(argument) else {
        return Err(WRONG_SHAPE);
    };
    let part = taken(items, count)?;
    Ok(Plan::Part {
        items: part,
        read: items.len(),
    })
}

/// `drop`: all but the first items, or all but the last ones where the count is below 0.
fn dropped<A: Allocator>(items: Items<'_, A>, count: i64) -> Result<Items<'_, A>, Trap>
    ensures { MatchResult result
        (λ part. dropped (item_trees items.entry) count ≡ gives (sequence (item_trees part)))
        (λ trap. dropped (item_trees items.entry) count ≡ traps trap) }
{
    let len = items.len();
    let left = count.unsigned_abs() as usize;
    if left > len {
        return Err(Trap::Range);
    }
    if count < 0 {
        return Ok(items.part(0, len - left));
    }
    Ok(items.part(left, len))
}

pub fn plan_drop<A: Allocator>(argument: Argument<'_, A>) -> Result<Plan<'_, A>, Trap>
    ensures { Plans (outcome_of Drop (argument_tree argument.entry))
        (reads Drop (argument_tree argument.entry)) result }
{
    let Some((items, count)) = sequence_and_int(argument) else {
        return Err(WRONG_SHAPE);
    };
    let part = dropped(items, count)?;
    Ok(Plan::Part {
        items: part,
        read: items.len(),
    })
}

pub fn plan_reverse<A: Allocator>(argument: Argument<'_, A>) -> Result<Plan<'_, A>, Trap>
    ensures { Plans (outcome_of Reverse (argument_tree argument.entry))
        (reads Reverse (argument_tree argument.entry)) result }
{
    match sequence(argument) {
        Some(items) => Ok(Plan::Reversed(items)),
        None => Err(WRONG_SHAPE),
    }
}

/// The price of the items from the last to the first.
#[tactic(auto, using(nesl_seqs_base::proofs::Totals::sizes_reverse))]
pub(crate) fn price_of_reversed<A: Allocator>(items: Items<'_, A>, limit: u128) -> Option<Price>
    ensures { SomeIff result
        (1 + length (item_trees items.entry) + (size (sequence (reverse (item_trees items.entry))) - 1) ≤ limit)
        (price (length (item_trees items.entry)) 1 (sequence (reverse (item_trees items.entry)))) }
{
    price_of_items(items, items.len() as u128, limit)
}

// How many places `rotate` moves the items on.
fn turn(len: usize, count: i64) -> usize
    requires { len < 2 ^ 63 }
    ensures places { result ≡ places_on len count }
    ensures within { result ≤ len }
{
    if len == 0 {
        return 0;
    }
    count.rem_euclid(len as i64) as usize
}

pub fn plan_rotate<A: Allocator>(argument: Argument<'_, A>) -> Result<Plan<'_, A>, Trap>
    ensures { Plans (outcome_of Rotate (argument_tree argument.entry))
        (reads Rotate (argument_tree argument.entry)) result }
{
    let Some((items, count)) = sequence_and_int(argument) else {
        return Err(WRONG_SHAPE);
    };
    let len = items.len();
    let start = len - turn(len, count);
    Ok(Plan::Joined(items.part(start, len), items.part(0, start)))
}
