// Sequences from numbers.
ghost use Rattle.std.specs.Prelude.{◌≡◌, ◌+◌, ◌-◌, ◌*◌, ◌<◌, ◌≤◌, ◌^◌, ℕ, ◌+ℤ◌, ◌<ℤ◌, pos, map, replicate, IfOk};
ghost use Rattle.std.specs.Prelude.{MatchResult, SomeIff};
ghost use Rattle.std.specs.Int.{int_gap};
ghost use Rattle.nesl_values.specs.Tree.{size, sequence, int};
ghost use Rattle.nesl_values.specs.View.{tree_of};
ghost use Rattle.nesl_seqs_base.specs.Lent.{argument_tree};
ghost use Rattle.nesl_seqs_base.specs.Outcome.{gives, traps};
ghost use Rattle.nesl_seqs_base.specs.Ranges.{progression, ranged, first_numbers, steps_below};
ghost use Rattle.nesl_seqs_build.specs.Steps.{IsInRange};
ghost use Rattle.nesl_seqs_base.specs.Meaning.{outcome_of};
ghost use Rattle.nesl_seqs_base.specs.Prices.{reads, price};
ghost use Rattle.nesl_seqs_build.specs.Plans.{Plans, built};
ghost use Rattle.nesl_seqs_base.specs.declared.seq_fn.SeqFn.TheVariants.{Dist, Range, RangeBy, Index};

use crate::plan::Plan;
use nesl_scalars::Trap;
use nesl_seqs_base::argument::Argument;
use nesl_seqs_base::arguments::{
    SteppedRange, WRONG_SHAPE, as_stepped_range, tree_and_int, two_ints,
};
use nesl_seqs_base::copies::repeated;
use nesl_seqs_base::nodes::value_nodes;
use nesl_seqs_base::price::Price;
use nesl_values::Value;
use std::alloc::{AllocError, Allocator};

/// Numbers in equal steps.
#[derive(Clone, Copy)]
pub struct Progression {
    pub first: i64,
    pub step: u64,
    pub count: u64,
}

// `[s:e:d]`
fn ranged(start: i64, end: i64, step: i64) -> Result<Progression, Trap>
    ensures { MatchResult result
        (λ p. (ranged start end step ≡ gives (sequence (progression p.first p.step p.count)))
        × IsInRange p)
        (λ trap. ranged start end step ≡ traps trap) }
{
    if step < 1 {
        return Err(Trap::Stride);
    }
    let step = step as u64;
    Ok(Progression {
        first: start,
        step,
        count: steps_below(start, end, step),
    })
}

// How many of the numbers from `start` on in these steps are below `end`.
fn steps_below(start: i64, end: i64, step: u64) -> u64
    requires { 1 ≤ step }
    ensures count { result ≡ steps_below start end step }
    ensures below { (j : ℕ) → j < result → (start +ℤ pos (j * step)) <ℤ end }
{
    let gap = distance(start, end) as u128;
    let step = step as u128;
    ((gap + (step - 1)) / step) as u64
}

// How far the second number is above the first.
fn distance(start: i64, end: i64) -> u64
    ensures gap { result ≡ int_gap start end }
    ensures above { 0 < result → (start +ℤ pos result) ≡ end }
{
    if start < end { end.abs_diff(start) } else { 0 }
}

// `index(k)`
fn first_numbers(count: i64) -> Result<Progression, Trap>
    ensures { MatchResult result
        (λ p. (first_numbers count ≡ gives (sequence (progression p.first p.step p.count)))
        × IsInRange p)
        (λ trap. first_numbers count ≡ traps trap) }
{
    if count < 0 {
        return Err(Trap::Length);
    }
    Ok(Progression {
        first: 0,
        step: 1,
        count: count as u64,
    })
}

#[tactic(auto, using(crate::proofs::Numbers::size_progression))]
pub(crate) fn price_of_progression(numbers: Progression, limit: u128) -> Option<Price>
    ensures { SomeIff result
        (1 + 0 + (size (sequence (progression numbers.first numbers.step numbers.count)) - 1) ≤ limit)
        (price 0 1 (sequence (progression numbers.first numbers.step numbers.count))) }
{
    let count = numbers.count as u128;
    if limit <= count {
        return None;
    }
    Some(Price {
        work: 1 + count,
        depth: 1,
        nodes: 1 + count,
    })
}

// The sequence of the numbers. With a step of 1, a loop of its own takes a third of the time a number.
pub(crate) fn sequence_of_steps<A: Allocator + Copy>(
    alloc: A,
    numbers: Progression,
) -> Result<Value<A>, AllocError>
    requires { IsInRange numbers }
    ensures { IfOk result (λ v. tree_of v ≡ sequence (progression numbers.first numbers.step numbers.count)) }
{
    let made = match numbers.step {
        1 => list_of_steps(alloc, Progression { step: 1, ..numbers })?,
        _ => list_of_steps(alloc, numbers)?,
    };
    Value::ints(alloc, made)
}

#[inline(always)]
fn list_of_steps<A: Allocator + Copy>(
    alloc: A,
    numbers: Progression,
) -> Result<Vec<i64, A>, AllocError>
    requires { IsInRange numbers }
    ensures { IfOk result (λ v. map int v.items ≡ progression numbers.first numbers.step numbers.count) }
{
    let mut made = Vec::with_capacity(alloc, numbers.count as usize)?;
    for place in 0..numbers.count {
        made.push_reserved(number_at(numbers, place));
    }
    Ok(made)
}

#[inline(always)]
fn number_at(numbers: Progression, place: u64) -> i64
    requires range { IsInRange numbers }
    requires within { place < numbers.count }
    ensures { result ≡ numbers.first +ℤ pos (place * numbers.step) }
{
    let ahead = place * numbers.step;
    (numbers.first as i128 + ahead as i128) as i64
}

/// The plan of `[s:e]`.
#[tactic(auto, using(crate::proofs::Numbers::size_progression))]
pub fn plan_range<A: Allocator>(argument: Argument<'_, A>) -> Result<Plan<'_, A>, Trap>
    ensures few { IfOk result (λ p. size (built p) < 2 ^ 65) }
    ensures plan { Plans (outcome_of Range (argument_tree argument.entry))
        (reads Range (argument_tree argument.entry)) result }
{
    let Some((start, end)) = two_ints(argument) else {
        return Err(WRONG_SHAPE);
    };
    let numbers = ranged(start, end, 1)?;
    Ok(Plan::Steps(numbers))
}

/// The plan of `[s:e:d]`.
#[tactic(auto, using(crate::proofs::Numbers::size_progression))]
pub fn plan_range_by<A: Allocator>(argument: Argument<'_, A>) -> Result<Plan<'_, A>, Trap>
    ensures few { IfOk result (λ p. size (built p) < 2 ^ 65) }
    ensures plan { Plans (outcome_of RangeBy (argument_tree argument.entry))
        (reads RangeBy (argument_tree argument.entry)) result }
{
    let Some(SteppedRange { start, end, step }) = as_stepped_range(argument) else {
        return Err(WRONG_SHAPE);
    };
    let numbers = ranged(start, end, step)?;
    Ok(Plan::Steps(numbers))
}

#[tactic(auto, using(crate::proofs::Numbers::size_progression))]
pub fn plan_index<A: Allocator>(argument: Argument<'_, A>) -> Result<Plan<'_, A>, Trap>
    ensures few { IfOk result (λ p. size (built p) < 2 ^ 65) }
    ensures plan { Plans (outcome_of Index (argument_tree argument.entry))
        (reads Index (argument_tree argument.entry)) result }
{
    let Some(count) = argument.as_int() else {
        return Err(WRONG_SHAPE);
    };
    let numbers = first_numbers(count)?;
    Ok(Plan::Steps(numbers))
}

#[tactic(auto, using(crate::proofs::Numbers::sizes_replicate, crate::proofs::Numbers::copies_within))]
pub(crate) fn price_of_copies<A: Allocator>(
    item: &Value<A>,
    count: u64,
    limit: u128,
) -> Option<Price>
    ensures { SomeIff result
        (1 + 0 + (size (sequence (replicate count (tree_of item.now))) - 1) ≤ limit)
        (price 0 1 (sequence (replicate count (tree_of item.now)))) }
{
    if limit == 0 {
        return None;
    }
    let below = nodes_of_copies(item, count, limit - 1)?;
    Some(Price {
        work: 1 + below,
        depth: 1,
        nodes: 1 + below,
    })
}

// The nodes of `count` copies: the item is walked no further than its share of the limit.
fn nodes_of_copies<A: Allocator>(item: &Value<A>, count: u64, limit: u128) -> Option<u128>
    ensures { SomeIff result
        (count * size (tree_of item.now) ≤ limit) (count * size (tree_of item.now)) }
{
    if count == 0 {
        return Some(0);
    }
    let count = count as u128;
    let nodes = value_nodes(item, limit / count)?;
    Some(count * nodes)
}

pub fn plan_dist<A: Allocator>(argument: Argument<'_, A>) -> Result<Plan<'_, A>, Trap>
    ensures few { size (argument_tree argument.entry) < 2 ^ 65 → IfOk result (λ p. size (built p) < 2 ^ 128) }
    ensures plan { Plans (outcome_of Dist (argument_tree argument.entry))
        (reads Dist (argument_tree argument.entry)) result }
{
    let Some((item, count)) = tree_and_int(argument) else {
        return Err(WRONG_SHAPE);
    };
    if count < 0 {
        return Err(Trap::Length);
    }
    let count = count as u64;
    Ok(Plan::Copies { item, count })
}

/// `count` copies of a value.
pub(crate) fn copies<A: Allocator + Copy>(
    alloc: A,
    item: &Value<A>,
    count: usize,
) -> Result<Value<A>, AllocError>
    ensures { IfOk result (λ v. tree_of v ≡ sequence (replicate count (tree_of item.now))) }
{
    match item {
        Value::Int(n) => Value::ints(alloc, repeated(alloc, *n, count)?),
        Value::Bool(b) => Value::bools(alloc, repeated(alloc, *b, count)?),
        Value::Char(c) => Value::chars(alloc, repeated(alloc, *c, count)?),
        _ => Value::sequence(alloc, repeated_copies(alloc, item, count)?),
    }
}

fn repeated_copies<A: Allocator + Copy>(
    alloc: A,
    item: &Value<A>,
    count: usize,
) -> Result<Vec<Value<A>, A>, AllocError>
    ensures { IfOk result (λ v. map tree_of v.items ≡ replicate count (tree_of item.now)) }
{
    let mut items = Vec::with_capacity(alloc, count)?;
    for _place in 0..count {
        items.push(item.share()?)?;
    }
    Ok(items)
}
