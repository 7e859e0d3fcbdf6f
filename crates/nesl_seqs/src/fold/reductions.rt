// Reductions: one leaf from all elements.
ghost use Rattle.std.specs.Prelude.{◌≡◌, ◌+◌, ◌≤◌, ◌<◌, ◌^◌, length, map, count_by, option_map, IfSome, IsTrue};
ghost use Rattle.std.specs.List.{list_any, list_all};
ghost use Rattle.nesl_values.specs.Parts.{as_int, as_bool};
ghost use Rattle.nesl_values.specs.View.{tree_of};
ghost use Rattle.nesl_seqs_base.specs.Lent.{argument_tree};
ghost use Rattle.nesl_seqs_base.specs.Outcome.{Outcome, number};
ghost use Rattle.nesl_seqs_base.specs.Reductions.{all_of, total};
ghost use Rattle.nesl_seqs_base.specs.Meaning.{outcome_of};
ghost use Rattle.nesl_seqs_base.specs.Prices.{length_of, digits};
ghost use Rattle.nesl_seqs.specs.Elements.{wrapped_total};
ghost use Rattle.nesl_seqs.specs.Leaves.{is_short};
ghost use Rattle.nesl_seqs.specs.FoldPlans.{Plans};
ghost use Rattle.nesl_seqs.specs.Scalar.{ScalarIs, scalar_tree};
ghost use Rattle.nesl_seqs_base.specs.declared.seq_fn.SeqFn.TheVariants.{Sum, Any, All, Count};

use crate::fold::plan::Plan;
use nesl_scalars::Trap;
use nesl_seqs_base::argument::Argument;
use nesl_seqs_base::arguments::{WRONG_SHAPE, sequence};
use nesl_seqs_base::item::Item;
use nesl_values::{Items, Value};
use std::alloc::Allocator;

/// A leaf that is a function's result.
#[derive(Clone, Copy)]
pub enum Scalar {
    Int(i64),
    Bool(bool),
    Char(u8),
}

impl Scalar {
    pub fn into_value<A: Allocator>(self) -> Value<A>
        ensures { tree_of result ≡ scalar_tree self }
    {
        match self {
            Scalar::Int(n) => Value::Int(n),
            Scalar::Bool(b) => Value::Bool(b),
            Scalar::Char(c) => Value::Char(c),
        }
    }
}

/// The plan of that leaf.
pub fn plan_of_leaf<A: Allocator>(
    argument: Argument<'_, A>,
    outcome: Result<Scalar, Trap>,
) -> Result<Plan<'_, A>, Trap>
    ensures { (o : Outcome) → ScalarIs o outcome
        → Plans o (length_of (argument_tree argument.entry))
        (1 + digits (length_of (argument_tree argument.entry))) result }
{
    let leaf = outcome?;
    let read = argument.sequence_len().unwrap_or(0);
    Ok(Plan::Leaf { leaf, read })
}

/// How many binary digits a number has.
#[tactic(auto, using(crate::proofs::Digits::digits_is, crate::proofs::Digits::digits_none))]
pub fn digits(n: usize) -> u64
    ensures count { result ≡ digits n }
    ensures few { result ≤ 64 }
{
    if n == 0 { 0 } else { n.ilog2() as u64 + 1 }
}

fn sum<A: Allocator>(argument: Argument<'_, A>) -> Result<Scalar, Trap>
    ensures { ScalarIs (outcome_of Sum (argument_tree argument.entry)) result }
{
    let total = match sequence(argument) {
        Some(Items::Ints(ints)) => sum_of(ints),
        Some(Items::Bools(bools)) => sum_of(bools),
        Some(Items::Chars(chars)) => sum_of(chars),
        Some(Items::Values(values)) => sum_of(values),
        None => None,
    };
    match total {
        Some(total) => number(total),
        None => Err(WRONG_SHAPE),
    }
}

/// The plan of a sum. Of fewer than 2^32 numbers of 32 bits it is made without adding them.
pub fn plan_sum<A: Allocator>(argument: Argument<'_, A>) -> Result<Plan<'_, A>, Trap>
    ensures { Plans (outcome_of Sum (argument_tree argument.entry)) (length_of (argument_tree argument.entry))
        (1 + digits (length_of (argument_tree argument.entry))) result }
{
    if let Some(Items::Ints(ints)) = sequence(argument) {
        if are_few_and_short(ints) {
            return Ok(Plan::Sum(ints));
        }
    }
    plan_of_leaf(argument, sum(argument))
}

// The sum as 64 bits have it, whatever the sums on the way are.
pub(crate) fn wrapped_sum(ints: &[i64]) -> i64
    ensures { result ≡ wrapped_total ints.now }
{
    let mut total: i64 = 0;
    for number in ints {
        total = total.wrapping_add(*number);
    }
    total
}

// A whole number, where it is one of 64 bits.
fn number(total: i128) -> Result<Scalar, Trap>
    ensures { ScalarIs (number total) result }
{
    if total < i64::MIN as i128 || total > i64::MAX as i128 {
        return Err(Trap::Overflow);
    }
    Ok(Scalar::Int(total as i64))
}

// Whether these are fewer than 2^32 numbers of 32 bits: then all their sums are numbers of 64 bits.
pub(crate) fn are_few_and_short(ints: &[i64]) -> bool
    ensures few { IsTrue result → length ints.now < 2 ^ 32 }
    ensures short { IsTrue result → IsTrue (list_all is_short ints.now) }
{
    let mut bits: u64 = 0;
    for number in ints {
        bits |= number.cast_unsigned().wrapping_add(1 << 31);
    }
    bits < 1 << 32 && ints.len() < 1 << 32
}

fn sum_of<T: Item>(items: &[T]) -> Option<i128>
    requires { length items.now < 2 ^ 63 }
    ensures { result ≡ option_map total (all_of as_int (map T.tree items.now)) }
{
    let mut total = 0;
    for item in items {
        total += item.as_int()? as i128;
    }
    Some(total)
}

pub fn any<A: Allocator>(argument: Argument<'_, A>) -> Result<Scalar, Trap>
    ensures { ScalarIs (outcome_of Any (argument_tree argument.entry)) result }
{
    let some = match sequence(argument) {
        Some(Items::Ints(ints)) => any_of(ints),
        Some(Items::Bools(bools)) => any_of(bools),
        Some(Items::Chars(chars)) => any_of(chars),
        Some(Items::Values(values)) => any_of(values),
        None => None,
    };
    match some {
        Some(some) => Ok(Scalar::Bool(some)),
        None => Err(WRONG_SHAPE),
    }
}

fn any_of<T: Item>(items: &[T]) -> Option<bool>
    ensures { result ≡ option_map (list_any (λ b. b)) (all_of as_bool (map T.tree items.now)) }
{
    let mut some = false;
    for item in items {
        some |= item.as_bool()?;
    }
    Some(some)
}

pub fn all<A: Allocator>(argument: Argument<'_, A>) -> Result<Scalar, Trap>
    ensures { ScalarIs (outcome_of All (argument_tree argument.entry)) result }
{
    let every = match sequence(argument) {
        Some(Items::Ints(ints)) => all_of(ints),
        Some(Items::Bools(bools)) => all_of(bools),
        Some(Items::Chars(chars)) => all_of(chars),
        Some(Items::Values(values)) => all_of(values),
        None => None,
    };
    match every {
        Some(every) => Ok(Scalar::Bool(every)),
        None => Err(WRONG_SHAPE),
    }
}

fn all_of<T: Item>(items: &[T]) -> Option<bool>
    ensures { result ≡ option_map (list_all (λ b. b)) (all_of as_bool (map T.tree items.now)) }
{
    let mut every = true;
    for item in items {
        every &= item.as_bool()?;
    }
    Some(every)
}

pub fn count<A: Allocator>(argument: Argument<'_, A>) -> Result<Scalar, Trap>
    ensures { ScalarIs (outcome_of Count (argument_tree argument.entry)) result }
{
    let count = match sequence(argument) {
        Some(Items::Ints(ints)) => count_of(ints),
        Some(Items::Bools(bools)) => count_of(bools),
        Some(Items::Chars(chars)) => count_of(chars),
        Some(Items::Values(values)) => count_of(values),
        None => None,
    };
    match count {
        Some(count) => Ok(Scalar::Int(count as i64)),
        None => Err(WRONG_SHAPE),
    }
}

fn count_of<T: Item>(items: &[T]) -> Option<usize>
    requires { length items.now < 2 ^ 63 }
    ensures count { result ≡ option_map (count_by (λ b. b)) (all_of as_bool (map T.tree items.now)) }
    ensures few { IfSome result (λ count. count < 2 ^ 63) }
{
    let mut count = 0;
    for item in items {
        if item.as_bool()? {
            count += 1;
        }
    }
    Some(count)
}
