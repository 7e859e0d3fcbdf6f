// Scans: what is computed from the elements before each.
ghost use Rattle.std.specs.Prelude.{◌≡◌, ◌+◌, ◌<◌, ◌^◌, length, map, IfOk};
ghost use Rattle.std.specs.List.{list_all};
ghost use Rattle.nesl_values.specs.Parts.{as_int};
ghost use Rattle.nesl_values.specs.View.{item_trees};
ghost use Rattle.nesl_seqs_base.specs.Lent.{argument_tree};
ghost use Rattle.nesl_seqs_base.specs.Outcome.{if_there, fits};
ghost use Rattle.nesl_seqs_base.specs.Reductions.{all_of, total};
ghost use Rattle.nesl_seqs_base.specs.Meaning.{outcome_of};
ghost use Rattle.nesl_seqs_base.specs.Prices.{length_of, digits};
ghost use Rattle.nesl_seqs_base.specs.Scans.{before_each, plus_scanned, logic_scanned, joined_truths, joined_bits};
ghost use Rattle.nesl_seqs.specs.Elements.{number_in, truth_in, numbers_of, truths_of, wrapped_total};
ghost use Rattle.nesl_seqs.specs.Leaves.{logic_of};
ghost use Rattle.nesl_seqs.specs.FoldPlans.{Plans};
ghost use Rattle.nesl_seqs_base.specs.declared.seq_fn.SeqFn.TheVariants.{PlusScan};

use crate::fold::elements::{Numbers, Truths};
use crate::fold::plan::Plan;
use crate::fold::reductions::are_few_and_short;
use nesl_scalars::Trap;
use nesl_seqs_base::argument::Argument;
use nesl_seqs_base::arguments::{WRONG_SHAPE, sequence};
use nesl_seqs_base::item::Item;
use nesl_seqs_base::joint::Joint;
use nesl_values::Items;
use std::alloc::{AllocError, Allocator};

pub fn plan_plus_scan<A: Allocator>(argument: Argument<'_, A>) -> Result<Plan<'_, A>, Trap>
    ensures { Plans (outcome_of PlusScan (argument_tree argument.entry)) (length_of (argument_tree argument.entry))
        (1 + digits (length_of (argument_tree argument.entry))) result }
{
    match sequence(argument) {
        Some(items) => plan_sums(items),
        None => Err(WRONG_SHAPE),
    }
}

fn plan_sums<A: Allocator>(items: Items<'_, A>) -> Result<Plan<'_, A>, Trap>
    requires { length (item_trees items) < 2 ^ 63 }
    ensures { Plans (if_there (all_of as_int (item_trees items.entry)) plus_scanned) (length (item_trees items.entry))
        (1 + digits (length (item_trees items.entry))) result }
{
    let Some(numbers) = Numbers::read(items) else {
        return Err(WRONG_SHAPE);
    };
    if all_sums_fit(numbers) {
        Ok(Plan::Sums(numbers))
    } else {
        Err(Trap::Overflow)
    }
}

// Whether each sum of those before is a number of 64 bits.
fn all_sums_fit<A: Allocator>(numbers: Numbers<'_, A>) -> bool
    requires { length (numbers_of numbers) < 2 ^ 63 }
    ensures { result ≡ list_all fits (before_each total (numbers_of numbers.entry)) }
{
    match numbers {
        Numbers::Packed(ints) => are_few_and_short(ints) || sums_fit(ints),
        Numbers::Loose(values) => sums_fit(values),
    }
}

fn sums_fit<T: Item>(items: &[T]) -> bool
    requires { length items.now < 2 ^ 63 }
    ensures { result ≡ list_all fits (before_each total (map number_in (map T.tree items.now))) }
{
    let mut fit = true;
    let mut total: i128 = 0;
    for item in items {
        fit &= fits(total);
        total += item.as_int().unwrap_or(0) as i128;
    }
    fit
}

fn fits(total: i128) -> bool
    ensures { result ≡ fits total }
{
    i64::MIN as i128 <= total && total <= i64::MAX as i128
}

/// The plan of `or_scan` and of `and_scan`.
pub fn plan_logic_scan<A: Allocator>(
    argument: Argument<'_, A>,
    joint: Joint,
) -> Result<Plan<'_, A>, Trap>
    ensures { Plans (logic_scanned joint (argument_tree argument.entry)) (length_of (argument_tree argument.entry))
        (1 + digits (length_of (argument_tree argument.entry))) result }
{
    match sequence(argument) {
        Some(items) => plan_logic(items, joint),
        None => Err(WRONG_SHAPE),
    }
}

fn plan_logic<A: Allocator>(items: Items<'_, A>, joint: Joint) -> Result<Plan<'_, A>, Trap>
    ensures { Plans (logic_of joint (item_trees items.entry)) (length (item_trees items.entry))
        (1 + digits (length (item_trees items.entry))) result }
{
    if let Some(truths) = Truths::read(items) {
        return Ok(Plan::JoinedTruths { joint, truths });
    }
    match Numbers::read(items) {
        Some(numbers) => Ok(Plan::JoinedNumbers { joint, numbers }),
        None => Err(WRONG_SHAPE),
    }
}

/// The sums of the numbers before each, as 64 bits have them.
pub(crate) fn sums_before_each<A: Allocator>(
    alloc: A,
    numbers: Numbers<'_, A>,
) -> Result<Vec<i64, A>, AllocError>
    ensures { IfOk result (λ v. v.items ≡ before_each wrapped_total (numbers_of numbers.entry)) }
{
    match numbers {
        Numbers::Packed(ints) => sums_of_ints(alloc, ints),
        Numbers::Loose(values) => sums_before(alloc, values),
    }
}

fn sums_of_ints<A: Allocator>(alloc: A, ints: &[i64]) -> Result<Vec<i64, A>, AllocError>
    ensures { IfOk result (λ v. v.items ≡ before_each wrapped_total ints.now) }
{
    let mut sums = Vec::from_slice(alloc, ints)?;
    let mut total: i64 = 0;
    for place in 0..ints.len() {
        sums[place] = total;
        total = total.wrapping_add(ints[place]);
    }
    Ok(sums)
}

fn sums_before<T: Item, A: Allocator>(alloc: A, items: &[T]) -> Result<Vec<i64, A>, AllocError>
    ensures { IfOk result (λ v. v.items ≡ before_each wrapped_total (map number_in (map T.tree items.now))) }
{
    let mut sums = Vec::with_capacity(alloc, items.len())?;
    let mut total: i64 = 0;
    for item in items {
        sums.push(total)?;
        total = total.wrapping_add(item.as_int().unwrap_or(0));
    }
    Ok(sums)
}

/// The truth values before each, joined.
pub(crate) fn truths_before_each<A: Allocator>(
    alloc: A,
    truths: Truths<'_, A>,
    joint: Joint,
) -> Result<Vec<bool, A>, AllocError>
    ensures { IfOk result (λ v. v.items ≡ before_each (joined_truths joint) (truths_of truths.entry)) }
{
    match truths {
        Truths::Packed(bools) => truths_of_bools(alloc, bools, joint),
        Truths::Loose(values) => truths_before(alloc, values, joint),
    }
}

fn truths_of_bools<A: Allocator>(
    alloc: A,
    bools: &[bool],
    joint: Joint,
) -> Result<Vec<bool, A>, AllocError>
    ensures { IfOk result (λ v. v.items ≡ before_each (joined_truths joint) bools.now) }
{
    let mut joined = Vec::from_slice(alloc, bools)?;
    let mut so_far = joint.of_no_truths();
    for place in 0..bools.len() {
        joined[place] = so_far;
        so_far = joint.of_truths(so_far, bools[place]);
    }
    Ok(joined)
}

fn truths_before<T: Item, A: Allocator>(
    alloc: A,
    items: &[T],
    joint: Joint,
) -> Result<Vec<bool, A>, AllocError>
    ensures { IfOk result (λ v. v.items ≡ before_each (joined_truths joint) (map truth_in (map T.tree items.now))) }
{
    let mut joined = Vec::with_capacity(alloc, items.len())?;
    let mut so_far = joint.of_no_truths();
    for item in items {
        joined.push(so_far)?;
        so_far = joint.of_truths(so_far, item.as_bool().unwrap_or(false));
    }
    Ok(joined)
}

/// The numbers before each, joined bit by bit.
pub(crate) fn bits_before_each<A: Allocator>(
    alloc: A,
    numbers: Numbers<'_, A>,
    joint: Joint,
) -> Result<Vec<i64, A>, AllocError>
    ensures { IfOk result (λ v. v.items ≡ before_each (joined_bits joint) (numbers_of numbers.entry)) }
{
    match numbers {
        Numbers::Packed(ints) => bits_before(alloc, ints, joint),
        Numbers::Loose(values) => bits_before(alloc, values, joint),
    }
}

fn bits_before<T: Item, A: Allocator>(
    alloc: A,
    items: &[T],
    joint: Joint,
) -> Result<Vec<i64, A>, AllocError>
    ensures { IfOk result (λ v. v.items ≡ before_each (joined_bits joint) (map number_in (map T.tree items.now))) }
{
    let mut bits = Vec::with_capacity(alloc, items.len())?;
    let mut so_far = joint.of_no_numbers();
    for item in items {
        bits.push(so_far)?;
        so_far = joint.of_numbers(so_far, item.as_int().unwrap_or(0));
    }
    Ok(bits)
}
