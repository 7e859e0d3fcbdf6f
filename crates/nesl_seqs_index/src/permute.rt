// Sequences of which each element goes to a place of its own.
ghost use Rattle.std.specs.Prelude.{◌≡◌, ◌≢◌, ◌+◌, ◌-◌, ◌/◌, ◌<◌, ◌≤◌, ◌^◌, ℕ, [], Some, length, map, IfOk, IsTrue};
ghost use Rattle.std.specs.Prelude.{false, replicate, SomeIff};
ghost use Rattle.std.specs.List.{list_all};
ghost use Rattle.nesl_values.specs.Tree.{sequence, size};
ghost use Rattle.nesl_values.specs.Parts.{as_int};
ghost use Rattle.nesl_values.specs.View.{tree_of, item_trees};
ghost use Rattle.nesl_seqs_base.specs.Lent.{argument_tree};
ghost use Rattle.nesl_seqs_index.specs.Arriving.{Arrive};
ghost use Rattle.nesl_seqs_index.specs.Marks.{are_new, own_places};
ghost use Rattle.nesl_seqs_base.specs.Outcome.{OutcomeGives, IsGiven, if_there, gives};
ghost use Rattle.nesl_seqs_base.specs.Meaning.{outcome_of};
ghost use Rattle.nesl_seqs_base.specs.Permute.{all_differ, permuted, rearranged, Inverts};
ghost use Rattle.nesl_seqs_base.specs.Places.{place_of, places_of};
ghost use Rattle.nesl_seqs_base.specs.Prices.{reads, price};
ghost use Rattle.nesl_seqs_index.specs.Plans.{Plans};
ghost use Rattle.nesl_seqs_base.specs.Reductions.{all_of};
ghost use Rattle.nesl_seqs_base.specs.declared.seq_fn.SeqFn.TheVariants.{Permute};

use crate::gather::{all_name, picked_copy};
use crate::marks::{Marks, WINDOW};
use crate::plan::Plan;
use nesl_scalars::Trap;
use nesl_seqs_base::argument::Argument;
use nesl_seqs_base::arguments::{WRONG_SHAPE, two_sequences};
use nesl_seqs_base::copies::repeated;
use nesl_seqs_base::item::Item;
use nesl_seqs_base::nodes::price_of_items;
use nesl_seqs_base::places::place_of;
use nesl_seqs_base::price::Price;
use nesl_values::{Items, Value};
use std::alloc::{AllocError, Allocator};

pub fn plan_permute<A: Allocator>(argument: Argument<'_, A>) -> Result<Plan<'_, A>, Trap>
    ensures { Plans (outcome_of Permute (argument_tree argument.entry))
        (reads Permute (argument_tree argument.entry)) result }
{
    let Some((items, indices)) = two_sequences(argument) else {
        return Err(WRONG_SHAPE);
    };
    check_indices(items, indices)?;
    Ok(Plan::Permuted { items, indices })
}

// Whether the indices are as many as the items and each names a place of its own, and else the fault.
fn check_own<A: Allocator, I: Item>(items: Items<'_, A>, indices: &[I]) -> Result<(), Trap>
    ensures { OutcomeGives (λ t _. t ≡ sequence (rearranged (item_trees items.entry)
        (places_of (length (item_trees items.entry)) (map I.tree indices.now))))
        (if_there (all_of as_int (map I.tree indices.now)) (permuted (item_trees items.entry))) result }
{
    if items.len() != indices.len() {
        return Err(Trap::Length);
    }
    check_places(indices)
}

fn check_indices<A: Allocator>(items: Items<'_, A>, indices: Items<'_, A>) -> Result<(), Trap>
    ensures { OutcomeGives (λ t _. t ≡ sequence (rearranged (item_trees items.entry)
        (places_of (length (item_trees items.entry)) (item_trees indices.entry))))
        (if_there (all_of as_int (item_trees indices.entry)) (permuted (item_trees items.entry))) result }
{
    match indices {
        Items::Ints(indices) => check_own(items, indices),
        Items::Bools(indices) => check_own(items, indices),
        Items::Chars(indices) => check_own(items, indices),
        Items::Values(indices) => check_own(items, indices),
    }
}

/// The price of the items at the places that the indices name: their own, since each has one place.
pub(crate) fn price_of_permuted<A: Allocator>(
    items: Items<'_, A>,
    indices: Items<'_, A>,
    limit: u128,
) -> Option<Price>
    requires { IsGiven (if_there (all_of as_int (item_trees indices)) (permuted (item_trees items))) }
    ensures { let t = sequence (rearranged (item_trees items.entry)
        (places_of (length (item_trees items.entry)) (item_trees indices.entry))) in
        let read = length (item_trees items.entry) + length (item_trees indices.entry) in
        SomeIff result (1 + read + (size t - 1) ≤ limit) (price read 1 t) }
{
    price_of_items(items, items.len() as u128 + indices.len() as u128, limit)
}

// Whether each index names a place of its own, and why not, without memory. Up to 65,536 places have marks in
// a table on the stack, and few have a small one, since it is cleared first.
fn check_places<I: Item>(indices: &[I]) -> Result<(), Trap>
    ensures { result ≡ own_places (length indices.now) (map I.tree indices.now) }
{
    let len = indices.len();
    if len <= 64 {
        return check_by_table::<64, I>(indices);
    }
    if len <= 4096 {
        return check_by_table::<4096, I>(indices);
    }
    if len <= 65_536 {
        return check_by_table::<65_536, I>(indices);
    }
    check_by_windows(indices)
}

// Written apart for its table on the stack.
#[inline(never)]
fn check_by_table<const PLACES: usize, I: Item>(indices: &[I]) -> Result<(), Trap>
    requires enough { length indices.now ≤ PLACES }
    requires few { PLACES < 2 ^ 63 }
    ensures { result ≡ own_places (length indices.now) (map I.tree indices.now) }
{
    let mut marks = [false; PLACES];
    check_by_marks(indices, &mut marks[..indices.len()])
}

// Marks the place of each index. There are as many places as indices, so where no mark is missing in the end,
// none was named twice.
fn check_by_marks<I: Item>(indices: &[I], marks: &mut [bool]) -> Result<(), Trap>
    requires { marks.now ≡ replicate (length indices.now) false }
    ensures { result ≡ own_places (length indices.now) (map I.tree indices.now) }
{
    for index in indices {
        match place_of(index, marks.len()) {
            Some(place) => marks[place] = true,
            None => return Err(Trap::Range),
        }
    }
    if !all_marked(marks) {
        return Err(Trap::Permutation);
    }
    Ok(())
}

// Looks at every mark, many of them in one step, as a loop that stops early could not.
fn all_marked(marks: &[bool]) -> bool
    ensures { result ≡ list_all (λ mark. mark) marks.now }
{
    let mut all = true;
    for mark in marks {
        all &= *mark;
    }
    all
}

// Of places that are too many for a table, one window after the other.
fn check_by_windows<I: Item>(indices: &[I]) -> Result<(), Trap>
    ensures { result ≡ own_places (length indices.now) (map I.tree indices.now) }
{
    let len = indices.len();
    if !all_name(indices, len) {
        return Err(Trap::Range);
    }
    if !all_differ(indices, len) {
        return Err(Trap::Permutation);
    }
    Ok(())
}

// Whether no place is named twice.
fn all_differ<I: Item>(indices: &[I], len: usize) -> bool
    ensures { result ≡ all_differ (places_of len (map I.tree indices.now)) }
{
    for window in 0..len / WINDOW + 1 {
        if !differ_in(indices, len, window) {
            return false;
        }
    }
    true
}

// Whether no place of the window is named twice. Written apart for its marks on the stack.
#[inline(never)]
fn differ_in<I: Item>(indices: &[I], len: usize, window: usize) -> bool
    ensures { result ≡ are_new window [] (places_of len (map I.tree indices.now)) }
{
    let mut marks = Marks::new();
    for index in indices {
        if is_elsewhere(index, window) {
            continue;
        }
        if let Some(place) = place_of(index, len) {
            if !marks.note(window, place) {
                return false;
            }
        }
    }
    true
}

// Whether an index surely names no place of the window. Of a long sequence most name none, so this is
// asked before all else.
#[inline(always)]
#[tactic(auto, using(crate::proofs::Differing::is_elsewhere))]
fn is_elsewhere<I: Item>(index: &I, window: usize) -> bool
    ensures { IsTrue result → (n k : ℕ) → Some k ≡ place_of n (I.tree index.now) → k / 524288 ≢ window }
{
    match index.as_int() {
        Some(number) => number.cast_unsigned() as usize / WINDOW != window,
        None => false,
    }
}

/// The sequence of the items, each at the place that its index names.
pub(crate) fn copy_of_permuted<A: Allocator + Copy>(
    alloc: A,
    items: Items<'_, A>,
    indices: Items<'_, A>,
) -> Result<Value<A>, AllocError>
    requires few { length (item_trees items) < 2 ^ 63 }
    requires given { IsGiven (if_there (all_of as_int (item_trees indices)) (permuted (item_trees items))) }
    ensures { IfOk result (λ v. tree_of v ≡ sequence (rearranged (item_trees items.entry)
        (places_of (length (item_trees items.entry)) (item_trees indices.entry)))) }
{
    match indices {
        Items::Ints(indices) => permuted_copy(alloc, items, indices),
        Items::Bools(indices) => permuted_copy(alloc, items, indices),
        Items::Chars(indices) => permuted_copy(alloc, items, indices),
        Items::Values(indices) => permuted_copy(alloc, items, indices),
    }
}

fn permuted_copy<A: Allocator + Copy, I: Item>(
    alloc: A,
    items: Items<'_, A>,
    indices: &[I],
) -> Result<Value<A>, AllocError>
    requires few { length (item_trees items) < 2 ^ 63 }
    requires given { IsGiven
        (if_there (all_of as_int (map I.tree indices.now)) (permuted (item_trees items))) }
    ensures { IfOk result (λ v.
        if_there (all_of as_int (map I.tree indices.now)) (permuted (item_trees items.entry))
        ≡ gives (tree_of v)) }
{
    match items {
        Items::Ints(ints) => Value::ints(alloc, permuted_leaves(alloc, ints, indices)?),
        Items::Bools(bools) => Value::bools(alloc, permuted_leaves(alloc, bools, indices)?),
        Items::Chars(chars) => Value::chars(alloc, permuted_leaves(alloc, chars, indices)?),
        Items::Values(_) => {
            let inverse = inverse_of(alloc, indices)?;
            picked_copy(alloc, items, &inverse)
        }
    }
}

// Leaves, each at the place that its index names.
fn permuted_leaves<T: Item + Copy, A: Allocator, I: Item>(
    alloc: A,
    items: &[T],
    indices: &[I],
) -> Result<Vec<T, A>, AllocError>
    requires { IsGiven
        (if_there (all_of as_int (map I.tree indices.now)) (permuted (map T.tree items.now))) }
    ensures { IfOk result (λ v.
        if_there (all_of as_int (map I.tree indices.now)) (permuted (map T.tree items.now))
        ≡ gives (sequence (map T.tree v.items))) }
{
    arranged(alloc, items, indices)
}

// Whatever it is, each at the place that its index names.
fn arranged<T: Copy, A: Allocator, I: Item>(
    alloc: A,
    items: &[T],
    indices: &[I],
) -> Result<Vec<T, A>, AllocError>
    requires same { length indices.now ≡ length items.now }
    requires differ { IsTrue
        (all_differ (places_of (length indices.now) (map I.tree indices.now))) }
    ensures { IfOk result (λ v. Arrive items.now v.items (map I.tree indices.now)) }
{
    let len = indices.len();
    let mut made = Vec::from_slice(alloc, items)?;
    for number in 0..len {
        if let Some(place) = place_of(&indices[number], len) {
            made[place] = items[number];
        }
    }
    Ok(made)
}

// For each place, which of the indices names it.
fn inverse_of<A: Allocator, I: Item>(alloc: A, indices: &[I]) -> Result<Vec<i64, A>, AllocError>
    requires few { length indices.now < 2 ^ 63 }
    requires differ { IsTrue
        (all_differ (places_of (length indices.now) (map I.tree indices.now))) }
    ensures { IfOk result (λ v. Inverts v.items (map I.tree indices.now)) }
{
    let len = indices.len();
    let mut sources = repeated(alloc, 0, len)?;
    for number in 0..len {
        if let Some(place) = place_of(&indices[number], len) {
            sources[place] = number as i64;
        }
    }
    Ok(sources)
}
