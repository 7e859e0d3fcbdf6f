//! What code evaluates to at all turns of a block.
ghost use Rattle.std.specs.Prelude.{◌≡◌, ◌-◌, ◌<◌, ◌^◌, ℕ, min, Some, IfSome, IsTrue, slice_get};
ghost use Rattle.nesl_values.specs.Tree.{ValueTree, size};
ghost use Rattle.nesl_values.specs.View.{tree_of};
ghost use Rattle.nesl_eval_columns.specs.Columns.{leaves_of};
ghost use Rattle.nesl_eval_column_results.specs.Columns.{value_at, breadth_of, both, SameUpTo, Pairs, Leads};

use crate::constants::column_of;
use nesl_eval_code::Step;
use nesl_eval_columns::{Column, leaves_at};
use nesl_eval_nodes::nodes::pair_fits;
use nesl_eval_nodes::scope::part_of;
use nesl_values::Value;
use std::alloc::Allocator;

/// How many leaves and single values pairs may have at a turn.
const MOST: usize = 64;

/// Values at the turns of a block.
#[derive(Drop)]
pub enum Columns<A: Allocator> {
    /// One value at all turns.
    Same(Value<A>),
    /// A leaf at each turn.
    Leaves(Column<A>),
    /// The pairs of two values at the same turn.
    Pair(Box<Columns<A>, A>, Box<Columns<A>, A>),
}

/// How many nodes each of the values has.
pub fn nodes<A: Allocator>(columns: &Columns<A>) -> Option<u64>
    ensures { IfSome result (λ n. (k : ℕ) (v : ValueTree) → value_at columns.now k ≡ Some v → size v ≡ n) }
{
    match columns {
        Columns::Same(value) => Some(value.nodes()),
        Columns::Leaves(_) => Some(1),
        Columns::Pair(one, other) => nodes(one)?.checked_add(nodes(other)?)?.checked_add(1),
    }
}

/// How many leaves and single values there are at a turn, or the greatest number if there are more.
pub fn breadth<A: Allocator>(columns: &Columns<A>) -> usize
    ensures { result ≡ min (breadth_of columns.now) (2 ^ 64 - 1) }
{
    match columns {
        Columns::Same(_) | Columns::Leaves(_) => 1,
        Columns::Pair(one, other) => breadth(one).saturating_add(breadth(other)),
    }
}

/// Whether there are values at `count` turns.
pub(crate) fn reaches<A: Allocator>(columns: &Columns<A>, count: usize) -> bool
    ensures { IsTrue result → (k : ℕ) → k < count → (v : ValueTree) × (value_at columns.now k ≡ Some v) }
{
    match columns {
        Columns::Same(_) => true,
        Columns::Leaves(column) => count <= column.len(),
        Columns::Pair(one, other) => reaches(one, count) && reaches(other, count),
    }
}

// The pairs of two values at the same turn, if there is memory.
fn boxed<A: Allocator + Copy>(one: Columns<A>, other: Columns<A>, alloc: A) -> Option<Columns<A>>
    ensures { IfSome result (λ d. (k : ℕ) → value_at d k ≡ both (value_at one k) (value_at other k)) }
{
    let left = match Box::new(alloc, one) {
        Ok(left) => left,
        Err(_) => return None,
    };
    match Box::new(alloc, other) {
        Ok(right) => Some(Columns::Pair(left, right)),
        Err(_) => None,
    }
}

/// The pairs of the values at the same turn, if they are small enough.
pub fn paired<A: Allocator + Copy>(
    one: Columns<A>,
    other: Columns<A>,
    alloc: A,
) -> Option<Columns<A>>
    ensures { IfSome result (λ d. Pairs (value_at one) (value_at other) (value_at d)) }
{
    let first = nodes(&one)?;
    let second = nodes(&other)?;
    if !pair_fits(first, second) || breadth(&one).saturating_add(breadth(&other)) > MOST {
        return None;
    }
    boxed(one, other, alloc)
}

/// One more owner of a value.
pub(crate) fn shared<A: Allocator>(value: &Value<A>) -> Option<Value<A>>
    ensures { IfSome result (λ v. tree_of v ≡ tree_of value.now) }
{
    match value.share() {
        Ok(owner) => Some(owner),
        Err(_) => None,
    }
}

// The part of one value to which the steps lead.
fn same_part<A: Allocator>(value: &Value<A>, steps: &[Step]) -> Option<Columns<A>>
    ensures { IfSome result (λ d. Leads steps.now (λ k. Some (tree_of value.now)) (value_at d)) }
{
    let part = part_of(value, steps)?;
    Some(Columns::Same(shared(part)?))
}

// The leaves themselves, if there is no step.
fn leaves_part<A: Allocator + Copy>(
    column: &Column<A>,
    steps: &[Step],
    alloc: A,
) -> Option<Columns<A>>
    ensures { IfSome result (λ d. Leads steps.now (slice_get (leaves_of column.now)) (value_at d)) }
{
    if !steps.is_empty() {
        return None;
    }
    Some(Columns::Leaves(column.copy_into(alloc)?))
}

/// The parts of the values to which the steps lead, as a copy.
pub(crate) fn parts_of<A: Allocator + Copy>(
    columns: &Columns<A>,
    steps: &[Step],
    alloc: A,
) -> Option<Columns<A>>
    ensures { IfSome result (λ d. Leads steps.now (value_at columns.now) (value_at d)) }
{
    match columns {
        Columns::Same(value) => same_part(value, steps),
        Columns::Leaves(column) => leaves_part(column, steps, alloc),
        Columns::Pair(one, other) => {
            let Some((first, rest)) = steps.split_first() else {
                let left = parts_of(one, steps, alloc)?;
                let right = parts_of(other, steps, alloc)?;
                return boxed(left, right, alloc);
            };
            match first {
                Step::Left => parts_of(one, rest, alloc),
                Step::Right => parts_of(other, rest, alloc),
                Step::Inside => None,
            }
        }
    }
}

/// The values at these turns.
pub(crate) fn at_turns<A: Allocator + Copy>(
    columns: Columns<A>,
    turns: &[usize],
    alloc: A,
) -> Option<Columns<A>>
    ensures { IfSome result (λ d. (k j : ℕ) → slice_get turns.now k ≡ Some j → value_at d k ≡ value_at columns j) }
{
    match columns {
        Columns::Same(value) => Some(Columns::Same(value)),
        Columns::Leaves(column) => Some(Columns::Leaves(leaves_at(&column, turns, alloc)?)),
        Columns::Pair(one, other) => {
            let left = at_turns(Box::into_inner(one), turns, alloc)?;
            let right = at_turns(Box::into_inner(other), turns, alloc)?;
            boxed(left, right, alloc)
        }
    }
}

/// The one value that there is at all turns.
pub fn same_value<A: Allocator>(columns: Columns<A>) -> Option<Value<A>>
    ensures { IfSome result (λ v. (k : ℕ) → value_at columns k ≡ Some (tree_of v)) }
{
    match columns {
        Columns::Same(value) => Some(value),
        _ => None,
    }
}

/// The leaves at `count` turns.
pub fn as_leaves<A: Allocator + Copy>(
    columns: Columns<A>,
    count: usize,
    alloc: A,
) -> Option<Column<A>>
    ensures { IfSome result (λ c. SameUpTo count (value_at columns) (slice_get (leaves_of c))) }
{
    match columns {
        Columns::Same(value) => column_of(&value, count, alloc),
        Columns::Leaves(column) => Some(column),
        Columns::Pair(_, _) => None,
    }
}

/// The two leaves of the pairs at `count` turns.
pub(crate) fn as_two_leaves<A: Allocator + Copy>(
    columns: Columns<A>,
    count: usize,
    alloc: A,
) -> Option<(Column<A>, Column<A>)>
    ensures { IfSome result (λ r. SameUpTo count (value_at columns)
        (λ k. both (slice_get (leaves_of r.0) k) (slice_get (leaves_of r.1) k))) }
{
    match columns {
        Columns::Pair(one, other) => {
            let left = as_leaves(Box::into_inner(one), count, alloc)?;
            let right = as_leaves(Box::into_inner(other), count, alloc)?;
            Some((left, right))
        }
        _ => None,
    }
}
