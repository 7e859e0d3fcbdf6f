// A sequence with another element at a place.
ghost use Rattle.std.specs.Prelude.{◌≡◌, ◌+◌, ◌-◌, ◌<◌, ◌≤◌, ◌++◌, List, pos, length, take, drop, slice_set, IfOk};
ghost use Rattle.std.specs.Prelude.{MatchResult, OnOk, SomeIff};
ghost use Rattle.nesl_values.specs.Tree.{ValueTree, size, sizes, trees_of, sequence};
ghost use Rattle.nesl_values.specs.View.{tree_of, item_trees};
ghost use Rattle.nesl_values_builder.specs.Elements.{elements_of};
ghost use Rattle.nesl_seqs_base.specs.Lent.{argument_tree};
ghost use Rattle.nesl_seqs_base.specs.Outcome.{traps};
ghost use Rattle.nesl_seqs_base.specs.Pieces.{replaced};
ghost use Rattle.nesl_seqs_base.specs.Meaning.{outcome_of};
ghost use Rattle.nesl_seqs_base.specs.Prices.{reads, price};
ghost use Rattle.nesl_seqs_build.specs.Plans.{Plans};
ghost use Rattle.nesl_seqs_base.specs.declared.seq_fn.SeqFn.TheVariants.{Rep};

use crate::building::finished;
use crate::plan::Plan;
use nesl_scalars::Trap;
use nesl_seqs_base::argument::Argument;
use nesl_seqs_base::arguments::{Replacement, WRONG_SHAPE, as_replacement};
use nesl_seqs_base::copies::extend;
use nesl_seqs_base::nodes::{nodes_of_both, value_nodes};
use nesl_seqs_base::price::Price;
use nesl_values::{Element, Items, Value};
use nesl_values_builder::SequenceBuilder;
use std::alloc::{AllocError, Allocator};

// The place that the number names, or the fault `range`.
fn place_in(len: usize, place: i64) -> Result<usize, Trap>
    ensures { MatchResult result
        (λ i. (i < len) × (place ≡ pos i))
        (λ trap. (ts : List ValueTree) (x : ValueTree) → length ts ≡ len → replaced ts x place ≡ traps trap) }
{
    if place < 0 || place as usize >= len {
        return Err(Trap::Range);
    }
    Ok(place as usize)
}

// The nodes of the items where the one at a place makes way for another.
fn nodes_of_replaced<A: Allocator>(
    items: Items<'_, A>,
    item: &Value<A>,
    place: usize,
    limit: u128,
) -> Option<u128>
    requires { place < length (item_trees items) }
    ensures { SomeIff result
        (sizes (trees_of (take place (item_trees items.entry)))
        + sizes (trees_of (drop (place + 1) (item_trees items.entry))) + size (tree_of item.now) ≤ limit)
        (sizes (trees_of (take place (item_trees items.entry)))
        + sizes (trees_of (drop (place + 1) (item_trees items.entry))) + size (tree_of item.now)) }
{
    let others = nodes_of_others(items, place, limit)?;
    let nodes = value_nodes(item, limit - others)?;
    Some(others + nodes)
}

// The nodes of all items but one.
fn nodes_of_others<A: Allocator>(items: Items<'_, A>, place: usize, limit: u128) -> Option<u128>
    requires { place < length (item_trees items) }
    ensures { SomeIff result
        (sizes (trees_of (take place (item_trees items.entry)))
        + sizes (trees_of (drop (place + 1) (item_trees items.entry))) ≤ limit)
        (sizes (trees_of (take place (item_trees items.entry)))
        + sizes (trees_of (drop (place + 1) (item_trees items.entry)))) }
{
    let after = from_place(items, place + 1);
    nodes_of_both(items.part(0, place), after, limit)
}

// The items from a place on.
fn from_place<A: Allocator>(items: Items<'_, A>, start: usize) -> Items<'_, A>
    requires { start ≤ length (item_trees items) }
    ensures { item_trees result ≡ drop start (item_trees items.entry) }
{
    items.part(start, items.len())
}

#[tactic(auto, using(nesl_seqs_base::proofs::Totals::size_replaced))]
pub(crate) fn price_of_replaced<A: Allocator>(
    items: Items<'_, A>,
    item: &Value<A>,
    place: usize,
    limit: u128,
) -> Option<Price>
    requires { place < length (item_trees items) }
    ensures { SomeIff result
        (1 + length (item_trees items.entry)
        + (size (sequence (slice_set (item_trees items.entry) place (tree_of item.now))) - 1) ≤ limit)
        (price (length (item_trees items.entry)) 1
        (sequence (slice_set (item_trees items.entry) place (tree_of item.now)))) }
{
    let read = items.len() as u128;
    if limit <= read {
        return None;
    }
    let below = nodes_of_replaced(items, item, place, limit - 1 - read)?;
    Some(Price {
        work: 1 + read + below,
        depth: 1,
        nodes: 1 + below,
    })
}

pub fn plan_rep<A: Allocator>(argument: Argument<'_, A>) -> Result<Plan<'_, A>, Trap>
    ensures { Plans (outcome_of Rep (argument_tree argument.entry))
        (reads Rep (argument_tree argument.entry)) result }
{
    let Some(Replacement { items, item, place }) = as_replacement(argument) else {
        return Err(WRONG_SHAPE);
    };
    let place = place_in(items.len(), place)?;
    Ok(Plan::Replaced { items, item, place })
}

pub(crate) fn replaced_copy<A: Allocator + Copy>(
    alloc: A,
    items: Items<'_, A>,
    item: &Value<A>,
    place: usize,
) -> Result<Value<A>, AllocError>
    requires { place < length (item_trees items) }
    ensures { IfOk result (λ v. tree_of v
        ≡ sequence (slice_set (item_trees items.entry) place (tree_of item.now))) }
{
    let mut builder = SequenceBuilder::with_room(alloc, items.len());
    let outcome = extend_by_replaced(&mut builder, items, item, place);
    finished(builder, outcome)
}

fn extend_by_replaced<A: Allocator + Copy>(
    builder: &mut SequenceBuilder<A>,
    items: Items<'_, A>,
    item: &Value<A>,
    place: usize,
) -> Result<(), AllocError>
    requires { place < length (item_trees items) }
    ensures { OnOk result (elements_of builder.new
        ≡ elements_of builder.old ++ slice_set (item_trees items.entry) place (tree_of item.now)) }
{
    extend(builder, items.part(0, place))?;
    builder.push_shared(Element::Node(item))?;
    extend(builder, from_place(items, place + 1))
}
