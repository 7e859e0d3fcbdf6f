// Sequences of pairs.
ghost use Rattle.std.specs.Prelude.{◌≡◌, ◌+◌, ◌-◌, ◌≤◌, length, map, IfOk, SomeIff};
ghost use Rattle.nesl_values.specs.Tree.{pair, size, sequence};
ghost use Rattle.nesl_values.specs.View.{tree_of, item_trees};
ghost use Rattle.nesl_seqs_base.specs.Lent.{argument_tree};
ghost use Rattle.nesl_seqs_base.specs.Meaning.{outcome_of};
ghost use Rattle.nesl_seqs_base.specs.Pairs.{pairs};
ghost use Rattle.nesl_seqs_base.specs.Prices.{reads, price};
ghost use Rattle.nesl_seqs_build.specs.Plans.{Plans};
ghost use Rattle.nesl_seqs_base.specs.declared.seq_fn.SeqFn.TheVariants.{Zip};

use crate::plan::Plan;
use nesl_scalars::Trap;
use nesl_seqs_base::argument::Argument;
use nesl_seqs_base::arguments::{WRONG_SHAPE, two_sequences};
use nesl_seqs_base::nodes::nodes_of_both;
use nesl_seqs_base::price::Price;
use nesl_values::{Items, Value};
use std::alloc::{AllocError, Allocator};

pub fn plan_zip<A: Allocator>(argument: Argument<'_, A>) -> Result<Plan<'_, A>, Trap>
    ensures { Plans (outcome_of Zip (argument_tree argument.entry))
        (reads Zip (argument_tree argument.entry)) result }
{
    let Some((one, other)) = two_sequences(argument) else {
        return Err(WRONG_SHAPE);
    };
    if one.len() != other.len() {
        return Err(Trap::Length);
    }
    Ok(Plan::Pairs(one, other))
}

#[tactic(auto, using(crate::proofs::Pairing::size_pairs))]
pub(crate) fn price_of_pairs<A: Allocator>(
    one: Items<'_, A>,
    other: Items<'_, A>,
    limit: u128,
) -> Option<Price>
    requires { length (item_trees one) ≡ length (item_trees other) }
    ensures { SomeIff result
        (1 + (length (item_trees one.entry) + length (item_trees other.entry))
        + (size (sequence (pairs (item_trees one.entry) (item_trees other.entry))) - 1) ≤ limit)
        (price (length (item_trees one.entry) + length (item_trees other.entry)) 1
        (sequence (pairs (item_trees one.entry) (item_trees other.entry)))) }
{
    let len = one.len() as u128;
    if limit <= 3 * len {
        return None;
    }
    let below = nodes_of_both(one, other, limit - 1 - 3 * len)?;
    Some(Price {
        work: 1 + 3 * len + below,
        depth: 1,
        nodes: 1 + len + below,
    })
}

// The pairs of items at the same place.
pub(crate) fn pairs_of<A: Allocator + Copy>(
    alloc: A,
    one: Items<'_, A>,
    other: Items<'_, A>,
) -> Result<Vec<Value<A>, A>, AllocError>
    requires { length (item_trees one) ≡ length (item_trees other) }
    ensures { IfOk result (λ v. map tree_of v.items
        ≡ pairs (item_trees one.entry) (item_trees other.entry)) }
{
    let mut made = Vec::with_capacity(alloc, one.len())?;
    for place in 0..one.len() {
        let left = one.at(place).share()?;
        let right = other.at(place).share()?;
        made.push(Value::pair(alloc, left, right)?)?;
    }
    Ok(made)
}
