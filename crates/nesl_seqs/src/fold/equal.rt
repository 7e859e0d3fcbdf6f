// Whether two values are the same.
ghost use Rattle.std.specs.Prelude.{◌≡◌, ◌+◌, ◌-◌, ◌≤◌, IfOk, SomeIff};
ghost use Rattle.nesl_values.specs.Tree.{ValueTree, size, pair};
ghost use Rattle.nesl_values.specs.View.{tree_of};
ghost use Rattle.nesl_seqs_base.specs.Lent.{argument_tree};
ghost use Rattle.nesl_seqs_base.specs.Equal.{tree_eq};
ghost use Rattle.nesl_seqs_base.specs.Meaning.{outcome_of};
ghost use Rattle.nesl_seqs_base.specs.Prices.{reads, price};
ghost use Rattle.nesl_seqs.specs.FoldPlans.{Plans};
ghost use Rattle.nesl_seqs_base.specs.declared.seq_fn.SeqFn.TheVariants.{Eql};

use crate::fold::plan::Plan;
use nesl_scalars::Trap;
use nesl_seqs_base::argument::Argument;
use nesl_seqs_base::arguments::WRONG_SHAPE;
use nesl_seqs_base::nodes::value_nodes;
use nesl_seqs_base::price::Price;
use nesl_values::Value;
use std::alloc::{AllocError, Allocator};

pub fn plan_eql<A: Allocator>(argument: Argument<'_, A>) -> Result<Plan<'_, A>, Trap>
    ensures { Plans (outcome_of Eql (argument_tree argument.entry))
        (reads Eql (argument_tree argument.entry)) 1 result }
{
    match argument.as_pair() {
        Some((one, other)) => Ok(Plan::Equality(one, other)),
        None => Err(WRONG_SHAPE),
    }
}

// The price of deciding whether the one is the other, of which all nodes are read.
pub(crate) fn price_of_equality<A: Allocator>(
    one: &Value<A>,
    other: Argument<'_, A>,
    limit: u128,
) -> Option<Price>
    ensures { (t : ValueTree) → size t ≡ 1
        → SomeIff result (1 + (size (tree_of one.now) + size (argument_tree other.entry)) + (size t - 1) ≤ limit)
        (price (size (tree_of one.now) + size (argument_tree other.entry)) 1 t) }
{
    if limit == 0 {
        return None;
    }
    let read = nodes_of_both(one, other, limit - 1)?;
    Some(Price {
        work: 1 + read,
        depth: 1,
        nodes: 1,
    })
}

fn nodes_of_both<A: Allocator>(one: &Value<A>, other: Argument<'_, A>, limit: u128) -> Option<u128>
    ensures { SomeIff result
        (size (tree_of one.now) + size (argument_tree other.entry) ≤ limit)
        (size (tree_of one.now) + size (argument_tree other.entry)) }
{
    let first = value_nodes(one, limit)?;
    let second = other.nodes(limit - first)?;
    Some(first + second)
}

pub(crate) fn equal<A: Allocator + Copy>(
    alloc: A,
    one: &Value<A>,
    other: Argument<'_, A>,
) -> Result<bool, AllocError>
    ensures { IfOk result (λ b. b ≡ tree_eq (tree_of one.now) (argument_tree other.entry)) }
{
    match other {
        Argument::One(value) => same(alloc, one, value),
        Argument::Two(left, right) => equals_pair(alloc, one, left, right),
        Argument::Three(left, middle, right) => match one.as_pair() {
            Some((first, rest)) => {
                let before = same(alloc, first, left)?;
                let after = equals_pair(alloc, rest, middle, right)?;
                Ok(before && after)
            }
            None => Ok(false),
        },
    }
}

// Whether the value is the pair of the two.
fn equals_pair<A: Allocator + Copy>(
    alloc: A,
    value: &Value<A>,
    left: &Value<A>,
    right: &Value<A>,
) -> Result<bool, AllocError>
    ensures { IfOk result (λ b. b
        ≡ tree_eq (tree_of value.now) (pair (tree_of left.now) (tree_of right.now))) }
{
    match value.as_pair() {
        Some((first, second)) => {
            let before = same(alloc, first, left)?;
            let after = same(alloc, second, right)?;
            Ok(before && after)
        }
        None => Ok(false),
    }
}

fn same<A: Allocator + Copy>(alloc: A, one: &Value<A>, other: &Value<A>) -> Result<bool, AllocError>
    ensures { IfOk result (λ b. b ≡ tree_eq (tree_of one.now) (tree_of other.now)) }
{
    one.same_by_list(alloc, other)
}
