// The plans of all functions, and their prices and results.
ghost use Rattle.std.specs.Prelude.{◌≡◌, ◌+◌, ◌-◌, ◌≤◌, ◌<◌, ◌^◌, ℕ, IfOk, OnOk};
ghost use Rattle.nesl_values.specs.Tree.{size};
ghost use Rattle.nesl_values.specs.View.{tree_of};
ghost use Rattle.nesl_seqs_base.specs.Lent.{argument_tree};
ghost use Rattle.nesl_seqs_base.specs.Outcome.{Outcome, IsGiven, gives};
ghost use Rattle.nesl_seqs_base.specs.Meaning.{outcome_of};
ghost use Rattle.nesl_seqs_base.specs.Prices.{Prices, reads, depth_of};
ghost use Rattle.nesl_seqs.specs.FoldPlans as folds;
ghost use Rattle.nesl_seqs_build.specs.Plans as builds;
ghost use Rattle.nesl_seqs_index.specs.Plans as indexes;
ghost use Rattle.nesl_seqs.specs.Few.{HasFewNodes};
ghost use Rattle.nesl_seqs.specs.Plans.{Plans, built, read_by, depth_by};

use crate::fold::reductions::{self, plan_of_leaf};
use crate::fold::{equal, extremes, scans};
use crate::plans::Plan;
use nesl_scalars::Trap;
use nesl_seqs_base::argument::Argument;
use nesl_seqs_base::joint::Joint;
use nesl_seqs_base::price::Price;
use nesl_seqs_base::seq_fn::SeqFn;
use nesl_seqs_build::{levels, pairs, pieces, ranges, replace, sides};
use nesl_seqs_index::{gather, permute, woven, write};
use nesl_values::Value;
use std::alloc::{AllocError, Allocator};

/// The price of a function at an argument, without a limit: `plan` and `Plan::price` in one call. It takes no memory.
#[tactic(auto, using(crate::proofs::Planned::always_priced, crate::proofs::Planned::plan_given))]
pub fn cost_and_size<A: Allocator>(
    function: SeqFn,
    argument: Argument<'_, A>,
) -> Result<Price, Trap>
    ensures given { OnOk result (IsGiven (outcome_of function (argument_tree argument.entry))) }
    ensures price { Prices (outcome_of function (argument_tree argument.entry))
        (reads function (argument_tree argument.entry))
        (depth_of function (reads function (argument_tree argument.entry))) result }
    ensures depth { IfOk result (λ p. (1 ≤ p.depth) × (p.depth ≤ p.work)) }
{
    has_few_nodes(argument);
    let plan = plan(function, argument)?;
    match plan.price(u128::MAX) {
        Some(price) => Ok(price),
        None => unreachable!(),
    }
}

// A law: no value has 2^64 nodes, since each knows its number.
fn has_few_nodes<A: Allocator>(argument: Argument<'_, A>)
    ensures { HasFewNodes argument.entry }
{
    match argument {
        Argument::One(value) => {
            value.nodes();
        }
        Argument::Two(first, second) => {
            first.nodes();
            second.nodes();
        }
        Argument::Three(first, second, third) => {
            first.nodes();
            second.nodes();
            third.nodes();
        }
    }
}

/// The result of a function at an argument that has one: `plan` and `Plan::build` in one call.
pub fn apply<A: Allocator + Copy>(
    alloc: A,
    function: SeqFn,
    argument: Argument<'_, A>,
) -> Result<Value<A>, AllocError>
    requires { IsGiven (outcome_of function (argument_tree argument)) }
    ensures { IfOk result (λ v. outcome_of function (argument_tree argument.entry) ≡ gives (tree_of v)) }
{
    match plan(function, argument) {
        Ok(plan) => plan.build(alloc),
        Err(_) => unreachable!(),
    }
}

fn from_fold<'a, A: Allocator>(
    plan: Result<crate::fold::plan::Plan<'a, A>, Trap>,
) -> Result<Plan<'a, A>, Trap>
    ensures { (o : Outcome) (read depth : ℕ) → folds.Plans o read depth plan.entry → Plans o read depth result }
{
    Ok(Plan::Fold(plan?))
}

fn from_build<'a, A: Allocator>(
    plan: Result<nesl_seqs_build::plan::Plan<'a, A>, Trap>,
) -> Result<Plan<'a, A>, Trap>
    ensures few { (n : ℕ) → IfOk plan.entry (λ p. size (builds.built p) < n) → IfOk result (λ p. size (built p) < n) }
    ensures plan { (o : Outcome) (read : ℕ) → builds.Plans o read plan.entry → Plans o read 1 result }
{
    Ok(Plan::Build(plan?))
}

fn from_index<'a, A: Allocator>(
    plan: Result<nesl_seqs_index::plan::Plan<'a, A>, Trap>,
) -> Result<Plan<'a, A>, Trap>
    ensures { (o : Outcome) (read : ℕ) → indexes.Plans o read plan.entry → Plans o read 1 result }
{
    Ok(Plan::Index(plan?))
}

/// The plan of a function at an argument, or the fault where it has no result. It is made without
/// memory, in a time that grows with the argument's length.
pub fn plan<A: Allocator>(function: SeqFn, argument: Argument<'_, A>) -> Result<Plan<'_, A>, Trap>
    ensures always { HasFewNodes argument.entry
        → IfOk result (λ p. 1 + read_by p + (size (built p) - 1) < 2 ^ 128) }
    ensures depth { IfOk result (λ p. (1 ≤ depth_by p) × (depth_by p ≤ 1 + read_by p)) }
    ensures plan { Plans (outcome_of function (argument_tree argument.entry))
        (reads function (argument_tree argument.entry))
        (depth_of function (reads function (argument_tree argument.entry))) result }
{
    planned(function, argument)
}

fn planned<A: Allocator>(function: SeqFn, argument: Argument<'_, A>) -> Result<Plan<'_, A>, Trap>
    ensures always { HasFewNodes argument.entry
        → IfOk result (λ p. 1 + read_by p + (size (built p) - 1) < 2 ^ 128) }
    ensures plan { Plans (outcome_of function (argument_tree argument.entry))
        (reads function (argument_tree argument.entry))
        (depth_of function (reads function (argument_tree argument.entry))) result }
{
    match function {
        SeqFn::Length => from_build(pieces::plan_length(argument)),
        SeqFn::ElementAt => from_build(pieces::plan_element_at(argument)),
        SeqFn::Append => from_build(pieces::plan_append(argument)),
        SeqFn::Dist => from_build(ranges::plan_dist(argument)),
        SeqFn::Range => from_build(ranges::plan_range(argument)),
        SeqFn::RangeBy => from_build(ranges::plan_range_by(argument)),
        SeqFn::Index => from_build(ranges::plan_index(argument)),
        SeqFn::Sum => from_fold(reductions::plan_sum(argument)),
        SeqFn::Any => from_fold(plan_of_leaf(argument, reductions::any(argument))),
        SeqFn::All => from_fold(plan_of_leaf(argument, reductions::all(argument))),
        SeqFn::Count => from_fold(plan_of_leaf(argument, reductions::count(argument))),
        SeqFn::Bottop => from_build(pieces::plan_bottop(argument)),
        SeqFn::Take => from_build(pieces::plan_take(argument)),
        SeqFn::Drop => from_build(pieces::plan_drop(argument)),
        SeqFn::Reverse => from_build(pieces::plan_reverse(argument)),
        SeqFn::Rotate => from_build(pieces::plan_rotate(argument)),
        SeqFn::Zip => from_build(pairs::plan_zip(argument)),
        SeqFn::Rep => from_build(replace::plan_rep(argument)),
        SeqFn::Eql => from_fold(equal::plan_eql(argument)),
        SeqFn::MaxVal => from_fold(plan_of_leaf(argument, extremes::max_val(argument))),
        SeqFn::MinVal => from_fold(plan_of_leaf(argument, extremes::min_val(argument))),
        SeqFn::MaxIndex => from_fold(plan_of_leaf(argument, extremes::max_index(argument))),
        SeqFn::MinIndex => from_fold(plan_of_leaf(argument, extremes::min_index(argument))),
        SeqFn::PlusScan => from_fold(scans::plan_plus_scan(argument)),
        SeqFn::OrScan => from_fold(scans::plan_logic_scan(argument, Joint::Or)),
        SeqFn::AndScan => from_fold(scans::plan_logic_scan(argument, Joint::And)),
        SeqFn::Flatten => from_build(levels::plan_flatten(argument)),
        SeqFn::Unzip => from_build(sides::plan_unzip(argument)),
        SeqFn::OddElts => from_index(woven::plan_odd_elts(argument)),
        SeqFn::EvenElts => from_index(woven::plan_even_elts(argument)),
        SeqFn::Interleave => from_index(woven::plan_interleave(argument)),
        SeqFn::Gather => from_index(gather::plan_gather(argument)),
        SeqFn::Permute => from_index(permute::plan_permute(argument)),
        SeqFn::Split => from_build(sides::plan_split(argument)),
        SeqFn::Partition => from_build(levels::plan_partition(argument)),
        SeqFn::Write => from_index(write::plan_write(argument)),
    }
}
