//! What a function that reads a sequence returns, as a plan from which it is priced and then built.
ghost use Rattle.std.specs.Prelude.{◌≡◌, ⊤, ◌+◌, ◌-◌, ◌≤◌, SomeIff, IfOk};
ghost use Rattle.nesl_values.specs.Tree.{ValueTree, size};
ghost use Rattle.nesl_values.specs.View.{tree_of};
ghost use Rattle.nesl_seqs_base.specs.Prices.{price, digits};
ghost use Rattle.nesl_seqs.specs.FoldPlans.{built, read_by, depth_by};

use crate::fold::elements::{Numbers, Truths};
use crate::fold::equal::{equal, price_of_equality};
use crate::fold::reductions::{Scalar, digits, wrapped_sum};
use crate::fold::scans::{bits_before_each, sums_before_each, truths_before_each};
use nesl_seqs_base::argument::Argument;
use nesl_seqs_base::joint::Joint;
use nesl_seqs_base::nodes::price_of_leaf;
use nesl_seqs_base::price::Price;
use nesl_values::Value;
use std::alloc::{AllocError, Allocator, Global};

/// The result of a function at an argument that has one, as it is to be priced and built.
#[derive_where(Copy)]
pub enum Plan<'a, A: Allocator = Global> {
    /// A leaf, and how many elements it was computed from.
    Leaf {
        leaf: Scalar,
        read: usize,
    },
    /// The sum of numbers, which is one of 64 bits.
    Sum(&'a [i64]),
    /// Whether the one is the other.
    Equality(&'a Value<A>, Argument<'a, A>),
    /// The sums of the numbers before each, which are all of 64 bits.
    Sums(Numbers<'a, A>),
    /// The truth values before each, joined.
    JoinedTruths {
        joint: Joint,
        truths: Truths<'a, A>,
    },
    /// The numbers before each, joined bit by bit.
    JoinedNumbers {
        joint: Joint,
        numbers: Numbers<'a, A>,
    },
}

impl<A: Allocator> Clone for Plan<'_, A> {
    ghost is_clone = { λ one other. other ≡ one };

    ghost is_infallible = { λ _. ⊤ };

    fn clone(&self) -> Result<Self, AllocError> {
        Ok(*self)
    }
}

impl<A: Allocator> Plan<'_, A> {
    /// The price, where the work is at most the limit: known without memory.
    pub fn price(self, limit: u128) -> Option<Price>
        ensures { SomeIff result (1 + read_by self.entry + (size (built self.entry) - 1) ≤ limit)
            (price (read_by self.entry) (depth_by self.entry) (built self.entry)) }
    {
        match self {
            Plan::Leaf { read, .. } => price_of_leaf(read, 1 + digits(read), limit),
            Plan::Sum(ints) => price_of_leaf(ints.len(), 1 + digits(ints.len()), limit),
            Plan::Equality(one, other) => price_of_equality(one, other, limit),
            Plan::Sums(numbers) => price_of_scan(numbers.len(), limit),
            Plan::JoinedTruths { truths, .. } => price_of_scan(truths.len(), limit),
            Plan::JoinedNumbers { numbers, .. } => price_of_scan(numbers.len(), limit),
        }
    }
}

impl<A: Allocator + Copy> Plan<'_, A> {
    /// The result.
    pub fn build(self, alloc: A) -> Result<Value<A>, AllocError>
        ensures { IfOk result (λ v. tree_of v ≡ built self.entry) }
    {
        match self {
            Plan::Leaf { leaf, .. } => Ok(leaf.into_value()),
            Plan::Sum(ints) => Ok(Value::Int(wrapped_sum(ints))),
            Plan::Equality(one, other) => Ok(Value::Bool(equal(alloc, one, other)?)),
            Plan::Sums(numbers) => Value::ints(alloc, sums_before_each(alloc, numbers)?),
            Plan::JoinedTruths { joint, truths } => {
                Value::bools(alloc, truths_before_each(alloc, truths, joint)?)
            }
            Plan::JoinedNumbers { joint, numbers } => {
                Value::ints(alloc, bits_before_each(alloc, numbers, joint)?)
            }
        }
    }
}

// The price of a root over `len` leaves, made from as many elements.
fn price_of_scan(len: usize, limit: u128) -> Option<Price>
    ensures { (t : ValueTree) → size t ≡ 1 + len
        → SomeIff result (1 + len + (size t - 1) ≤ limit) (price len (1 + digits len) t) }
{
    let leaves = len as u128;
    if limit <= 2 * leaves {
        return None;
    }
    Some(Price {
        work: 1 + 2 * leaves,
        depth: 1 + digits(len),
        nodes: 1 + leaves,
    })
}
