//! What a function that moves elements by their places returns, as a plan from which it is priced and then built.
ghost use Rattle.std.specs.Prelude.{◌≡◌, ⊤, ◌+◌, ◌-◌, ◌≤◌, IfOk, SomeIff};
ghost use Rattle.nesl_values.specs.Tree.{size};
ghost use Rattle.nesl_values.specs.View.{tree_of};
ghost use Rattle.nesl_seqs_base.specs.Prices.{price};
ghost use Rattle.nesl_seqs_index.specs.Plans.{built, read_by, IsSound};

use crate::gather::{copy_of_gathered, price_of_gathered};
use crate::permute::{copy_of_permuted, price_of_permuted};
use crate::woven::{copy_of_every_other, price_of_every_other, price_of_woven, woven_copy};
use crate::write::{overwritten_copy, price_of_overwritten};
use nesl_seqs_base::price::Price;
use nesl_values::{Items, Value};
use std::alloc::{AllocError, Allocator, Global};

/// The result of a function at an argument that has one, as it is to be priced and built.
#[derive_where(Copy)]
pub enum Plan<'a, A: Allocator = Global> {
    /// Every other of these items, from the first on, and how many were read.
    EveryOther {
        items: Items<'a, A>,
        read: usize,
    },
    /// One item of each in turn.
    Woven(Items<'a, A>, Items<'a, A>),
    /// The items at the places that the indices name.
    Gathered {
        items: Items<'a, A>,
        indices: Items<'a, A>,
    },
    /// Each of the items at the place that its index names.
    Permuted {
        items: Items<'a, A>,
        indices: Items<'a, A>,
    },
    /// The items after the pairs of a place and an element were written in order.
    Written {
        items: Items<'a, A>,
        pairs: &'a [Value<A>],
    },
}

impl<A: Allocator> Clone for Plan<'_, A> {
    ghost is_clone = { λ one other. other ≡ one };

    ghost is_infallible = { λ _. ⊤ };

    fn clone(&self) -> Result<Self, AllocError> {
        Ok(*self)
    }
}

impl<A: Allocator> Plan<'_, A> {
    /// The price, where the work is at most the limit: known without memory.
    pub fn price(self, limit: u128) -> Option<Price>
        requires { IsSound self }
        ensures { SomeIff result (1 + read_by self.entry + (size (built self.entry) - 1) ≤ limit)
            (price (read_by self.entry) 1 (built self.entry)) }
    {
        match self {
            Plan::EveryOther { items, read } => price_of_every_other(items, read as u128, limit),
            Plan::Woven(one, other) => price_of_woven(one, other, limit),
            Plan::Gathered { items, indices } => price_of_gathered(items, indices, limit),
            Plan::Permuted { items, indices } => price_of_permuted(items, indices, limit),
            Plan::Written { items, pairs } => price_of_overwritten(items, pairs, limit),
        }
    }
}

impl<A: Allocator + Copy> Plan<'_, A> {
    /// The result.
    pub fn build(self, alloc: A) -> Result<Value<A>, AllocError>
        requires { IsSound self }
        ensures { IfOk result (λ v. tree_of v ≡ built self.entry) }
    {
        match self {
            Plan::EveryOther { items, .. } => copy_of_every_other(alloc, items),
            Plan::Woven(one, other) => woven_copy(alloc, one, other),
            Plan::Gathered { items, indices } => copy_of_gathered(alloc, items, indices),
            Plan::Permuted { items, indices } => copy_of_permuted(alloc, items, indices),
            Plan::Written { items, pairs } => overwritten_copy(alloc, items, pairs),
        }
    }
}
