//! What a function on sequences returns, as a plan from which it is priced and then built.
ghost use Rattle.std.specs.Prelude.{◌≡◌, ⊤, ◌+◌, ◌-◌, ◌≤◌, IfOk, SomeIff};
ghost use Rattle.nesl_values.specs.Tree.{size};
ghost use Rattle.nesl_values.specs.View.{tree_of};
ghost use Rattle.nesl_seqs_base.specs.Prices.{price};
ghost use Rattle.nesl_seqs.specs.Plans.{built, read_by, depth_by, IsSound};

use nesl_seqs_base::price::Price;
use nesl_values::Value;
use std::alloc::{AllocError, Allocator, Global};

/// The result of a function at an argument that has one, as it is to be priced and built.
#[derive_where(Copy)]
pub enum Plan<'a, A: Allocator = Global> {
    /// It is computed from the elements.
    Fold(crate::fold::plan::Plan<'a, A>),
    /// It is made of parts.
    Build(nesl_seqs_build::plan::Plan<'a, A>),
    /// It has the elements at other places.
    Index(nesl_seqs_index::plan::Plan<'a, A>),
}

impl<A: Allocator> Clone for Plan<'_, A> {
    ghost is_clone = { λ one other. other ≡ one };

    ghost is_infallible = { λ _. ⊤ };

    fn clone(&self) -> Result<Self, AllocError> {
        Ok(*self)
    }
}

impl<A: Allocator> Plan<'_, A> {
    /// The price, where the work is at most the limit: known without memory.
    pub fn price(self, limit: u128) -> Option<Price>
        requires { IsSound self }
        ensures { SomeIff result (1 + read_by self.entry + (size (built self.entry) - 1) ≤ limit)
            (price (read_by self.entry) (depth_by self.entry) (built self.entry)) }
    {
        match self {
            Plan::Fold(plan) => plan.price(limit),
            Plan::Build(plan) => plan.price(limit),
            Plan::Index(plan) => plan.price(limit),
        }
    }
}

impl<A: Allocator + Copy> Plan<'_, A> {
    /// The result.
    pub fn build(self, alloc: A) -> Result<Value<A>, AllocError>
        requires { IsSound self }
        ensures { IfOk result (λ v. tree_of v ≡ built self.entry) }
    {
        match self {
            Plan::Fold(plan) => plan.build(alloc),
            Plan::Build(plan) => plan.build(alloc),
            Plan::Index(plan) => plan.build(alloc),
        }
    }
}
