//! What a function that makes sequences of parts returns, as a plan from which it is priced and then built.
ghost use Rattle.std.specs.Prelude.{◌≡◌, ⊤, ◌+◌, ◌-◌, ◌≤◌, length, IfOk, SomeIff};
ghost use Rattle.nesl_values.specs.Tree.{size};
ghost use Rattle.nesl_values.specs.View.{tree_of, item_trees};
ghost use Rattle.nesl_seqs_base.specs.Prices.{price};
ghost use Rattle.nesl_seqs_build.specs.Plans.{built, read_by, IsSound};

use crate::building::joined_copy;
use crate::levels::{all_elements, partition_by, price_of_flattened, price_of_pieces};
use crate::pairs::{pairs_of, price_of_pairs};
use crate::pieces::{price_of_reversed, two_copies};
use crate::ranges::{
    Progression, copies, price_of_copies, price_of_progression, sequence_of_steps,
};
use crate::replace::{price_of_replaced, replaced_copy};
use crate::sides::{both_sides, price_of_sides, price_of_unzipped, split_by};
use nesl_seqs_base::copies::{copy_of, reversed_copy};
use nesl_seqs_base::nodes::{
    price_of_element, price_of_items, price_of_joined, price_of_leaf, price_of_two,
};
use nesl_seqs_base::price::Price;
use nesl_values::{Element, Items, Value};
use std::alloc::{AllocError, Allocator, Global};

/// The result of a function at an argument that has one, as it is to be priced and built.
#[derive_where(Copy)]
pub enum Plan<'a, A: Allocator = Global> {
    /// How many elements there are.
    Length(i64),
    /// One element.
    Element(Element<'a, A>),
    /// The items of the one and then of the other.
    Joined(Items<'a, A>, Items<'a, A>),
    /// Some of as many items as are read.
    Part {
        items: Items<'a, A>,
        read: usize,
    },
    /// The sequence of two sequences.
    Two(Items<'a, A>, Items<'a, A>),
    /// The items from the last to the first.
    Reversed(Items<'a, A>),
    /// Numbers in equal steps.
    Steps(Progression),
    /// One value, `count` times.
    Copies {
        item: &'a Value<A>,
        count: u64,
    },
    /// The pairs of the items of both.
    Pairs(Items<'a, A>, Items<'a, A>),
    /// The items with another one at a place.
    Replaced {
        items: Items<'a, A>,
        item: &'a Value<A>,
        place: usize,
    },
    /// The elements of sequences.
    Flattened(&'a [Value<A>]),
    /// The left parts of pairs and the right ones.
    Unzipped(&'a [Value<A>]),
    /// The items in pieces, and how many each piece has.
    Pieces {
        items: Items<'a, A>,
        counts: Items<'a, A>,
    },
    /// The items beside which the flag is `F`, and those beside which it is `T`.
    Split {
        items: Items<'a, A>,
        flags: Items<'a, A>,
    },
}

impl<A: Allocator> Clone for Plan<'_, A> {
    ghost is_clone = { λ one other. other ≡ one };

    ghost is_infallible = { λ _. ⊤ };

    fn clone(&self) -> Result<Self, AllocError> {
        Ok(*self)
    }
}

impl<A: Allocator> Plan<'_, A> {
    /// The price, where the work is at most the limit: known without memory.
    pub fn price(self, limit: u128) -> Option<Price>
        requires { IsSound self }
        ensures { SomeIff result (1 + read_by self.entry + (size (built self.entry) - 1) ≤ limit)
            (price (read_by self.entry) 1 (built self.entry)) }
    {
        match self {
            Plan::Length(_) => price_of_leaf(0, 1, limit),
            Plan::Element(element) => price_of_element(element, limit),
            Plan::Joined(one, other) => price_of_joined(
                one,
                other,
                length_of_both(one, other),
                limit,
            ),
            Plan::Part { items, read } => price_of_items(items, read as u128, limit),
            Plan::Two(one, other) => price_of_two(one, other, length_of_both(one, other), limit),
            Plan::Reversed(items) => price_of_reversed(items, limit),
            Plan::Steps(numbers) => price_of_progression(numbers, limit),
            Plan::Copies { item, count } => price_of_copies(item, count, limit),
            Plan::Pairs(one, other) => price_of_pairs(one, other, limit),
            Plan::Replaced { items, item, place } => price_of_replaced(items, item, place, limit),
            Plan::Flattened(values) => price_of_flattened(values, limit),
            Plan::Unzipped(values) => price_of_unzipped(values, limit),
            Plan::Pieces { items, counts } => price_of_pieces(items, counts, limit),
            Plan::Split { items, flags } => price_of_sides(items, flags, limit),
        }
    }
}

impl<A: Allocator + Copy> Plan<'_, A> {
    /// The result.
    pub fn build(self, alloc: A) -> Result<Value<A>, AllocError>
        requires { IsSound self }
        ensures { IfOk result (λ v. tree_of v ≡ built self.entry) }
    {
        match self {
            Plan::Length(len) => Ok(Value::Int(len)),
            Plan::Element(element) => element.share(),
            Plan::Joined(one, other) => joined_copy(alloc, one, other),
            Plan::Part { items, .. } => copy_of(alloc, items),
            Plan::Two(one, other) => two_copies(alloc, one, other),
            Plan::Reversed(items) => reversed_copy(alloc, items),
            Plan::Steps(numbers) => sequence_of_steps(alloc, numbers),
            Plan::Copies { item, count } => copies(alloc, item, count as usize),
            Plan::Pairs(one, other) => Value::sequence(alloc, pairs_of(alloc, one, other)?),
            Plan::Replaced { items, item, place } => replaced_copy(alloc, items, item, place),
            Plan::Flattened(values) => all_elements(alloc, values),
            Plan::Unzipped(values) => both_sides(alloc, values),
            Plan::Pieces { items, counts } => partition_by(alloc, items, counts),
            Plan::Split { items, flags } => split_by(alloc, items, flags),
        }
    }
}

// How many items both have.
fn length_of_both<A: Allocator>(one: Items<'_, A>, other: Items<'_, A>) -> u128
    ensures { result ≡ length (item_trees one.entry) + length (item_trees other.entry) }
{
    one.len() as u128 + other.len() as u128
}
