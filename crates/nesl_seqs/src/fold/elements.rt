//! Sequences of numbers and of truth values, read once.
ghost use Rattle.std.specs.Prelude.{◌≡◌, ⊤, length, is_some, option_map};
ghost use Rattle.std.specs.List.{list_all};
ghost use Rattle.nesl_values.specs.Parts.{as_int, as_bool};
ghost use Rattle.nesl_values.specs.View.{tree_of, item_trees};
ghost use Rattle.nesl_seqs_base.specs.Reductions.{all_of};
ghost use Rattle.nesl_seqs.specs.Elements.{numbers_of, truths_of};

use nesl_values::{Items, Value};
use std::alloc::{AllocError, Allocator, Global};

/// The elements of a sequence of numbers, as they are held.
#[derive_where(Copy)]
pub enum Numbers<'a, A: Allocator = Global> {
    Packed(&'a [i64]),
    Loose(&'a [Value<A>]),
}

/// The elements of a sequence of truth values, as they are held.
#[derive_where(Copy)]
pub enum Truths<'a, A: Allocator = Global> {
    Packed(&'a [bool]),
    Loose(&'a [Value<A>]),
}

impl<A: Allocator> Clone for Numbers<'_, A> {
    ghost is_clone = { λ one other. other ≡ one };

    ghost is_infallible = { λ _. ⊤ };

    fn clone(&self) -> Result<Self, AllocError> {
        Ok(*self)
    }
}

impl<A: Allocator> Clone for Truths<'_, A> {
    ghost is_clone = { λ one other. other ≡ one };

    ghost is_infallible = { λ _. ⊤ };

    fn clone(&self) -> Result<Self, AllocError> {
        Ok(*self)
    }
}

impl<'a, A: Allocator> Numbers<'a, A> {
    /// The items, where all are numbers.
    pub fn read(items: Items<'a, A>) -> Option<Numbers<'a, A>>
        ensures { option_map numbers_of result ≡ all_of as_int (item_trees items.entry) }
    {
        match items {
            Items::Ints(ints) => Some(Numbers::Packed(ints)),
            Items::Bools(bools) => bools.is_empty().then_some(Numbers::Packed(&[])),
            Items::Chars(chars) => chars.is_empty().then_some(Numbers::Packed(&[])),
            Items::Values(values) => are_numbers(values).then_some(Numbers::Loose(values)),
        }
    }

    /// How many there are.
    pub fn len(self) -> usize
        ensures { result ≡ length (numbers_of self.entry) }
    {
        match self {
            Numbers::Packed(ints) => ints.len(),
            Numbers::Loose(values) => values.len(),
        }
    }
}

impl<'a, A: Allocator> Truths<'a, A> {
    /// The items, where all are truth values.
    pub fn read(items: Items<'a, A>) -> Option<Truths<'a, A>>
        ensures { option_map truths_of result ≡ all_of as_bool (item_trees items.entry) }
    {
        match items {
            Items::Ints(ints) => ints.is_empty().then_some(Truths::Packed(&[])),
            Items::Bools(bools) => Some(Truths::Packed(bools)),
            Items::Chars(chars) => chars.is_empty().then_some(Truths::Packed(&[])),
            Items::Values(values) => are_truths(values).then_some(Truths::Loose(values)),
        }
    }

    /// How many there are.
    pub fn len(self) -> usize
        ensures { result ≡ length (truths_of self.entry) }
    {
        match self {
            Truths::Packed(bools) => bools.len(),
            Truths::Loose(values) => values.len(),
        }
    }
}

fn are_numbers<A: Allocator>(values: &[Value<A>]) -> bool
    ensures { result ≡ list_all (λ v. is_some (as_int (tree_of v))) values.now }
{
    values.iter().all(|value| value.as_int().is_some())
}

fn are_truths<A: Allocator>(values: &[Value<A>]) -> bool
    ensures { result ≡ list_all (λ v. is_some (as_bool (tree_of v))) values.now }
{
    values.iter().all(|value| value.as_bool().is_some())
}
