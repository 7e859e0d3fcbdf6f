// The elements of sequences, packed or not, as slices.
ghost use Rattle.std.specs.Prelude.{◌≡◌, ◌≤◌, ◌<◌, ◌^◌, ⊤, Some, length, slice_get, slice_range};
ghost use Rattle.nesl_values.specs.Parts.{elements};
ghost use Rattle.nesl_values.specs.View.{tree_of, parts_tree, element_tree, item_trees};

use crate::element::Element;
use crate::node::{Node, Parts};
use crate::value::Value;
use std::alloc::{AllocError, Allocator, Global};

/// The elements of a sequence, as they are held.
#[derive_where(Copy)]
pub enum Items<'a, A: Allocator = Global> {
    Ints(&'a [i64]),
    Bools(&'a [bool]),
    Chars(&'a [u8]),
    Values(&'a [Value<A>]),
}

impl<A: Allocator> Clone for Items<'_, A> {
    ghost is_clone = { λ one other. other ≡ one };

    ghost is_infallible = { λ _. ⊤ };

    fn clone(&self) -> Result<Self, AllocError> {
        Ok(*self)
    }
}

impl<A: Allocator> Value<A> {
    /// The elements of a sequence, and of any other value none.
    pub fn items(&self) -> Items<'_, A>
        ensures items { item_trees result ≡ elements (tree_of self.now) }
        ensures len { length (item_trees result) < 2 ^ 63 }
    {
        match self {
            Value::Shared(shared) => shared.items(),
            _ => Items::Values(&[]),
        }
    }
}

impl<A: Allocator> Node<A> {
    fn items(&self) -> Items<'_, A>
        ensures items { item_trees result ≡ elements self.now }
        ensures len { length (item_trees result) < 2 ^ 63 }
    {
        parts_items(&self.parts)
    }
}

fn parts_items<A: Allocator>(parts: &Parts<A>) -> Items<'_, A>
    ensures items { item_trees result ≡ elements (parts_tree parts.now) }
    ensures len { length (item_trees result) < 2 ^ 63 }
{
    match parts {
        Parts::Ints(ints) => Items::Ints(ints),
        Parts::Bools(bools) => Items::Bools(bools),
        Parts::Chars(chars) => Items::Chars(chars),
        Parts::Seq(values) => Items::Values(values),
        _ => Items::Values(&[]),
    }
}

impl<'a, A: Allocator> Items<'a, A> {
    pub fn len(&self) -> usize
        ensures { result ≡ length (item_trees self.now) }
    {
        match self {
            Items::Ints(ints) => ints.len(),
            Items::Bools(bools) => bools.len(),
            Items::Chars(chars) => chars.len(),
            Items::Values(values) => values.len(),
        }
    }

    /// The items from place `start` to before place `end`.
    pub fn part(self, start: usize, end: usize) -> Items<'a, A>
        requires start_le_end { start ≤ end }
        requires within { end ≤ length (item_trees self) }
        ensures { item_trees result ≡ slice_range (item_trees self.entry) start end }
    {
        match self {
            Items::Ints(ints) => Items::Ints(&ints[start..end]),
            Items::Bools(bools) => Items::Bools(&bools[start..end]),
            Items::Chars(chars) => Items::Chars(&chars[start..end]),
            Items::Values(values) => Items::Values(&values[start..end]),
        }
    }

    /// The item at a place.
    pub fn at(self, place: usize) -> Element<'a, A>
        requires { place < length (item_trees self) }
        ensures { slice_get (item_trees self.entry) place ≡ Some (element_tree result) }
    {
        match self {
            Items::Ints(ints) => Element::Int(ints[place]),
            Items::Bools(bools) => Element::Bool(bools[place]),
            Items::Chars(chars) => Element::Char(chars[place]),
            Items::Values(values) => Element::Node(&values[place]),
        }
    }
}
