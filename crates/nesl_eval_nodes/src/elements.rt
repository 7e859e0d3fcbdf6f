//! The elements of sequences at a place.
ghost use Rattle.std.specs.Prelude.{◌≡◌, option_map, option_and_then, slice_get, map};
ghost use Rattle.nesl_values.specs.Parts.{elements};
ghost use Rattle.nesl_values.specs.View.{tree_of, element_tree, item_trees};

use nesl_values::{Element, Items, Value};
use std::alloc::Allocator;

fn node_at<'a, A: Allocator>(values: &'a [Value<A>], index: usize) -> Option<Element<'a, A>>
    ensures { option_map element_tree result ≡ slice_get (map tree_of values.now) index }
{
    match values.get(index) {
        Some(value) => Some(Element::Node(value)),
        None => None,
    }
}

fn item_at<'a, A: Allocator>(items: Items<'a, A>, place: usize) -> Option<Element<'a, A>>
    ensures { option_map element_tree result ≡ slice_get (item_trees items.entry) place }
{
    match items {
        Items::Ints(ints) => match ints.get(place) {
            Some(n) => Some(Element::Int(*n)),
            None => None,
        },
        Items::Bools(bools) => match bools.get(place) {
            Some(b) => Some(Element::Bool(*b)),
            None => None,
        },
        Items::Chars(chars) => match chars.get(place) {
            Some(c) => Some(Element::Char(*c)),
            None => None,
        },
        Items::Values(values) => node_at(values, place),
    }
}

/// The element at a place of one of the sequences, by its index.
pub fn element_at<'a, A: Allocator>(
    values: &'a [Value<A>],
    index: usize,
    place: usize,
) -> Option<Element<'a, A>>
    ensures { option_map element_tree result
        ≡ option_and_then (λ v. slice_get (elements v) place) (slice_get (map tree_of values.now) index) }
{
    match values.get(index) {
        Some(value) => item_at(value.items(), place),
        None => None,
    }
}
