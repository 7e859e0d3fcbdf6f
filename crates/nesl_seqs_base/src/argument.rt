//! What a function is applied to.
ghost use Rattle.std.specs.Prelude.{◌≡◌, ⊤, ◌+◌, ◌≤◌, SomeIff, length, option_map};
ghost use Rattle.nesl_values.specs.Tree.{size};
ghost use Rattle.nesl_values.specs.Parts.{as_int, as_pair, as_sequence};
ghost use Rattle.nesl_values.specs.View.{tree_of};
ghost use Rattle.nesl_seqs_base.specs.Lent.{argument_tree};

use crate::nodes::value_nodes;
use nesl_values::Value;
use std::alloc::{AllocError, Allocator, Global};

/// A lent argument: a value, or two or three that are taken as `(a, b)` and `(a, (b, c))`.
#[derive_where(Copy)]
pub enum Argument<'a, A: Allocator = Global> {
    One(&'a Value<A>),
    Two(&'a Value<A>, &'a Value<A>),
    Three(&'a Value<A>, &'a Value<A>, &'a Value<A>),
}

impl<A: Allocator> Clone for Argument<'_, A> {
    ghost is_clone = { λ one other. other ≡ one };

    ghost is_infallible = { λ _. ⊤ };

    fn clone(&self) -> Result<Self, AllocError> {
        Ok(*self)
    }
}

impl<'a, A: Allocator> Argument<'a, A> {
    /// Its two parts, where it is a pair. The first is always a value.
    pub fn as_pair(self) -> Option<(&'a Value<A>, Argument<'a, A>)>
        ensures { option_map (λ p. (tree_of p.0.now, argument_tree p.1)) result
            ≡ as_pair (argument_tree self.entry) }
    {
        match self {
            Argument::One(value) => {
                let (first, second) = value.as_pair()?;
                Some((first, Argument::One(second)))
            }
            Argument::Two(first, second) => Some((first, Argument::One(second))),
            Argument::Three(first, second, third) => Some((first, Argument::Two(second, third))),
        }
    }

    pub fn as_int(self) -> Option<i64>
        ensures { result ≡ as_int (argument_tree self.entry) }
    {
        match self {
            Argument::One(value) => value.as_int(),
            Argument::Two(_, _) | Argument::Three(_, _, _) => None,
        }
    }

    /// How many elements it has, where it is a sequence.
    pub fn sequence_len(self) -> Option<usize>
        ensures { result ≡ option_map length (as_sequence (argument_tree self.entry)) }
    {
        match self {
            Argument::One(value) => value.sequence_len(),
            Argument::Two(_, _) | Argument::Three(_, _, _) => None,
        }
    }

    /// The nodes of the tree that it is.
    pub fn nodes(self, limit: u128) -> Option<u128>
        ensures { SomeIff result
            (size (argument_tree self.entry) ≤ limit) (size (argument_tree self.entry)) }
    {
        match self {
            Argument::One(value) => value_nodes(value, limit),
            Argument::Two(first, second) => nodes_of_pair(first, second, limit),
            Argument::Three(first, second, third) => {
                let nodes = nodes_of_pair(second, third, limit)?;
                let others = nodes_of_pair_with(first, nodes, limit)?;
                Some(others)
            }
        }
    }
}

// The nodes of the pair of the two.
fn nodes_of_pair<A: Allocator>(one: &Value<A>, other: &Value<A>, limit: u128) -> Option<u128>
    ensures { SomeIff result
        (size (tree_of one.now) + size (tree_of other.now) + 1 ≤ limit)
        (size (tree_of one.now) + size (tree_of other.now) + 1) }
{
    let second = value_nodes(other, limit)?;
    nodes_of_pair_with(one, second, limit)
}

// The nodes of a pair whose right part has `right` nodes.
fn nodes_of_pair_with<A: Allocator>(one: &Value<A>, right: u128, limit: u128) -> Option<u128>
    requires { right ≤ limit }
    ensures { SomeIff result
        (size (tree_of one.now) + right + 1 ≤ limit) (size (tree_of one.now) + right + 1) }
{
    if limit == right {
        return None;
    }
    let first = value_nodes(one, limit - right - 1)?;
    Some(first + right + 1)
}
