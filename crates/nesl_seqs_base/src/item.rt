// The elements of sequences, packed or not, as slices.
ghost use Rattle.std.specs.Prelude.{◌≡◌, ◌<◌, Some, None, IfSome, map};
ghost use Rattle.nesl_values.specs.Tree.{ValueTree, int, boolean, character};
ghost use Rattle.nesl_values.specs.Parts.{as_int, as_bool, as_char, as_pair, as_sequence};
ghost use Rattle.nesl_values.specs.View.{tree_of, item_trees};
ghost use Rattle.nesl_seqs_base.specs.Reductions.{all_of};

use nesl_values::{Items, Value};
use std::alloc::Allocator;

/// The items as values of their own. A packed item is no sequence and no pair.
pub fn unpacked<A: Allocator>(items: Items<'_, A>) -> Option<&[Value<A>]>
    ensures some { IfSome result (λ values. map tree_of values.now ≡ item_trees items.entry) }
    ensures no_sequence { result ≡ None → all_of as_sequence (item_trees items.entry) ≡ None }
    ensures no_pair { result ≡ None → all_of as_pair (item_trees items.entry) ≡ None }
{
    if let Items::Values(values) = items {
        return Some(values);
    }
    if items.len() == 0 { Some(&[]) } else { None }
}

/// An element as a slice holds it.
pub trait Item {
    ghost tree: { Self → ValueTree };

    fn as_int(&self) -> Option<i64>
        ensures { result ≡ as_int (tree self.now) };

    fn as_bool(&self) -> Option<bool>
        ensures { result ≡ as_bool (tree self.now) };

    fn as_char(&self) -> Option<u8>
        ensures { result ≡ as_char (tree self.now) };
}

impl Item for i64 {
    ghost tree = { int };

    fn as_int(&self) -> Option<i64> {
        Some(*self)
    }

    fn as_bool(&self) -> Option<bool> {
        None
    }

    fn as_char(&self) -> Option<u8> {
        None
    }
}

impl Item for bool {
    ghost tree = { boolean };

    fn as_int(&self) -> Option<i64> {
        None
    }

    fn as_bool(&self) -> Option<bool> {
        Some(*self)
    }

    fn as_char(&self) -> Option<u8> {
        None
    }
}

impl Item for u8 {
    ghost tree = { character };

    fn as_int(&self) -> Option<i64> {
        None
    }

    fn as_bool(&self) -> Option<bool> {
        None
    }

    fn as_char(&self) -> Option<u8> {
        Some(*self)
    }
}

impl<A: Allocator> Item for Value<A> {
    ghost tree = { tree_of };

    fn as_int(&self) -> Option<i64> {
        Value::as_int(self)
    }

    fn as_bool(&self) -> Option<bool> {
        Value::as_bool(self)
    }

    fn as_char(&self) -> Option<u8> {
        Value::as_char(self)
    }
}
