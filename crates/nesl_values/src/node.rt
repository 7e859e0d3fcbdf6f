// What a value with parts is held in.
use crate::value::Value;
use std::alloc::Allocator;
use std::marker::Model;

/// The parts of a value, and how many nodes the value has, itself included.
#[cycle(value)]
#[derive(Drop)]
pub struct Node<A: Allocator> {
    pub(crate) nodes: u64,
    pub(crate) parts: Parts<A>,
}

#[cycle(value)]
#[derive(Drop)]
pub enum Parts<A: Allocator> {
    Pair(Value<A>, Value<A>),
    Tagged(u64, Value<A>),
    Seq(Vec<Value<A>, A>),
    Ints(Vec<i64, A>),
    Bools(Vec<bool, A>),
    Chars(Vec<u8, A>),
}

impl<A: Allocator> Model for Node<A> {
    ghost use Rattle.std.specs.Prelude.{◌≡◌};
    ghost use Rattle.nesl_values.specs.Tree.{ValueTree};
    ghost use Rattle.nesl_values.specs.Codes.{tree_code};

    ghost Value = { ValueTree };

    ghost coded = { tree_code };

    ghost use Rattle.nesl_values.specs.View.{parts_tree, nodes_of};

    ghost view = { λ a. parts_tree a.parts };

    ghost invariant = { λ a. a.nodes ≡ nodes_of (parts_tree a.parts) };

    ghost size = { nodes_of };

    ghost use Rattle.nesl_values.specs.Falls.{depth_le};

    ghost size_decreases = { λ a h. depth_le A.Allocator a.parts };
}
