// One step of the way through a value that is dropped.
ghost use Rattle.std.specs.Prelude.{◌≡◌, ◌+◌, ◌<◌, ◌≤◌, ◌^◌, IsTrue};
ghost use Rattle.std.specs.Arc.{arc_value};
ghost use Rattle.nesl_values.specs.Tree.{size};
ghost use Rattle.nesl_values.specs.View.{tree_of, parts_tree};
ghost use Rattle.nesl_values.specs.Weight.{weight};
ghost use Rattle.nesl_values.specs.Dropping.{Enters, TurnLessens};

use crate::node::{Node, Parts};
use crate::value::Value;
use std::alloc::Allocator;
use std::mem;
use std::sync::Arc;

/// Where the way down goes on: to a child, or nowhere.
#[derive(Drop)]
pub enum Way<A: Allocator> {
    Down(Value<A>),
    End(Value<A>),
}

/// Where the way goes on from a node whose child was dropped: to the next child, or to the parent.
#[derive(Drop)]
pub enum Turn<A: Allocator> {
    Down(Value<A>),
    Up(Value<A>),
    Stuck,
}

pub(crate) fn entered_if_alone<A: Allocator>(
    shared: &mut Arc<Node<A>, A>,
    above: Value<A>,
) -> Way<A>
    requires { size (arc_value shared.old) + size (tree_of above) ≤ 2 ^ 64 }
    ensures { Enters result (arc_value shared.old) (arc_value shared.new) (tree_of above) }
{
    match Arc::get_mut(shared) {
        Some(node) => node.entered(above),
        None => Way::End(above),
    }
}

pub(crate) fn turned_if_alone<A: Allocator>(shared: &mut Arc<Node<A>, A>) -> Turn<A>
    ensures { TurnLessens result (arc_value shared.old) (arc_value shared.new) }
{
    match Arc::get_mut(shared) {
        Some(node) => node.turned(),
        None => Turn::Stuck,
    }
}

impl<A: Allocator> Node<A> {
    // Puts the parent in the place of the first child to drop.
    fn entered(&mut self, above: Value<A>) -> Way<A>
        requires { size self.old + size (tree_of above) ≤ 2 ^ 64 }
        ensures { Enters result self.old self.new (tree_of above) }
    {
        entered(&mut self.parts, &mut self.nodes, above)
    }

    // A node has a weight.
    #[tactic(auto, using(crate::proofs::Weights::weight_positive))]
    pub(crate) fn weighs(&self)
        ensures { 0 < weight self.now }
    {
        let _ = &self.parts;
    }

    // Takes the next child out, or the parent where there is none.
    fn turned(&mut self) -> Turn<A>
        ensures { TurnLessens result self.old self.new }
    {
        turned(&mut self.parts, &mut self.nodes)
    }
}

fn entered<A: Allocator>(parts: &mut Parts<A>, nodes: &mut u64, above: Value<A>) -> Way<A>
    requires counted { nodes.old ≡ size (parts_tree parts.old) }
    requires room { size (parts_tree parts.old) + size (tree_of above) ≤ 2 ^ 64 }
    ensures counted { nodes.new ≡ size (parts_tree parts.new) }
    ensures way { Enters result (parts_tree parts.old) (parts_tree parts.new) (tree_of above) }
{
    match parts {
        Parts::Pair(left, _) => Way::Down(exchanged(left, above, nodes)),
        Parts::Tagged(_, inner) => Way::Down(exchanged(inner, above, nodes)),
        Parts::Seq(items) => match items.len() {
            0 => Way::End(above),
            len => Way::Down(exchanged(&mut items[len - 1], above, nodes)),
        },
        Parts::Ints(_) | Parts::Bools(_) | Parts::Chars(_) => Way::End(above),
    }
}

fn turned<A: Allocator>(parts: &mut Parts<A>, nodes: &mut u64) -> Turn<A>
    requires { nodes.old ≡ size (parts_tree parts.old) }
    ensures counted { nodes.new ≡ size (parts_tree parts.new) }
    ensures turn { TurnLessens result (parts_tree parts.old) (parts_tree parts.new) }
{
    let whole = *nodes;
    match parts {
        Parts::Tagged(_, parent) => Turn::Up(exchanged(parent, Value::Int(0), nodes)),
        Parts::Pair(parent, right) => {
            if right.is_shared() {
                Turn::Down(exchanged(right, Value::Int(0), nodes))
            } else {
                Turn::Up(exchanged(parent, Value::Int(0), nodes))
            }
        }
        Parts::Seq(items) => match items.pop() {
            Some(parent) => {
                *nodes = whole - parent.nodes();
                match items.len() {
                    0 => Turn::Up(parent),
                    len => Turn::Down(exchanged(&mut items[len - 1], parent, nodes)),
                }
            }
            None => Turn::Stuck,
        },
        Parts::Ints(_) | Parts::Bools(_) | Parts::Chars(_) => Turn::Stuck,
    }
}

// Puts another value in the place of a child of a node, whose count of nodes it keeps right.
#[tactic(auto, using(crate::proofs::Trees::size_positive))]
fn exchanged<A: Allocator>(child: &mut Value<A>, by: Value<A>, nodes: &mut u64) -> Value<A>
    requires within { size (tree_of child.old) ≤ nodes.old }
    requires room { nodes.old + size (tree_of by) ≤ 2 ^ 64 }
    ensures taken { tree_of result ≡ tree_of child.old }
    ensures put { tree_of child.new ≡ tree_of by }
    ensures nodes { nodes.new + size (tree_of child.old) ≡ nodes.old + size (tree_of by) }
{
    *nodes -= child.nodes();
    *nodes += by.nodes();
    mem::replace(child, by)
}
