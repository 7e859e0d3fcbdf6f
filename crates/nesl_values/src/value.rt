ghost use Rattle.std.specs.Prelude.{◌≡◌, ◌+◌, ◌<◌, ◌≤◌, ◌^◌, IfSome, IsTrue, IsFalse, vec_len};
ghost use Rattle.std.specs.Arc.{arc_value};
ghost use Rattle.nesl_values.specs.Tree.{size};
ghost use Rattle.nesl_values.specs.View.{tree_of};
ghost use Rattle.nesl_values.specs.Weight.{weight};
ghost use Rattle.nesl_values.specs.Dropping.{heft};

use crate::dropping::{Turn, Way, entered_if_alone, turned_if_alone};
use crate::node::{Node, Parts};
use std::alloc::{Allocator, Global};
use std::sync::Arc;

/// A value of the language: a number, a truth value, a character, a pair, a sequence, or a tag with
/// a value.
///
/// The last variant holds what has parts. Such a value may have any number of owners, in any threads,
/// and fewer than 2^64 nodes: whatever would make a larger one returns `AllocError`.
#[cycle(value)]
pub enum Value<A: Allocator = Global> {
    Int(i64),
    Bool(bool),
    Char(u8),
    Shared(Arc<Node<A>, A>),
}

// By link inversion: each node on the way down to a leaf holds its parent in the place of the child
// that the way goes through, so a value of any depth is dropped with no memory of its own. A node that
// has other owners stays as it is. Calls go down a value only where two threads drop the last two
// owners of a node at the same moment: one level for each such race that is lost.
impl<A: Allocator> Drop for Value<A> {
    fn drop(self) {
        self.taken_down()
    }
}

impl<A: Allocator> Value<A> {
    pub(crate) fn is_shared(&self) -> bool
        ensures { IsTrue result → 0 < weight (tree_of self.now) }
    {
        match self {
            Value::Shared(shared) => {
                shared.weighs();
                true
            }
            _ => false,
        }
    }

    // Drops the value.
    #[cycle(drops)]
    fn taken_down(mut self) {
        let _nodes = self.nodes();
        self = self.taken_apart(Value::Int(0));
        while let Some(rest) = self.next_taken_apart() {
            self = rest;
        }
    }

    // Goes up from a leaf that was dropped to the next one, and drops it. `None` at the top.
    #[cycle(drops)]
    fn next_taken_apart(self) -> Option<Self>
        ensures { IfSome result (λ rest. weight (tree_of rest) < weight (tree_of self)) }
    {
        let mut shared = match self {
            Value::Shared(shared) => shared,
            Value::Int(_) | Value::Bool(_) | Value::Char(_) => return None,
        };
        match turned_if_alone(&mut shared) {
            Turn::Down(child) => Some(child.taken_apart(Value::Shared(shared))),
            Turn::Up(parent) => {
                let_go(shared);
                Some(parent)
            }
            Turn::Stuck => {
                let_go(shared);
                None
            }
        }
    }

    // Drops the first leaf of the value. What is left of it, where each node on the way to the
    // leaf holds its parent in place of the child on the way, and the topmost one holds `above`.
    #[cycle(drops)]
    fn taken_apart(mut self, mut above: Self) -> Self
        requires { size (tree_of self) + size (tree_of above) ≤ 2 ^ 64 }
        ensures { weight (tree_of result) ≤ weight (tree_of self) + weight (tree_of above) }
    {
        loop {
            let mut shared = match self {
                Value::Shared(shared) => shared,
                Value::Int(_) | Value::Bool(_) | Value::Char(_) => return above,
            };
            match entered_if_alone(&mut shared, above) {
                Way::Down(child) => {
                    self = child;
                    above = Value::Shared(shared);
                }
                Way::End(parent) => {
                    let_go(shared);
                    return parent;
                }
            }
        }
    }
}

// Gives up an owner of a node. Where it was the last one after all, since others were given up
// meanwhile, its children are dropped one by one.
#[cycle(drops)]
fn let_go<A: Allocator>(shared: Arc<Node<A>, A>) {
    if let Some(node) = Arc::into_inner(shared) {
        match node.parts {
            Parts::Pair(left, right) => {
                left.taken_down();
                right.taken_down();
            }
            Parts::Tagged(_, inner) => inner.taken_down(),
            Parts::Seq(items) => all_let_go(items),
            Parts::Ints(_) | Parts::Bools(_) | Parts::Chars(_) => {}
        }
    }
}

#[cycle(drops)]
fn all_let_go<A: Allocator>(mut items: Vec<Value<A>, A>) {
    while last_let_go(&mut items) {}
    items.destroy_empty();
}

// Drops the last item, where there is one.
#[cycle(drops)]
fn last_let_go<A: Allocator>(items: &mut Vec<Value<A>, A>) -> bool
    ensures some { IsTrue result → heft items.new.items < heft items.old.items }
    ensures none { IsFalse result → vec_len items.new ≡ 0 }
{
    match items.pop() {
        Some(item) => {
            item.taken_down();
            true
        }
        None => false,
    }
}
