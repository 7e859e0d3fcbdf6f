//! Operations that go on within a block.
ghost use Rattle.std.specs.Prelude.{◌≡◌, ◌+◌, ℕ, [], ◌∷◌, map, length, MatchResult};
ghost use Rattle.nesl_lex.specs.declared.token.Span.{Span};
ghost use Rattle.nesl_values.specs.Tree.{ValueTree};
ghost use Rattle.nesl_values.specs.View.{tree_of};
ghost use Rattle.nesl_eval_meaning.specs.Out.{Out, and_then};
ghost use Rattle.nesl_eval_code.specs.Run.{Table};
ghost use Rattle.nesl_eval_code.specs.Block.{Block, Maker, push, enter, make, of_one};
ghost use Rattle.nesl_eval_code.specs.Exec.{exec, made_of};
ghost use Rattle.nesl_eval_ops.specs.View.{block_of, leaf_is, two_is, many_is};
ghost use Rattle.nesl_eval_nodes.specs.declared.meter.Meter.{Meter};
ghost use Rattle.nesl_eval_nodes.specs.Meets.{Meets, Is};
ghost use Rattle.nesl_eval_machine.specs.State.{Fits, env_of, local_of, left_with, left_at};
ghost use Rattle.nesl_eval_machine.specs.Steps.{Steps, Moves, TakesOff};

use crate::hand::{in_hand, push_value};
use crate::state::{Hand, Machine};
use nesl_eval_nodes::held::Tops;
use nesl_eval_nodes::meter::Stop;
use nesl_eval_ops::{Leaf, ManyNode, OneNode, Ops, TwoNode};
use nesl_eval_rounds::{
    Sight, apply_to_value, enter_at, enter_leaf, make_of_many, make_of_two, of_one_leaf,
    of_two_leaves, of_value_and_leaf,
};
use nesl_lex::token::Span;
use nesl_values::Value;
use std::alloc::Allocator;

impl<'a, A: Allocator + Copy> Machine<'a, A> {
    // Puts a value that was found on the stack.
    #[inline(always)]
    fn put(&mut self, found: Result<Value<A>, Stop>) -> Result<(), Stop>
        ensures steps { (t : Table) (b : Block) (o : Out ValueTree) (before : Meter)
            → Meets Is before found self.old.meter o → Fits t self.old
            → let m = record self.old { meter = before } in Steps t m result self.new b
            (left_with t m (and_then o (λ x. exec t m.levels (env_of m) b (x ∷ local_of m)))) }
        ensures meter { self.new.meter ≡ self.old.meter }
    {
        let value = found?;
        push_value(&mut self.stack, value)
    }

    // Puts a leaf's value on the stack.
    #[inline(always)]
    fn put_leaf<T: Tops<A>>(&mut self, tops: &T, height: u32, leaf: &Leaf) -> Result<(), Stop>
        ensures { (b : Block) → let t = T.table tops.now in Fits t self.old
            → Steps t self.old result self.new b (left_at t self.old (push height (leaf_is leaf.now) b)) }
    {
        let sight = Sight {
            tops: &*tops,
            slots: &self.slots,
            base: self.base,
            levels: self.levels,
            alloc: &self.alloc,
        };
        let found = enter_leaf(&sight, height, leaf, &mut self.meter);
        self.put(found)
    }

    /// A leaf alone.
    #[inline(always)]
    pub(crate) fn push_leaf<T: Tops<A>>(
        &mut self,
        tops: &T,
        height: u32,
        leaf: &Leaf,
        next: &'a Ops,
    ) -> Result<Hand<'a, A>, Stop>
        ensures { let t = T.table tops.now in Fits t self.old → Moves t self.old result self.new
            (left_at t self.old (push height (leaf_is leaf.now) (block_of next.now))) }
    {
        let sight = Sight {
            tops: &*tops,
            slots: &self.slots,
            base: self.base,
            levels: self.levels,
            alloc: &self.alloc,
        };
        let found = enter_leaf(&sight, height, leaf, &mut self.meter);
        in_hand(found, next)
    }

    /// Enters a node that has parts.
    #[inline(always)]
    pub(crate) fn enter(&mut self, height: u32, span: Span, next: &'a Ops) -> Result<(), Stop>
        ensures { (t : Table) → Fits t self.old
            → Steps t self.old result self.new (block_of self.new.code.now)
            (left_at t self.old (enter height span (block_of next.now))) }
    {
        enter_at(&mut self.meter, self.levels, height, span)?;
        self.code = next;
        Ok(())
    }

    /// A function of a leaf.
    #[inline(always)]
    pub(crate) fn of_leaf<T: Tops<A>>(
        &mut self,
        tops: &T,
        node: OneNode,
        leaf: &Leaf,
        next: &'a Ops,
    ) -> Result<Hand<'a, A>, Stop>
        ensures { let t = T.table tops.now in Fits t self.old → Moves t self.old result self.new
            (left_at t self.old
            (make node.height node.span (of_one node.function) 0 (leaf_is leaf.now ∷ []) (block_of next.now))) }
    {
        let sight = Sight {
            tops: &*tops,
            slots: &self.slots,
            base: self.base,
            levels: self.levels,
            alloc: &self.alloc,
        };
        let found = of_one_leaf(&sight, node, leaf, &mut self.meter);
        in_hand(found, next)
    }

    /// What is made of two leaves.
    #[inline(always)]
    pub(crate) fn of_leaves<T: Tops<A>>(
        &mut self,
        tops: &T,
        node: &TwoNode,
        left: &Leaf,
        right: &Leaf,
        next: &'a Ops,
    ) -> Result<Hand<'a, A>, Stop>
        ensures { let t = T.table tops.now in Fits t self.old → Moves t self.old result self.new
            (left_at t self.old
            (make node.now.height node.now.span (two_is node.now.two) 0 (leaf_is left.now ∷ leaf_is right.now ∷ [])
            (block_of next.now))) }
    {
        let sight = Sight {
            tops: &*tops,
            slots: &self.slots,
            base: self.base,
            levels: self.levels,
            alloc: &self.alloc,
        };
        let found = of_two_leaves(&sight, node, left, right, &mut self.meter);
        in_hand(found, next)
    }

    /// A function of the value at hand.
    #[inline(always)]
    pub(crate) fn of_value(
        &mut self,
        value: Value<A>,
        node: OneNode,
        next: &'a Ops,
    ) -> Result<Hand<'a, A>, Stop>
        ensures { (t : Table) → Fits t self.old → let m = self.old in
            Moves t m result self.new (left_with t m (exec t m.levels (env_of m)
            (make node.height node.span (of_one node.function) 1 [] (block_of next.now))
            (tree_of value ∷ local_of m))) }
    {
        let found = apply_to_value(node, value, &mut self.meter, self.alloc);
        in_hand(found, next)
    }

    /// What is made of the value at hand and a leaf.
    #[inline(always)]
    pub(crate) fn of_value_and_leaf<T: Tops<A>>(
        &mut self,
        tops: &T,
        value: Value<A>,
        node: &TwoNode,
        right: &Leaf,
        next: &'a Ops,
    ) -> Result<Hand<'a, A>, Stop>
        ensures { let t = T.table tops.now in Fits t self.old → let m = self.old in
            Moves t m result self.new (left_with t m (exec t m.levels (env_of m)
            (make node.now.height node.now.span (two_is node.now.two) 1 (leaf_is right.now ∷ []) (block_of next.now))
            (tree_of value ∷ local_of m))) }
    {
        let sight = Sight {
            tops: &*tops,
            slots: &self.slots,
            base: self.base,
            levels: self.levels,
            alloc: &self.alloc,
        };
        let found = of_value_and_leaf(&sight, value, node, right, &mut self.meter);
        in_hand(found, next)
    }

    /// What is made of the value on top and the one at hand.
    #[inline(always)]
    pub(crate) fn of_tops(
        &mut self,
        right: Value<A>,
        node: &TwoNode,
        next: &'a Ops,
    ) -> Result<Hand<'a, A>, Stop>
        ensures { (t : Table) → Fits t self.old → let m = self.old in
            Moves t m result self.new (left_with t m (exec t m.levels (env_of m)
            (make node.now.height node.now.span (two_is node.now.two) 2 [] (block_of next.now))
            (tree_of right ∷ local_of m))) }
    {
        match self.stack.pop() {
            Some(left) => self.of_both(left, right, node, next),
            None => Err(Stop::Stuck),
        }
    }

    // What is made of both, where the first was taken off the stack.
    #[inline(always)]
    fn of_both(
        &mut self,
        left: Value<A>,
        right: Value<A>,
        node: &TwoNode,
        next: &'a Ops,
    ) -> Result<Hand<'a, A>, Stop>
        ensures { (t : Table) → Fits t self.old → let m = self.old in
            Moves t m result self.new (left_with t m (exec t m.levels (env_of m)
            (make node.now.height node.now.span (two_is node.now.two) 2 [] (block_of next.now))
            (tree_of right ∷ tree_of left ∷ local_of m))) }
    {
        let found = make_of_two(node, left, right, &mut self.meter, self.alloc);
        in_hand(found, next)
    }

    // Puts the values of leaves on the stack, one after the other.
    fn put_leaves<T: Tops<A>>(&mut self, tops: &T, height: u32, leaves: &[Leaf]) -> Result<(), Stop>
        ensures { (s : Span) (f : Maker) (k : ℕ) (b : Block) → let t = T.table tops.now in Fits t self.old
            → Steps t self.old result self.new (make height s f (k + length leaves.now) [] b)
            (left_at t self.old (make height s f k (map leaf_is leaves.now) b)) }
    {
        for leaf in leaves {
            self.put_leaf(tops, height, leaf)?;
        }
        Ok(())
    }

    /// What is made of `count` values on top and of leaves.
    #[inline(always)]
    pub(crate) fn of_many<T: Tops<A>>(
        &mut self,
        tops: &T,
        node: ManyNode,
        count: usize,
        leaves: &[Leaf],
        next: &'a Ops,
    ) -> Result<Hand<'a, A>, Stop>
        ensures { let t = T.table tops.now in Fits t self.old → Moves t self.old result self.new
            (left_at t self.old
            (make node.height node.span (many_is node.many) count (map leaf_is leaves.now) (block_of next.now))) }
    {
        self.of_so_many(tops, node, count, leaves, next)
    }

    // It is not inlined, so that its result takes no room in the loop's stack frame.
    #[inline(never)]
    fn of_so_many<T: Tops<A>>(
        &mut self,
        tops: &T,
        node: ManyNode,
        count: usize,
        leaves: &[Leaf],
        next: &'a Ops,
    ) -> Result<Hand<'a, A>, Stop>
        ensures { let t = T.table tops.now in Fits t self.old → Moves t self.old result self.new
            (left_at t self.old
            (make node.height node.span (many_is node.many) count (map leaf_is leaves.now) (block_of next.now))) }
    {
        self.put_leaves(tops, node.height, leaves)?;
        match count.checked_add(leaves.len()) {
            Some(all) => self.of_all_tops(node, all, next),
            None => Err(Stop::Memory),
        }
    }

    // What is made of `count` values on top.
    fn of_all_tops(
        &mut self,
        node: ManyNode,
        count: usize,
        next: &'a Ops,
    ) -> Result<Hand<'a, A>, Stop>
        ensures { (t : Table) → Fits t self.old → Moves t self.old result self.new (left_at t self.old
            (make node.height node.span (many_is node.many) count [] (block_of next.now))) }
    {
        match take_off(&mut self.stack, count)? {
            Some(values) => self.of_all(values, node, next),
            None => Err(Stop::Stuck),
        }
    }

    // What is made of them, where they were taken off the stack.
    fn of_all(
        &mut self,
        values: Vec<Value<A>, A>,
        node: ManyNode,
        next: &'a Ops,
    ) -> Result<Hand<'a, A>, Stop>
        ensures { (t : Table) → Fits t self.old → let m = self.old in
            Moves t m result self.new (left_with t m
            (and_then (made_of node.span (many_is node.many) (map tree_of values.items))
            (λ v. exec t m.levels (env_of m) (block_of next.now) (v ∷ local_of m)))) }
    {
        let found = make_of_many(node.many, values, node.span, &mut self.meter, self.alloc);
        in_hand(found, next)
    }
}

// The vector of one value.
#[inline(always)]
fn one_value<A: Allocator + Copy>(value: Value<A>, alloc: A) -> Result<Vec<Value<A>, A>, Stop>
    ensures { MatchResult result (λ values. values.items ≡ value ∷ []) (λ e. e ≡ Stop.Memory) }
{
    let mut values = match Vec::with_capacity(alloc, 1) {
        Ok(values) => values,
        Err(_) => return Err(Stop::Memory),
    };
    push_value(&mut values, value)?;
    Ok(values)
}

// Takes the last value off a stack, if there is one.
#[inline(always)]
fn take_last<A: Allocator + Copy>(
    stack: &mut Vec<Value<A>, A>,
) -> Result<Option<Vec<Value<A>, A>>, Stop>
    ensures { TakesOff stack.old.items stack.new.items 1 result }
{
    let alloc = *stack.allocator();
    let Some(value) = stack.pop() else {
        return Ok(None);
    };
    let values = one_value(value, alloc)?;
    Ok(Some(values))
}

/// Takes `count` values off a stack, if there are that many.
pub fn take_off<A: Allocator + Copy>(
    stack: &mut Vec<Value<A>, A>,
    count: usize,
) -> Result<Option<Vec<Value<A>, A>>, Stop>
    ensures { TakesOff stack.old.items stack.new.items count result }
{
    if count == 1 {
        return take_last(stack);
    }
    let Some(below) = stack.len().checked_sub(count) else {
        return Ok(None);
    };
    match stack.split_off(below) {
        Ok(values) => Ok(Some(values)),
        Err(_) => Err(Stop::Memory),
    }
}
