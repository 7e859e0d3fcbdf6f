//! What operations make of leaves.
ghost use Rattle.std.specs.Prelude.{◌≡◌, ◌+◌, ◌≤◌, [], ◌∷◌, drop};
ghost use Rattle.nesl_values.specs.View.{tree_of};
ghost use Rattle.nesl_eval_code.specs.Block.{of_one};
ghost use Rattle.nesl_eval_code.specs.Exec.{made_of, with_leaves};
ghost use Rattle.nesl_eval_ops.specs.View.{leaf_is, two_is};
ghost use Rattle.nesl_eval_nodes.specs.Meets.{Meets, Is};
ghost use Rattle.nesl_eval_rounds.specs.Slots.{places_of};

use crate::leaves::{Sight, enter_leaf};
use crate::making::{apply_to_value, make_of_two};
use nesl_eval_nodes::held::Tops;
use nesl_eval_nodes::meter::{Meter, Stop};
use nesl_eval_ops::{Leaf, OneNode, TwoNode};
use nesl_values::Value;
use std::alloc::Allocator;

/// A function of a leaf.
#[inline(always)]
pub fn of_one_leaf<A: Allocator + Copy, T: Tops<A>>(
    sight: &Sight<'_, A, T>,
    node: OneNode,
    leaf: &Leaf,
    meter: &mut Meter,
) -> Result<Value<A>, Stop>
    ensures meets { let s = sight.now in Meets Is meter.old result meter.new
        (with_leaves (T.table s.tops.now) s.levels node.height (drop s.base (places_of s.slots.now.items)) []
        (leaf_is leaf.now ∷ []) (made_of node.span (of_one node.function))) }
    ensures spent { meter.new.fuel + meter.new.depth ≤ meter.old.fuel + meter.old.depth }
{
    let value = enter_leaf(sight, node.height, leaf, meter)?;
    apply_to_value(node, value, meter, *sight.alloc)
}

/// What is made of two leaves.
#[inline(always)]
pub fn of_two_leaves<A: Allocator + Copy, T: Tops<A>>(
    sight: &Sight<'_, A, T>,
    node: &TwoNode,
    left: &Leaf,
    right: &Leaf,
    meter: &mut Meter,
) -> Result<Value<A>, Stop>
    ensures meets { let s = sight.now in Meets Is meter.old result meter.new
        (with_leaves (T.table s.tops.now) s.levels node.now.height (drop s.base (places_of s.slots.now.items)) []
        (leaf_is left.now ∷ leaf_is right.now ∷ []) (made_of node.now.span (two_is node.now.two))) }
    ensures spent { meter.new.fuel + meter.new.depth ≤ meter.old.fuel + meter.old.depth }
{
    let value = enter_leaf(sight, node.height, left, meter)?;
    of_value_and_leaf(sight, value, node, right, meter)
}

/// What is made of a value and a leaf.
#[inline(always)]
pub fn of_value_and_leaf<A: Allocator + Copy, T: Tops<A>>(
    sight: &Sight<'_, A, T>,
    value: Value<A>,
    node: &TwoNode,
    right: &Leaf,
    meter: &mut Meter,
) -> Result<Value<A>, Stop>
    ensures meets { let s = sight.now in Meets Is meter.old result meter.new
        (with_leaves (T.table s.tops.now) s.levels node.now.height (drop s.base (places_of s.slots.now.items))
        (tree_of value ∷ []) (leaf_is right.now ∷ []) (made_of node.now.span (two_is node.now.two))) }
    ensures spent { meter.new.fuel + meter.new.depth ≤ meter.old.fuel + meter.old.depth }
{
    let other = enter_leaf(sight, node.height, right, meter)?;
    make_of_two(node, value, other, meter, *sight.alloc)
}
