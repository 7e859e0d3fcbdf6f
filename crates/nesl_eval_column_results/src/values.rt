// Values at the turns of a block: leaves in a column, or pairs that were made.
ghost use Rattle.std.specs.Prelude.{◌≡◌, ◌+◌, ◌<◌, [], ◌∷◌, ◌++◌, map, length, drop, slice_get, Some, IfSome, IsTrue};
ghost use Rattle.nesl_values.specs.Tree.{pair};
ghost use Rattle.nesl_values.specs.View.{tree_of};
ghost use Rattle.nesl_values_builder.specs.Elements.{elements_of};
ghost use Rattle.nesl_eval_columns.specs.Columns.{leaves_of};
ghost use Rattle.nesl_eval_column_results.specs.Columns.{value_at, SameUpTo};
ghost use Rattle.nesl_eval_column_results.specs.Values.{trees_in, pairs_of};

use crate::columns::Columns;
use crate::constants::column_of;
use nesl_eval_columns::Column;
use nesl_values::Value;
use nesl_values_builder::SequenceBuilder;
use std::alloc::Allocator;
use std::mem;

/// Values, one at each turn.
#[derive(Drop)]
pub enum Values<A: Allocator> {
    Leaves(Column<A>),
    Pairs(Vec<Value<A>, A>),
}

// The leaf at a turn.
#[inline(always)]
fn leaf_at<A: Allocator, B: Allocator>(column: &Column<A>, turn: usize) -> Option<Value<B>>
    ensures { IfSome result (λ v. slice_get (leaves_of column.now) turn ≡ Some (tree_of v)) }
{
    match column {
        Column::Ints(items) => Some(Value::Int(*items.get(turn)?)),
        Column::Bools(items) => Some(Value::Bool(*items.get(turn)?)),
        Column::Chars(items) => Some(Value::Char(*items.get(turn)?)),
    }
}

// Takes out the pair at a turn. Those at the turns after it stay.
#[inline(always)]
fn take_pair<A: Allocator>(pairs: &mut Vec<Value<A>, A>, turn: usize) -> Value<A>
    requires { turn < length pairs.old.items }
    ensures out { drop turn (map tree_of pairs.old.items)
        ≡ tree_of result ∷ drop (turn + 1) (map tree_of pairs.new.items) }
    ensures len { length pairs.new.items ≡ length pairs.old.items }
{
    let slot = &mut pairs[turn];
    mem::replace(slot, Value::Int(0))
}

impl<A: Allocator> Values<A> {
    /// How many there are.
    pub fn len(&self) -> usize
        ensures { result ≡ length (trees_in self.now) }
    {
        match self {
            Values::Leaves(column) => column.len(),
            Values::Pairs(items) => items.len(),
        }
    }

    // Takes out the value at a turn. Those at the turns after it stay.
    #[inline(always)]
    fn take(&mut self, turn: usize) -> Option<Value<A>>
        ensures { IfSome result (λ v.
            drop turn (trees_in self.old) ≡ tree_of v ∷ drop (turn + 1) (trees_in self.new)) }
    {
        match self {
            Values::Leaves(column) => leaf_at(&*column, turn),
            Values::Pairs(items) => {
                if turn < items.len() {
                    Some(take_pair(items, turn))
                } else {
                    None
                }
            }
        }
    }
}

// Adds the pair of two values, if there is room.
#[inline(always)]
fn add_pair<A: Allocator + Copy>(
    pairs: &mut Vec<Value<A>, A>,
    left: Value<A>,
    right: Value<A>,
    alloc: A,
) -> Option<()>
    ensures { IfSome result (λ u. map tree_of pairs.new.items
        ≡ map tree_of pairs.old.items ++ pair (tree_of left) (tree_of right) ∷ []) }
{
    let made = match Value::pair(alloc, left, right) {
        Ok(made) => made,
        Err(_) => return None,
    };
    match pairs.push(made) {
        Ok(()) => Some(()),
        Err(_) => None,
    }
}

/// The pairs of the values at each turn, if there is memory for them.
pub(crate) fn pairs<A: Allocator + Copy>(
    mut left: Values<A>,
    mut right: Values<A>,
    alloc: A,
) -> Option<Vec<Value<A>, A>>
    ensures { IfSome result (λ v. map tree_of v.items ≡ pairs_of (trees_in left) (trees_in right)) }
{
    let count = left.len();
    let mut pairs = Vec::new(alloc);
    match pairs.reserve(count) {
        Ok(()) => {}
        Err(_) => return None,
    }
    for turn in 0..count {
        let one = left.take(turn)?;
        let other = right.take(turn)?;
        add_pair(&mut pairs, one, other, alloc)?;
    }
    Some(pairs)
}

// Adds the leaves of a column, if there is room.
fn extend_with_leaves<A: Allocator + Copy>(
    builder: &mut SequenceBuilder<A>,
    column: Column<A>,
) -> bool
    ensures { IsTrue result → elements_of builder.new ≡ elements_of builder.old ++ leaves_of column }
{
    let outcome = match column {
        Column::Ints(items) => builder.extend_from_ints(&items),
        Column::Bools(items) => builder.extend_from_bools(&items),
        Column::Chars(items) => builder.extend_from_chars(&items),
    };
    outcome.is_ok()
}

// Adds values one by one, if there is room.
fn extend_with_pairs<A: Allocator + Copy>(
    builder: &mut SequenceBuilder<A>,
    mut pairs: Vec<Value<A>, A>,
) -> bool
    ensures { IsTrue result → elements_of builder.new ≡ elements_of builder.old ++ map tree_of pairs.items }
{
    for turn in 0..pairs.len() {
        let pair = take_pair(&mut pairs, turn);
        match builder.push(pair) {
            Ok(()) => {}
            Err(_) => return false,
        }
    }
    true
}

/// Adds values, if there is room.
pub fn extended<A: Allocator + Copy>(builder: &mut SequenceBuilder<A>, values: Values<A>) -> bool
    ensures { IsTrue result → elements_of builder.new ≡ elements_of builder.old ++ trees_in values }
{
    match values {
        Values::Leaves(column) => extend_with_leaves(builder, column),
        Values::Pairs(pairs) => extend_with_pairs(builder, pairs),
    }
}

/// The values at `count` turns. One value at all turns has to be a leaf.
pub fn values_of<A: Allocator + Copy>(
    columns: Columns<A>,
    count: usize,
    alloc: A,
) -> Option<Values<A>>
    ensures { IfSome result (λ vs. SameUpTo count (value_at columns) (slice_get (trees_in vs))) }
{
    match columns {
        Columns::Same(value) => Some(Values::Leaves(column_of(&value, count, alloc)?)),
        Columns::Leaves(column) => Some(Values::Leaves(column)),
        Columns::Pair(one, other) => {
            let left = values_of(Box::into_inner(one), count, alloc)?;
            let right = values_of(Box::into_inner(other), count, alloc)?;
            Some(Values::Pairs(pairs(left, right, alloc)?))
        }
    }
}
