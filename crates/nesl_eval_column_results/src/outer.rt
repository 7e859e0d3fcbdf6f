//! Elements and lengths of sequences that are the same at all turns of a block.
ghost use Rattle.std.specs.Prelude.{◌≡◌, pos, length, Some, IfSome, IsTrue};
ghost use Rattle.nesl_values.specs.Tree.{int};
ghost use Rattle.nesl_values.specs.Parts.{as_sequence};
ghost use Rattle.nesl_values.specs.View.{tree_of};
ghost use Rattle.nesl_eval_columns.specs.Columns.{leaves_of};
ghost use Rattle.nesl_eval_columns.specs.Each.{EachTwo};
ghost use Rattle.nesl_eval_column_results.specs.Picked.{at_number, Picks, IsLength};

use nesl_eval_columns::{Column, each_of};
use nesl_values::{Items, Value};
use std::alloc::Allocator;

// The item with `before` items before it, if there is one.
#[inline(always)]
fn item_at<X: Copy>(items: &[X], before: i64, some: X) -> (X, bool)
    ensures { IsTrue result.1 → at_number items.now before ≡ Some result.0 }
{
    if before < 0 {
        return (some, false);
    }
    match items.get(before as usize) {
        Some(item) => (*item, true),
        None => (some, false),
    }
}

// The items at the places that these numbers name.
fn items_at<X: Copy, A: Allocator>(items: &[X], numbers: &[i64], alloc: A) -> Option<Vec<X, A>>
    ensures { IfSome result (λ v. EachTwo (λ k x. at_number items.now k ≡ Some x) numbers.now v.items) }
{
    let some = *items.first()?;
    each_of(
        numbers,
        some,
        alloc,
        |before: i64| item_at(items, before, some),
    )
}

/// The elements of a sequence that lies packed, at the places that a column names.
pub fn picked<A: Allocator, B: Allocator>(
    sequence: &Value<A>,
    places: &Column<B>,
    alloc: B,
) -> Option<Column<B>>
    ensures { IfSome result (λ c. EachTwo (Picks (tree_of sequence.now)) (leaves_of places.now) (leaves_of c)) }
{
    let _len = sequence.sequence_len()?;
    let Column::Ints(numbers) = places else {
        return None;
    };
    match sequence.items() {
        Items::Ints(items) => Some(Column::Ints(items_at(items, numbers, alloc)?)),
        Items::Bools(items) => Some(Column::Bools(items_at(items, numbers, alloc)?)),
        Items::Chars(items) => Some(Column::Chars(items_at(items, numbers, alloc)?)),
        Items::Values(_) => None,
    }
}

/// The length of a sequence, as a value.
pub(crate) fn length_of<A: Allocator, B: Allocator>(sequence: &Value<A>) -> Option<Value<B>>
    ensures { IfSome result (λ n. IsLength (tree_of sequence.now) (tree_of n)) }
{
    let _len = sequence.sequence_len()?;
    Some(Value::Int(sequence.items().len() as i64))
}
