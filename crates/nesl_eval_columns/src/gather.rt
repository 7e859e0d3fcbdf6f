// Leaves of columns at other places.
ghost use Rattle.std.specs.Prelude.{◌≡◌, Some, IfSome, IsTrue, cond, slice_get};
ghost use Rattle.nesl_eval_columns.specs.Columns.{leaves_of};
ghost use Rattle.nesl_eval_columns.specs.Each.{EachTwo, EachThree};

use crate::column::Column;
use crate::made::{each_of, each_of_two};
use crate::sides::Sides;
use std::alloc::Allocator;

/// The items at these places, if there is one at each of them.
pub fn gathered<X: Copy, A: Allocator>(items: &[X], places: &[usize], alloc: A) -> Option<Vec<X, A>>
    ensures { IfSome result (λ v. EachTwo (λ i x. slice_get items.now i ≡ Some x) places.now v.items) }
{
    let some = *items.first()?;
    each_of(
        places,
        some,
        alloc,
        |place: usize| at_or(items, place, some),
    )
}

#[inline(always)]
fn at_or<X: Copy>(items: &[X], place: usize, some: X) -> (X, bool)
    ensures { IsTrue result.1 → slice_get items.now place ≡ Some result.0 }
{
    match items.get(place) {
        Some(item) => (*item, true),
        None => (some, false),
    }
}

#[inline(always)]
fn either_or<X: Copy>(yes: &[X], no: &[X], flag: bool, place: usize, some: X) -> (X, bool)
    ensures { IsTrue result.1 → cond flag (slice_get yes.now place) (slice_get no.now place) ≡ Some result.0 }
{
    if flag {
        at_or(yes, place, some)
    } else {
        at_or(no, place, some)
    }
}

// For each place the item of its side at its rank, if there is one for each.
fn items_of_sides<X: Copy, A: Allocator>(
    sides: &Sides<A>,
    yes: &[X],
    no: &[X],
    alloc: A,
) -> Option<Vec<X, A>>
    ensures { IfSome result (λ v. EachThree
        (λ b i x. cond b (slice_get yes.now i) (slice_get no.now i) ≡ Some x)
        sides.now.flags.items sides.now.ranks.items v.items) }
{
    let some = *yes.first()?;
    each_of_two(
        &sides.flags,
        &sides.ranks,
        some,
        alloc,
        |flag: bool, rank: usize| either_or(yes, no, flag, rank, some),
    )
}

/// The leaves of a column at these places, if there is one at each of them.
pub fn leaves_at<A: Allocator, B: Allocator>(
    column: &Column<A>,
    places: &[usize],
    alloc: B,
) -> Option<Column<B>>
    ensures { IfSome result (λ c. EachTwo (λ i v. slice_get (leaves_of column.now) i ≡ Some v)
        places.now (leaves_of c)) }
{
    match column {
        Column::Ints(items) => Some(Column::Ints(gathered(items, places, alloc)?)),
        Column::Bools(items) => Some(Column::Bools(gathered(items, places, alloc)?)),
        Column::Chars(items) => Some(Column::Chars(gathered(items, places, alloc)?)),
    }
}

/// For each place the leaf of its side at its rank, if there is one for each.
pub fn leaves_of_sides<A: Allocator>(
    sides: &Sides<A>,
    yes: &Column<A>,
    no: &Column<A>,
    alloc: A,
) -> Option<Column<A>>
    ensures { IfSome result (λ c. EachThree (λ b i v.
        cond b (slice_get (leaves_of yes.now) i) (slice_get (leaves_of no.now) i) ≡ Some v)
        sides.now.flags.items sides.now.ranks.items (leaves_of c)) }
{
    match (yes, no) {
        (Column::Ints(one), Column::Ints(other)) => Some(Column::Ints(items_of_sides(
            sides, one, other, alloc,
        )?)),
        (Column::Bools(one), Column::Bools(other)) => Some(Column::Bools(items_of_sides(
            sides, one, other, alloc,
        )?)),
        (Column::Chars(one), Column::Chars(other)) => Some(Column::Chars(items_of_sides(
            sides, one, other, alloc,
        )?)),
        _ => None,
    }
}
