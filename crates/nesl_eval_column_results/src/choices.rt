// What is found at all turns, from two sides.
ghost use Rattle.std.specs.Prelude.{◌≡◌, ◌↔◌, [], IfSome, IsTrue};
ghost use Rattle.nesl_eval_column_results.specs.Costs.{Merges};
ghost use Rattle.nesl_eval_column_results.specs.Frames.{leaf_at, cost_at};

use crate::costs::costs_of_sides;
use crate::found::Found;
use nesl_eval_columns::{Sides, leaves_of_sides};
use std::alloc::Allocator;

/// Whether there are no places.
#[inline]
pub fn is_none(places: &[usize]) -> bool
    ensures { IsTrue result ↔ (places.now ≡ []) }
{
    places.is_empty()
}

/// What is found at all turns, from what is found at those of each side.
pub fn merged<A: Allocator + Copy>(
    sides: &Sides<A>,
    yes: &Found<A>,
    no: &Found<A>,
    alloc: A,
) -> Option<Found<A>>
    ensures { let bs = sides.now.flags.items in let is = sides.now.ranks.items in IfSome result (λ r.
        (Merges bs is (leaf_at yes.now) (leaf_at no.now) (leaf_at r))
        × (Merges bs is (cost_at yes.now) (cost_at no.now) (cost_at r))) }
{
    let column = leaves_of_sides(sides, &yes.column, &no.column, alloc)?;
    let costs = costs_of_sides(sides, &yes.costs, &no.costs, alloc)?;
    Some(Found { column, costs })
}
