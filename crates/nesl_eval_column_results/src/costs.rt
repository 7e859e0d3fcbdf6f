// What code costs at the turns of a block.
ghost use Rattle.std.specs.Prelude.{◌≡◌, ◌+◌, ◌<◌, ◌≤◌, ℕ, Some, IfSome, IsTrue, cond, length, map, sum};
ghost use Rattle.nesl_eval_columns.specs.Each.{EachThree};
ghost use Rattle.nesl_eval_columns.specs.Sides.{Sorted};
ghost use Rattle.nesl_eval_column_results.specs.Costs.{greatest, cost_in, costs_at, each_cost, Sums, Merges};

use nesl_eval_columns::{Sides, each_of_two};
use std::alloc::Allocator;

/// The work of code at each turn, which is its depth there too: `same`, and what `more` has at that turn besides, if
/// it differs from turn to turn.
#[derive(Drop)]
pub struct Costs<A: Allocator> {
    pub same: u64,
    pub more: Option<Vec<u64, A>>,
}

#[inline(always)]
fn plus(m: u64, n: u64) -> (u64, bool)
    ensures { IsTrue result.1 → result.0 ≡ m + n }
{
    let (total, over) = m.overflowing_add(n);
    (total, !over)
}

fn added<A: Allocator>(left: &[u64], right: &[u64], alloc: A) -> Option<Vec<u64, A>>
    ensures { IfSome result (λ v. EachThree (λ m n o. o ≡ m + n) left.now right.now v.items) }
{
    each_of_two(left, right, 0, alloc, |m: u64, n: u64| plus(m, n))
}

// What differs from turn to turn, of two costs together.
fn more_of_both<A: Allocator>(
    one: Option<Vec<u64, A>>,
    other: Option<Vec<u64, A>>,
    alloc: A,
) -> Option<Option<Vec<u64, A>>>
    ensures { IfSome result (λ v. Sums (cost_in 0 one) (cost_in 0 other) (cost_in 0 v)) }
{
    match one {
        None => Some(other),
        Some(left) => match other {
            None => Some(Some(left)),
            Some(right) => Some(Some(added(&left, &right, alloc)?)),
        },
    }
}

/// Two costs together.
pub fn sum<A: Allocator>(one: Costs<A>, other: Costs<A>, alloc: A) -> Option<Costs<A>>
    ensures { IfSome result (λ c. Sums (costs_at one) (costs_at other) (costs_at c)) }
{
    let same = one.same.checked_add(other.same)?;
    let more = more_of_both(one.more, other.more, alloc)?;
    Some(Costs { same, more })
}

/// A cost that is greater by the same at all turns.
pub(crate) fn raised<A: Allocator>(costs: Costs<A>, by: u64) -> Option<Costs<A>>
    ensures { IfSome result (λ c. Sums (costs_at costs) (λ k. Some by) (costs_at c)) }
{
    let same = costs.same.checked_add(by)?;
    Some(Costs {
        same,
        more: costs.more,
    })
}

#[inline(always)]
fn cost_or<A: Allocator>(costs: &Costs<A>, turn: usize) -> (u64, bool)
    ensures { IsTrue result.1 → costs_at costs.now turn ≡ Some result.0 }
{
    match &costs.more {
        None => (costs.same, true),
        Some(more) => match more.get(turn) {
            Some(cost) => plus(costs.same, *cost),
            None => (0, false),
        },
    }
}

#[inline(always)]
fn either_cost<A: Allocator>(yes: &Costs<A>, no: &Costs<A>, flag: bool, rank: usize) -> (u64, bool)
    ensures { IsTrue result.1 → cond flag (costs_at yes.now rank) (costs_at no.now rank) ≡ Some result.0 }
{
    if flag {
        cost_or(yes, rank)
    } else {
        cost_or(no, rank)
    }
}

/// At each turn the cost of its side at its rank.
pub(crate) fn costs_of_sides<A: Allocator>(
    sides: &Sides<A>,
    yes: &Costs<A>,
    no: &Costs<A>,
    alloc: A,
) -> Option<Costs<A>>
    ensures { IfSome result (λ c. Merges sides.now.flags.items sides.now.ranks.items
        (costs_at yes.now) (costs_at no.now) (costs_at c)) }
{
    let more = each_of_two(
        &sides.flags,
        &sides.ranks,
        0,
        alloc,
        |flag: bool, rank: usize| either_cost(yes, no, flag, rank),
    )?;
    Some(Costs {
        same: 0,
        more: Some(more),
    })
}

/// What the turns of a block cost side by side.
#[derive(Clone, Copy)]
pub struct Paid {
    pub work: u64,
    pub depth: u64,
}

fn paid_each(same: u64, more: &[u64]) -> Option<Paid>
    ensures { let ns = map (λ m. same + m) more.now in
        IfSome result (λ r. (r.work ≡ sum ns) × (r.depth ≡ greatest ns)) }
{
    let mut work: u64 = 0;
    let mut depth: u64 = 0;
    for turn in 0..more.len() {
        let whole = same.checked_add(more[turn])?;
        work = work.checked_add(whole)?;
        depth = depth.max(whole);
    }
    Some(Paid { work, depth })
}

/// What `count` turns cost side by side: their works add, and the greatest depth counts.
pub fn total_of<A: Allocator>(costs: Costs<A>, count: usize) -> Option<Paid>
    requires { 0 < count }
    ensures { let ns = each_cost costs count in
        IfSome result (λ r. (length ns ≡ count) × (r.work ≡ sum ns) × (r.depth ≡ greatest ns)) }
{
    let Costs { same, more } = costs;
    match more {
        None => {
            let work = same.checked_mul(count as u64)?;
            Some(Paid { work, depth: same })
        }
        Some(list) => {
            if list.len() != count {
                return None;
            }
            paid_each(same, &list)
        }
    }
}
