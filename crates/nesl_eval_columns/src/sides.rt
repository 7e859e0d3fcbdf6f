// The places where a column of truth values is true, and the others.
ghost use Rattle.std.specs.Prelude.{◌≡◌, ◌-◌, ◌≤◌, IfSome, cond, length, map, take};
ghost use Rattle.nesl_values.specs.Tree.{boolean};
ghost use Rattle.nesl_eval_columns.specs.Columns.{leaves_of};
ghost use Rattle.nesl_eval_columns.specs.Sides.{Ranks, Sorted};

use crate::column::Column;
use std::alloc::Allocator;

/// The places of a column of truth values on two sides, each in order.
#[derive(Drop)]
pub struct Sides<A: Allocator> {
    /// Whether the truth value is true, place by place.
    pub flags: Vec<bool, A>,
    /// The places at which it is true.
    pub yes: Vec<usize, A>,
    /// The other places.
    pub no: Vec<usize, A>,
    /// For each place, how many places come before it on its side.
    pub ranks: Vec<usize, A>,
}

#[inline(always)]
fn one_if(flag: bool) -> usize
    ensures is { result ≡ cond flag 1 0 }
    ensures small { result ≤ 1 }
{
    if flag { 1 } else { 0 }
}

#[inline(always)]
fn either_count(flag: bool, yes: usize, no: usize) -> usize
    ensures { result ≡ cond flag yes no }
{
    if flag { yes } else { no }
}

// Writes the places of each side one after the other, and the rank of each place; returns how many are true. Each
// place is written on both sides, and counts on its own only: there is no branch.
fn sort(flags: &[bool], yes: &mut [usize], no: &mut [usize], ranks: &mut [usize]) -> usize
    requires yes { length yes.old ≡ length flags.now }
    requires no { length no.old ≡ length flags.now }
    requires ranks { length ranks.old ≡ length flags.now }
    ensures yes { length yes.new ≡ length flags.now }
    ensures no { length no.new ≡ length flags.now }
    ensures ranks { length ranks.new ≡ length flags.now }
    ensures within { result ≤ length flags.now }
    ensures sorted { Ranks flags.now (take result yes.new) (take (length flags.now - result) no.new) ranks.new }
{
    let mut count = 0;
    for place in 0..flags.len() {
        let flag = flags[place];
        let rest = place - count;
        yes[count] = place;
        no[rest] = place;
        ranks[place] = either_count(flag, count, rest);
        count += one_if(flag);
    }
    count
}

fn zeros<A: Allocator>(count: usize, alloc: A) -> Option<Vec<usize, A>>
    ensures { IfSome result (λ v. length v.items ≡ count) }
{
    let mut items = Vec::new(alloc);
    match items.resize(count, 0) {
        Ok(()) => Some(items),
        Err(_) => None,
    }
}

fn sides_of<A: Allocator + Copy>(flags: Vec<bool, A>, alloc: A) -> Option<Sides<A>>
    ensures { IfSome result (λ s. (s.flags.items ≡ flags.items) × Sorted s) }
{
    let len = flags.len();
    let mut yes = zeros(len, alloc)?;
    let mut no = zeros(len, alloc)?;
    let mut ranks = zeros(len, alloc)?;
    let count = sort(&flags, &mut yes, &mut no, &mut ranks);
    yes.truncate(count);
    no.truncate(len - count);
    Some(Sides {
        flags,
        yes,
        no,
        ranks,
    })
}

/// The sides of a column, if it has truth values and there is memory.
pub fn split_sides<A: Allocator + Copy>(column: Column<A>, alloc: A) -> Option<Sides<A>>
    ensures { IfSome result (λ s. (map boolean s.flags.items ≡ leaves_of column) × Sorted s) }
{
    match column {
        Column::Bools(flags) => sides_of(flags, alloc),
        _ => None,
    }
}
