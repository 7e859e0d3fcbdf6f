//! An apply-to-each whose body or filter is plain, block by block.
ghost use Rattle.std.specs.Prelude.{◌≡◌, ◌+◌, ◌-◌, ◌<◌, ◌≤◌, ◌++◌, Ok, IfSome, MatchOption, IsTrue, cond, map};
ghost use Rattle.std.specs.Prelude.{length, take, drop};
ghost use Rattle.nesl_values.specs.Tree.{boolean};
ghost use Rattle.nesl_values.specs.View.{tree_of};
ghost use Rattle.nesl_values_builder.specs.Elements.{elements_of};
ghost use Rattle.nesl_eval_meaning.specs.Out.{value};
ghost use Rattle.nesl_eval_code.specs.Run.{run, run_filters, run_bodies};
ghost use Rattle.nesl_eval_nodes.specs.Scopes.{frames_of};
ghost use Rattle.nesl_eval_nodes.specs.Sides.{places_of, Has};
ghost use Rattle.nesl_eval_nodes.specs.Meets.{Meets};
ghost use Rattle.nesl_eval_columns.specs.Columns.{leaves_of};
ghost use Rattle.nesl_eval_plain.specs.Comes.{chosen};
ghost use Rattle.nesl_eval_column_results.specs.Blocks.{block_places, IsWithin};
ghost use Rattle.nesl_eval_plain.specs.Blocks.{IsPartOf};

use crate::bodies::{Bodies, bodies_at, filter_at};
use crate::plain::is_plain;
use nesl_eval_code::Code;
use nesl_eval_column_results::block::Block;
use nesl_eval_column_results::costs::{Paid, total_of};
use nesl_eval_column_results::found::Found;
use nesl_eval_column_results::values::extended;
use nesl_eval_columns::Column;
use nesl_eval_nodes::held::Tops;
use nesl_eval_nodes::meter::Meter;
use nesl_eval_nodes::places::Places;
use nesl_values_builder::SequenceBuilder;
use std::alloc::Allocator;

/// How many places are done at once.
const BLOCK: usize = 1024;

/// Fewer places than that are done one by one.
pub const LEAST: usize = 8;

// Where the block ends that begins there.
fn end_of(turn: usize, to: usize) -> usize
    requires { turn < to }
    ensures { (turn < result) × (result ≤ to) }
{
    if to - turn < BLOCK { to } else { turn + BLOCK }
}

// The places in the turns from one to another.
fn part<'x, A: Allocator + Copy, T>(
    whole: &Block<'x, A, T>,
    from: usize,
    to: usize,
) -> Block<'x, A, T>
    ensures { IsPartOf result whole.now from to }
{
    Block {
        tops: whole.tops,
        scope: whole.scope,
        values: whole.values,
        places: whole.places,
        from,
        to,
        alloc: whole.alloc,
    }
}

// Whether the fuel is enough for `count` times this work, which is the least that the turns cost.
fn suffices(fuel: u64, count: usize, each: u64) -> bool {
    match each.checked_mul(count as u64) {
        Some(work) => work <= fuel,
        None => false,
    }
}

// What is left of the fuel after this work and values with `nodes` nodes in all, if it suffices.
fn charged(fuel: u64, work: u64, nodes: u64) -> Option<u64>
    ensures { IfSome result (λ rest. fuel ≡ rest + (work + nodes)) }
{
    let all = work.checked_add(nodes)?;
    fuel.checked_sub(all)
}

// The values of a body, with what is left of the fuel, and the depth.
#[derive(Drop)]
struct Made<A: Allocator> {
    builder: SequenceBuilder<A>,
    fuel: u64,
    depth: u64,
}

fn values_within<'x, A: Allocator + Copy, T: Tops<A>>(
    whole: &'x Block<'x, A, T>,
    body: &Code,
    room: usize,
    levels: u32,
    fuel: u64,
) -> Option<Made<A>>
    requires { IsWithin whole.now }
    ensures { let w = whole.now in let f = run levels (T.table w.tops.now) in IfSome result (λ d.
        (d.fuel + d.depth ≤ fuel)
        × (run_bodies f (frames_of w.scope.now) (map tree_of w.values.now) body.now (block_places w)
        ≡ value (elements_of d.builder) (fuel - d.fuel) d.depth)) }
{
    let mut left = fuel;
    let mut deepest = 0;
    let mut builder = SequenceBuilder::with_room(*whole.alloc, room);
    let mut turn = whole.from;
    while turn < whole.to {
        let end = end_of(turn, whole.to);
        let block = part(whole, turn, end);
        let Bodies {
            values,
            nodes,
            costs,
        } = bodies_at(&block, body, levels)?;
        if values.len() != end - turn {
            return None;
        }
        if !suffices(left, whole.to - turn, costs.same) {
            return None;
        }
        let Paid { work, depth } = total_of(costs, end - turn)?;
        let all = nodes.checked_mul((end - turn) as u64)?;
        left = charged(left, work, all)?;
        if !extended(&mut builder, values) {
            return None;
        }
        deepest = depth.max(deepest);
        turn = end;
    }
    Some(Made {
        builder,
        fuel: left,
        depth: deepest,
    })
}

/// The values of a body at the places of a block, if it is plain and has a value at each of them, and the fuel
/// is enough. Else the meter is as it was. Room is made for `room` values.
pub fn bodies_in_columns<'x, A: Allocator + Copy, T: Tops<A>>(
    whole: &'x Block<'x, A, T>,
    body: &Code,
    room: usize,
    levels: u32,
    meter: &mut Meter,
) -> Option<SequenceBuilder<A>>
    requires { IsWithin whole.now }
    ensures meets { let w = whole.now in let f = run levels (T.table w.tops.now) in MatchOption result
        (meter.new ≡ meter.old)
        (λ b. Meets Has meter.old (Ok b) meter.new
        (run_bodies f (frames_of w.scope.now) (map tree_of w.values.now) body.now (block_places w))) }
    ensures spent { meter.new.fuel + meter.new.depth ≤ meter.old.fuel + meter.old.depth }
{
    if whole.to - whole.from < LEAST || !is_plain(whole, body, levels) {
        return None;
    }
    let Made {
        builder,
        fuel,
        depth,
    } = values_within(whole, body, room, levels, meter.fuel())?;
    meter.leave_deep(fuel, depth);
    Some(builder)
}

// The leaves of a column of truth values.
fn truths<A: Allocator>(column: Column<A>) -> Option<Vec<bool, A>>
    ensures { IfSome result (λ v. map boolean v.items ≡ leaves_of column) }
{
    match column {
        Column::Bools(flags) => Some(flags),
        _ => None,
    }
}

#[inline(always)]
fn one_if(flag: bool) -> usize
    ensures is { result ≡ cond flag 1 0 }
    ensures small { result ≤ 1 }
{
    if flag { 1 } else { 0 }
}

// Writes the places from one turn to another at which the filter holds, one after the other, and returns how many
// there are. Each place is written, and counts only where the filter holds: there is no branch.
fn write_chosen(
    out: &mut [usize],
    places: Places<'_>,
    from: usize,
    to: usize,
    flags: &[bool],
) -> usize
    requires turns { (from ≤ to) × (to ≤ length (places_of places)) }
    requires len { length flags.now ≡ to - from }
    requires room { length out.old ≡ to - from }
    ensures within { result ≤ length out.new }
    ensures chosen { take result out.new ≡ chosen (drop from (places_of places.entry)) flags.now }
{
    let mut count = 0;
    for turn in from..to {
        out[count] = places.at(turn);
        count += one_if(flags[turn - from]);
    }
    count
}

// Adds the places from one turn to another at which the filter holds, if there is room.
fn choose<A: Allocator + Copy>(
    kept: &mut Vec<usize, A>,
    places: Places<'_>,
    from: usize,
    to: usize,
    flags: &[bool],
    alloc: A,
) -> bool
    requires turns { (from ≤ to) × (to ≤ length (places_of places)) }
    requires len { length flags.now ≡ to - from }
    ensures { IsTrue result → kept.new.items ≡ kept.old.items ++ chosen (drop from (places_of places.entry)) flags.now }
{
    let mut fresh = Vec::new(alloc);
    match fresh.resize(to - from, 0) {
        Ok(()) => {}
        Err(_) => return false,
    }
    let count = write_chosen(&mut fresh, places, from, to, flags);
    match kept.extend_from_slice(&fresh[..count]) {
        Ok(()) => true,
        Err(_) => false,
    }
}

// The places at which a filter holds, with what is left of the fuel, and the depth.
#[derive(Drop)]
struct Kept<A: Allocator> {
    places: Vec<usize, A>,
    fuel: u64,
    depth: u64,
}

fn places_within<'x, A: Allocator + Copy, T: Tops<A>>(
    whole: &'x Block<'x, A, T>,
    filter: &Code,
    levels: u32,
    fuel: u64,
) -> Option<Kept<A>>
    requires { IsWithin whole.now }
    ensures { let w = whole.now in let f = run levels (T.table w.tops.now) in IfSome result (λ d.
        (d.fuel + d.depth ≤ fuel)
        × (run_filters f (frames_of w.scope.now) (map tree_of w.values.now) filter.now (block_places w)
        ≡ value d.places.items (fuel - d.fuel) d.depth)) }
{
    let mut left = fuel;
    let mut most = 0;
    let mut places = Vec::new(*whole.alloc);
    let mut turn = whole.from;
    while turn < whole.to {
        let end = end_of(turn, whole.to);
        let block = part(whole, turn, end);
        let Found { column, costs } = filter_at(&block, filter, levels)?;
        if column.len() != end - turn {
            return None;
        }
        if !suffices(left, whole.to - turn, costs.same) {
            return None;
        }
        let Paid { work, depth } = total_of(costs, end - turn)?;
        left = charged(left, work, 0)?;
        let flags = truths(column)?;
        if !choose(&mut places, whole.places, turn, end, &flags, *whole.alloc) {
            return None;
        }
        most = depth.max(most);
        turn = end;
    }
    Some(Kept {
        places,
        fuel: left,
        depth: most,
    })
}

/// The places of a block at which a filter holds, if it is plain and has a value at each of them, and the fuel is
/// enough. Else the meter is as it was.
pub fn filters_in_columns<'x, A: Allocator + Copy, T: Tops<A>>(
    whole: &'x Block<'x, A, T>,
    filter: &Code,
    levels: u32,
    meter: &mut Meter,
) -> Option<Vec<usize, A>>
    requires { IsWithin whole.now }
    ensures meets { let w = whole.now in let f = run levels (T.table w.tops.now) in MatchOption result
        (meter.new ≡ meter.old)
        (λ ks. Meets (λ ks is. ks.items ≡ is) meter.old (Ok ks) meter.new
        (run_filters f (frames_of w.scope.now) (map tree_of w.values.now) filter.now (block_places w))) }
    ensures spent { meter.new.fuel + meter.new.depth ≤ meter.old.fuel + meter.old.depth }
{
    if whole.to - whole.from < LEAST || !is_plain(whole, filter, levels) {
        return None;
    }
    let Kept {
        places,
        fuel,
        depth,
    } = places_within(whole, filter, levels, meter.fuel())?;
    meter.leave_deep(fuel, depth);
    Some(places)
}
