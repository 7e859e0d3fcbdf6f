// Names at the turns of a block.
ghost use Rattle.std.specs.Prelude.{◌≡◌, ◌≤◌, Some, IfSome, IsTrue, length, slice_get, slice_range};
ghost use Rattle.nesl_values.specs.View.{tree_of};
ghost use Rattle.nesl_eval_code.specs.Frames.{local_at, place_in};
ghost use Rattle.nesl_eval_meaning.specs.Out.{given, value};
ghost use Rattle.nesl_eval_code.specs.Run.{function_slot, run_top, slot_at};
ghost use Rattle.nesl_eval_nodes.specs.Sides.{places_of};
ghost use Rattle.nesl_eval_columns.specs.Columns.{leaves_of};
ghost use Rattle.nesl_eval_columns.specs.Each.{EachTwo};
ghost use Rattle.nesl_eval_column_results.specs.Blocks.{block_places, IsWithin, frames_at};
ghost use Rattle.nesl_eval_column_results.specs.Columns.{value_at};
ghost use Rattle.nesl_eval_column_results.specs.Frames.{frames_in, NeedsNothing, StandsFor, StandsAt};

use crate::block::Block;
use crate::columns::{Columns, at_turns, parts_of, reaches, shared};
use crate::scopes::{Scopes, count};
use nesl_eval_code::{Code, Step};
use nesl_eval_columns::{Column, gathered};
use nesl_eval_nodes::held::{Held, Tops};
use nesl_eval_nodes::places::Places;
use nesl_eval_nodes::scope::lent_local;
use nesl_values::{Items, Value};
use std::alloc::Allocator;

// The items from one place to another.
fn part<X: Copy, A: Allocator>(items: &[X], from: usize, to: usize, alloc: A) -> Option<Vec<X, A>>
    requires { from ≤ to }
    ensures { IfSome result (λ v. (to ≤ length items.now) × (v.items ≡ slice_range items.now from to)) }
{
    if items.len() < to {
        return None;
    }
    match Vec::from_slice(alloc, &items[from..to]) {
        Ok(copies) => Some(copies),
        Err(_) => None,
    }
}

fn at_places<X: Copy, A: Allocator>(
    items: &[X],
    places: Places<'_>,
    from: usize,
    to: usize,
    alloc: A,
) -> Option<Vec<X, A>>
    requires { (from ≤ to) × (to ≤ length (places_of places)) }
    ensures { IfSome result (λ v.
        EachTwo (λ i x. slice_get items.now i ≡ Some x) (slice_range (places_of places.entry) from to) v.items) }
{
    match places {
        Places::All(_) => part(items, from, to, alloc),
        Places::These(these) => gathered(items, &these[from..to], alloc),
    }
}

// The elements of a sequence of the newest row.
fn newest<'x, A: Allocator + Copy, T>(block: &'x Block<'x, A, T>, index: usize) -> Option<Column<A>>
    requires { IsWithin block.now }
    ensures { IfSome result (λ c. EachTwo (λ i v. place_in (frames_at block.now i) 0 index ≡ Some v)
        (block_places block.now) (leaves_of c)) }
{
    let value = block.values.get(index)?;
    match value.items() {
        Items::Ints(items) => Some(Column::Ints(at_places(
            items,
            block.places,
            block.from,
            block.to,
            *block.alloc,
        )?)),
        Items::Bools(items) => Some(Column::Bools(at_places(
            items,
            block.places,
            block.from,
            block.to,
            *block.alloc,
        )?)),
        Items::Chars(items) => Some(Column::Chars(at_places(
            items,
            block.places,
            block.from,
            block.to,
            *block.alloc,
        )?)),
        Items::Values(_) => None,
    }
}

// A name in the rows: an element of a sequence that lies packed, or one value at all turns.
fn in_rows<'x, A: Allocator + Copy, T>(
    block: &'x Block<'x, A, T>,
    scopes: &Scopes<'_, A>,
    up: usize,
    index: usize,
    steps: &[Step],
) -> Option<Columns<A>>
    requires { IsWithin block.now }
    ensures { scopes.now ≡ Scopes.Rows → IfSome result
        (NeedsNothing (λ fs. given (local_at fs up index steps.now) (λ v. value v 0 0))
        (frames_in block.now scopes.now)) }
{
    if up == 0 {
        if !steps.is_empty() {
            return None;
        }
        return Some(Columns::Leaves(newest(block, index)?));
    }
    let value = lent_local(block.scope, up - 1, index, steps)?;
    Some(Columns::Same(shared(value)?))
}

// The parts of a binding to which the steps lead, if it has values at the first `least` turns.
fn standing<A: Allocator + Copy>(
    binding: &Columns<A>,
    least: usize,
    steps: &[Step],
    alloc: A,
) -> Option<Columns<A>>
    ensures { IfSome result (λ c. StandsFor binding.now least steps.now (value_at c)) }
{
    if !reaches(binding, least) {
        return None;
    }
    parts_of(binding, steps, alloc)
}

// The same from one of some bindings.
fn bound<A: Allocator + Copy>(
    bindings: &[Columns<A>],
    index: usize,
    least: usize,
    steps: &[Step],
    alloc: A,
) -> Option<Columns<A>>
    ensures { IfSome result (λ c. StandsAt bindings.now index least steps.now (value_at c)) }
{
    let binding = bindings.get(index)?;
    standing(binding, least, steps, alloc)
}

/// A local name: what the rows, the bindings or the argument have for it.
pub fn local<'x, A: Allocator + Copy, T>(
    block: &'x Block<'x, A, T>,
    scopes: &Scopes<'_, A>,
    up: usize,
    index: usize,
    steps: &[Step],
) -> Option<Columns<A>>
    requires { IsWithin block.now }
    ensures { IfSome result
        (NeedsNothing (λ fs. given (local_at fs up index steps.now) (λ v. value v 0 0))
        (frames_in block.now scopes.now)) }
{
    match scopes {
        Scopes::Rows => in_rows(block, scopes, up, index, steps),
        Scopes::Let(bindings, rest) => {
            if up > 0 {
                return local(block, *rest, up - 1, index, steps);
            }
            let least = count(block, *rest);
            bound(*bindings, index, least, steps, *block.alloc)
        }
        Scopes::Call(argument, rest) => {
            if up > 0 || index > 0 {
                return None;
            }
            let least = count(block, *rest);
            standing(*argument, least, steps, *block.alloc)
        }
        Scopes::Turns(turns, rest) => {
            let values = local(block, *rest, up, index, steps)?;
            at_turns(values, *turns, *block.alloc)
        }
    }
}

// The value of a top-level variable.
fn at_top<'x, A: Allocator + Copy, T: Tops<A>>(
    block: &'x Block<'x, A, T>,
    place: usize,
) -> Option<&'x Value<A>>
    ensures { IfSome result (λ v. run_top (slot_at (T.table block.now.tops.now) place) ≡ value (tree_of v.now) 0 0) }
{
    match block.tops.held(place) {
        Ok(Held::Variable(value)) => Some(value),
        _ => None,
    }
}

/// A top-level variable.
pub fn top<'x, A: Allocator + Copy, T: Tops<A>>(
    block: &'x Block<'x, A, T>,
    scopes: &Scopes<'_, A>,
    place: usize,
) -> Option<Columns<A>>
    ensures { IfSome result
        (NeedsNothing (λ fs. run_top (slot_at (T.table block.now.tops.now) place)) (frames_in block.now scopes.now)) }
{
    let value = at_top(block, place)?;
    Some(Columns::Same(shared(value)?))
}

/// The body of a top-level function.
pub fn function_at<'x, A: Allocator + Copy, T: Tops<A>>(
    block: &'x Block<'x, A, T>,
    place: usize,
) -> Option<&'x Code>
    ensures { IfSome result (λ c. slot_at (T.table block.now.tops.now) place ≡ Some (function_slot c.now)) }
{
    match block.tops.held(place) {
        Ok(Held::Function(body)) => Some(body),
        _ => None,
    }
}
