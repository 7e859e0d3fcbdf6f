//! Evaluates turns of an interval in columns.
ghost use Rattle.std.specs.Prelude.{◌≡◌, ◌+◌, ◌≤◌, Ok, MatchOption};
ghost use Rattle.nesl_eval_nodes.specs.Meets.{Meets};
ghost use Rattle.nesl_split.specs.Finding.{Are};
ghost use Rattle.nesl_split.specs.Intervals.{AreIn, found_in};

use crate::found::{Found, Wanted};
use crate::turns::{Interval, Turns};
use nesl_eval_nodes::held::Tops;
use nesl_eval_nodes::meter::Meter;
use nesl_eval_plain::{Block, bodies_in_columns, filters_in_columns, is_plain};
use nesl_eval_rounds::scope_round;
use std::alloc::Global;

/// Returns for how many values room is made at the first of these turns. The values of all later turns are added to the
/// same list.
pub(crate) fn room_for<R, H, G, T>(interval: &Interval<'_, R, H, G, T>, turns: Turns) -> usize
    requires { turns.from ≤ turns.to }
{
    if turns.from == 0 {
        interval.places.len()
    } else {
        turns.count()
    }
}

/// Evaluates these turns in columns. That needs code in columns for the block, a leaf at each place that the block
/// uses, and enough fuel. Otherwise it returns nothing, and the meter is unchanged.
pub(crate) fn find_by_columns<R, H, G, T: Tops<Global>>(
    interval: &Interval<'_, R, H, G, T>,
    turns: Turns,
    meter: &mut Meter,
) -> Option<Found>
    requires { AreIn turns interval.now }
    ensures meets { MatchOption result (meter.new ≡ meter.old)
        (λ f. Meets (Are interval.now.wanted) meter.old (Ok f) meter.new (found_in T.table interval.now turns)) }
    ensures spent { meter.new.fuel + meter.new.depth ≤ meter.old.fuel + meter.old.depth }
{
    let laid = interval.block.plain()?;
    let scope = scope_round(interval.room.names, interval.sources, laid.sizes)?;
    let block = Block {
        tops: interval.crew.tops,
        scope: &scope,
        values: interval.sources,
        places: interval.places,
        from: turns.from,
        to: turns.to,
        alloc: &interval.crew.alloc,
    };
    let room = room_for(interval, turns);
    let levels = interval.room.levels.saturating_sub(laid.height);
    match interval.wanted {
        Wanted::Places => {
            let places = filters_in_columns(&block, laid.code, levels, meter)?;
            Some(Found::Places(places))
        }
        Wanted::Values => {
            let values = bodies_in_columns(&block, laid.code, room, levels, meter)?;
            Some(Found::Values(values))
        }
    }
}

/// Whether these turns are likely to be evaluated in columns.
pub(crate) fn are_in_columns<R, H, G, T: Tops<Global>>(
    interval: &Interval<'_, R, H, G, T>,
    turns: Turns,
) -> bool {
    let Some(laid) = interval.block.plain() else {
        return false;
    };
    let Some(scope) = scope_round(interval.room.names, interval.sources, laid.sizes) else {
        return false;
    };
    let block = Block {
        tops: interval.crew.tops,
        scope: &scope,
        values: interval.sources,
        places: interval.places,
        from: turns.from,
        to: turns.to,
        alloc: &interval.crew.alloc,
    };
    let levels = interval.room.levels.saturating_sub(laid.height);
    is_plain(&block, laid.code, levels)
}
