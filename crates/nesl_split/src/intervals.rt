//! Evaluates turns of an interval in halves.
ghost use Rattle.std.specs.Prelude.{◌≡◌, ◌+◌, ◌≤◌};
ghost use Rattle.std.specs.Thread.{IsSync};
ghost use Rattle.nesl_eval_meaning.specs.Out.{and_then};
ghost use Rattle.nesl_eval_nodes.specs.Meets.{Meets};
ghost use Rattle.nesl_eval_machine.specs.State.{HasBodies};
ghost use Rattle.nesl_split.specs.Finding.{Are, Adds, kind_of, IsOf, of_value};
ghost use Rattle.nesl_split.specs.Intervals.{at_turn, found_in, AreIn};
ghost use Rattle.nesl_split.specs.Halves.{Within, HalfFinds};

use crate::asker::Moment;
use crate::columns::{find_by_columns, room_for};
use crate::crew::{Crew, fork};
use crate::found::{Found, join_found};
use crate::grant::{Grant, ask_for};
use crate::halves::make_moves;
use crate::lends::Lends;
use crate::own::values_for;
use crate::turns::{Interval, Room, Turns, end_turn, idle_machine, set_at_turn};
use nesl_eval_helpers::{Gate, Half, Helpers, Place, begin_meter, cost_since};
use nesl_eval_machine::state::Machine;
use nesl_eval_nodes::meter::{Meter, Stop};
use std::alloc::Global;
use std::thread::Threads;

// Evaluates turns one after another.
#[cycle(halves)]
#[inline(never)]
fn find_one_by_one<R: Threads + Sync, H: Helpers + Sync, G: Gate + Sync, T: Lends + Sync>(
    interval: &Interval<'_, R, H, G, T>,
    turns: Turns,
    cuts: u32,
    meter: &mut Meter,
) -> Result<Found, Stop>
    requires { AreIn turns interval.now }
    ensures meets { HasBodies (T.table interval.now.crew.now.tops.now) interval.now.room.now.bodies.now
        → Meets (Are interval.now.wanted) meter.old result meter.new (found_in T.table interval.now turns) }
    ensures spent { meter.new.fuel + meter.new.depth ≤ meter.old.fuel + meter.old.depth }
{
    let start = meter.depth();
    let mut most = 0;
    let room = room_for(interval, turns);
    let mut found = Found::new(interval.wanted, room, interval.crew.alloc);
    let mut machine = idle_machine(interval);
    let Turns { from, to } = turns;
    for turn in from..to {
        let place = interval.places.at(turn);
        meter.restart();
        take_turn(interval, &mut machine, place, cuts, &mut found, meter)?;
        most = meter.deepest(most);
    }
    meter.set_depth(start + most);
    Ok(found)
}

// Evaluates one turn on a machine that the turns of the interval share.
#[cycle(halves)]
fn take_turn<'a, R: Threads + Sync, H: Helpers + Sync, G: Gate + Sync, T: Lends + Sync>(
    interval: &Interval<'a, R, H, G, T>,
    machine: &mut Machine<'a, Global>,
    place: usize,
    cuts: u32,
    so_far: &mut Found,
    meter: &mut Meter,
) -> Result<(), Stop>
    ensures kind { kind_of so_far.new ≡ kind_of so_far.old }
    ensures meets { let w = interval.now.wanted in
        HasBodies (T.table interval.now.crew.now.tops.now) interval.now.room.now.bodies.now → IsOf w so_far.old
        → Meets (Adds w so_far.old so_far.new) meter.old result meter.new
        (and_then (at_turn T.table interval.now place) (of_value w place)) }
    ensures spent { meter.new.fuel + meter.new.depth ≤ meter.old.fuel + meter.old.depth }
{
    set_at_turn(machine, interval, place, *meter)?;
    let ended = make_moves(machine, cuts, interval.crew);
    end_turn(machine, ended, place, so_far, meter)
}

// Evaluates turns on this thread, in columns if possible.
#[cycle(halves)]
fn find_in_order<R: Threads + Sync, H: Helpers + Sync, G: Gate + Sync, T: Lends + Sync>(
    interval: &Interval<'_, R, H, G, T>,
    turns: Turns,
    cuts: u32,
    meter: &mut Meter,
) -> Result<Found, Stop>
    requires { AreIn turns interval.now }
    ensures meets { HasBodies (T.table interval.now.crew.now.tops.now) interval.now.room.now.bodies.now
        → Meets (Are interval.now.wanted) meter.old result meter.new (found_in T.table interval.now turns) }
    ensures spent { meter.new.fuel + meter.new.depth ≤ meter.old.fuel + meter.old.depth }
{
    match find_by_columns(interval, turns, meter) {
        Some(found) => Ok(found),
        None => find_one_by_one(interval, turns, cuts, meter),
    }
}

// Evaluates turns, in halves if a helper is granted.
#[cycle(halves)]
#[inline(never)]
fn find<R: Threads + Sync, H: Helpers + Sync, G: Gate + Sync, T: Lends + Sync>(
    interval: &Interval<'_, R, H, G, T>,
    turns: Turns,
    cuts: u32,
    meter: &mut Meter,
) -> Result<Found, Stop>
    requires { AreIn turns interval.now }
    ensures meets { HasBodies (T.table interval.now.crew.now.tops.now) interval.now.room.now.bodies.now
        → Meets (Are interval.now.wanted) meter.old result meter.new (found_in T.table interval.now turns) }
    ensures spent { meter.new.fuel + meter.new.depth ≤ meter.old.fuel + meter.old.depth }
{
    let moment = Moment {
        fuel: meter.fuel(),
        height: 0,
        taken: 0,
    };
    match ask_for(interval, turns, moment, cuts) {
        Some(grant) => find_in_halves(interval, turns, grant, meter),
        None => find_in_order(interval, turns, cuts, meter),
    }
}

/// Evaluates turns in two halves, with a granted helper.
#[cycle(halves)]
pub(crate) fn find_in_halves<R: Threads + Sync, H: Helpers + Sync, G: Gate + Sync, T: Lends + Sync>(
    interval: &Interval<'_, R, H, G, T>,
    turns: Turns,
    grant: Grant<H::Permit>,
    meter: &mut Meter,
) -> Result<Found, Stop>
    requires { AreIn turns interval.now }
    ensures meets { HasBodies (T.table interval.now.crew.now.tops.now) interval.now.room.now.bodies.now
        → Meets (Are interval.now.wanted) meter.old result meter.new (found_in T.table interval.now turns) }
    ensures spent { meter.new.fuel + meter.new.depth ≤ meter.old.fuel + meter.old.depth }
{
    let Grant { permit, cuts } = grant;
    let fuel = meter.fuel();
    let half = |interval: &Interval<'_, R, H, G, T>, from: usize, to: usize| -> Half<Found>
        requires { IsSync R.row × IsSync H.row × IsSync G.row × IsSync T.row
            × AreIn (record { from = from; to = to }) interval.now }
        ensures { Within fuel result
            × (HasBodies (T.table interval.now.crew.now.tops.now) interval.now.room.now.bodies.now
            → HalfFinds (Are interval.now.wanted) fuel result
            (found_in T.table interval.now (record { from = from; to = to }))) }
    { find_half(interval, Turns { from, to }, cuts, fuel) };
    let (left, right) = turns.halves();
    let (first, second) = fork(
        interval.crew.rt,
        interval,
        &half,
        (left.from, left.to),
        (right.from, right.to),
    );
    interval.crew.helpers.done(permit);
    join_found(interval.wanted, first, second, meter)
}

// Evaluates turns of a half, with values that other threads don't share.
#[cycle(halves)]
fn find_with_own<R: Threads + Sync, H: Helpers + Sync, G: Gate + Sync, T: Lends + Sync>(
    interval: &Interval<'_, R, H, G, T>,
    turns: Turns,
    cuts: u32,
    meter: &mut Meter,
) -> Result<Found, Stop>
    requires { AreIn turns interval.now }
    ensures meets { HasBodies (T.table interval.now.crew.now.tops.now) interval.now.room.now.bodies.now
        → Meets (Are interval.now.wanted) meter.old result meter.new (found_in T.table interval.now turns) }
    ensures spent { meter.new.fuel + meter.new.depth ≤ meter.old.fuel + meter.old.depth }
{
    let Some((names, tops)) = values_for(interval, turns) else {
        return find(interval, turns, cuts, meter);
    };
    let room = Room {
        names: &names,
        ..*interval.room
    };
    let crew = Crew {
        tops: &tops,
        ..*interval.crew
    };
    let own = Interval {
        room: &room,
        crew: &crew,
        ..*interval
    };
    find(&own, turns, cuts, meter)
}

// Evaluates a half, which begins with the whole fuel.
#[cycle(halves)]
fn find_half<R: Threads + Sync, H: Helpers + Sync, G: Gate + Sync, T: Lends + Sync>(
    interval: &Interval<'_, R, H, G, T>,
    turns: Turns,
    cuts: u32,
    fuel: u64,
) -> Half<Found>
    requires { AreIn turns interval.now }
    ensures { Within fuel result × (HasBodies (T.table interval.now.crew.now.tops.now) interval.now.room.now.bodies.now
        → HalfFinds (Are interval.now.wanted) fuel result (found_in T.table interval.now turns)) }
{
    interval.crew.gate.enter(Place::Half(turns.from, turns.to));
    let begun = begin_meter(fuel);
    let mut meter = begun;
    let found = find_with_own(interval, turns, cuts, &mut meter);
    let cost = cost_since(begun, meter);
    interval.crew.helpers.end_half();
    Half { found, cost }
}
