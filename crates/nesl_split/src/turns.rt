//! Turns of an apply-to-each, and their environment.
ghost use Rattle.std.specs.Prelude.{◌≡◌, ◌+◌, ◌-◌, ◌≤◌, ◌++◌, map, MatchResult};
ghost use Rattle.nesl_values.specs.Tree.{ValueTree};
ghost use Rattle.nesl_values.specs.View.{tree_of};
ghost use Rattle.nesl_eval_meaning.specs.Out.{Out, after_cost, and_then};
ghost use Rattle.nesl_eval_nodes.specs.Meets.{Meets, Is};
ghost use Rattle.nesl_eval_machine.specs.Steps.{Ends};
ghost use Rattle.nesl_split.specs.Finding.{kind_of, IsOf, Adds, of_value};
ghost use Rattle.nesl_split.specs.Intervals.{IsAtTurn, AreHalves};
ghost use Rattle.nesl_split.specs.Halves.{Ran};

use crate::crew::Crew;
use crate::found::{Found, Wanted};
use nesl_eval_machine::state::Machine;
use nesl_eval_nodes::meter::{Meter, Stop};
use nesl_eval_nodes::nodes::{keep, share};
use nesl_eval_nodes::places::Places;
use nesl_eval_ops::{Body, Ops};
use nesl_eval_rounds::push_row;
use nesl_values::Value;
use std::alloc::Global;

/// The environment of turns: the bodies of functions, the values of local names, and the number of levels.
#[derive(Clone, Copy)]
pub(crate) struct Room<'a> {
    pub bodies: &'a [Option<Ops>],
    pub names: &'a [Value<Global>],
    pub levels: u32,
}

/// The evaluation of a block at each of these places, with the kind of result.
#[derive_where(Clone, Copy)]
pub(crate) struct Interval<'a, R, H, G, T> {
    pub wanted: Wanted,
    pub room: &'a Room<'a>,
    pub block: &'a Body,
    pub sources: &'a [Value<Global>],
    pub places: Places<'a>,
    pub crew: &'a Crew<'a, R, H, G, T>,
}

/// The turns of an interval from index `from` up to before index `to`.
#[derive(Clone, Copy)]
pub(crate) struct Turns {
    pub from: usize,
    pub to: usize,
}

impl Turns {
    pub(crate) fn count(self) -> usize
        requires { self.from ≤ self.to }
        ensures { result ≡ self.to - self.from }
    {
        self.to - self.from
    }

    /// Cuts the turns into two halves. The right one begins where the left one ends.
    pub(crate) fn halves(self) -> (Turns, Turns)
        requires { self.from ≤ self.to }
        ensures { AreHalves self result.0 result.1 }
    {
        let Turns { from, to } = self;
        let centre = from + (to - from) / 2;
        (Turns { from, to: centre }, Turns { from: centre, to })
    }
}

/// Adds values to a list, each with one more owner.
pub(crate) fn share_all(values: &mut Vec<Value<Global>>, more: &[Value<Global>]) -> Result<(), Stop>
    ensures { MatchResult result
        (λ _. map tree_of values.new.items ≡ map tree_of values.old.items ++ map tree_of more.now)
        (λ e. e ≡ Stop.Memory) }
{
    for value in more {
        let owner = share(value)?;
        keep(values, owner)?;
    }
    Ok(())
}

/// Returns a machine with nothing to do, for the turns of an interval.
pub(crate) fn idle_machine<'a, R, H, G, T>(
    interval: &Interval<'a, R, H, G, T>,
) -> Machine<'a, Global> {
    let alloc = interval.crew.alloc;
    Machine {
        bodies: interval.room.bodies,
        code: interval.block.ops(),
        slots: Vec::new(alloc),
        stack: Vec::new(alloc),
        frames: Vec::new(alloc),
        base: 0,
        levels: interval.room.levels,
        meter: Meter::new(0),
        alloc,
    }
}

/// Sets a machine to the start of the turn at a place, with this meter. Anything left on it is dropped.
pub(crate) fn set_at_turn<'a, R, H, G, T>(
    machine: &mut Machine<'a, Global>,
    interval: &Interval<'a, R, H, G, T>,
    place: usize,
    meter: Meter,
) -> Result<(), Stop>
    ensures { MatchResult result (λ _. IsAtTurn machine.new interval.now place meter) (λ e. e ≡ Stop.Memory) }
{
    machine.slots.clear();
    machine.stack.clear();
    machine.frames.clear();
    share_all(&mut machine.slots, interval.room.names)?;
    push_row(&mut machine.slots, interval.sources, place)?;
    machine.bodies = interval.room.bodies;
    machine.code = interval.block.ops();
    machine.base = 0;
    machine.levels = interval.room.levels;
    machine.meter = meter;
    Ok(())
}

// Returns the result of a machine's run. A fault gets the span of the outermost call.
fn end_of_run(
    machine: &Machine<'_, Global>,
    found: Result<Value<Global>, Stop>,
) -> Result<Value<Global>, Stop>
    ensures { (m : Machine Global) (o : Out ValueTree) → Ran m found machine.now o → Ends m result machine.now o }
{
    match found {
        Ok(value) => Ok(value),
        Err(stop) => Err(machine.place_stop(stop)),
    }
}

/// Takes the result of a machine's run, which began with the fuel and the depth of this meter. A run never increases
/// the sum of both.
pub(crate) fn settle(
    machine: &Machine<'_, Global>,
    found: Result<Value<Global>, Stop>,
    meter: &mut Meter,
) -> Result<Value<Global>, Stop>
    ensures meets { (m : Machine Global) (o : Out ValueTree) → m.meter ≡ meter.old
        → Ran m found machine.now (after_cost 0 m.meter.depth o) → Meets Is meter.old result meter.new o }
    ensures spent { meter.new.fuel + meter.new.depth ≤ meter.old.fuel + meter.old.depth }
{
    let before = meter.fuel() + meter.depth();
    let ended = machine.meter;
    if ended.fuel() > before || ended.depth() > before - ended.fuel() {
        return Err(Stop::Memory);
    }
    *meter = ended;
    end_of_run(machine, found)
}

/// Adds the result of a turn.
pub(crate) fn end_turn(
    machine: &Machine<'_, Global>,
    found: Result<Value<Global>, Stop>,
    place: usize,
    so_far: &mut Found,
    meter: &mut Meter,
) -> Result<(), Stop>
    ensures kind { kind_of so_far.new ≡ kind_of so_far.old }
    ensures meets { (w : Wanted) (m : Machine Global) (o : Out ValueTree) → IsOf w so_far.old → m.meter ≡ meter.old
        → Ran m found machine.now (after_cost 0 m.meter.depth o)
        → Meets (Adds w so_far.old so_far.new) meter.old result meter.new (and_then o (of_value w place)) }
    ensures spent { meter.new.fuel + meter.new.depth ≤ meter.old.fuel + meter.old.depth }
{
    let value = settle(machine, found, meter)?;
    so_far.add(place, value, meter)
}
