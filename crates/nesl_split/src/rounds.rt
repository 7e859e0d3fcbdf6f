//! Evaluates all remaining turns of a round together.
ghost use Rattle.std.specs.Prelude.{◌≡◌, ℕ, ◌≤◌, List, length, slice_range, MatchResult};
ghost use Rattle.nesl_values.specs.Tree.{ValueTree};
ghost use Rattle.nesl_eval_code.specs.Run.{Table};
ghost use Rattle.nesl_eval_code.specs.Block.{Block};
ghost use Rattle.nesl_eval_code.specs.Exec.{Places};
ghost use Rattle.nesl_eval_nodes.specs.Meets.{Meets};
ghost use Rattle.nesl_eval_nodes.specs.Sides as nodes;
ghost use Rattle.nesl_eval_rounds.specs.Rounds.{between, chosen_places, turn_of, places_left};
ghost use Rattle.nesl_eval_machine.specs.State.{places_of, env_of};
ghost use Rattle.nesl_split.specs.Finding.{Are, found_at, wanted_with};
ghost use Rattle.nesl_split.specs.Halves.{Came};

use crate::crew::Crew;
use crate::found::{Found, Wanted};
use crate::turns::{Interval, Room, Turns};
use nesl_eval_helpers::begin_meter;
use nesl_eval_machine::state::Machine;
use nesl_eval_nodes::meter::{Meter, Stop};
use nesl_eval_rounds::{Round, go_to_body};
use std::alloc::Global;

/// Returns the environment and the meter for turns that a machine evaluates together. They have all its fuel.
pub(crate) fn begin_turns<'m>(machine: &'m Machine<'_, Global>) -> (Room<'m>, Meter)
    ensures bodies { result.0.bodies.now ≡ machine.now.bodies.now }
    ensures names { places_of result.0.names.now ≡ env_of machine.now }
    ensures levels { result.0.levels ≡ machine.now.levels }
    ensures fuel { result.1.fuel ≡ machine.now.meter.fuel }
    ensures depth { result.1.depth ≡ 0 }
{
    let base = machine.base.min(machine.slots.len());
    let room = Room {
        bodies: machine.bodies,
        names: &machine.slots[base..],
        levels: machine.levels,
    };
    (room, begin_meter(machine.meter.fuel()))
}

/// The remaining turns of a round.
pub(crate) fn turns_left(round: &Round<'_, Global>) -> Turns
    ensures within { (result.from ≤ result.to) × (result.to ≡ length (chosen_places round.now.chosen)) }
    ensures left { slice_range (chosen_places round.now.chosen) result.from result.to
        ≡ places_left round.now round.now.turns }
{
    let to = round.chosen.places().len();
    Turns {
        from: round.turns.min(to),
        to,
    }
}

// Returns the kind of result of a round's turns: places, if a body comes after its filter.
fn wanted_of(round: &Round<'_, Global>) -> Wanted
    ensures { result ≡ wanted_with round.now.body }
{
    match round.body {
        Some(_) => Wanted::Places,
        None => Wanted::Values,
    }
}

/// Returns the interval of a round.
pub(crate) fn interval_of<'x, R, H, G, T>(
    room: &'x Room<'x>,
    round: &'x Round<'_, Global>,
    crew: &'x Crew<'x, R, H, G, T>,
) -> Interval<'x, R, H, G, T>
    ensures wanted { result.wanted ≡ wanted_with round.now.body }
    ensures room { result.room.now ≡ room.now }
    ensures block { result.block.now ≡ round.now.block.now }
    ensures sources { result.sources.now ≡ round.now.sources.items }
    ensures places { nodes.places_of result.places ≡ chosen_places round.now.chosen }
    ensures crew { result.crew.now ≡ crew.now }
{
    Interval {
        wanted: wanted_of(round),
        room,
        block: round.block,
        sources: &round.sources,
        places: round.chosen.places(),
        crew,
    }
}

/// Adds the results of all remaining turns to a round. The depth in the meter is that of the deepest turn.
pub(crate) fn end_turns(
    round: &mut Round<'_, Global>,
    found: Result<Found, Stop>,
    meter: Meter,
) -> Result<(), Stop>
    ensures { (t : Table) (n : ℕ) (b : Block) (env : Places) (st : List ValueTree) (m : Meter)
        → let r = round.old in let w = wanted_with r.body in m.depth ≡ 0
        → Meets (Are w) m found meter (found_at w (turn_of t n env r) (places_left r r.turns))
        → Came m.fuel result meter.fuel (between t n b env st r) (between t n b env st round.new) }
{
    match found? {
        Found::Places(places) => round.add_places(&places, meter.depth()),
        Found::Values(values) => round.add_values(values, meter.depth()),
    }
}

/// Goes from a filter's round, after its last turn, to the round of its body. Returns whether there is a round whose
/// turns may be evaluated.
pub(crate) fn advance_to_body(
    round: &mut Box<Round<'_, Global>>,
    fuel: u64,
    alloc: Global,
) -> Result<bool, Stop>
    ensures { MatchResult result (λ _. (t : Table) (n : ℕ) (b : Block) (env : Places) (st : List ValueTree)
        → between t n b env st round.old.value ≡ between t n b env st round.new.value) (λ e. e ≡ Stop.Memory) }
{
    if round.body.is_none() {
        return Ok(false);
    }
    go_to_body(round, fuel, alloc)?;
    Ok(round.body.is_none())
}
