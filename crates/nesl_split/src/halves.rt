//! A machine that evaluates its rounds in halves.
ghost use Rattle.std.specs.Prelude.{◌≡◌, ◌+◌, ◌≤◌, List, IfSome};
ghost use Rattle.nesl_values.specs.Tree.{ValueTree};
ghost use Rattle.nesl_eval_code.specs.Block.{Block};
ghost use Rattle.nesl_eval_ops.specs.View.{block_of};
ghost use Rattle.nesl_eval_rounds.specs.Rounds.{between};
ghost use Rattle.nesl_eval_machine.specs.State.{Fits, HasBodies, unwound, left, left_at_hand};
ghost use Rattle.nesl_eval_machine.specs.State.{frames_of, slots_of, stack_of, env_of, local_of};
ghost use Rattle.nesl_eval_machine.specs.Steps.{Steps, Moves};
ghost use Rattle.nesl_split.specs.Halves.{Came, Ran};

use crate::asker::Moment;
use crate::crew::Crew;
use crate::grant::{Grant, ask_for};
use crate::intervals::find_in_halves;
use crate::lends::Lends;
use crate::reached::{Reached, may_be_cut, reach, waits_for_turn};
use crate::rounds::{advance_to_body, begin_turns, end_turns, interval_of, turns_left};
use nesl_eval_helpers::{Gate, Helpers};
use nesl_eval_machine::state::{Hand, Machine};
use nesl_eval_nodes::held::Tops;
use nesl_eval_nodes::meter::Stop;
use nesl_eval_ops::Ops;
use nesl_eval_rounds::Round;
use nesl_values::Value;
use std::alloc::Global;
use std::thread::Threads;

/// Runs a machine to its last value. Its rounds are cut in halves where helpers are granted; at most `cuts` cuts are
/// nested. No run makes 2^64 - 1 moves. Only this loop calls `go_on`, so that it is inlined here.
#[cycle(halves)]
pub(crate) fn make_moves<R: Threads + Sync, H: Helpers + Sync, G: Gate + Sync, T: Lends + Sync>(
    machine: &mut Machine<'_, Global>,
    cuts: u32,
    crew: &Crew<'_, R, H, G, T>,
) -> Result<Value<Global>, Stop>
    ensures { let t = T.table crew.now.tops.now in Fits t machine.old
        → Ran machine.old result machine.new (left t machine.old) }
{
    let mut hand = Hand::Empty;
    for _ in 0..u64::MAX {
        if may_be_cut(machine, &hand, cuts, crew.helpers) {
            hand = move_in_halves(machine, hand, cuts, crew)?;
            continue;
        }
        match machine.go_on(crew.tops, hand)? {
            Hand::Done(value) => return Ok(value),
            next => hand = next,
        }
    }
    Err(Stop::Memory)
}

// Makes one move. At a round it evaluates all turns, in halves where helpers are granted. The current value is put on
// the stack first.
#[cycle(halves)]
#[inline(never)]
fn move_in_halves<'a, R: Threads + Sync, H: Helpers + Sync, G: Gate + Sync, T: Lends + Sync>(
    machine: &mut Machine<'a, Global>,
    hand: Hand<'a, Global>,
    cuts: u32,
    crew: &Crew<'_, R, H, G, T>,
) -> Result<Hand<'a, Global>, Stop>
    ensures { let t = T.table crew.now.tops.now in Fits t machine.old
        → Moves t machine.old result machine.new (left_at_hand t machine.old hand.entry) }
{
    match reach(machine, hand)? {
        Reached::Round(round, next) => {
            go_round_in_halves(machine, round, next, cuts, crew)?;
            Ok(Hand::Empty)
        }
        Reached::Moved(hand) => Ok(hand),
    }
}

// Goes on with a round at its start, after a turn, or after a filter's last turn. If a helper is granted, all remaining
// turns are evaluated in halves.
#[cycle(halves)]
fn go_round_in_halves<'a, R: Threads + Sync, H: Helpers + Sync, G: Gate + Sync, T: Lends + Sync>(
    machine: &mut Machine<'a, Global>,
    mut round: Box<Round<'a, Global>>,
    next: &'a Ops,
    cuts: u32,
    crew: &Crew<'_, R, H, G, T>,
) -> Result<(), Stop>
    ensures { let t = T.table crew.now.tops.now in let m = machine.old in Fits t m
        → Steps t m result machine.new (block_of machine.new.code.now)
        (unwound t (frames_of m) (slots_of m) (stack_of m)
        (between t m.levels (block_of next.now) (env_of m) (local_of m) round.entry.value)) }
{
    machine.meter.restart();
    rounds_in_halves(machine, &mut round, cuts, crew)?;
    machine.go_on_with_round(round, next)
}

// Evaluates all remaining turns of a round, and those of the body after a filter, if helpers are granted.
#[cycle(halves)]
fn rounds_in_halves<'a, R: Threads + Sync, H: Helpers + Sync, G: Gate + Sync, T: Lends + Sync>(
    machine: &mut Machine<'a, Global>,
    round: &mut Box<Round<'a, Global>>,
    cuts: u32,
    crew: &Crew<'_, R, H, G, T>,
) -> Result<(), Stop>
    ensures came { let t = T.table crew.now.tops.now in let m = machine.old in (b : Block) (st : List ValueTree)
        → HasBodies t m.bodies.now → Came m.meter.fuel result machine.new.meter.fuel
        (between t m.levels b (env_of m) st round.old.value) (between t m.levels b (env_of m) st round.new.value) }
    ensures meter { machine.new ≡ record machine.old { meter = machine.new.meter } }
    ensures spent { machine.new.meter.fuel ≤ machine.old.meter.fuel }
    ensures depth { machine.new.meter.depth ≤ machine.old.meter.depth }
{
    turns_in_halves(machine, round, cuts, crew)?;
    if !advance_to_body(round, machine.meter.fuel(), machine.alloc)? {
        return Ok(());
    }
    turns_in_halves(machine, round, cuts, crew)
}

// Reports the end of the timed interval, unless one of its turns goes on.
fn end_timed_unless_inside<H: Helpers>(machine: &Machine<'_, Global>, helpers: &H) {
    if let Some(height) = helpers.timed_at() {
        if !waits_for_turn(&machine.frames, height) {
            helpers.end_timed(machine.meter.fuel());
        }
    }
}

// Asks for a helper for the remaining turns of a round, if there are at least two and they may be cut.
fn ask_at<R, H: Helpers, G, T: Tops<Global>>(
    machine: &Machine<'_, Global>,
    round: &Round<'_, Global>,
    cuts: u32,
    crew: &Crew<'_, R, H, G, T>,
) -> Option<Grant<H::Permit>>
    ensures { IfSome result (λ grant. cuts ≡ grant.cuts + 1) }
{
    if round.turns == 0 {
        end_timed_unless_inside(machine, crew.helpers);
    }
    let (room, _) = begin_turns(machine);
    let whole = interval_of(&room, round, crew);
    let moment = Moment {
        fuel: machine.meter.fuel(),
        height: machine.frames.len(),
        taken: round.turns,
    };
    ask_for(&whole, turns_left(round), moment, cuts)
}

// Evaluates all remaining turns of a round. They run in halves if a helper is granted, else in columns if possible.
#[cycle(halves)]
fn turns_in_halves<'a, R: Threads + Sync, H: Helpers + Sync, G: Gate + Sync, T: Lends + Sync>(
    machine: &mut Machine<'a, Global>,
    round: &mut Box<Round<'a, Global>>,
    cuts: u32,
    crew: &Crew<'_, R, H, G, T>,
) -> Result<(), Stop>
    ensures came { let t = T.table crew.now.tops.now in let m = machine.old in (b : Block) (st : List ValueTree)
        → HasBodies t m.bodies.now → Came m.meter.fuel result machine.new.meter.fuel
        (between t m.levels b (env_of m) st round.old.value) (between t m.levels b (env_of m) st round.new.value) }
    ensures meter { machine.new ≡ record machine.old { meter = machine.new.meter } }
    ensures spent { machine.new.meter.fuel ≤ machine.old.meter.fuel }
    ensures depth { machine.new.meter.depth ≤ machine.old.meter.depth }
{
    let Some(grant) = ask_at(machine, &**round, cuts, crew) else {
        return machine.take_new_turns(crew.tops, round);
    };
    let (room, mut meter) = begin_turns(machine);
    let whole = interval_of(&room, &**round, &*crew);
    let found = find_in_halves(&whole, turns_left(&**round), grant, &mut meter);
    machine.meter.leave(meter.fuel());
    end_turns(&mut **round, found, meter)
}
