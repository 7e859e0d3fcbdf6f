//! Moves a machine to a round, where its turns may be cut.
ghost use Rattle.std.specs.Prelude.{◌≡◌, ◌+◌, ◌++◌, ◌∷◌, [], map};
ghost use Rattle.std.specs.declared.vec.Vec.{Vec};
ghost use Rattle.nesl_values.specs.View.{tree_of};
ghost use Rattle.nesl_eval_meaning.specs.Out.{and_then, given};
ghost use Rattle.nesl_eval_code.specs.Run.{Table};
ghost use Rattle.nesl_eval_code.specs.Block.{finish};
ghost use Rattle.nesl_eval_code.specs.Exec.{exec, taken, at_places};
ghost use Rattle.nesl_eval_ops.specs.View.{block_of, body_block};
ghost use Rattle.nesl_eval_machine.specs.State.{Fits, env_of, local_of, left, left_at, left_with, left_at_hand};
ghost use Rattle.nesl_eval_machine.specs.State.{in_rounds};
ghost use Rattle.nesl_split.specs.Halves.{Reaches};

use nesl_eval_helpers::Helpers;
use nesl_eval_machine::state::{Frame, Hand, Machine, Purpose};
use nesl_eval_machine::take_off;
use nesl_eval_nodes::meter::Stop;
use nesl_eval_nodes::nodes::keep;
use nesl_eval_ops::{Body, Ops};
use nesl_eval_rounds::Round;
use nesl_lex::token::Span;
use nesl_values::Value;
use std::alloc::Global;

/// What a move has reached: a round between two turns with the operations after it, or else the current value.
#[derive(Drop)]
pub(crate) enum Reached<'a> {
    Round(Box<Round<'a, Global>>, &'a Ops),
    Moved(Hand<'a, Global>),
}

/// The parts of an apply-to-each: its span, its number of sequences, its first block, the body after a filter, and what
/// comes next.
#[derive(Clone, Copy)]
struct Parts<'a> {
    span: Span,
    count: usize,
    block: &'a Body,
    body: Option<&'a Body>,
    next: &'a Ops,
}

// Counts the turns that a round has left.
fn count_left(round: &Round<'_, Global>) -> usize {
    round.chosen.places().len().saturating_sub(round.turns)
}

// Returns the round of a frame that waits for a turn.
#[inline(always)]
fn round_of_turn<'m, 'a>(frame: Option<&'m Frame<'a, Global>>) -> Option<&'m Round<'a, Global>> {
    match &frame?.purpose {
        Purpose::Turn(round) => Some(&**round),
        Purpose::Push | Purpose::Return(_) => None,
    }
}

/// Whether there is a frame above the first `height` ones, and it waits for a turn.
pub(crate) fn waits_for_turn(frames: &[Frame<'_, Global>], height: usize) -> bool {
    round_of_turn(frames.get(height)).is_some()
}

// Whether the innermost frame waits for the last turn of a filter, or for a turn after which its round is to ask again.
#[inline(always)]
fn may_be_cut_after_turn<H: Helpers>(machine: &Machine<'_, Global>, helpers: &H) -> bool {
    match round_of_turn(machine.frames.last()) {
        Some(round) => {
            let left = count_left(round);
            if left < 2 {
                return round.body.is_some();
            }
            left > 2
                && helpers.asks_again(machine.meter.fuel(), machine.frames.len().saturating_sub(1))
        }
        None => false,
    }
}

/// Whether turns may be cut by the next operation. That is an apply-to-each, the end of a filter's last turn, or the
/// end of a turn after which the round is to ask again.
#[inline(always)]
pub(crate) fn may_be_cut<H: Helpers>(
    machine: &Machine<'_, Global>,
    hand: &Hand<'_, Global>,
    cuts: u32,
    helpers: &H,
) -> bool {
    if cuts == 0 {
        return false;
    }
    let next = match hand {
        Hand::Empty => machine.code,
        Hand::Holds(_, next) => *next,
        Hand::Done(_) => return false,
    };
    match next {
        Ops::Each { .. } => true,
        Ops::Filtered { .. } => true,
        Ops::Finish => may_be_cut_after_turn(machine, helpers),
        _ => false,
    }
}

/// Makes one move where turns may be cut. The current value is put on the stack first.
pub(crate) fn reach<'a>(
    machine: &mut Machine<'a, Global>,
    hand: Hand<'a, Global>,
) -> Result<Reached<'a>, Stop>
    ensures { (t : Table) → Fits t machine.old
        → Reaches t machine.old result machine.new (left_at_hand t machine.old hand.entry) }
{
    match hand {
        Hand::Empty => reach_round(machine),
        Hand::Holds(value, next) => set_down(machine, value, next),
        Hand::Done(value) => Ok(Reached::Moved(Hand::Done(value))),
    }
}

// Puts the current value on the stack, so that none is left.
fn set_down<'a>(
    machine: &mut Machine<'a, Global>,
    value: Value<Global>,
    next: &'a Ops,
) -> Result<Reached<'a>, Stop>
    ensures { (t : Table) → let m = machine.old in Fits t m → Reaches t m result machine.new
        (left_at_hand t m (Hand.Holds value next.entry)) }
{
    keep(&mut machine.stack, value)?;
    machine.code = next;
    Ok(Reached::Moved(Hand::Empty))
}

// Returns the round of an apply-to-each, or of a turn that ends, if one is next. Otherwise the machine is unchanged.
fn reach_round<'a>(machine: &mut Machine<'a, Global>) -> Result<Reached<'a>, Stop>
    ensures { (t : Table) → Fits t machine.old
        → Reaches t machine.old result machine.new (left t machine.old) }
{
    match machine.code {
        Ops::Each {
            span,
            count,
            body,
            next,
        } => {
            let parts = Parts {
                span: *span,
                count: *count,
                block: &**body,
                body: None,
                next: next.ops(),
            };
            begin_each(machine, &parts)
        }
        Ops::Filtered {
            span,
            count,
            body,
            filter,
            next,
        } => {
            let parts = Parts {
                span: *span,
                count: *count,
                block: &**filter,
                body: Some(&**body),
                next: next.ops(),
            };
            begin_each(machine, &parts)
        }
        Ops::Finish if round_of_turn(machine.frames.last()).is_some() => end_turn(machine),
        _ => Ok(Reached::Moved(Hand::Empty)),
    }
}

// Begins an apply-to-each, whose sequences are on the stack.
fn begin_each<'a>(machine: &mut Machine<'a, Global>, parts: &Parts<'a>) -> Result<Reached<'a>, Stop>
    ensures { (t : Table) → let m = machine.old in Fits t m → Reaches t m result machine.new (left_with t m
        (given (taken parts.now.count (local_of m) []) (λ p. and_then (at_places parts.now.span p.0
        (in_rounds t m.levels (env_of m) p.0 (body_block parts.now.block.now) parts.now.body))
        (λ v. exec t m.levels (env_of m) (block_of parts.now.next.now) (v ∷ p.1))))) }
{
    let Some(values) = take_off(&mut machine.stack, parts.count)? else {
        return Err(Stop::Stuck);
    };
    let round = machine.first_round(values, parts.span, parts.block, parts.body)?;
    Ok(Reached::Round(round, parts.next))
}

// Ends a turn, whose value is on the stack.
fn end_turn<'a>(machine: &mut Machine<'a, Global>) -> Result<Reached<'a>, Stop>
    ensures { (t : Table) → Fits t machine.old
        → Reaches t machine.old result machine.new (left_at t machine.old finish) }
{
    match machine.frames.pop() {
        Some(frame) => leave_turn(machine, frame),
        None => Err(Stop::Memory),
    }
}

// Ends a turn of this frame.
fn leave_turn<'a>(
    machine: &mut Machine<'a, Global>,
    frame: Frame<'a, Global>,
) -> Result<Reached<'a>, Stop>
    ensures { (t : Table) (before : Vec (Frame Global) Global)
        → let m = record machine.old { frames = before } in
        before.items ≡ machine.old.frames.items ++ frame.entry ∷ [] → Fits t m
        → Reaches t m result machine.new (left_at t m finish) }
{
    let Frame {
        next,
        base,
        len,
        height: _,
        levels,
        purpose,
    } = frame;
    match purpose {
        Purpose::Turn(mut round) => {
            machine.leave_turn(base, len, levels, &mut round)?;
            Ok(Reached::Round(round, next))
        }
        Purpose::Push | Purpose::Return(_) => Err(Stop::Memory),
    }
}
