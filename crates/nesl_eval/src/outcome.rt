//! What an evaluation under a budget returns.
ghost use Rattle.std.specs.Prelude.{◌≡◌, []};
ghost use Rattle.nesl_values.specs.Tree.{ValueTree};
ghost use Rattle.nesl_eval_meaning.specs.Out.{Out, within};
ghost use Rattle.nesl_eval_code.specs.declared.code.Code.{Code};
ghost use Rattle.nesl_eval_code.specs.Run.{run};
ghost use Rattle.nesl_eval_code.specs.Flat.{block};
ghost use Rattle.nesl_eval_ops.specs.View.{block_of, HasBodies};
ghost use Rattle.nesl_eval_nodes.specs.Meets.{Meets, Is};
ghost use Rattle.nesl_eval.specs.Outcomes.{OutcomeIs};

use nesl_eval_machine::evaluate_ops;
use nesl_eval_nodes::held::Tops;
use nesl_eval_nodes::meter::{Meter, Stop};
use nesl_eval_ops::Ops;
use nesl_lex::token::Span;
use nesl_scalars::Trap;
use nesl_values::Value;
use std::alloc::Allocator;

/// How an evaluation ended.
#[derive(Drop)]
pub enum Outcome<A: Allocator> {
    Done {
        value: Value<A>,
        work: u64,
        depth: u64,
    },
    /// The work is all that was done before the fault, the faulting node's own 1 included.
    Fault {
        trap: Trap,
        span: Span,
        work: u64,
    },
    /// The whole work is more than the budget.
    Over,
    /// There was no room. This is also the outcome of an expression that has no type.
    Memory,
}

/// What code evaluates to with these levels and this fuel, held by `heap`, where these are its operations and those
/// of the bodies of functions.
pub fn evaluate<A: Allocator + Copy, T: Tops<A>>(
    tops: &T,
    bodies: &[Option<Ops>],
    ops: &Ops,
    levels: u32,
    fuel: u64,
    heap: A,
) -> Outcome<A>
    ensures { let t = T.table tops.now in (code : Code) → HasBodies t bodies.now → block_of ops.now ≡ block [] code
        → OutcomeIs result (within fuel (run levels t [] code)) }
{
    let (found, meter) = evaluate_ops(tops, bodies, ops, levels, fuel, heap);
    outcome_of(found, fuel, meter)
}

/// The outcome of a run that began with this fuel and ended with this meter.
pub fn outcome_of<A: Allocator>(
    found: Result<Value<A>, Stop>,
    fuel: u64,
    meter: Meter,
) -> Outcome<A>
    ensures { (o : Out ValueTree) → Meets Is (record { fuel = fuel; depth = 0 }) found meter o
        → OutcomeIs result (within fuel o) }
{
    let work = fuel.saturating_sub(meter.fuel());
    match found {
        Ok(value) => Outcome::Done {
            value,
            work,
            depth: meter.depth(),
        },
        Err(Stop::Fault(trap, span)) => Outcome::Fault { trap, span, work },
        Err(Stop::Over) => Outcome::Over,
        Err(Stop::Memory) => Outcome::Memory,
        Err(Stop::Stuck) => Outcome::Memory,
    }
}
