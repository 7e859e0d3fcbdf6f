//! Evaluates expressions of the top level, with helpers.
ghost use Rattle.std.specs.Prelude.{[]};
ghost use Rattle.nesl_syntax_tree.specs.Views.{tree_of};
ghost use Rattle.nesl_eval_meaning.specs.Names.{outside};
ghost use Rattle.nesl_eval_meaning.specs.Out.{within};
ghost use Rattle.nesl_eval_meaning.specs.Outcome.{out};
ghost use Rattle.nesl_eval_top_level.specs.Stored.{environment};
ghost use Rattle.nesl_eval.specs.Outcomes.{OutcomeIs};

use crate::crew::Crew;
use crate::run::evaluate_in_halves;
use nesl_eval::{Outcome, outcome_of};
use nesl_eval_code::runs_as_meant;
use nesl_eval_helpers::{Gate, Helpers};
use nesl_eval_ops::expression_ops;
use nesl_eval_top_level::{Env, prepare};
use nesl_syntax_tree::tree::Exp;
use std::alloc::Global;
use std::thread::Threads;

// The most cuts that may be nested. Each cut keeps its helper until both halves have ended. So the number of helpers is
// the limit, rather than this one.
const CUTS: u32 = u32::MAX;

/// Evaluates an expression like `eval_one`, with helpers. The result is the same for all answers of the helpers.
pub fn eval_split<R: Threads + Sync, H: Helpers + Sync, G: Gate + Sync>(
    rt: &R,
    alloc: Global,
    env: &Env,
    exp: &Exp,
    levels: u32,
    fuel: u64,
    helpers: &H,
    gate: &G,
) -> Outcome<Global>
    ensures { OutcomeIs result
        (within fuel (out levels (environment env.now) (outside []) (tree_of exp.now))) }
{
    runs_as_meant();
    let Ok(code) = prepare(alloc, env, exp) else {
        return Outcome::Memory;
    };
    let Ok(ops) = expression_ops(alloc, &code) else {
        return Outcome::Memory;
    };
    let top_level = env.top_level();
    let crew = Crew {
        rt: &*rt,
        helpers: &*helpers,
        gate: &*gate,
        tops: &top_level,
        alloc,
    };
    helpers.begin();
    let (found, meter) = evaluate_in_halves(top_level.bodies(), &ops, levels, fuel, CUTS, &crew);
    helpers.end(meter.fuel());
    outcome_of(found, fuel, meter)
}
