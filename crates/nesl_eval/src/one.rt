//! Expressions of the top level, in the allocator of its bindings.
ghost use Rattle.std.specs.Prelude.{[]};
ghost use Rattle.nesl_syntax_tree.specs.Views.{tree_of};
ghost use Rattle.nesl_eval_meaning.specs.Names.{outside};
ghost use Rattle.nesl_eval_meaning.specs.Out.{within};
ghost use Rattle.nesl_eval_meaning.specs.Outcome.{out};
ghost use Rattle.nesl_eval_top_level.specs.Stored.{environment};
ghost use Rattle.nesl_eval.specs.Outcomes.{OutcomeIs};

use crate::outcome::{Outcome, evaluate};
use nesl_eval_code::runs_as_meant;
use nesl_eval_ops::expression_ops;
use nesl_eval_top_level::{Env, prepare};
use nesl_syntax_tree::tree::Exp;
use std::alloc::Global;

/// What an expression evaluates to under these bindings, with these levels and this fuel.
pub fn eval_one(alloc: Global, env: &Env, exp: &Exp, levels: u32, fuel: u64) -> Outcome<Global>
    ensures { OutcomeIs result
        (within fuel (out levels (environment env.now) (outside []) (tree_of exp.now))) }
{
    runs_as_meant();
    let Ok(code) = prepare(alloc, env, exp) else {
        return Outcome::Memory;
    };
    let Ok(ops) = expression_ops(alloc, &code) else {
        return Outcome::Memory;
    };
    let tops = env.top_level();
    evaluate(&tops, tops.bodies(), &ops, levels, fuel, alloc)
}
