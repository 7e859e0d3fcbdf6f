//! What an expression of the top level evaluates to, with an account of its cost.
ghost use Rattle.std.specs.Prelude.{ℕ, []};
ghost use Rattle.nesl_syntax_tree.specs.Views.{tree_of};
ghost use Rattle.nesl_eval_meaning.specs.Names.{outside};
ghost use Rattle.nesl_eval_meaning.specs.Names.{Value as Meant};
ghost use Rattle.nesl_eval_meaning.specs.Out.{within};
ghost use Rattle.nesl_eval_meaning.specs.Outcome.{out};
ghost use Rattle.nesl_eval_top_level.specs.Stored.{environment};
ghost use Rattle.nesl_cost_meaning.specs.Traced.{Traced, traced, erase};
ghost use Rattle.nesl_cost_rows.specs.Written.{notes_of};
ghost use Rattle.nesl_cost_eval.specs.Accounts.{Explains, Agrees};
ghost use Rattle.nesl_cost_eval.specs.Writes.{Halts};

use crate::evaluating::{At, eval};
use crate::run::Run;
use crate::scope::Scope;
use crate::unfinished::{Source, Unfinished};
use nesl_cost_rows::trace::Trace;
use nesl_eval_nodes::meter::Meter;
use nesl_eval_top_level::Env;
use nesl_lex::token::Span;
use nesl_scalars::Trap;
use nesl_syntax_tree::tree::Exp;
use nesl_values::Value;
use std::alloc::Global;

/// How an evaluation ended, with all that it cost until then.
#[derive(Drop)]
pub enum Account<'a> {
    Done {
        value: Value,
        trace: Trace<'a>,
    },
    /// The span is in the line. The place may be in the body of a function.
    Fault {
        trap: Trap,
        span: Span,
        place: Source<'a>,
        trace: Trace<'a>,
    },
    /// The whole work is more than the budget. The trace ends where the budget did.
    Over {
        trace: Trace<'a>,
    },
    /// There was no room. This is also the outcome of an expression that has no type.
    Memory,
}

/// What an expression evaluates to under these bindings, with these levels and this fuel, and an account of its cost.
///
/// It recurs as deep as there are levels: with 1,000 of them it takes up to two MiB of the thread's stack.
pub fn account_for<'a>(
    alloc: Global,
    env: &'a Env,
    exp: &'a Exp,
    levels: u32,
    fuel: u64,
) -> Account<'a>
    ensures account { Explains result fuel (traced levels (environment env.now) (outside []) (tree_of exp.now)) }
    ensures outcome { Agrees result
        (within fuel (out levels (environment env.now) (outside []) (tree_of exp.now))) }
{
    let scope = Scope {
        names: Vec::new(alloc),
        element: None,
    };
    let at = At {
        alloc,
        env,
        levels,
        scope: &scope,
    };
    let mut run = Run {
        trace: Trace::new(alloc),
        meter: Meter::new(fuel),
    };
    let found = eval(&at, exp, &mut run);
    let Run { trace, .. } = run;
    match found {
        Ok(value) => Account::Done { value, trace },
        Err(halt) => without_value(halt, trace),
    }
}

// The account of an evaluation that ended so, without a value.
fn without_value<'a>(halt: Unfinished<'a>, trace: Trace<'a>) -> Account<'a>
    ensures { (f k : ℕ) (t : Traced Meant) → Halts (record { notes = []; fuel = f }) halt.entry
        (record { notes = notes_of trace.entry; fuel = k }) t
        → (Explains result f t) × (Agrees result (within f (erase t))) }
{
    match halt {
        Unfinished::Fault { trap, span, place } => Account::Fault {
            trap,
            span,
            place,
            trace,
        },
        Unfinished::Over => Account::Over { trace },
        Unfinished::Memory => Account::Memory,
        Unfinished::Stuck => Account::Memory,
    }
}
