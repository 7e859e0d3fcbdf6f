//! What an expression costs, place by place.
ghost use Rattle.std.specs.Prelude.{◌≡◌, IfOk, []};
ghost use Rattle.nesl_syntax_tree.specs.Views.{tree_of};
ghost use Rattle.nesl_eval_meaning.specs.Names.{outside};
ghost use Rattle.nesl_eval_meaning.specs.Out.{within};
ghost use Rattle.nesl_eval_meaning.specs.Outcome.{out};
ghost use Rattle.nesl_eval_top_level.specs.Stored.{environment};
ghost use Rattle.nesl_cost_meaning.specs.Cost.{Cost, works, depths, work_in, depth_in};
ghost use Rattle.nesl_cost_rows.specs.Written.{notes_of, written};
ghost use Rattle.nesl_cost_shown.specs.Shown.{charges_shown};
ghost use Rattle.nesl_cost_session.specs.Sums.{AddsUp};

use nesl_cost_eval::account::{Account, account_for};
use nesl_cost_eval::unfinished::Source;
use nesl_cost_rows::reading::charges_of;
use nesl_cost_rows::trace::Trace;
use nesl_cost_shown::table::{PlaceTable, table_of};
use nesl_eval_top_level::Env;
use nesl_lex::token::Span;
use nesl_scalars::Trap;
use nesl_syntax_tree::tree::Exp;
use std::alloc::{AllocError, Global};

/// How an evaluation ended.
#[derive(Clone, Copy)]
pub enum EvaluationEnd<'a> {
    Value,
    /// By a fault with this span in the line, whose place may be in the body of a function.
    Fault {
        trap: Trap,
        span: Span,
        place: Source<'a>,
    },
    /// Its work is more than the fuel.
    Over,
}

/// What an expression costs, place by place.
#[derive(Drop)]
pub struct Measured<'a> {
    pub table: PlaceTable<'a>,
    pub ending: EvaluationEnd<'a>,
}

/// What an expression costs under these bindings, with these levels and this fuel. `Err` is also for an expression that
/// has no type.
pub fn measure<'a>(
    alloc: Global,
    env: &'a Env,
    exp: &'a Exp,
    levels: u32,
    fuel: u64,
) -> Result<Measured<'a>, AllocError>
    ensures { IfOk result
        (λ m. AddsUp m (within fuel (out levels (environment env.now) (outside []) (tree_of exp.now)))) }
{
    match account_for(alloc, env, exp, levels, fuel) {
        Account::Done { trace, .. } => tabled(alloc, trace, EvaluationEnd::Value),
        Account::Fault {
            trap,
            span,
            place,
            trace,
        } => tabled(alloc, trace, EvaluationEnd::Fault { trap, span, place }),
        Account::Over { trace } => tabled(alloc, trace, EvaluationEnd::Over),
        Account::Memory => Err(AllocError),
    }
}

// The table of a trace, which isn't needed any more.
fn tabled<'a>(
    alloc: Global,
    trace: Trace<'a>,
    ending: EvaluationEnd<'a>,
) -> Result<Measured<'a>, AllocError>
    ensures ending { IfOk result (λ m. m.ending ≡ ending.entry) }
    ensures work { (c : Cost) → notes_of trace.entry ≡ written c
        → IfOk result (λ m. works (charges_shown m.table) ≡ work_in c) }
    ensures depth { (c : Cost) → notes_of trace.entry ≡ written c
        → IfOk result (λ m. depths (charges_shown m.table) ≡ depth_in c) }
{
    let charges = charges_of(alloc, trace.marks())?;
    drop(trace);
    let table = table_of(alloc, &charges)?;
    Ok(Measured { table, ending })
}
