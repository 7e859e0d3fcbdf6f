//! What is found of a line by its form.
ghost use Rattle.std.specs.Prelude.{◌≡◌, [], None, IfOk};
ghost use Rattle.nesl_syntax_tree.specs.Views.{line_of, tree_of};
ghost use Rattle.nesl_infer.specs.Verdicts.{IsTypeBy, typed};
ghost use Rattle.nesl_eval_meaning.specs.Names.{outside};
ghost use Rattle.nesl_eval_meaning.specs.Out.{within};
ghost use Rattle.nesl_eval_meaning.specs.Outcome.{out};
ghost use Rattle.nesl_session_bindings.specs.Known.{known, environment};
ghost use Rattle.nesl_session_bindings.specs.Redefinition.{RefusesDefinition, a_variable, it};
ghost use Rattle.nesl_session_meaning.specs.Finding.{budget, budget_report, FindsForm, FindsVariable, FindsOutcome};
ghost use Rattle.nesl_session.specs.Found.{finding_of, shown_report, CanCharge};
ghost use Rattle.nesl_session.specs.Inside.{state_of, Counts};

use crate::evaluator::Evaluator;
use crate::forms::finding::{Definition, Finding, Meaning, Shown};
use crate::forms::{WrittenFunction, find_datatype, find_function, find_type, variable_type};
use crate::standing::Standing;
use nesl_eval::Outcome;
use nesl_reply::{Fault, Stop, Used};
use nesl_scalars::Cost;
use nesl_syntax_tree::tree::{Exp, Form};
use nesl_types::Ty;
use std::alloc::{AllocError, Allocator, Global};

/// The calls that may be in progress within one another while a line is evaluated.
pub const LEVELS: u32 = 1000;

/// What is found of a line with this tree.
pub fn find_form<A: Allocator, E: Evaluator<A>>(
    standing: &Standing,
    alloc: Global,
    form: Form,
    by: &E,
) -> Result<Finding, AllocError>
    requires counts { Counts standing.now }
    requires sound { E.sound by.now }
    ensures found { IfOk result (λ f. FindsForm standing.now.limits (state_of standing.now) (line_of form)
        (finding_of f)) }
    ensures charges { IfOk result (CanCharge (state_of standing.now)) }
{
    match form {
        Form::Nothing => Ok(Finding::Answered(Shown::Blank)),
        Form::Fun {
            name,
            parameter,
            signature,
            body,
        } => {
            let written = WrittenFunction {
                parameter,
                signature,
                body,
            };
            find_function(&standing.bindings, standing.limits, alloc, name, written)
        }
        Form::Datatype { name, content } => {
            find_datatype(&standing.bindings, standing.limits, alloc, name, content)
        }
        Form::Bind { name, value } => find_variable(standing, alloc, name, &value, by),
        Form::Eval(exp) => find_expression(standing, alloc, &exp, by),
        Form::ShowNames => Ok(Finding::Answered(Shown::Names)),
        Form::ShowBudget => Ok(Finding::Answered(show_budget(standing))),
        Form::ShowType(exp) => find_type(&standing.bindings, alloc, exp),
    }
}

// The work that is left, and how much of each limit is used.
fn show_budget(standing: &Standing) -> Shown
    requires { Counts standing.now }
    ensures { shown_report result ≡ budget_report standing.now.limits (state_of standing.now) }
{
    let elements = Used {
        used: standing.bindings.elements(),
        limit: standing.limits.elements,
    };
    let lines = Used {
        used: standing.transcript.len() as u64,
        limit: standing.limits.transcript_lines,
    };
    let bytes = Used {
        used: standing.bytes,
        limit: standing.limits.transcript_bytes,
    };
    Shown::Budget(standing.work_left, elements, lines, bytes)
}

// What is found of an expression alone, which is bound to `it`.
fn find_expression<A: Allocator, E: Evaluator<A>>(
    standing: &Standing,
    alloc: Global,
    exp: &Exp,
    by: &E,
) -> Result<Finding, AllocError>
    requires { E.sound by.now }
    ensures found { IfOk result (λ f. FindsVariable standing.now.limits (state_of standing.now) it (tree_of exp.now)
        (finding_of f)) }
    ensures charges { IfOk result (CanCharge (state_of standing.now)) }
{
    let name = Vec::from_slice(alloc, b"it")?;
    find_variable(standing, alloc, name, exp, by)
}

// What is found where a name is bound to an expression.
fn find_variable<A: Allocator, E: Evaluator<A>>(
    standing: &Standing,
    alloc: Global,
    name: Vec<u8>,
    exp: &Exp,
    by: &E,
) -> Result<Finding, AllocError>
    requires { E.sound by.now }
    ensures found { IfOk result (λ f. FindsVariable standing.now.limits (state_of standing.now) name.items
        (tree_of exp.now)
        (finding_of f)) }
    ensures charges { IfOk result (CanCharge (state_of standing.now)) }
{
    match variable_type(&standing.bindings, alloc, name.as_slice(), exp) {
        Ok(ty) => find_value(standing, alloc, name, ty, exp, by),
        Err(stopped) => stopped.found(),
    }
}

// What is found where a name is bound to an expression of this type.
fn find_value<A: Allocator, E: Evaluator<A>>(
    standing: &Standing,
    alloc: Global,
    name: Vec<u8>,
    ty: Ty,
    exp: &Exp,
    by: &E,
) -> Result<Finding, AllocError>
    requires sound { E.sound by.now }
    requires typed { IsTypeBy (known (state_of standing.now).bindings) (tree_of exp.now) (typed ty) }
    requires free { RefusesDefinition (state_of standing.now).bindings name.items (a_variable ty) None }
    ensures found { IfOk result (λ f. FindsOutcome standing.now.limits (state_of standing.now) name.items ty
        (within (budget standing.now.limits (state_of standing.now))
        (out 1000 (environment (state_of standing.now).bindings) (outside []) (tree_of exp.now))) (finding_of f)) }
    ensures charges { IfOk result (CanCharge (state_of standing.now)) }
{
    standing.bindings.typed_never_stuck();
    let budget = standing.limits.line_work.min(standing.work_left);
    match by.evaluate(alloc, standing.bindings.environment(), exp, LEVELS, budget) {
        Outcome::Done { value, work, depth } => {
            if !standing
                .bindings
                .fits_variable(name.as_slice(), &value, standing.limits.elements)
            {
                return Ok(Finding::Refused(Fault::Elements(work), work));
            }
            let kept = by.keep(alloc, &value)?;
            let meaning = Meaning::Variable(ty, kept, Cost { work, depth });
            Ok(Finding::Defined(Definition { name, meaning }))
        }
        Outcome::Fault { trap, span, work } => {
            let fault = Fault::of_trap(trap, Stop { span, work });
            Ok(Finding::Refused(fault, work))
        }
        Outcome::Over => Ok(Finding::Refused(Fault::Work(budget), budget)),
        Outcome::Memory => Err(AllocError),
    }
}
