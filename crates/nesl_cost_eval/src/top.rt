//! What names of the top level mean.
ghost use Rattle.nesl_builtins.specs.Named.{look_up};
ghost use Rattle.nesl_eval_meaning.specs.Outcome.{variable_in};
ghost use Rattle.nesl_eval_nodes.specs.declared.meter.Meter.{Meter};
ghost use Rattle.nesl_eval_nodes.specs.Meets.{Meets, Is};
ghost use Rattle.nesl_eval_top_level.specs.Stored.{environment};
ghost use Rattle.nesl_cost_eval.specs.Scopes.{Calls, locals};

use crate::scope::{Local, local_value};
use nesl_eval_nodes::meter::Stop;
use nesl_eval_nodes::nodes::share;
use nesl_eval_top_level::{Env, Payload};
use nesl_syntax_tree::tree::{Exp, Pattern};
use nesl_types::Top;
use nesl_values::Value;

/// The value of a name: a local one, or else a variable of the top level.
pub(crate) fn variable(env: &Env, names: &[Local<'_>], name: &[u8]) -> Result<Value, Stop>
    ensures { (m : Meter) → Meets Is m result m
        (variable_in (look_up (locals names.now) name.now) (look_up (environment env.now) name.now)) }
{
    if let Some(value) = local_value(names, name) {
        return share(value);
    }
    let Some((_, payload)) = env.get(name) else {
        return Err(Stop::Stuck);
    };
    match payload {
        Payload::Variable(value) => share(value),
        Payload::Function { .. } => Err(Stop::Stuck),
        Payload::Datatype => Err(Stop::Stuck),
    }
}

/// What a call calls.
#[derive(Clone, Copy)]
pub(crate) enum Callee<'a> {
    /// A function's parameter and body.
    Function(&'a Pattern, &'a Exp),
    /// A datatype's tag.
    Datatype(u64),
}

/// What a name of the top level is to a call, if it can be called.
pub(crate) fn find_callee<'a>(env: &'a Env, name: &[u8]) -> Option<Callee<'a>>
    ensures { Calls result (look_up (environment env.now) name.now) }
{
    let (top, payload) = env.get(name)?;
    match payload {
        Payload::Variable(_) => None,
        Payload::Function { pattern, body } => Some(Callee::Function(pattern, body)),
        Payload::Datatype => match top {
            Top::Datatype(tag, _) => Some(Callee::Datatype(*tag)),
            Top::Variable(_) => None,
            Top::Function(_) => None,
        },
    }
}
