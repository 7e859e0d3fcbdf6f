//! The equations of a name before `(`.

ghost use Rattle.std.specs.Prelude.{◌≡◌, ◌<◌, ℕ, OnOk};
ghost use Rattle.nesl_types_shared.specs.Term.{Term, pair_of};
ghost use Rattle.nesl_builtins.specs.FunctionTypes.{builtin_type, function_type};
ghost use Rattle.nesl_infer_rules.specs.Steps.{count, Adds, IsOwnBelow};
ghost use Rattle.nesl_infer_rules.specs.Typing.{NameTakes, IsInstanceOf};
ghost use Rattle.nesl_infer_rules.specs.Contexts.{IsOther};
ghost use Rattle.nesl_infer_rules.specs.Outers.{meant_at};

use crate::instance::{equate_part, function_instance, instantiate};
use crate::outer::Outer;
use crate::state::State;
use nesl_builtins::{Builtin, classes, gives, named, takes};
use nesl_types::{Kind, Top};
use nesl_unify::Flat;
use std::alloc::AllocError;

/// Adds what makes the types of the variables an instance of what the built-in takes and gives.
pub fn constrain_builtin(
    state: &mut State,
    builtin: Builtin,
    given: u64,
    target: u64,
) -> Result<(), AllocError>
    requires given { given < count state.old }
    requires target { target < count state.old }
    ensures { OnOk result (Adds state.old state.new
        (λ s of. IsInstanceOf (builtin_type builtin) of (s given) (s target))) }
{
    let fresh = instantiate(state, classes(builtin))?;
    equate_part(state, given, fresh.as_slice(), &takes(builtin))?;
    equate_part(state, target, fresh.as_slice(), &gives(builtin))?;
    Ok(())
}

/// Adds that of a built-in that takes a pair, where the types of its parts are given.
pub fn constrain_operator(
    state: &mut State,
    builtin: Builtin,
    first: u64,
    second: u64,
    target: u64,
) -> Result<(), AllocError>
    requires first { first < count state.old }
    requires second { second < count state.old }
    requires target { target < count state.old }
    requires pair { (t : Term) × (u : Term) × ((builtin_type builtin).argument ≡ pair_of t u) }
    ensures { OnOk result (Adds state.old state.new
        (λ s of. IsInstanceOf (builtin_type builtin) of (pair_of (s first) (s second)) (s target))) }
{
    match takes(builtin).kind() {
        Kind::Both(left, right) => {
            let fresh = instantiate(state, classes(builtin))?;
            equate_part(state, first, fresh.as_slice(), &left)?;
            equate_part(state, second, fresh.as_slice(), &right)?;
            equate_part(state, target, fresh.as_slice(), &gives(builtin))?;
            Ok(())
        }
        _ => {
            state.add_contradiction()?;
            Ok(())
        }
    }
}

/// Adds what makes the name take the type of `given` and give the type of `target`.
pub fn constrain_call<P: Drop>(
    state: &mut State,
    outer: &Outer<'_, P>,
    name: &[u8],
    given: u64,
    target: u64,
) -> Result<(), AllocError>
    requires given { given < count state.old }
    requires target { target < count state.old }
    requires own { IsOwnBelow (count state.old) outer.now.own }
    ensures { OnOk result (Adds state.old state.new
        (λ s of. NameTakes (meant_at outer.now s) of name.now (s given) (s target))) }
{
    if let Some(own) = &outer.own {
        if name == own.name.as_slice() {
            state.equate_flat(given, Flat::Var(own.takes))?;
            state.equate_flat(target, Flat::Var(own.gives))?;
            return Ok(());
        }
    }
    constrain_other_call(state, outer, name, given, target)
}

/// Adds what makes the name take the type of `given` and give the type of `target`, where it isn't the name of the
/// function that is being defined.
fn constrain_other_call<P: Drop>(
    state: &mut State,
    outer: &Outer<'_, P>,
    name: &[u8],
    given: u64,
    target: u64,
) -> Result<(), AllocError>
    requires given { given < count state.old }
    requires target { target < count state.old }
    requires other { IsOther name.now outer.now.own }
    ensures { OnOk result (Adds state.old state.new
        (λ s of. NameTakes (meant_at outer.now s) of name.now (s given) (s target))) }
{
    if let Some(builtin) = named(name) {
        constrain_builtin(state, builtin, given, target)?;
        return Ok(());
    }
    match outer.context.get(name) {
        Some((Top::Function(scheme), _)) => {
            function_instance(state, scheme, given, target)?;
            Ok(())
        }
        Some((Top::Datatype(tag, held), _)) => {
            state.equate_closed(given, held)?;
            state.equate_flat(target, Flat::Named(*tag))?;
            Ok(())
        }
        Some((Top::Variable(_), _)) => {
            state.add_contradiction()?;
            Ok(())
        }
        None => {
            state.add_contradiction()?;
            Ok(())
        }
    }
}
