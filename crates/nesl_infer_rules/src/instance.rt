//! Instances of the types of functions.

ghost use Rattle.std.specs.Prelude.{◌≡◌, ◌<◌, All, length, map, slice_index, IfOk, IfSome, OnOk};
ghost use Rattle.nesl_types_shared.specs.Term.{variable};
ghost use Rattle.nesl_types_shared.specs.Numbering.{IsBelow};
ghost use Rattle.nesl_types_shared.specs.Substitution.{substitute};
ghost use Rattle.nesl_unify.specs.Flat.{flat_type};
ghost use Rattle.nesl_infer_rules.specs.Steps.{count, Gives, Adds};
ghost use Rattle.nesl_infer_rules.specs.Instances.{AreOf, type_in};
ghost use Rattle.nesl_infer_rules.specs.Typing.{IsInstanceOf};
ghost use Rattle.nesl_builtins.specs.FunctionTypes.{function_type};

use crate::state::State;
use nesl_types::{Class, Kind, Part, Scheme, Ty};
use nesl_unify::Flat;
use std::alloc::AllocError;

/// A variable for each class.
pub fn instantiate(state: &mut State, classes: &[Class]) -> Result<Vec<u64>, AllocError>
    ensures gives { IfOk result (λ vs. Gives state.old state.new (λ s. map s vs.items)
        (λ s of us. AreOf of classes.now us)) }
    ensures below { IfOk result (λ vs. All (λ v. v < count state.new) vs.items) }
    ensures len { IfOk result (λ vs. length vs.items ≡ length classes.now) }
{
    let mut fresh = Vec::with_capacity(state.alloc, classes.len())?;
    for class in classes {
        let variable = state.fresh(*class)?;
        fresh.push(variable)?;
    }
    Ok(fresh)
}

/// The variable that stands for a type that is a variable.
fn variable_of(fresh: &[u64], part: &Part<'_>) -> Option<u64>
    requires { IsBelow (length fresh.now) part.now }
    ensures { IfSome result (λ u. variable u ≡ substitute (λ v. variable (slice_index fresh.now v)) part.now) }
{
    match part.kind() {
        Kind::Var(variable) => Some(fresh[variable as usize]),
        _ => None,
    }
}

/// The type with the fresh variables in place of its variables, where its parts are variables.
fn flat_of(fresh: &[u64], part: &Part<'_>) -> Option<Flat>
    requires { IsBelow (length fresh.now) part.now }
    ensures { IfSome result (λ f. flat_type f ≡ substitute (λ v. variable (slice_index fresh.now v)) part.now) }
{
    match part.kind() {
        Kind::Int => Some(Flat::Int),
        Kind::Bool => Some(Flat::Bool),
        Kind::Char => Some(Flat::Char),
        Kind::Var(variable) => Some(Flat::Var(fresh[variable as usize])),
        Kind::Named(tag) => Some(Flat::Named(tag)),
        Kind::SeqOf(item) => Some(Flat::SeqOf(variable_of(fresh, &item)?)),
        Kind::Both(first, second) => {
            let first = variable_of(fresh, &first)?;
            Some(Flat::Both(first, variable_of(fresh, &second)?))
        }
    }
}

/// The variable is the type with what the fresh variables stand for in place of its variables. It allocates
/// nothing for a type whose parts are variables.
pub fn equate_part(
    state: &mut State,
    variable: u64,
    fresh: &[u64],
    part: &Part<'_>,
) -> Result<(), AllocError>
    requires variable { variable < count state.old }
    requires fresh { All (λ v. v < count state.old) fresh.now }
    requires part { IsBelow (length fresh.now) part.now }
    ensures { OnOk result (Adds state.old state.new (λ s of. s variable
        ≡ substitute (type_in (map s fresh.now)) part.now)) }
{
    match flat_of(fresh, part) {
        Some(flat) => {
            state.equate_flat(variable, flat)?;
            Ok(())
        }
        None => {
            state.equate_instance(variable, fresh, part)?;
            Ok(())
        }
    }
}

/// The variable is a whole type with what the fresh variables stand for in place of its variables. Nothing of
/// the type is copied.
fn equate_type(state: &mut State, variable: u64, fresh: &[u64], ty: &Ty) -> Result<(), AllocError>
    requires variable { variable < count state.old }
    requires fresh { All (λ v. v < count state.old) fresh.now }
    requires ty { IsBelow (length fresh.now) ty.now }
    ensures { OnOk result (Adds state.old state.new (λ s of. s variable
        ≡ substitute (type_in (map s fresh.now)) ty.now)) }
{
    match flat_of(fresh, &ty.whole()) {
        Some(flat) => {
            state.equate_flat(variable, flat)?;
            Ok(())
        }
        None => {
            state.equate_whole(variable, fresh, ty)?;
            Ok(())
        }
    }
}

/// Adds what makes the types of the variables an instance of what a function of the top level takes and gives.
pub fn function_instance(
    state: &mut State,
    scheme: &Scheme,
    given: u64,
    target: u64,
) -> Result<(), AllocError>
    requires given { given < count state.old }
    requires target { target < count state.old }
    ensures { OnOk result (Adds state.old state.new
        (λ s of. IsInstanceOf (function_type scheme.now) of (s given) (s target))) }
{
    scheme.variables_have_classes();
    let fresh = instantiate(state, scheme.classes.as_slice())?;
    equate_type(state, given, fresh.as_slice(), &scheme.argument)?;
    equate_type(state, target, fresh.as_slice(), &scheme.result)?;
    Ok(())
}
