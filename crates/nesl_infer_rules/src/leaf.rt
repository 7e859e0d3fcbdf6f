//! The equations of variables, elements and empty sequences.

ghost use Rattle.std.specs.Prelude.{◌≡◌, ◌<◌, ℕ, Option, Some, OnOk};
ghost use Rattle.nesl_types_shared.specs.Term.{Term, seq_of};
ghost use Rattle.nesl_syntax_tree.specs.Views.{type_tree};
ghost use Rattle.nesl_infer_rules.specs.Steps.{count, Adds, scope_at, AreLocalsBelow};
ghost use Rattle.nesl_infer_rules.specs.Outers.{assumed_at};
ghost use Rattle.nesl_infer_rules.specs.Typing.{IsVariable, IsWritten, local_type, newest_type, is_element};
ghost use Rattle.nesl_infer_names.specs.Names.{datatype_in};

use crate::locals::Locals;
use crate::outer::Outer;
use crate::record::constrain_top_variable;
use crate::state::State;
use crate::written::written_type;
use nesl_syntax_tree::tree::TypeExp;
use nesl_types::Context;
use nesl_types_shared::Bank;
use nesl_unify::Flat;
use std::alloc::AllocError;

/// Adds what makes `target` the type of a variable.
pub fn constrain_variable<P: Drop>(
    state: &mut State,
    outer: &Outer<'_, P>,
    locals: &Locals<'_>,
    name: &[u8],
    target: u64,
) -> Result<(), AllocError>
    requires target { target < count state.old }
    requires locals { AreLocalsBelow (count state.old) locals.now }
    ensures { OnOk result (Adds state.old state.new
        (λ s of. IsVariable (assumed_at outer.now s of) name.now (local_type name.now (scope_at s locals.now))
        (s target))) }
{
    match locals.look_up(name) {
        Some(variable) => {
            state.equate_flat(target, Flat::Var(variable))?;
            Ok(())
        }
        None => {
            constrain_top_variable(state, outer, name, target)?;
            Ok(())
        }
    }
}

/// Adds what makes `target` the type of the innermost apply-to-each's element.
pub fn constrain_element(
    state: &mut State,
    locals: &Locals<'_>,
    target: u64,
) -> Result<(), AllocError>
    requires target { target < count state.old }
    requires locals { AreLocalsBelow (count state.old) locals.now }
    ensures { OnOk result (Adds state.old state.new (λ s of. newest_type is_element (scope_at s locals.now)
        ≡ Some (s target))) }
{
    match locals.look_up_element() {
        Some(variable) => {
            state.equate_flat(target, Flat::Var(variable))?;
            Ok(())
        }
        None => {
            state.add_contradiction()?;
            Ok(())
        }
    }
}

/// Adds what makes `target` the sequences of the type that is written.
pub fn constrain_empty<P: Drop>(
    state: &mut State,
    context: &Context<P>,
    written: &TypeExp,
    target: u64,
) -> Result<(), AllocError>
    requires target { target < count state.old }
    ensures { OnOk result (Adds state.old state.new (λ s of. (u : Term)
        × IsWritten (datatype_in context.now) (type_tree written.now) u × (s target ≡ seq_of u))) }
{
    let mut bank = Bank::new(state.alloc);
    constrain_empty_in(state, context, &mut bank, written, target)
}

/// Adds that over a bank that is lent for the type.
fn constrain_empty_in<P: Drop>(
    state: &mut State,
    context: &Context<P>,
    bank: &mut Bank,
    written: &TypeExp,
    target: u64,
) -> Result<(), AllocError>
    requires target { target < count state.old }
    ensures { OnOk result
        (Adds state.old state.new
        (λ s of. (u : Term)
        × IsWritten (datatype_in context.now) (type_tree written.now) u
        × (s target ≡ seq_of u))) }
{
    match written_type(context, bank, written)? {
        Some(place) => {
            let item = state.add_any()?;
            let none: [u64; 0] = [];
            state.equate_instance(item, &none, &bank.part(place))?;
            state.equate_sequence(target, item)?;
            Ok(())
        }
        None => {
            state.add_contradiction()?;
            Ok(())
        }
    }
}
