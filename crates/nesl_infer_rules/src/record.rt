//! The equations of names of the top level.

ghost use Rattle.std.specs.Prelude.{◌≡◌, ◌<◌, ℕ, Option, Some, OnOk};
ghost use Rattle.nesl_types_shared.specs.Term.{Term};
ghost use Rattle.nesl_infer_rules.specs.Steps.{count, Adds, own_at};
ghost use Rattle.nesl_infer_rules.specs.Outers.{meant_at};
ghost use Rattle.nesl_infer_rules.specs.Typing.{IsRecord};
ghost use Rattle.nesl_infer_names.specs.Names.{datatype_in, hides};
ghost use Rattle.nesl_infer_rules.specs.World.{own_name};

use crate::outer::Outer;
use crate::state::{OwnName, State};
use nesl_types::Top;
use nesl_unify::Flat;
use std::alloc::AllocError;

/// Adds what makes `target` the type of the name's records, and `held` the type that they hold.
pub fn constrain_record<P: Drop>(
    state: &mut State,
    outer: &Outer<'_, P>,
    name: &[u8],
    target: u64,
    held: u64,
) -> Result<(), AllocError>
    requires target { target < count state.old }
    requires held { held < count state.old }
    ensures { OnOk result (Adds state.old state.new
        (λ s of. IsRecord (datatype_in outer.now.context.now) name.now (s target) (s held))) }
{
    match outer.context.get(name) {
        Some((Top::Datatype(tag, ty), _)) => {
            state.equate_flat(target, Flat::Named(*tag))?;
            state.equate_closed(held, ty)?;
            Ok(())
        }
        Some((Top::Variable(_), _)) => {
            state.add_contradiction()?;
            Ok(())
        }
        Some((Top::Function(_), _)) => {
            state.add_contradiction()?;
            Ok(())
        }
        None => {
            state.add_contradiction()?;
            Ok(())
        }
    }
}

/// Whether the name is no variable since a function is being defined.
fn is_hidden(own: &Option<OwnName>, name: &[u8]) -> bool
    ensures { (s : ℕ → Term) → result ≡ hides (own_name (own_at s own.now)) name.now }
{
    match own {
        Some(own) => name == own.name.as_slice() || name == b"it".as_slice(),
        None => false,
    }
}

/// Adds what makes `target` the type of the top-level variable of the name.
pub fn constrain_top_variable<P: Drop>(
    state: &mut State,
    outer: &Outer<'_, P>,
    name: &[u8],
    target: u64,
) -> Result<(), AllocError>
    requires target { target < count state.old }
    ensures { OnOk result (Adds state.old state.new
        (λ s of. (meant_at outer.now s).variables name.now ≡ Some (s target))) }
{
    if is_hidden(&outer.own, name) {
        state.add_contradiction()?;
        return Ok(());
    }
    match outer.context.get(name) {
        Some((Top::Variable(ty), _)) => {
            state.equate_closed(target, ty)?;
            Ok(())
        }
        Some((Top::Function(_), _)) => {
            state.add_contradiction()?;
            Ok(())
        }
        Some((Top::Datatype(_, _), _)) => {
            state.add_contradiction()?;
            Ok(())
        }
        None => {
            state.add_contradiction()?;
            Ok(())
        }
    }
}
