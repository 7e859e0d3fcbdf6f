//! The equations of a whole expression: a large variable of the top level that it repeats is typed once.

ghost use Rattle.std.specs.Prelude.{◌≡◌, ◌<◌, ◌≤◌, ℕ, IsTrue, None, OnOk, Some};
ghost use Rattle.nesl_types_shared.specs.Term.{Term, nodes};
ghost use Rattle.nesl_syntax_tree.specs.Views.{tree_of};
ghost use Rattle.nesl_infer_rules.specs.Steps.{Adds, count, scope_at, AreLocalsBelow, IsOwnBelow};
ghost use Rattle.nesl_infer_rules.specs.Outers.{assumed_at, meant_at};
ghost use Rattle.nesl_infer_rules.specs.Typing.{HasType, local_type};

use crate::constrain::constrain;
use crate::uses::{is_large_variable, repeated};
use nesl_infer_rules::leaf::constrain_variable;
use nesl_infer_rules::locals::Locals;
use nesl_infer_rules::outer::Outer;
use nesl_infer_rules::state::{Key, Local, State};
use nesl_syntax_tree::tree::Exp;
use std::alloc::AllocError;

/// Whether the name is a large variable of the top level that no local name hides.
fn is_seen<P: Drop>(outer: &Outer<'_, P>, locals: &Locals<'_>, name: &[u8]) -> bool
    ensures shown { IsTrue result → (s : ℕ → Term) → local_type name.now (scope_at s locals.now) ≡ None }
    ensures variable { IsTrue result → (s : ℕ → Term) → (t : Term)
        × (nodes t ≤ 4096) × ((meant_at outer.now s).variables name.now ≡ Some t) }
{
    match locals.look_up(name) {
        Some(_) => false,
        None => is_large_variable(outer, name),
    }
}

/// Adds what makes `target` a type of the expression, after each of the names that is a large variable of the top level
/// was given a variable for its type, as a local name has one. Its uses then need no copies of the type, which would
/// have to be compared.
fn constrain_under<'a, P: Drop>(
    state: &mut State,
    outer: &Outer<'_, P>,
    locals: &mut Locals<'a>,
    names: &mut Vec<&'a [u8]>,
    exp: &'a Exp,
    target: u64,
) -> Result<(), AllocError>
    requires target { target < count state.old }
    requires locals { AreLocalsBelow (count state.old) locals.old }
    requires own { IsOwnBelow (count state.old) outer.now.own }
    ensures adds { OnOk result (Adds state.old state.new
        (λ s of. HasType (assumed_at outer.now s of) (scope_at s locals.old) (tree_of exp.now)
        (s target))) }
{
    let name = match names.pop() {
        Some(name) => name,
        None => return constrain(state, outer, locals, exp, target),
    };
    if !is_seen(outer, locals, name) {
        return constrain_under(state, outer, locals, names, exp, target);
    }
    let variable = state.add_any()?;
    constrain_variable(state, outer, locals, name, variable)?;
    locals.push(Local {
        key: Key::Name(name),
        variable,
    })?;
    constrain_under(state, outer, locals, names, exp, target)
}

/// Adds what makes `target` a type of the expression. Local names may be left over.
pub fn constrain_whole<'a, P: Drop>(
    state: &mut State,
    outer: &Outer<'_, P>,
    locals: &mut Locals<'a>,
    exp: &'a Exp,
    target: u64,
) -> Result<(), AllocError>
    requires target { target < count state.old }
    requires locals { AreLocalsBelow (count state.old) locals.old }
    requires own { IsOwnBelow (count state.old) outer.now.own }
    ensures adds { OnOk result (Adds state.old state.new
        (λ s of. HasType (assumed_at outer.now s of) (scope_at s locals.old) (tree_of exp.now)
        (s target))) }
{
    let mut names = repeated(state.alloc, outer, exp)?;
    constrain_under(state, outer, locals, &mut names, exp, target)
}
