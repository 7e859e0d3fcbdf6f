//! The names of an apply-to-each.

ghost use Rattle.std.specs.Prelude.{◌≡◌, ◌<◌, ℕ, All, map, length, OnOk};
ghost use Rattle.nesl_syntax_tree.specs.Views.{binders_in};
ghost use Rattle.nesl_infer_rules.specs.Steps.{AddsNames, count, IsOwnBelow};
ghost use Rattle.nesl_infer_rules.specs.Outers.{assumed_at};
ghost use Rattle.nesl_infer_rules.specs.Typing.{PatternsAdd, BindersAdd};

use crate::locals::Locals;
use crate::outer::Outer;
use crate::pattern::constrain_pattern;
use crate::state::{Key, Local, State};
use nesl_syntax_tree::tree::Binding;
use std::alloc::AllocError;

/// Adds the names of the patterns, which take elements of the types of the variables apart.
fn bind_patterns<'a, P: Drop>(
    state: &mut State,
    outer: &Outer<'_, P>,
    locals: &mut Locals<'a>,
    bindings: &'a [Binding],
    items: &[u64],
) -> Result<(), AllocError>
    requires items { All (λ v. v < count state.old) items.now }
    requires own { IsOwnBelow (count state.old) outer.now.own }
    requires len { length items.now ≡ length bindings.now }
    ensures { OnOk result (AddsNames state.old state.new locals.old locals.new
        (λ s of ns. PatternsAdd (assumed_at outer.now s of) (binders_in bindings.now) (map s items.now) ns)) }
{
    for place in 0..bindings.len() {
        constrain_pattern(state, outer, locals, &bindings[place].pattern, items[place])?;
    }
    Ok(())
}

/// Adds the names that the binders of an apply-to-each add, over the first one's element.
pub fn bind_items<'a, P: Drop>(
    state: &mut State,
    outer: &Outer<'_, P>,
    locals: &mut Locals<'a>,
    bindings: &'a [Binding],
    items: &[u64],
) -> Result<(), AllocError>
    requires items { All (λ v. v < count state.old) items.now }
    requires own { IsOwnBelow (count state.old) outer.now.own }
    requires len { length items.now ≡ length bindings.now }
    ensures { OnOk result (AddsNames state.old state.new locals.old locals.new
        (λ s of ns. BindersAdd (assumed_at outer.now s of) (binders_in bindings.now) (map s items.now) ns)) }
{
    match items.first() {
        Some(first) => {
            locals.push(Local {
                key: Key::Element,
                variable: *first,
            })?;
            bind_patterns(state, outer, locals, bindings, items)?;
            Ok(())
        }
        None => {
            state.add_contradiction()?;
            Ok(())
        }
    }
}
