//! The equations of patterns.

ghost use Rattle.std.specs.Prelude.{◌≡◌, ◌<◌, ℕ, OnOk};
ghost use Rattle.nesl_syntax_tree.specs.Views.{pattern_tree};
ghost use Rattle.nesl_infer_rules.specs.Steps.{AddsNames, count, IsOwnBelow};
ghost use Rattle.nesl_infer_rules.specs.Outers.{assumed_at};
ghost use Rattle.nesl_infer_rules.specs.Typing.{PatternAdds};

use crate::locals::Locals;
use crate::outer::Outer;
use crate::record::constrain_record;
use crate::state::{Key, Local, State};
use nesl_syntax_tree::tree::{Pattern, PatternNode};
use std::alloc::AllocError;

/// Adds what makes `target` a type of the pattern, and the pattern's names.
pub fn constrain_pattern<'a, P: Drop>(
    state: &mut State,
    outer: &Outer<'_, P>,
    locals: &mut Locals<'a>,
    pattern: &'a Pattern,
    target: u64,
) -> Result<(), AllocError>
    requires target { target < count state.old }
    requires own { IsOwnBelow (count state.old) outer.now.own }
    ensures { OnOk result (AddsNames state.old state.new locals.old locals.new
        (λ s of ns. PatternAdds (assumed_at outer.now s of) (pattern_tree pattern.now) (s target) ns)) }
{
    match &pattern.node {
        PatternNode::Name(name) => {
            locals.push(Local {
                key: Key::Name(name.as_slice()),
                variable: target,
            })?;
            Ok(())
        }
        PatternNode::Pair {
            left: first,
            right: second,
        } => {
            let left = state.add_any()?;
            let right = state.add_any()?;
            constrain_pattern(state, outer, locals, first, left)?;
            constrain_pattern(state, outer, locals, second, right)?;
            state.equate_pair(target, left, right)?;
            Ok(())
        }
        PatternNode::Record { name, part: inner } => {
            let held = state.add_any()?;
            constrain_record(state, outer, name.as_slice(), target, held)?;
            constrain_pattern(state, outer, locals, inner, held)?;
            Ok(())
        }
    }
}
