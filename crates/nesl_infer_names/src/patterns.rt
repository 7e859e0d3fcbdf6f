//! The names of patterns: those of record patterns, which are datatypes, and those that they bind.

ghost use Rattle.std.specs.Prelude.{◌≡◌, ◌++◌, OnOk};
ghost use Rattle.nesl_syntax_tree.specs.Views.{pattern_tree, binders_in};
ghost use Rattle.nesl_infer_names.specs.Firsts.{earlier, first};
ghost use Rattle.nesl_infer_names.specs.Scopes.{locals};
ghost use Rattle.nesl_infer_names.specs.Names.{unknown_records, datatype_in, names_bound, all_names_bound};

use crate::found::note;
use crate::known::is_datatype;
use crate::scope::Scope;
use nesl_lex::token::Span;
use nesl_syntax_tree::tree::{Binding, Pattern, PatternNode};
use nesl_types::Context;
use std::alloc::{AllocError, Global};

/// Notes the first record pattern whose name is no datatype.
pub fn walk_pattern<P: Drop>(context: &Context<P>, found: &mut Option<Span>, pattern: &Pattern)
    ensures { found.new ≡ earlier found.old (first
        (unknown_records (datatype_in context.now) (pattern_tree pattern.now))) }
{
    match &pattern.node {
        PatternNode::Name(_) => {}
        PatternNode::Pair {
            left: first,
            right: second,
        } => {
            walk_pattern(context, found, first);
            walk_pattern(context, found, second);
        }
        PatternNode::Record { name, part: held } => {
            note(found, is_datatype(context, name.as_slice()), pattern.span);
            walk_pattern(context, found, held);
        }
    }
}

/// Adds the names that the pattern binds.
pub fn bind(alloc: Global, scope: &mut Scope, pattern: &Pattern) -> Result<(), AllocError>
    ensures { OnOk result (locals scope.new ≡ names_bound (pattern_tree pattern.now) ++ locals scope.old) }
{
    match &pattern.node {
        PatternNode::Name(name) => scope.push(alloc, name.as_slice()),
        PatternNode::Pair {
            left: first,
            right: second,
        } => {
            bind(alloc, scope, first)?;
            bind(alloc, scope, second)?;
            Ok(())
        }
        PatternNode::Record { part: held, .. } => bind(alloc, scope, held),
    }
}

/// Adds the names that all the binders bind.
pub fn bind_all(alloc: Global, scope: &mut Scope, bindings: &[Binding]) -> Result<(), AllocError>
    ensures { OnOk result (locals scope.new ≡ all_names_bound (binders_in bindings.now) ++ locals scope.old) }
{
    for binding in bindings {
        bind(alloc, scope, &binding.pattern)?;
    }
    Ok(())
}
