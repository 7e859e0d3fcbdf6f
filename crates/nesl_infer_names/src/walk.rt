//! The walk over an expression.

ghost use Rattle.std.specs.Prelude.{◌≡◌, ◌++◌, ◌||◌, OnOk};
ghost use Rattle.std.specs.Option.{is_some, option_map};
ghost use Rattle.std.specs.List.{list_any};
ghost use Rattle.std.specs.Str.{bytes_eq};
ghost use Rattle.nesl_syntax_tree.specs.Views.{tree_of, trees_in, binders_in};
ghost use Rattle.nesl_infer_names.specs.Firsts.{earlier, first};
ghost use Rattle.nesl_infer_names.specs.Scopes.{locals};
ghost use Rattle.nesl_infer_names.specs.Names.{names_in, all_names_bound, unknown_names, all_unknown_names};
ghost use Rattle.nesl_infer_names.specs.Names.{unknown_in_let, unknown_in_each};

use crate::found::{add, note};
use crate::known::{is_function, is_variable};
use crate::patterns::{bind, bind_all, walk_pattern};
use crate::scope::Scope;
use crate::types::walk_type;
use nesl_lex::token::Span;
use nesl_syntax_tree::tree::{Binding, Exp, Node};
use nesl_types::Context;
use std::alloc::{AllocError, Global};

/// What each part of a walk is given. `own` is the name of the function whose body the parts are in.
#[derive(Drop)]
pub struct Setting<'a, P> {
    pub alloc: Global,
    pub context: &'a Context<P>,
    pub own: &'a Option<Vec<u8>>,
}

/// Whether a variable node with the name refers to something.
fn is_known<P: Drop>(setting: &Setting<'_, P>, scope: &Scope, name: &[u8]) -> bool
    ensures { result ≡ (list_any (bytes_eq name.now) (locals scope.now)
        || is_some ((names_in setting.now.context.now (option_map (λ v. v.items) setting.now.own.now)).variables
        name.now)) }
{
    scope.has(name) || is_variable(setting.context, setting.own, name)
}

/// Notes the first name of the expression that refers to nothing.
#[cycle(walk)]
pub fn walk<P: Drop>(
    setting: &Setting<'_, P>,
    scope: &mut Scope,
    found: &mut Option<Span>,
    exp: &Exp,
) -> Result<(), AllocError>
    ensures found { OnOk result (found.new ≡ earlier found.old (first
        (unknown_names (names_in setting.now.context.now (option_map (λ v. v.items) setting.now.own.now))
        (locals scope.old) (tree_of exp.now)))) }
    ensures scope { OnOk result (locals scope.new ≡ locals scope.old) }
{
    match &exp.node {
        Node::Number(_) | Node::Truth(_) | Node::Character(_) => Ok(()),
        Node::Text(_) | Node::Element => Ok(()),
        Node::Variable(name) => {
            note(found, is_known(setting, scope, name.as_slice()), exp.span);
            Ok(())
        }
        Node::Call { name, argument } => {
            let known = is_function(setting.context, setting.own, name.as_slice());
            note(found, known, exp.span);
            walk(setting, scope, found, argument)
        }
        Node::Pair { left, right } => walk_two(setting, scope, found, left, right),
        Node::Prefix { operand, .. } => walk(setting, scope, found, operand),
        Node::Infix { left, right, .. } => walk_two(setting, scope, found, left, right),
        Node::Index { sequence, index } => walk_two(setting, scope, found, sequence, index),
        Node::Choice { test, yes, no } => {
            walk(setting, scope, found, test)?;
            walk_two(setting, scope, found, yes, no)
        }
        Node::Sequence(items) => walk_items(setting, scope, found, items.as_slice()),
        Node::Empty(item) => {
            walk_type(setting.context, found, item);
            Ok(())
        }
        Node::Range { from, to } => walk_two(setting, scope, found, from, to),
        Node::StridedRange { from, to, stride } => {
            walk(setting, scope, found, from)?;
            walk_two(setting, scope, found, to, stride)
        }
        Node::Let { bindings, body } => {
            let before = scope.len();
            walk_bindings(setting, scope, found, bindings.as_slice())?;
            walk(setting, scope, found, body)?;
            scope.truncate(before);
            Ok(())
        }
        Node::Each { body, bindings } => {
            let before = scope.len();
            walk_each(setting, scope, found, body, bindings.as_slice())?;
            scope.truncate(before);
            Ok(())
        }
        Node::FilteredEach {
            body,
            bindings,
            filter,
        } => {
            let before = scope.len();
            walk_each(setting, scope, found, body, bindings.as_slice())?;
            walk(setting, scope, found, filter)?;
            scope.truncate(before);
            Ok(())
        }
    }
}

/// Finds the first unknown name in either of two expressions.
#[cycle(walk)]
fn walk_two<P: Drop>(
    setting: &Setting<'_, P>,
    scope: &mut Scope,
    found: &mut Option<Span>,
    left: &Exp,
    right: &Exp,
) -> Result<(), AllocError>
    ensures found { let ns = names_in setting.now.context.now (option_map (λ v. v.items) setting.now.own.now) in
        let ls = locals scope.old in
        OnOk result (found.new ≡ earlier found.old (first
        (unknown_names ns ls (tree_of left.now) ++ unknown_names ns ls (tree_of right.now)))) }
    ensures scope { OnOk result (locals scope.new ≡ locals scope.old) }
{
    walk(setting, scope, found, left)?;
    walk(setting, scope, found, right)
}

/// Finds the first unknown name in any of the expressions.
#[cycle(walk)]
fn walk_items<P: Drop>(
    setting: &Setting<'_, P>,
    scope: &mut Scope,
    found: &mut Option<Span>,
    items: &[Exp],
) -> Result<(), AllocError>
    ensures found { OnOk result (found.new ≡ earlier found.old (first
        (all_unknown_names (names_in setting.now.context.now (option_map (λ v. v.items) setting.now.own.now))
        (locals scope.old) (trees_in items.now)))) }
    ensures scope { OnOk result (locals scope.new ≡ locals scope.old) }
{
    for item in items {
        walk(setting, scope, found, item)?;
    }
    Ok(())
}

/// Finds the first unknown name in the bindings of a `let`, whose names are in scope afterwards.
#[cycle(walk)]
fn walk_bindings<P: Drop>(
    setting: &Setting<'_, P>,
    scope: &mut Scope,
    found: &mut Option<Span>,
    bindings: &[Binding],
) -> Result<(), AllocError>
    ensures found { OnOk result (found.new ≡ earlier found.old (first
        (unknown_in_let (names_in setting.now.context.now (option_map (λ v. v.items) setting.now.own.now))
        (locals scope.old) (binders_in bindings.now)))) }
    ensures scope { OnOk result (locals scope.new ≡ all_names_bound (binders_in bindings.now) ++ locals scope.old) }
{
    for binding in bindings {
        walk_pattern(setting.context, found, &binding.pattern);
        walk(setting, scope, found, &binding.value)?;
        bind(setting.alloc, scope, &binding.pattern)?;
    }
    Ok(())
}

/// Finds the first unknown name in the body of an apply-to-each and then in its binders, whose names are in scope
/// afterwards.
#[cycle(walk)]
fn walk_each<P: Drop>(
    setting: &Setting<'_, P>,
    scope: &mut Scope,
    found: &mut Option<Span>,
    body: &Exp,
    binders: &[Binding],
) -> Result<(), AllocError>
    ensures found { let ns = names_in setting.now.context.now (option_map (λ v. v.items) setting.now.own.now) in
        let ls = locals scope.old in
        OnOk result (found.new ≡ earlier found.old (first
        (unknown_names ns (all_names_bound (binders_in binders.now) ++ ls) (tree_of body.now)
        ++ unknown_in_each ns ls (binders_in binders.now)))) }
    ensures scope { OnOk result (locals scope.new ≡ all_names_bound (binders_in binders.now) ++ locals scope.old) }
{
    let mut drawn = None;
    walk_binders(setting, scope, &mut drawn, binders)?;
    bind_all(setting.alloc, scope, binders)?;
    walk(setting, scope, found, body)?;
    add(found, drawn);
    Ok(())
}

/// Finds the first unknown name in the binders of an apply-to-each, whose sequences don't see their names.
#[cycle(walk)]
fn walk_binders<P: Drop>(
    setting: &Setting<'_, P>,
    scope: &mut Scope,
    found: &mut Option<Span>,
    binders: &[Binding],
) -> Result<(), AllocError>
    ensures found { OnOk result (found.new ≡ earlier found.old (first
        (unknown_in_each (names_in setting.now.context.now (option_map (λ v. v.items) setting.now.own.now))
        (locals scope.old) (binders_in binders.now)))) }
    ensures scope { OnOk result (locals scope.new ≡ locals scope.old) }
{
    for binder in binders {
        walk_pattern(setting.context, found, &binder.pattern);
        walk(setting, scope, found, &binder.value)?;
    }
    Ok(())
}
