//! The local names, and what patterns bind.
ghost use Rattle.std.specs.Prelude.{◌≡◌, ◌∷◌, [], MatchResult, option_map, option_and_then, slice_get, map};
ghost use Rattle.nesl_values.specs.Parts.{elements};
ghost use Rattle.nesl_values.specs.View.{tree_of};
ghost use Rattle.nesl_syntax_tree.specs.Views.{pattern_tree, binders_in};
ghost use Rattle.nesl_builtins.specs.Named.{look_up};
ghost use Rattle.nesl_eval_meaning.specs.Names.{bound, outside, with_names};
ghost use Rattle.nesl_eval_meaning.specs.Outcome.{bound_at, first_at, scope_at};
ghost use Rattle.nesl_cost_eval.specs.Scopes.{Gives, GivesScope, locals, scope_of};

use crate::unfinished::Unfinished;
use nesl_eval_nodes::elements::element_at;
use nesl_syntax_tree::tree::{Binding, Pattern, PatternNode};
use nesl_values::Value;
use std::alloc::Global;

/// A local name and its value.
#[derive(Drop)]
pub(crate) struct Local<'a> {
    pub name: &'a [u8],
    pub value: Value,
}

/// The local names, the newest last, and the element of the innermost apply-to-each.
#[derive(Drop)]
pub(crate) struct Scope<'a> {
    pub names: Vec<Local<'a>>,
    pub element: Option<Value>,
}

/// The binders of an apply-to-each, and their sequences.
#[derive(Clone, Copy)]
pub(crate) struct Drawn<'s, 'a> {
    pub bindings: &'a [Binding],
    pub sequences: &'s [Value],
}

/// The value of a local name.
pub(crate) fn local_value<'s>(names: &'s [Local<'_>], name: &[u8]) -> Option<&'s Value>
    ensures { option_map (λ v. tree_of v.now) result ≡ look_up (locals names.now) name.now }
{
    let mut found = None;
    for local in names {
        if name == local.name {
            found = Some(&local.value);
        }
    }
    found
}

// One more name.
fn bind_name<'a>(
    names: &mut Vec<Local<'a>>,
    name: &'a [u8],
    value: &Value,
) -> Result<(), Unfinished<'a>>
    ensures { MatchResult result
        (λ _. locals names.new.items ≡ (name.now, tree_of value.now) ∷ locals names.old.items)
        (λ e. e ≡ Unfinished.Memory) }
{
    let Ok(value) = value.share() else {
        return Err(Unfinished::Memory);
    };
    match names.push(Local { name, value }) {
        Ok(()) => Ok(()),
        Err(_) => Err(Unfinished::Memory),
    }
}

/// The names of a pattern, besides those that are there.
pub(crate) fn bind<'a>(
    names: &mut Vec<Local<'a>>,
    pattern: &'a Pattern,
    value: &Value,
) -> Result<(), Unfinished<'a>>
    ensures { Gives result (bound (pattern_tree pattern.now) (tree_of value.now) (locals names.old.items))
        (locals names.new.items) }
{
    match &pattern.node {
        PatternNode::Name(name) => bind_name(names, name.as_slice(), value),
        PatternNode::Pair { left, right } => match value.as_pair() {
            Some((first, second)) => {
                bind(names, left, first)?;
                bind(names, right, second)
            }
            None => Err(Unfinished::Stuck),
        },
        PatternNode::Record { part, .. } => match value.as_tagged() {
            Some((_, inside)) => bind(names, part, inside),
            None => Err(Unfinished::Stuck),
        },
    }
}

// The names of a binder, at a place of its sequence.
fn bind_at<'a>(
    names: &mut Vec<Local<'a>>,
    binding: &'a Binding,
    sequence: &Value,
    place: usize,
) -> Result<(), Unfinished<'a>>
    ensures { Gives result (option_and_then
        (λ x. bound (pattern_tree binding.now.pattern) x (locals names.old.items))
        (slice_get (elements (tree_of sequence.now)) place)) (locals names.new.items) }
{
    let items = sequence.items();
    if place >= items.len() {
        return Err(Unfinished::Stuck);
    }
    let Ok(value) = items.at(place).share() else {
        return Err(Unfinished::Memory);
    };
    bind(names, &binding.pattern, &value)
}

// The names of all binders, at a place of their sequences.
fn bind_all<'a>(
    names: &mut Vec<Local<'a>>,
    bindings: &'a [Binding],
    sequences: &[Value],
    place: usize,
) -> Result<(), Unfinished<'a>>
    ensures { Gives result
        (bound_at (binders_in bindings.now) (map tree_of sequences.now) place (locals names.old.items))
        (locals names.new.items) }
{
    let Some((binding, others)) = bindings.split_first() else {
        return match sequences.split_first() {
            Some(_) => Err(Unfinished::Stuck),
            None => Ok(()),
        };
    };
    let Some((sequence, rest)) = sequences.split_first() else {
        return Err(Unfinished::Stuck);
    };
    bind_at(names, binding, sequence, place)?;
    bind_all(names, others, rest, place)
}

/// The same names once more.
fn copied_names<'a>(alloc: Global, names: &[Local<'a>]) -> Result<Vec<Local<'a>>, Unfinished<'a>>
    ensures { MatchResult result (λ n. locals n.items ≡ locals names.now) (λ e. e ≡ Unfinished.Memory) }
{
    let mut copies = Vec::new(alloc);
    for local in names {
        bind_name(&mut copies, local.name, &local.value)?;
    }
    Ok(copies)
}

// The same element once more.
fn copied_element<'a>(element: &Option<Value>) -> Result<Option<Value>, Unfinished<'a>>
    ensures { MatchResult result
        (λ o. option_map tree_of o ≡ option_map tree_of element.now) (λ e. e ≡ Unfinished.Memory) }
{
    let Some(value) = element else {
        return Ok(None);
    };
    match value.share() {
        Ok(value) => Ok(Some(value)),
        Err(_) => Err(Unfinished::Memory),
    }
}

/// The same scope once more.
pub(crate) fn copied<'a>(alloc: Global, scope: &Scope<'a>) -> Result<Scope<'a>, Unfinished<'a>>
    ensures { MatchResult result (λ s. scope_of s ≡ scope_of scope.now) (λ e. e ≡ Unfinished.Memory) }
{
    let names = copied_names(alloc, scope.names.as_slice())?;
    let element = copied_element(&scope.element)?;
    Ok(Scope { names, element })
}

/// What the body of a function sees: its parameter alone.
pub(crate) fn parameter<'a>(
    alloc: Global,
    pattern: &'a Pattern,
    argument: &Value,
) -> Result<Scope<'a>, Unfinished<'a>>
    ensures { GivesScope result
        (option_map (with_names (outside [])) (bound (pattern_tree pattern.now) (tree_of argument.now) [])) }
{
    let mut names = Vec::new(alloc);
    bind(&mut names, pattern, argument)?;
    Ok(Scope {
        names,
        element: None,
    })
}

// The element at a place of the first sequence.
fn first_element<'a>(sequences: &[Value], place: usize) -> Result<Option<Value>, Unfinished<'a>>
    ensures { MatchResult result
        (λ o. option_map tree_of o ≡ first_at (map tree_of sequences.now) place) (λ e. e ≡ Unfinished.Memory) }
{
    let Some(element) = element_at(sequences, 0, place) else {
        return Ok(None);
    };
    match element.share() {
        Ok(value) => Ok(Some(value)),
        Err(_) => Err(Unfinished::Memory),
    }
}

/// What a turn sees: the binders' names at its place, and the first sequence's element.
pub(crate) fn scope_at<'a>(
    alloc: Global,
    outer: &Scope<'a>,
    drawn: &Drawn<'_, 'a>,
    place: usize,
) -> Result<Scope<'a>, Unfinished<'a>>
    ensures { GivesScope result (scope_at (binders_in drawn.now.bindings.now) (map tree_of drawn.now.sequences.now)
        (scope_of outer.now) place) }
{
    let mut names = copied_names(alloc, outer.names.as_slice())?;
    bind_all(&mut names, drawn.bindings, drawn.sequences, place)?;
    let element = first_element(drawn.sequences, place)?;
    Ok(Scope { names, element })
}
