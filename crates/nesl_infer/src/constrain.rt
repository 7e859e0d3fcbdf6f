//! The equations of an expression.

ghost use Rattle.std.specs.Prelude.{◌≡◌, ◌<◌, ◌≤◌, ℕ, List, All, map, length, IfOk, OnOk};
ghost use Rattle.nesl_types_shared.specs.Term.{Term, int, nodes};
ghost use Rattle.nesl_types_shared.specs.Numbering.{IsBelow};
ghost use Rattle.nesl_unify.specs.Flat.{flat_type};
ghost use Rattle.nesl_infer.specs.Items.{HaveItemType};
ghost use Rattle.nesl_syntax_tree.specs.Trees.{let_in, each};
ghost use Rattle.nesl_syntax_tree.specs.Views.{tree_of, trees_in, binders_in};
ghost use Rattle.nesl_infer_rules.specs.Steps.{Adds, AddsNames, Gives, count, scope_at, AreLocalsBelow};
ghost use Rattle.nesl_infer_rules.specs.Steps.{IsOwnBelow};
ghost use Rattle.nesl_infer_rules.specs.Outers.{assumed_at};
ghost use Rattle.nesl_infer_rules.specs.Typing.{HasType, HasShapeType, HaveType, HaveElements, BindingsAdd, BindersAdd};

use crate::leaf::{is_text, local_variable};
use nesl_builtins::{of_infix, of_prefix};
use nesl_infer_rules::apply::{constrain_builtin, constrain_call, constrain_operator};
use nesl_infer_rules::each::bind_items;
use nesl_infer_rules::leaf::{constrain_element, constrain_empty, constrain_variable};
use nesl_infer_rules::locals::Locals;
use nesl_infer_rules::outer::Outer;
use nesl_infer_rules::pattern::constrain_pattern;
use nesl_infer_rules::state::State;
use nesl_syntax_tree::tree::{Binding, Exp, Node};
use nesl_unify::Flat;
use std::alloc::AllocError;

/// Adds what makes `target` a type of the expression.
#[cycle(constrain)]
pub fn constrain<'a, P: Drop>(
    state: &mut State,
    outer: &Outer<'_, P>,
    locals: &mut Locals<'a>,
    exp: &'a Exp,
    target: u64,
) -> Result<(), AllocError>
    requires target { target < count state.old }
    requires locals { AreLocalsBelow (count state.old) locals.old }
    requires own { IsOwnBelow (count state.old) outer.now.own }
    ensures adds { OnOk result (Adds state.old state.new
        (λ s of. HasType (assumed_at outer.now s of) (scope_at s locals.old) (tree_of exp.now)
        (s target))) }
    ensures locals { OnOk result (locals.new ≡ locals.old) }
{
    match &exp.node {
        Node::Number(_) => state.equate_flat(target, Flat::Int),
        Node::Truth(_) => state.equate_flat(target, Flat::Bool),
        Node::Character(_) => state.equate_flat(target, Flat::Char),
        Node::Text(_) => is_text(state, target),
        Node::Variable(name) => constrain_variable(state, outer, locals, name.as_slice(), target),
        Node::Call { name, argument } => {
            let given = constrain_part(state, outer, locals, argument)?;
            constrain_call(state, outer, name.as_slice(), given, target)
        }
        Node::Pair {
            left: first,
            right: second,
        } => {
            let left = constrain_part(state, outer, locals, first)?;
            let right = constrain_part(state, outer, locals, second)?;
            state.equate_pair(target, left, right)
        }
        Node::Prefix {
            operator: prefix,
            operand,
        } => {
            let given = constrain_part(state, outer, locals, operand)?;
            constrain_builtin(state, of_prefix(*prefix), given, target)
        }
        Node::Infix {
            operator,
            left: first,
            right: second,
        } => {
            let left = constrain_part(state, outer, locals, first)?;
            let right = constrain_part(state, outer, locals, second)?;
            constrain_operator(state, of_infix(*operator), left, right, target)
        }
        Node::Index {
            sequence,
            index: place,
        } => {
            let items = constrain_part(state, outer, locals, sequence)?;
            constrain_exactly(state, outer, locals, place, Flat::Int)?;
            state.equate_sequence(items, target)
        }
        Node::Choice {
            test,
            yes: first,
            no: second,
        } => {
            constrain_exactly(state, outer, locals, test, Flat::Bool)?;
            constrain(state, outer, locals, first, target)?;
            constrain(state, outer, locals, second, target)
        }
        Node::Sequence(items) => {
            let item = state.add_any()?;
            constrain_items(state, outer, locals, items.as_slice(), item)?;
            state.equate_sequence(target, item)
        }
        Node::Empty(written) => constrain_empty(state, outer.context, written, target),
        Node::Range {
            from: start,
            to: end,
        } => {
            let number = constrain_bounds(state, outer, locals, start, end)?;
            state.equate_sequence(target, number)
        }
        Node::StridedRange {
            from: start,
            to: end,
            stride: step,
        } => {
            let number = constrain_bounds(state, outer, locals, start, end)?;
            constrain(state, outer, locals, step, number)?;
            state.equate_sequence(target, number)
        }
        Node::Let { bindings, body } => constrain_let(
            state,
            outer,
            locals,
            bindings.as_slice(),
            body,
            target,
        ),
        Node::Each { body, bindings } => constrain_each(
            state,
            outer,
            locals,
            body,
            bindings.as_slice(),
            target,
        ),
        Node::FilteredEach {
            body,
            bindings,
            filter,
        } => {
            let item = constrain_filtered_items(
                state,
                outer,
                locals,
                body,
                bindings.as_slice(),
                filter,
            )?;
            state.equate_sequence(target, item)
        }
        Node::Element => constrain_element(state, locals, target),
    }
}

/// Gives a variable for a type of the expression: a local name's own, which nothing has to be added for.
#[cycle(constrain)]
fn constrain_part<'a, P: Drop>(
    state: &mut State,
    outer: &Outer<'_, P>,
    locals: &mut Locals<'a>,
    exp: &'a Exp,
) -> Result<u64, AllocError>
    requires locals { AreLocalsBelow (count state.old) locals.old }
    requires own { IsOwnBelow (count state.old) outer.now.own }
    ensures gives { IfOk result (λ v. Gives state.old state.new (λ s. s v)
        (λ s of t. HasType (assumed_at outer.now s of) (scope_at s locals.old) (tree_of exp.now) t)) }
    ensures below { IfOk result (λ v. v < count state.new) }
    ensures locals { OnOk result (locals.new ≡ locals.old) }
{
    if let Some(variable) = local_variable(locals, exp) {
        return Ok(variable);
    }
    let part = state.add_any()?;
    constrain(state, outer, locals, exp, part)?;
    Ok(part)
}

/// Adds that the expression has this type.
#[cycle(constrain)]
fn constrain_exactly<'a, P: Drop>(
    state: &mut State,
    outer: &Outer<'_, P>,
    locals: &mut Locals<'a>,
    exp: &'a Exp,
    flat: Flat,
) -> Result<(), AllocError>
    requires flat { IsBelow 0 (flat_type flat) }
    requires small { nodes (flat_type flat) ≤ 4096 }
    requires locals { AreLocalsBelow (count state.old) locals.old }
    requires own { IsOwnBelow (count state.old) outer.now.own }
    ensures adds { OnOk result (Adds state.old state.new
        (λ s of. HasType (assumed_at outer.now s of) (scope_at s locals.old) (tree_of exp.now)
        (flat_type flat))) }
    ensures locals { OnOk result (locals.new ≡ locals.old) }
{
    let part = state.add_exact(flat)?;
    constrain(state, outer, locals, exp, part)
}

/// Adds that both ends of a range are integers, and gives a variable for their type.
#[cycle(constrain)]
fn constrain_bounds<'a, P: Drop>(
    state: &mut State,
    outer: &Outer<'_, P>,
    locals: &mut Locals<'a>,
    from: &'a Exp,
    to: &'a Exp,
) -> Result<u64, AllocError>
    requires locals { AreLocalsBelow (count state.old) locals.old }
    requires own { IsOwnBelow (count state.old) outer.now.own }
    ensures gives { IfOk result (λ v. Gives state.old state.new (λ s. s v) (λ s of t. (t ≡ int)
        × HasType (assumed_at outer.now s of) (scope_at s locals.old) (tree_of from.now) t
        × HasType (assumed_at outer.now s of) (scope_at s locals.old) (tree_of to.now) t)) }
    ensures below { IfOk result (λ v. v < count state.new) }
    ensures locals { OnOk result (locals.new ≡ locals.old) }
{
    let number = state.add_exact(Flat::Int)?;
    constrain(state, outer, locals, from, number)?;
    constrain(state, outer, locals, to, number)?;
    Ok(number)
}

/// Adds what makes `target` a type of each of the expressions.
#[cycle(constrain)]
fn constrain_items<'a, P: Drop>(
    state: &mut State,
    outer: &Outer<'_, P>,
    locals: &mut Locals<'a>,
    items: &'a [Exp],
    target: u64,
) -> Result<(), AllocError>
    requires target { target < count state.old }
    requires locals { AreLocalsBelow (count state.old) locals.old }
    requires own { IsOwnBelow (count state.old) outer.now.own }
    ensures adds { OnOk result (Adds state.old state.new
        (λ s of. HaveType (assumed_at outer.now s of) (scope_at s locals.old) (trees_in items.now)
        (s target))) }
    ensures locals { OnOk result (locals.new ≡ locals.old) }
{
    for item in items {
        constrain(state, outer, locals, item, target)?;
    }
    Ok(())
}

/// Adds the names of the bindings of a `let`.
#[cycle(constrain)]
fn constrain_bindings<'a, P: Drop>(
    state: &mut State,
    outer: &Outer<'_, P>,
    locals: &mut Locals<'a>,
    bindings: &'a [Binding],
) -> Result<(), AllocError>
    requires locals { AreLocalsBelow (count state.old) locals.old }
    requires own { IsOwnBelow (count state.old) outer.now.own }
    ensures { OnOk result (AddsNames state.old state.new locals.old locals.new
        (λ s of ns. BindingsAdd (assumed_at outer.now s of) (scope_at s locals.old)
        (binders_in bindings.now) ns)) }
{
    for binding in bindings {
        let bound = state.add_any()?;
        constrain(state, outer, locals, &binding.value, bound)?;
        constrain_pattern(state, outer, locals, &binding.pattern, bound)?;
    }
    Ok(())
}

/// Adds that the values of the binders of an apply-to-each are sequences, and gives the variables of their elements'
/// types.
#[cycle(constrain)]
fn constrain_values<'a, P: Drop>(
    state: &mut State,
    outer: &Outer<'_, P>,
    locals: &mut Locals<'a>,
    bindings: &'a [Binding],
) -> Result<Vec<u64>, AllocError>
    requires locals { AreLocalsBelow (count state.old) locals.old }
    requires own { IsOwnBelow (count state.old) outer.now.own }
    ensures gives { IfOk result (λ vs. Gives state.old state.new (λ s. map s vs.items)
        (λ s of is. HaveElements (assumed_at outer.now s of) (scope_at s locals.old)
        (binders_in bindings.now) is)) }
    ensures below { IfOk result (λ vs. All (λ v. v < count state.new) vs.items) }
    ensures len { IfOk result (λ vs. length vs.items ≡ length bindings.now) }
    ensures locals { OnOk result (locals.new ≡ locals.old) }
{
    let mut items = Vec::new(state.alloc);
    for binding in bindings {
        let sequence = constrain_part(state, outer, locals, &binding.value)?;
        let item = state.add_any()?;
        state.equate_sequence(sequence, item)?;
        items.push(item)?;
    }
    Ok(items)
}

/// The equations of a `let`.
#[cycle(constrain)]
fn constrain_let<'a, P: Drop>(
    state: &mut State,
    outer: &Outer<'_, P>,
    locals: &mut Locals<'a>,
    bindings: &'a [Binding],
    body: &'a Exp,
    target: u64,
) -> Result<(), AllocError>
    requires target { target < count state.old }
    requires locals { AreLocalsBelow (count state.old) locals.old }
    requires own { IsOwnBelow (count state.old) outer.now.own }
    ensures adds { OnOk result (Adds state.old state.new
        (λ s of. HasShapeType (assumed_at outer.now s of) (scope_at s locals.old)
        (let_in (binders_in bindings.now) (tree_of body.now)) (s target))) }
    ensures locals { OnOk result (locals.new ≡ locals.old) }
{
    let before = locals.len();
    constrain_bindings(state, outer, locals, bindings)?;
    constrain(state, outer, locals, body, target)?;
    locals.truncate(before);
    Ok(())
}

/// The equations of an apply-to-each.
#[cycle(constrain)]
fn constrain_each<'a, P: Drop>(
    state: &mut State,
    outer: &Outer<'_, P>,
    locals: &mut Locals<'a>,
    body: &'a Exp,
    bindings: &'a [Binding],
    target: u64,
) -> Result<(), AllocError>
    requires target { target < count state.old }
    requires locals { AreLocalsBelow (count state.old) locals.old }
    requires own { IsOwnBelow (count state.old) outer.now.own }
    ensures adds { OnOk result (Adds state.old state.new
        (λ s of. HasShapeType (assumed_at outer.now s of) (scope_at s locals.old)
        (each (tree_of body.now) (binders_in bindings.now)) (s target))) }
    ensures locals { OnOk result (locals.new ≡ locals.old) }
{
    let before = locals.len();
    constrain_binders(state, outer, locals, bindings)?;
    let item = constrain_part(state, outer, locals, body)?;
    locals.truncate(before);
    state.equate_sequence(target, item)
}

/// Gives a variable for a type of the items of an apply-to-each with a filter.
#[cycle(constrain)]
fn constrain_filtered_items<'a, P: Drop>(
    state: &mut State,
    outer: &Outer<'_, P>,
    locals: &mut Locals<'a>,
    body: &'a Exp,
    bindings: &'a [Binding],
    filter: &'a Exp,
) -> Result<u64, AllocError>
    requires locals { AreLocalsBelow (count state.old) locals.old }
    requires own { IsOwnBelow (count state.old) outer.now.own }
    ensures gives { IfOk result (λ v. Gives state.old state.new (λ s. s v)
        (λ s of u. HaveItemType (assumed_at outer.now s of) (scope_at s locals.old) (tree_of body.now)
        (binders_in bindings.now) (tree_of filter.now) u)) }
    ensures below { IfOk result (λ v. v < count state.new) }
    ensures locals { OnOk result (locals.new ≡ locals.old) }
{
    let before = locals.len();
    constrain_binders(state, outer, locals, bindings)?;
    let item = constrain_part(state, outer, locals, body)?;
    constrain_exactly(state, outer, locals, filter, Flat::Bool)?;
    locals.truncate(before);
    Ok(item)
}

/// Adds the names of the binders of an apply-to-each, whose values are sequences.
#[cycle(constrain)]
fn constrain_binders<'a, P: Drop>(
    state: &mut State,
    outer: &Outer<'_, P>,
    locals: &mut Locals<'a>,
    bindings: &'a [Binding],
) -> Result<(), AllocError>
    requires locals { AreLocalsBelow (count state.old) locals.old }
    requires own { IsOwnBelow (count state.old) outer.now.own }
    ensures { OnOk result (AddsNames state.old state.new locals.old locals.new (λ s of ns. (is : List Term)
        × HaveElements (assumed_at outer.now s of) (scope_at s locals.old) (binders_in bindings.now) is
        × BindersAdd (assumed_at outer.now s of) (binders_in bindings.now) is ns)) }
{
    let items = constrain_values(state, outer, locals, bindings)?;
    bind_items(state, outer, locals, bindings, items.as_slice())
}
