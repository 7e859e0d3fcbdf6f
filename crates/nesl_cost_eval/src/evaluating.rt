//! Evaluation over trees, which writes down what it costs.
ghost use Rattle.std.specs.Prelude.{◌≡◌, map, []};
ghost use Rattle.std.specs.List.{range_with_len};
ghost use Rattle.nesl_values.specs.Parts.{as_bool};
ghost use Rattle.nesl_values.specs.Tree as values;
ghost use Rattle.nesl_values.specs.View.{tree_of as value_tree};
ghost use Rattle.nesl_builtins.specs.Named.{builtin_named, look_up};
ghost use Rattle.nesl_syntax_tree.specs.Views.{tree_of, trees_in, binders_in, pattern_tree};
ghost use Rattle.nesl_eval_meaning.specs.Names.{outside};
ghost use Rattle.nesl_eval_meaning.specs.Outcome.{denoted, apply_builtin, small_enough, sources, place_if_true};
ghost use Rattle.nesl_eval_meaning.specs.Outcome.{body_value};
ghost use Rattle.nesl_eval_nodes.specs.Meets.{Is};
ghost use Rattle.nesl_eval_nodes.specs.Sides.{places_of, IsKeptPlace, IsOne};
ghost use Rattle.nesl_cost_meaning.specs.Traced.{and_then, given, charged, branch, two_parts, three_parts, all_parts};
ghost use Rattle.nesl_cost_meaning.specs.Traced.{let_of, at_place, kept_places, body_values, over_places, node_of};
ghost use Rattle.nesl_cost_meaning.specs.Traced.{in_bound, call_name, at_call};
ghost use Rattle.nesl_cost_meaning.specs.Cost.{free};
ghost use Rattle.nesl_cost_meaning.specs.Traced.{value};
ghost use Rattle.nesl_lex.specs.declared.token.Span.{Span};
ghost use Rattle.nesl_cost_eval.specs.Scopes.{scope_of, environment_of, scope_in, parts_of};
ghost use Rattle.nesl_cost_eval.specs.Writes.{Book, Writes, AreValues, ArePlaces, book, joined_by, strided};

use crate::made::{common_len, finished, hold, hold_element, hold_if, truth_of};
use crate::run::{Joined, Run};
use crate::scope::{Drawn, Scope, bind, copied, parameter, scope_at};
use crate::top::{Callee, find_callee, variable};
use crate::unfinished::{Source, Unfinished, called_at, halted};
use nesl_builtins::{Builtin, named, of_infix, of_prefix};
use nesl_cost_rows::trace::Mark;
use nesl_eval_nodes::nodes::{make_empty, make_record, sequence_of, share};
use nesl_eval_nodes::places::Places;
use nesl_eval_top_level::Env;
use nesl_lex::token::Span;
use nesl_scalars::Trap;
use nesl_seqs::{Argument, SeqFn};
use nesl_syntax_tree::tree::{Binding, Exp, Node, Pattern};
use nesl_values::Value;
use nesl_values_builder::SequenceBuilder;
use std::alloc::Global;

/// What an expression sees: the top level, the levels that are left, and the local names.
#[derive(Clone, Copy)]
pub(crate) struct At<'s, 'a> {
    pub alloc: Global,
    pub env: &'a Env,
    pub levels: u32,
    pub scope: &'s Scope<'a>,
}

/// What an expression evaluates to. It recurs as deep as there are levels.
#[cycle(evaluating)]
pub(crate) fn eval<'a>(
    at: &At<'_, 'a>,
    exp: &'a Exp,
    run: &mut Run<'a>,
) -> Result<Value, Unfinished<'a>>
    ensures { Writes Is (book run.old) result (book run.new) (parts_of at.now (scope_in at.now) (tree_of exp.now)) }
{
    let span = exp.span;
    if at.levels == 0 {
        let place = Source { home: None, span };
        return Err(Unfinished::Fault {
            trap: Trap::Deep,
            span,
            place,
        });
    }
    run.enter(span)?;
    let inner = At {
        alloc: at.alloc,
        env: at.env,
        levels: at.levels - 1,
        scope: at.scope,
    };
    node(&inner, exp, run)
}

// A node besides its own 1. Its parts have the levels of `at`.
#[cycle(evaluating)]
#[inline(never)]
fn node<'a>(at: &At<'_, 'a>, exp: &'a Exp, run: &mut Run<'a>) -> Result<Value, Unfinished<'a>>
    ensures { Writes Is (book run.old) result (book run.new)
        (node_of (parts_of at.now) (environment_of at.now) (scope_in at.now) (tree_of exp.now)) }
{
    let span = exp.span;
    match &exp.node {
        Node::Number(value) => Ok(Value::Int(number(*value))),
        Node::Truth(value) => Ok(Value::Bool(*value)),
        Node::Character(value) => Ok(Value::Char(*value)),
        Node::Text(bytes) => run.text(at.alloc, span, bytes.as_slice()),
        Node::Variable(name) => {
            halted(variable(at.env, at.scope.names.as_slice(), name.as_slice()))
        }
        Node::Call { name, argument } => call(at, span, name.as_slice(), argument, run),
        Node::Pair { left, right } => two(at, span, Joined::Pair, left, right, run),
        Node::Prefix { operator, operand } => one(at, span, of_prefix(*operator), operand, run),
        Node::Infix {
            operator,
            left,
            right,
        } => {
            let joined = Joined::Argument(of_infix(*operator));
            two(at, span, joined, left, right, run)
        }
        Node::Index { sequence, index } => {
            let joined = Joined::Argument(Builtin::OfSequences(SeqFn::ElementAt));
            two(at, span, joined, sequence, index, run)
        }
        Node::Choice { test, yes, no } => choice(at, test, yes, no, run),
        Node::Sequence(items) => sequence(at, span, items.as_slice(), run),
        Node::Empty(_) => halted(make_empty(at.alloc)),
        Node::Range { from, to } => {
            let joined = Joined::Argument(Builtin::OfSequences(SeqFn::Range));
            two(at, span, joined, from, to, run)
        }
        Node::StridedRange { from, to, stride } => three(at, span, from, to, stride, run),
        Node::Let { bindings, body } => let_in(at, bindings.as_slice(), body, run),
        Node::Each { body, bindings } => each(at, span, body, bindings.as_slice(), run),
        Node::FilteredEach {
            body,
            bindings,
            filter,
        } => filtered(at, span, body, bindings.as_slice(), filter, run),
        Node::Element => element(at.scope),
    }
}

// A number that a tree holds; one beyond the greatest is taken as the greatest.
fn number(value: u64) -> i64
    ensures { result ≡ denoted value }
{
    if value <= i64::MAX as u64 {
        value as i64
    } else {
        i64::MAX
    }
}

// The element of the innermost apply-to-each.
fn element<'a>(scope: &Scope<'a>) -> Result<Value, Unfinished<'a>>
    ensures { (b : Book) → Writes Is b result b (given (scope_of scope.now).element (λ v. value v free)) }
{
    match &scope.element {
        Some(value) => halted(share(value)),
        None => Err(Unfinished::Stuck),
    }
}

// A built-in function of one part.
#[cycle(evaluating)]
#[inline(never)]
fn one<'a>(
    at: &At<'_, 'a>,
    span: Span,
    function: Builtin,
    operand: &'a Exp,
    run: &mut Run<'a>,
) -> Result<Value, Unfinished<'a>>
    ensures { Writes Is (book run.old) result (book run.new)
        (and_then (parts_of at.now (scope_in at.now) (tree_of operand.now))
        (λ x. charged span (apply_builtin span function x))) }
{
    let value = eval(at, operand, run)?;
    run.apply(at.alloc, span, function, Argument::One(&value))
}

// Two parts, and what becomes of them.
#[cycle(evaluating)]
#[inline(never)]
fn two<'a>(
    at: &At<'_, 'a>,
    span: Span,
    joined: Joined,
    left: &'a Exp,
    right: &'a Exp,
    run: &mut Run<'a>,
) -> Result<Value, Unfinished<'a>>
    ensures { Writes Is (book run.old) result (book run.new)
        (two_parts (parts_of at.now) (scope_in at.now) (tree_of left.now) (tree_of right.now) (joined_by span joined)) }
{
    let first = eval(at, left, run)?;
    let second = eval(at, right, run)?;
    run.join(at.alloc, span, joined, first, second)
}

// A range with a stride.
#[cycle(evaluating)]
#[inline(never)]
fn three<'a>(
    at: &At<'_, 'a>,
    span: Span,
    from: &'a Exp,
    to: &'a Exp,
    stride: &'a Exp,
    run: &mut Run<'a>,
) -> Result<Value, Unfinished<'a>>
    ensures { Writes Is (book run.old) result (book run.new)
        (three_parts (parts_of at.now) (scope_in at.now) (tree_of from.now) (tree_of to.now) (tree_of stride.now)
        (strided span)) }
{
    let first = eval(at, from, run)?;
    let second = eval(at, to, run)?;
    let third = eval(at, stride, run)?;
    let function = Builtin::OfSequences(SeqFn::RangeBy);
    let argument = Argument::Three(&first, &second, &third);
    run.apply(at.alloc, span, function, argument)
}

#[cycle(evaluating)]
#[inline(never)]
fn choice<'a>(
    at: &At<'_, 'a>,
    test: &'a Exp,
    yes: &'a Exp,
    no: &'a Exp,
    run: &mut Run<'a>,
) -> Result<Value, Unfinished<'a>>
    ensures { Writes Is (book run.old) result (book run.new)
        (and_then (parts_of at.now (scope_in at.now) (tree_of test.now))
        (λ x. branch (as_bool x) (parts_of at.now (scope_in at.now) (tree_of yes.now))
        (parts_of at.now (scope_in at.now) (tree_of no.now)))) }
{
    let truth = eval(at, test, run)?;
    let holds = truth_of(truth)?;
    if holds {
        eval(at, yes, run)
    } else {
        eval(at, no, run)
    }
}

#[cycle(evaluating)]
#[inline(never)]
fn sequence<'a>(
    at: &At<'_, 'a>,
    span: Span,
    items: &'a [Exp],
    run: &mut Run<'a>,
) -> Result<Value, Unfinished<'a>>
    ensures { Writes Is (book run.old) result (book run.new)
        (and_then (all_parts (parts_of at.now) (scope_in at.now) (trees_in items.now))
        (λ vs. charged span (small_enough span (values.sequence vs)))) }
{
    let values = part_values(at, items, run)?;
    halted(sequence_of(values, span, at.alloc))
}

// The values of parts, from left to right.
#[cycle(evaluating)]
#[inline(never)]
fn part_values<'a>(
    at: &At<'_, 'a>,
    items: &'a [Exp],
    run: &mut Run<'a>,
) -> Result<Vec<Value>, Unfinished<'a>>
    ensures { Writes AreValues (book run.old) result (book run.new)
        (all_parts (parts_of at.now) (scope_in at.now) (trees_in items.now)) }
{
    let mut found = Vec::new(at.alloc);
    for item in items {
        let value = eval(at, item, run)?;
        hold(&mut found, value)?;
    }
    Ok(found)
}

// The sequences of an apply-to-each, which don't see its names.
#[cycle(evaluating)]
#[inline(never)]
fn values_drawn<'a>(
    at: &At<'_, 'a>,
    bindings: &'a [Binding],
    run: &mut Run<'a>,
) -> Result<Vec<Value>, Unfinished<'a>>
    ensures { Writes AreValues (book run.old) result (book run.new)
        (all_parts (parts_of at.now) (scope_in at.now) (sources (binders_in bindings.now))) }
{
    let mut found = Vec::new(at.alloc);
    for binding in bindings {
        let value = eval(at, &binding.value, run)?;
        hold(&mut found, value)?;
    }
    Ok(found)
}

// A `let`: each binding sees the names before it, and the body all of them.
#[cycle(evaluating)]
#[inline(never)]
fn let_in<'a>(
    at: &At<'_, 'a>,
    bindings: &'a [Binding],
    body: &'a Exp,
    run: &mut Run<'a>,
) -> Result<Value, Unfinished<'a>>
    ensures { Writes Is (book run.old) result (book run.new)
        (let_of (parts_of at.now) (binders_in bindings.now) (tree_of body.now) (scope_in at.now)) }
{
    let mut scope = copied(at.alloc, at.scope)?;
    for binding in bindings {
        let value = eval_in(at, &scope, &binding.value, run)?;
        bind(&mut scope.names, &binding.pattern, &value)?;
    }
    eval_in(at, &scope, body, run)
}

// An expression that sees other local names.
#[cycle(evaluating)]
#[inline(never)]
fn eval_in<'a>(
    at: &At<'_, 'a>,
    scope: &Scope<'a>,
    exp: &'a Exp,
    run: &mut Run<'a>,
) -> Result<Value, Unfinished<'a>>
    ensures { Writes Is (book run.old) result (book run.new)
        (parts_of at.now (scope_of scope.now) (tree_of exp.now)) }
{
    let inner = At {
        alloc: at.alloc,
        env: at.env,
        levels: at.levels,
        scope,
    };
    eval(&inner, exp, run)
}

// A name before `(` and its argument.
#[cycle(evaluating)]
#[inline(never)]
fn call<'a>(
    at: &At<'_, 'a>,
    span: Span,
    name: &'a [u8],
    argument: &'a Exp,
    run: &mut Run<'a>,
) -> Result<Value, Unfinished<'a>>
    ensures { Writes Is (book run.old) result (book run.new)
        (and_then (parts_of at.now (scope_in at.now) (tree_of argument.now))
        (call_name (parts_of at.now) name.now span (builtin_named name.now)
        (look_up (environment_of at.now) name.now))) }
{
    let value = eval(at, argument, run)?;
    if let Some(function) = named(name) {
        return run.apply(at.alloc, span, function, Argument::One(&value));
    }
    match find_callee(at.env, name) {
        Some(Callee::Function(pattern, body)) => {
            let called = Called {
                name,
                span,
                pattern,
                body,
                argument: &value,
            };
            body_of(at, &called, run)
        }
        Some(Callee::Datatype(tag)) => halted(make_record(tag, value, span, at.alloc)),
        None => Err(Unfinished::Stuck),
    }
}

/// A function that is called by a name, at a span, with an argument.
#[derive(Clone, Copy)]
struct Called<'s, 'a> {
    name: &'a [u8],
    span: Span,
    pattern: &'a Pattern,
    body: &'a Exp,
    argument: &'s Value,
}

// The body of a function, which sees its parameter alone.
#[cycle(evaluating)]
#[inline(never)]
fn body_of<'a>(
    at: &At<'_, 'a>,
    called: &Called<'_, 'a>,
    run: &mut Run<'a>,
) -> Result<Value, Unfinished<'a>>
    ensures { Writes Is (book run.old) result (book run.new)
        (at_call called.now.name.now called.now.span (in_bound (parts_of at.now) (pattern_tree called.now.pattern.now)
        (value_tree called.now.argument.now) (outside []) (tree_of called.now.body.now))) }
{
    let scope = parameter(at.alloc, called.pattern, called.argument)?;
    let Called {
        name,
        span,
        body,
        ..
    } = *called;
    run.note(Mark::Called { name, span })?;
    let found = eval_in(at, &scope, body, run);
    run.note(Mark::Returned)?;
    called_at(name, span, found)
}

// An expression at a place of an apply-to-each.
#[cycle(evaluating)]
#[inline(never)]
fn eval_at<'a>(
    at: &At<'_, 'a>,
    drawn: &Drawn<'_, 'a>,
    exp: &'a Exp,
    place: usize,
    run: &mut Run<'a>,
) -> Result<Value, Unfinished<'a>>
    ensures { Writes Is (book run.old) result (book run.new)
        (at_place (parts_of at.now) (binders_in drawn.now.bindings.now) (map value_tree drawn.now.sequences.now)
        (scope_in at.now) (tree_of exp.now) place) }
{
    let scope = scope_at(at.alloc, at.scope, drawn, place)?;
    eval_in(at, &scope, exp, run)
}

// A body at a place, whose value costs its nodes at the apply-to-each.
#[cycle(evaluating)]
#[inline(never)]
fn body_at<'a>(
    at: &At<'_, 'a>,
    drawn: &Drawn<'_, 'a>,
    each: &ToEach<'a>,
    place: usize,
    run: &mut Run<'a>,
) -> Result<Value, Unfinished<'a>>
    ensures { Writes IsOne (book run.old) result (book run.new)
        (and_then (at_place (parts_of at.now) (binders_in drawn.now.bindings.now)
        (map value_tree drawn.now.sequences.now) (scope_in at.now) (tree_of each.now.body.now) place)
        (λ v. charged each.now.span (body_value v))) }
{
    let value = eval_at(at, drawn, each.body, place, run)?;
    run.spend(each.span, value.nodes())?;
    Ok(value)
}

// Whether a filter holds at a place.
#[cycle(evaluating)]
#[inline(never)]
fn holds_at<'a>(
    at: &At<'_, 'a>,
    drawn: &Drawn<'_, 'a>,
    filter: &'a Exp,
    place: usize,
    run: &mut Run<'a>,
) -> Result<bool, Unfinished<'a>>
    ensures { (s : Span) → Writes (IsKeptPlace place) (book run.old) result (book run.new)
        (and_then (at_place (parts_of at.now) (binders_in drawn.now.bindings.now)
        (map value_tree drawn.now.sequences.now) (scope_in at.now) (tree_of filter.now) place)
        (λ v. charged s (place_if_true place v))) }
{
    let truth = eval_at(at, drawn, filter, place, run)?;
    truth_of(truth)
}

/// An apply-to-each: its span and its body.
#[derive(Clone, Copy)]
struct ToEach<'a> {
    span: Span,
    body: &'a Exp,
}

// The places at which a filter holds. Its turns have its span.
#[cycle(evaluating)]
#[inline(never)]
fn places_kept<'a>(
    at: &At<'_, 'a>,
    drawn: &Drawn<'_, 'a>,
    filter: &'a Exp,
    len: usize,
    run: &mut Run<'a>,
) -> Result<Vec<usize>, Unfinished<'a>>
    ensures { (s : Span) → Writes ArePlaces (book run.old) result (book run.new)
        (kept_places (parts_of at.now) s (binders_in drawn.now.bindings.now) (map value_tree drawn.now.sequences.now)
        (scope_in at.now) (tree_of filter.now) (range_with_len 0 len)) }
{
    let places = Places::All(len);
    let mut kept = Vec::new(at.alloc);
    for turn in 0..places.len() {
        let place = places.at(turn);
        run.note(Mark::Turn {
            span: filter.span,
            place: place as u64,
        })?;
        let found = holds_at(at, drawn, filter, place, run);
        run.note(Mark::Others)?;
        match found {
            Ok(holds) => hold_if(&mut kept, place, holds)?,
            Err(halt) => {
                run.close(turn + 1)?;
                return Err(halt);
            }
        }
    }
    run.close(places.len())?;
    Ok(kept)
}

// The values of a body at places, as a sequence.
#[cycle(evaluating)]
#[inline(never)]
fn bodies<'a>(
    at: &At<'_, 'a>,
    drawn: &Drawn<'_, 'a>,
    each: &ToEach<'a>,
    places: Places<'_>,
    run: &mut Run<'a>,
) -> Result<Value, Unfinished<'a>>
    ensures { Writes Is (book run.old) result (book run.new)
        (body_values (parts_of at.now) each.now.span (binders_in drawn.now.bindings.now)
        (map value_tree drawn.now.sequences.now) (scope_in at.now) (tree_of each.now.body.now)
        (places_of places.entry)) }
{
    let mut made = SequenceBuilder::with_room(at.alloc, places.len());
    for turn in 0..places.len() {
        let place = places.at(turn);
        run.note(Mark::Turn {
            span: each.span,
            place: place as u64,
        })?;
        let found = body_at(at, drawn, each, place, run);
        run.note(Mark::Others)?;
        match found {
            Ok(value) => hold_element(&mut made, value)?,
            Err(halt) => {
                run.close(turn + 1)?;
                return Err(halt);
            }
        }
    }
    run.close(places.len())?;
    finished(made)
}

// An apply-to-each.
#[cycle(evaluating)]
#[inline(never)]
fn each<'a>(
    at: &At<'_, 'a>,
    span: Span,
    body: &'a Exp,
    bindings: &'a [Binding],
    run: &mut Run<'a>,
) -> Result<Value, Unfinished<'a>>
    ensures { Writes Is (book run.old) result (book run.new)
        (over_places (parts_of at.now) span (binders_in bindings.now) (scope_in at.now)
        (λ vs is. body_values (parts_of at.now) span (binders_in bindings.now) vs (scope_in at.now) (tree_of body.now)
        is)) }
{
    let values = values_drawn(at, bindings, run)?;
    let sequences = values.as_slice();
    let len = common_len(sequences, span)?;
    let drawn = Drawn {
        bindings,
        sequences,
    };
    bodies(at, &drawn, &ToEach { span, body }, Places::All(len), run)
}

// An apply-to-each with a filter.
#[cycle(evaluating)]
#[inline(never)]
fn filtered<'a>(
    at: &At<'_, 'a>,
    span: Span,
    body: &'a Exp,
    bindings: &'a [Binding],
    filter: &'a Exp,
    run: &mut Run<'a>,
) -> Result<Value, Unfinished<'a>>
    ensures { Writes Is (book run.old) result (book run.new)
        (over_places (parts_of at.now) span (binders_in bindings.now) (scope_in at.now)
        (λ vs is. and_then (kept_places (parts_of at.now) span (binders_in bindings.now) vs (scope_in at.now)
        (tree_of filter.now) is)
        (body_values (parts_of at.now) span (binders_in bindings.now) vs (scope_in at.now) (tree_of body.now)))) }
{
    let values = values_drawn(at, bindings, run)?;
    let sequences = values.as_slice();
    let len = common_len(sequences, span)?;
    let drawn = Drawn {
        bindings,
        sequences,
    };
    let kept = places_kept(at, &drawn, filter, len, run)?;
    bodies(
        at,
        &drawn,
        &ToEach { span, body },
        Places::These(kept.as_slice()),
        run,
    )
}
