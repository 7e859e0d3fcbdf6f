//! What operations make of the values that they take.
ghost use Rattle.std.specs.Prelude.{◌≡◌, ◌+◌, ◌≤◌, [], ◌∷◌, map, IfSome};
ghost use Rattle.nesl_values.specs.Tree.{pair, int};
ghost use Rattle.nesl_values.specs.View.{tree_of};
ghost use Rattle.nesl_scalars.specs.Outcomes.{gives};
ghost use Rattle.nesl_scalars.specs.Scalars.{binary};
ghost use Rattle.nesl_eval_meaning.specs.Outcome.{apply_builtin, small_enough, on_scalars};
ghost use Rattle.nesl_eval_code.specs.Exec.{made_of};
ghost use Rattle.nesl_eval_ops.specs.View.{two_is, many_is};
ghost use Rattle.nesl_eval_nodes.specs.declared.meter.Meter.{Meter};
ghost use Rattle.nesl_eval_nodes.specs.Meets.{Meets, Is};

use nesl_builtins::Builtin;
use nesl_eval_nodes::meter::{Meter, Stop};
use nesl_eval_nodes::nodes::{apply_builtin, apply_to_leaves, make_pair, pair_fits, sequence_of};
use nesl_eval_ops::{Many, OneNode, Two, TwoNode};
use nesl_lex::token::Span;
use nesl_scalars::{Binary, Trap};
use nesl_seqs::Argument;
use nesl_values::Value;
use std::alloc::Allocator;
use std::mem;

// Two values mean a pair, which is not built, only where it has at most 1,048,576 nodes.
#[inline(always)]
fn fit_in_pair<A: Allocator>(left: &Value<A>, right: &Value<A>, span: Span) -> Result<(), Stop>
    ensures { let z = pair (tree_of left.now) (tree_of right.now) in
        (m : Meter) → Meets (λ _ x. x ≡ z) m result m (small_enough span z) }
{
    if pair_fits(left.nodes(), right.nodes()) {
        Ok(())
    } else {
        Err(Stop::Fault(Trap::Large, span))
    }
}

/// A built-in function of a value.
#[inline(always)]
pub fn apply_to_value<A: Allocator + Copy>(
    node: OneNode,
    value: Value<A>,
    meter: &mut Meter,
    alloc: A,
) -> Result<Value<A>, Stop>
    ensures meets { Meets Is meter.old result meter.new
        (apply_builtin node.span node.function (tree_of value)) }
    ensures spent { meter.new.fuel + meter.new.depth ≤ meter.old.fuel + meter.old.depth }
{
    apply_builtin(
        node.function,
        Argument::One(&value),
        node.span,
        meter,
        alloc,
    )
}

// What the frequent functions have for two numbers, where it fits.
#[inline(always)]
fn of_numbers<A: Allocator>(function: Binary, a: i64, b: i64) -> Option<Value<A>>
    ensures { IfSome result (λ v. binary function (int a) (int b) ≡ gives (tree_of v)) }
{
    match function {
        Binary::Add => match a.checked_add(b) {
            Some(sum) => Some(Value::Int(sum)),
            None => None,
        },
        Binary::Subtract => match a.checked_sub(b) {
            Some(difference) => Some(Value::Int(difference)),
            None => None,
        },
        Binary::Multiply => match a.checked_mul(b) {
            Some(product) => Some(Value::Int(product)),
            None => None,
        },
        Binary::Equal => Some(Value::Bool(a == b)),
        Binary::Unequal => Some(Value::Bool(a != b)),
        Binary::Less => Some(Value::Bool(a < b)),
        Binary::Greater => Some(Value::Bool(b < a)),
        Binary::AtMost => Some(Value::Bool(a <= b)),
        Binary::AtLeast => Some(Value::Bool(b <= a)),
        _ => None,
    }
}

// What they have for two values, if these are numbers and it fits.
#[inline(always)]
fn of_two_numbers<A: Allocator>(
    function: Binary,
    left: &Value<A>,
    right: &Value<A>,
) -> Option<Value<A>>
    ensures { IfSome result (λ v. binary function (tree_of left.now) (tree_of right.now) ≡ gives (tree_of v)) }
{
    match left {
        Value::Int(a) => match right {
            Value::Int(b) => of_numbers(function, *a, *b),
            _ => None,
        },
        _ => None,
    }
}

// A function of two scalars.
#[inline(always)]
fn of_scalars<A: Allocator>(
    function: Binary,
    left: Value<A>,
    right: Value<A>,
    span: Span,
) -> Result<Value<A>, Stop>
    ensures { (m : Meter) → Meets Is m result m (on_scalars span (binary function (tree_of left) (tree_of right))) }
{
    match of_two_numbers(function, &left, &right) {
        Some(value) => {
            mem::forget(left);
            mem::forget(right);
            Ok(value)
        }
        None => scalars_apart(function, left, right, span),
    }
}

// A function of two scalars, by a call that isn't inlined.
#[inline(always)]
fn scalars_apart<A: Allocator>(
    function: Binary,
    left: Value<A>,
    right: Value<A>,
    span: Span,
) -> Result<Value<A>, Stop>
    ensures { (m : Meter) → Meets Is m result m (on_scalars span (binary function (tree_of left) (tree_of right))) }
{
    any_scalars(function, left, right, span)
}

#[inline(never)]
fn any_scalars<A: Allocator>(
    function: Binary,
    left: Value<A>,
    right: Value<A>,
    span: Span,
) -> Result<Value<A>, Stop>
    ensures { (m : Meter) → Meets Is m result m (on_scalars span (binary function (tree_of left) (tree_of right))) }
{
    apply_to_leaves(function, left, right, span)
}

// A built-in function of two values, which mean a pair.
#[inline(always)]
fn apply_to_both<A: Allocator + Copy>(
    function: Builtin,
    left: Value<A>,
    right: Value<A>,
    span: Span,
    meter: &mut Meter,
    alloc: A,
) -> Result<Value<A>, Stop>
    ensures meets { Meets Is meter.old result meter.new
        (apply_builtin span function (pair (tree_of left) (tree_of right))) }
    ensures spent { meter.new.fuel + meter.new.depth ≤ meter.old.fuel + meter.old.depth }
{
    match function {
        Builtin::OfTwo(function) => of_scalars(function, left, right, span),
        _ => both_apart(function, left, right, span, meter, alloc),
    }
}

// A function that is not frequent, by a call that isn't inlined.
#[inline(always)]
fn both_apart<A: Allocator + Copy>(
    function: Builtin,
    left: Value<A>,
    right: Value<A>,
    span: Span,
    meter: &mut Meter,
    alloc: A,
) -> Result<Value<A>, Stop>
    ensures meets { Meets Is meter.old result meter.new
        (apply_builtin span function (pair (tree_of left) (tree_of right))) }
    ensures spent { meter.new.fuel + meter.new.depth ≤ meter.old.fuel + meter.old.depth }
{
    any_of_both(function, left, right, span, meter, alloc)
}

#[inline(never)]
fn any_of_both<A: Allocator + Copy>(
    function: Builtin,
    left: Value<A>,
    right: Value<A>,
    span: Span,
    meter: &mut Meter,
    alloc: A,
) -> Result<Value<A>, Stop>
    ensures meets { Meets Is meter.old result meter.new
        (apply_builtin span function (pair (tree_of left) (tree_of right))) }
    ensures spent { meter.new.fuel + meter.new.depth ≤ meter.old.fuel + meter.old.depth }
{
    apply_builtin(function, Argument::Two(&left, &right), span, meter, alloc)
}

/// What a node makes of two values.
#[inline(always)]
pub fn make_of_two<A: Allocator + Copy>(
    node: &TwoNode,
    left: Value<A>,
    right: Value<A>,
    meter: &mut Meter,
    alloc: A,
) -> Result<Value<A>, Stop>
    ensures meets { Meets Is meter.old result meter.new
        (made_of node.now.span (two_is node.now.two) (tree_of left ∷ tree_of right ∷ [])) }
    ensures spent { meter.new.fuel + meter.new.depth ≤ meter.old.fuel + meter.old.depth }
{
    match &node.two {
        Two::Of(function) => apply_to_both(*function, left, right, node.span.whole(), meter, alloc),
        _ => make_apart(node, left, right, meter, alloc),
    }
}

// What a node makes of two values, by a call that isn't inlined.
#[inline(always)]
fn make_apart<A: Allocator + Copy>(
    node: &TwoNode,
    left: Value<A>,
    right: Value<A>,
    meter: &mut Meter,
    alloc: A,
) -> Result<Value<A>, Stop>
    ensures meets { Meets Is meter.old result meter.new
        (made_of node.now.span (two_is node.now.two) (tree_of left ∷ tree_of right ∷ [])) }
    ensures spent { meter.new.fuel + meter.new.depth ≤ meter.old.fuel + meter.old.depth }
{
    make_any_of_two(node, left, right, meter, alloc)
}

// What any node makes of two values.
#[inline(never)]
fn make_any_of_two<A: Allocator + Copy>(
    node: &TwoNode,
    left: Value<A>,
    right: Value<A>,
    meter: &mut Meter,
    alloc: A,
) -> Result<Value<A>, Stop>
    ensures meets { Meets Is meter.old result meter.new
        (made_of node.now.span (two_is node.now.two) (tree_of left ∷ tree_of right ∷ [])) }
    ensures spent { meter.new.fuel + meter.new.depth ≤ meter.old.fuel + meter.old.depth }
{
    match &node.two {
        Two::Of(function) => apply_to_both(*function, left, right, node.span.whole(), meter, alloc),
        Two::OfPair(function, within) => {
            fit_in_pair(&left, &right, within.whole())?;
            apply_to_both(*function, left, right, node.span.whole(), meter, alloc)
        }
        Two::Pair => make_pair(left, right, node.span.whole(), alloc),
    }
}

// A built-in function of three values, which mean a pair with a pair in it.
fn apply_to_three<A: Allocator + Copy>(
    function: Builtin,
    values: &[Value<A>],
    span: Span,
    meter: &mut Meter,
    alloc: A,
) -> Result<Value<A>, Stop>
    ensures meets { Meets Is meter.old result meter.new
        (made_of span (many_is (Many.OfThree function)) (map tree_of values.now)) }
    ensures spent { meter.new.fuel + meter.new.depth ≤ meter.old.fuel + meter.old.depth }
{
    let Some((first, others)) = values.split_first() else {
        return Err(Stop::Stuck);
    };
    let Some((second, others)) = others.split_first() else {
        return Err(Stop::Stuck);
    };
    let Some((third, others)) = others.split_first() else {
        return Err(Stop::Stuck);
    };
    if !others.is_empty() {
        return Err(Stop::Stuck);
    }
    apply_builtin(
        function,
        Argument::Three(first, second, third),
        span,
        meter,
        alloc,
    )
}

/// What a node makes of any number of values.
pub fn make_of_many<A: Allocator + Copy>(
    many: Many,
    values: Vec<Value<A>, A>,
    span: Span,
    meter: &mut Meter,
    alloc: A,
) -> Result<Value<A>, Stop>
    ensures meets { Meets Is meter.old result meter.new (made_of span (many_is many) (map tree_of values.items)) }
    ensures spent { meter.new.fuel + meter.new.depth ≤ meter.old.fuel + meter.old.depth }
{
    match many {
        Many::OfThree(function) => apply_to_three(function, &values, span, meter, alloc),
        Many::Sequence => sequence_of(values, span, alloc),
    }
}
