//! What each node does with what its parts come to. No recursion here.
ghost use Rattle.std.specs.Prelude.{◌≡◌, List, ◌==◌, ◌+◌, ◌≤◌, ◌∷◌, ◌++◌, [], ℕ, Some, IfOk};
ghost use Rattle.std.specs.Prelude.{MatchResult, cond, map, length, ◌↔◌, IsTrue};
ghost use Rattle.std.specs.List.{range_with_len, list_all};
ghost use Rattle.nesl_values.specs.Tree.{sequence, tagged, pair, character};
ghost use Rattle.nesl_values.specs.Parts.{as_bool};
ghost use Rattle.nesl_values.specs.View.{tree_of};
ghost use Rattle.nesl_values_builder.specs.Elements.{elements_of};
ghost use Rattle.nesl_scalars.specs.Scalars.{unary, binary};
ghost use Rattle.nesl_seqs_base.specs.Lent.{argument_tree};
ghost use Rattle.nesl_seqs_base.specs.Meaning.{outcome_of};
ghost use Rattle.nesl_builtins.specs.Named.{look_up};
ghost use Rattle.nesl_eval_meaning.specs.Out.{value, given};
ghost use Rattle.nesl_eval_meaning.specs.Outcome.{small_enough, apply_builtin, on_scalars, on_sequence, body_value};
ghost use Rattle.nesl_eval_meaning.specs.Outcome.{lengths, common_places};
ghost use Rattle.nesl_eval_code.specs.Run.{run_top, slot_at};
ghost use Rattle.nesl_eval_nodes.specs.declared.meter.Meter.{Meter};
ghost use Rattle.nesl_eval_nodes.specs.Sides.{IsOne};
ghost use Rattle.nesl_eval_nodes.specs.Meets.{Meets, Is};

use crate::held::{Held, Tops};
use crate::meter::{Meter, Stop};
use nesl_builtins::Builtin;
use nesl_lex::token::Span;
use nesl_scalars::{Binary, Trap, Unary};
use nesl_seqs::{Argument, SeqFn, plan};
use nesl_values::Value;
use nesl_values_builder::SequenceBuilder;
use std::alloc::{AllocError, Allocator};
use std::mem;

// How many nodes a value may have that is made of parts.
const LARGE: u64 = 1_048_576;

// The value that was made of parts.
fn within_limit<A: Allocator>(value: Value<A>, span: Span) -> Result<Value<A>, Stop>
    ensures { (m : Meter) → Meets Is m result m (small_enough span (tree_of value)) }
{
    if value.nodes() <= LARGE {
        Ok(value)
    } else {
        Err(Stop::Fault(Trap::Large, span))
    }
}

/// The pair of two values.
pub fn make_pair<A: Allocator>(
    left: Value<A>,
    right: Value<A>,
    span: Span,
    alloc: A,
) -> Result<Value<A>, Stop>
    ensures { (m : Meter) → Meets Is m result m (small_enough span (pair (tree_of left) (tree_of right))) }
{
    match Value::pair(alloc, left, right) {
        Ok(value) => within_limit(value, span),
        Err(_) => Err(Stop::Memory),
    }
}

/// Whether a pair of values with so many nodes is within the limit.
#[inline]
pub fn pair_fits(first: u64, second: u64) -> bool
    ensures { IsTrue result ↔ (first + second + 1 ≤ 1048576) }
{
    first < LARGE && second < LARGE - first
}

/// The value with that tag.
pub fn make_record<A: Allocator>(
    tag: u64,
    inner: Value<A>,
    span: Span,
    alloc: A,
) -> Result<Value<A>, Stop>
    ensures { (m : Meter) → Meets Is m result m (small_enough span (tagged tag (tree_of inner))) }
{
    match Value::tagged(alloc, tag, inner) {
        Ok(value) => within_limit(value, span),
        Err(_) => Err(Stop::Memory),
    }
}

/// The value of a text, whose characters cost.
pub fn make_text<A: Allocator + Copy>(
    bytes: &[u8],
    meter: &mut Meter,
    alloc: A,
) -> Result<Value<A>, Stop>
    ensures meets { Meets Is meter.old result meter.new
        (value (sequence (map character bytes.now)) (length bytes.now) 0) }
    ensures spent { meter.new.fuel ≤ meter.old.fuel }
    ensures depth { meter.new.depth ≡ meter.old.depth }
{
    meter.charge(bytes.len() as u64)?;
    match Vec::from_slice(alloc, bytes) {
        Ok(chars) => match Value::chars(alloc, chars) {
            Ok(value) => Ok(value),
            Err(_) => Err(Stop::Memory),
        },
        Err(_) => Err(Stop::Memory),
    }
}

/// Another owner of the same value.
#[inline]
pub fn share<A: Allocator>(value: &Value<A>) -> Result<Value<A>, Stop>
    ensures { MatchResult result (λ v. tree_of v ≡ tree_of value.now) (λ e. e ≡ Stop.Memory) }
{
    match value {
        Value::Int(n) => Ok(Value::Int(*n)),
        Value::Bool(b) => Ok(Value::Bool(*b)),
        Value::Char(c) => Ok(Value::Char(*c)),
        Value::Shared(_) => match value.share() {
            Ok(owner) => Ok(owner),
            Err(_) => Err(Stop::Memory),
        },
    }
}

/// The value of a top-level variable.
pub fn find_top<A: Allocator, T: Tops<A>>(tops: &T, place: usize) -> Result<Value<A>, Stop>
    ensures { (m : Meter) → Meets Is m result m (run_top (slot_at (T.table tops.now) place)) }
{
    match tops.held(place) {
        Ok(Held::Variable(value)) => share(value),
        Ok(_) => Err(Stop::Stuck),
        Err(_) => Err(Stop::Memory),
    }
}

/// The value of a top-level variable that had no place when the code was prepared.
pub fn named_top<A: Allocator, T: Tops<A>>(tops: &T, name: &[u8]) -> Result<Value<A>, Stop>
    ensures { (m : Meter) → Meets Is m result m (run_top (look_up (T.table tops.now) name.now)) }
{
    match tops.place_of(name) {
        Some(place) => find_top(tops, place),
        None => Err(Stop::Stuck),
    }
}

/// The sequence of no elements.
pub fn make_empty<A: Allocator + Copy>(alloc: A) -> Result<Value<A>, Stop>
    ensures { (m : Meter) → Meets Is m result m (value (sequence []) 0 0) }
{
    match Value::empty(alloc) {
        Ok(value) => Ok(value),
        Err(_) => Err(Stop::Memory),
    }
}

/// A truth value.
#[inline]
pub fn read_truth<A: Allocator>(value: Value<A>) -> Result<bool, Stop>
    ensures { MatchResult result (λ b. as_bool (tree_of value) ≡ Some b) (λ e. (e ≡ Stop.Stuck)
        × (as_bool (tree_of value) ≡ None)) }
{
    match value.as_bool() {
        Some(b) => {
            mem::forget(value);
            Ok(b)
        }
        None => Err(Stop::Stuck),
    }
}

/// A function of two scalars.
#[inline(always)]
fn apply_binary<A: Allocator>(
    function: Binary,
    left: &Value<A>,
    right: &Value<A>,
    span: Span,
) -> Result<Value<A>, Stop>
    ensures { (m : Meter) → Meets Is m result m
        (on_scalars span (binary function (tree_of left.now) (tree_of right.now))) }
{
    match function.apply(left, right) {
        Ok(value) => Ok(value),
        Err(trap) => Err(Stop::Fault(trap, span)),
    }
}

/// A function of two scalars, which are leaves and hold nothing.
#[inline(always)]
pub fn apply_to_leaves<A: Allocator>(
    function: Binary,
    left: Value<A>,
    right: Value<A>,
    span: Span,
) -> Result<Value<A>, Stop>
    ensures { (m : Meter) → Meets Is m result m
        (on_scalars span (binary function (tree_of left) (tree_of right))) }
{
    let found = apply_binary(function, &left, &right, span);
    let_go(left);
    let_go(right);
    found
}

// Drops a value. A leaf holds nothing.
#[inline]
fn let_go<A: Allocator>(value: Value<A>) {
    match &value {
        Value::Shared(_) => {}
        _ => mem::forget(value),
    }
}

/// A function of one scalar.
fn apply_unary<A: Allocator>(
    function: Unary,
    argument: &Value<A>,
    span: Span,
) -> Result<Value<A>, Stop>
    ensures { (m : Meter) → Meets Is m result m
        (on_scalars span (unary function (tree_of argument.now))) }
{
    match function.apply(argument) {
        Ok(value) => Ok(value),
        Err(trap) => Err(Stop::Fault(trap, span)),
    }
}

/// A function on sequences, priced before it is built.
#[inline(never)]
#[tactic(auto, using(crate::proofs::Planned::plans))]
fn on_sequences<A: Allocator + Copy>(
    function: SeqFn,
    argument: Argument<'_, A>,
    span: Span,
    meter: &mut Meter,
    alloc: A,
) -> Result<Value<A>, Stop>
    ensures meets { Meets Is meter.old result meter.new (on_sequence span function
        (argument_tree argument.entry) (outcome_of function (argument_tree argument.entry))) }
    ensures spent { meter.new.fuel + meter.new.depth ≤ meter.old.fuel + meter.old.depth }
{
    let plan = match plan(function, argument) {
        Ok(plan) => plan,
        Err(trap) => return Err(Stop::Fault(trap, span)),
    };
    let Some(price) = plan.price(meter.fuel() as u128 + 1) else {
        return Err(Stop::Over);
    };
    let work = (price.work - 1) as u64;
    meter.charge_deep(work, price.depth - 1)?;
    match plan.build(alloc) {
        Ok(value) => Ok(value),
        Err(_) => Err(Stop::Memory),
    }
}

/// A built-in function.
pub fn apply_builtin<A: Allocator + Copy>(
    function: Builtin,
    argument: Argument<'_, A>,
    span: Span,
    meter: &mut Meter,
    alloc: A,
) -> Result<Value<A>, Stop>
    ensures meets { Meets Is meter.old result meter.new (apply_builtin span function (argument_tree argument.entry)) }
    ensures spent { meter.new.fuel + meter.new.depth ≤ meter.old.fuel + meter.old.depth }
{
    match function {
        Builtin::OfOne(function) => match argument {
            Argument::One(value) => apply_unary(function, value, span),
            Argument::Two(_, _) | Argument::Three(_, _, _) => Err(Stop::Stuck),
        },
        Builtin::OfTwo(function) => match argument {
            Argument::Two(left, right) => apply_binary(function, left, right, span),
            Argument::One(value) => match value.as_pair() {
                Some((left, right)) => apply_binary(function, left, right, span),
                None => Err(Stop::Stuck),
            },
            Argument::Three(_, _, _) => Err(Stop::Stuck),
        },
        Builtin::OfSequences(function) => on_sequences(function, argument, span, meter, alloc),
    }
}

/// The length of sequences of one length.
pub fn length_of_all<A: Allocator>(values: &[Value<A>], span: Span) -> Result<usize, Stop>
    ensures { (m : Meter) → Meets (λ n is. range_with_len 0 n ≡ is) m result m
        (given (lengths (map tree_of values.now)) (common_places span)) }
{
    let Some((first, others)) = values.split_first() else {
        return Err(Stop::Stuck);
    };
    let Some(len) = first.sequence_len() else {
        return Err(Stop::Stuck);
    };
    match have_length(others, len) {
        Some(true) => Ok(len),
        Some(false) => Err(Stop::Fault(Trap::Length, span)),
        None => Err(Stop::Stuck),
    }
}

// Whether all sequences have that length.
fn have_length<A: Allocator>(values: &[Value<A>], len: usize) -> Option<bool>
    ensures { (ns : List ℕ) → lengths (map tree_of values.now) ≡ Some ns
        → result ≡ Some (list_all (λ n. n == len) ns) }
{
    let Some((first, others)) = values.split_first() else {
        return Some(true);
    };
    if first.sequence_len()? == len {
        have_length(others, len)
    } else {
        Some(false)
    }
}

/// The sequence of values.
pub fn sequence_of<A: Allocator + Copy>(
    values: Vec<Value<A>, A>,
    span: Span,
    alloc: A,
) -> Result<Value<A>, Stop>
    ensures { (m : Meter) → Meets Is m result m (small_enough span (sequence (map tree_of values.items))) }
{
    match packed(values, alloc) {
        Ok(value) => within_limit(value, span),
        Err(_) => Err(Stop::Memory),
    }
}

// The values, packed if they are leaves of one kind. Where the first has parts, they stand as they are.
fn packed<A: Allocator + Copy>(values: Vec<Value<A>, A>, alloc: A) -> Result<Value<A>, AllocError>
    ensures { IfOk result (λ v. tree_of v ≡ sequence (map tree_of values.items)) }
{
    match values.first() {
        Some(Value::Shared(_)) => Value::sequence(alloc, values),
        _ => pushed_one_by_one(values, alloc),
    }
}

fn pushed_one_by_one<A: Allocator + Copy>(
    values: Vec<Value<A>, A>,
    alloc: A,
) -> Result<Value<A>, AllocError>
    ensures { IfOk result (λ v. tree_of v ≡ sequence (map tree_of values.items)) }
{
    let mut made = SequenceBuilder::with_room(alloc, values.len());
    for value in values {
        made.push(value)?;
    }
    made.finish()
}

/// The value of a body, which costs its nodes.
#[inline(always)]
pub fn pay<A: Allocator>(value: Value<A>, meter: &mut Meter) -> Result<Value<A>, Stop>
    ensures meets { Meets IsOne meter.old result meter.new (body_value (tree_of value)) }
    ensures spent { meter.new.fuel ≤ meter.old.fuel }
    ensures depth { meter.new.depth ≡ meter.old.depth }
{
    meter.charge(value.nodes())?;
    Ok(value)
}

/// The sequence that was made.
pub fn finish<A: Allocator + Copy>(builder: SequenceBuilder<A>) -> Result<Value<A>, Stop>
    ensures { MatchResult result (λ v. tree_of v ≡ sequence (elements_of builder)) (λ e. e ≡ Stop.Memory) }
{
    match builder.finish() {
        Ok(value) => Ok(value),
        Err(_) => Err(Stop::Memory),
    }
}

/// One more value of a body.
#[inline(always)]
pub fn add<A: Allocator + Copy>(
    builder: &mut SequenceBuilder<A>,
    value: Value<A>,
) -> Result<(), Stop>
    ensures { MatchResult result
        (λ _. elements_of builder.new ≡ elements_of builder.old ++ tree_of value ∷ []) (λ e. e ≡ Stop.Memory) }
{
    match builder.push(value) {
        Ok(()) => Ok(()),
        Err(_) => Err(Stop::Memory),
    }
}

/// The place, if the filter holds there.
pub fn keep_if<A: Allocator>(
    kept: &mut Vec<usize, A>,
    place: usize,
    holds: bool,
) -> Result<(), Stop>
    ensures { MatchResult result
        (λ _. kept.new.items ≡ kept.old.items ++ cond holds (place ∷ []) []) (λ e. e ≡ Stop.Memory) }
{
    if !holds {
        return Ok(());
    }
    match kept.push(place) {
        Ok(()) => Ok(()),
        Err(_) => Err(Stop::Memory),
    }
}

/// One more value.
pub fn keep<A: Allocator>(values: &mut Vec<Value<A>, A>, value: Value<A>) -> Result<(), Stop>
    ensures { MatchResult result
        (λ _. values.new.items ≡ values.old.items ++ value ∷ []) (λ e. e ≡ Stop.Memory) }
{
    match values.push(value) {
        Ok(()) => Ok(()),
        Err(_) => Err(Stop::Memory),
    }
}
