//! Values at hand.
ghost use Rattle.std.specs.Prelude.{◌≡◌, ◌-◌, ◌∷◌, ◌++◌, [], MatchResult, Some, None, take, vec_len};
ghost use Rattle.nesl_values.specs.Parts.{as_bool};
ghost use Rattle.nesl_values.specs.View.{tree_of};
ghost use Rattle.nesl_eval_code.specs.Run.{Table};
ghost use Rattle.nesl_eval_code.specs.Exec.{exec};
ghost use Rattle.nesl_eval_ops.specs.View.{block_of};
ghost use Rattle.nesl_eval_machine.specs.State.{Fits, env_of, local_of, left_with};
ghost use Rattle.nesl_eval_machine.specs.Steps.{Steps, empty_handed, in_hand};

use crate::state::{Hand, Machine};
use nesl_eval_nodes::meter::Stop;
use nesl_eval_nodes::nodes;
use nesl_eval_ops::Ops;
use nesl_values::Value;
use std::alloc::Allocator;
use std::mem;

/// After a step that leaves nothing at hand.
#[inline(always)]
pub(crate) fn empty_handed<'a, A: Allocator>(done: Result<(), Stop>) -> Result<Hand<'a, A>, Stop>
    ensures { result ≡ empty_handed done }
{
    match done {
        Ok(()) => Ok(Hand::Empty),
        Err(stop) => Err(stop),
    }
}

/// A value that was found is at hand before what is next.
#[inline(always)]
pub(crate) fn in_hand<'a, A: Allocator>(
    found: Result<Value<A>, Stop>,
    next: &'a Ops,
) -> Result<Hand<'a, A>, Stop>
    ensures { result ≡ in_hand found next.entry }
{
    match found {
        Ok(value) => Ok(Hand::Holds(value, next)),
        Err(stop) => Err(stop),
    }
}

/// Puts one more value at the end.
#[inline(always)]
pub(crate) fn push_value<A: Allocator>(
    values: &mut Vec<Value<A>, A>,
    value: Value<A>,
) -> Result<(), Stop>
    ensures { MatchResult result
        (λ _. values.new.items ≡ values.old.items ++ value ∷ []) (λ e. e ≡ Stop.Memory) }
{
    match values.push(value) {
        Ok(()) => Ok(()),
        Err(_) => Err(Stop::Memory),
    }
}

// Drops a value. A leaf holds nothing.
#[inline(always)]
fn let_go<A: Allocator>(value: Value<A>) {
    match &value {
        Value::Shared(_) => {}
        _ => mem::forget(value),
    }
}

/// The truth value that a value is.
#[inline(always)]
pub(crate) fn read_truth<A: Allocator>(value: Value<A>) -> Result<bool, Stop>
    ensures { MatchResult result (λ b. as_bool (tree_of value) ≡ Some b) (λ e. (e ≡ Stop.Stuck)
        × (as_bool (tree_of value) ≡ None)) }
{
    match &value {
        Value::Bool(truth) => {
            let holds = *truth;
            mem::forget(value);
            Ok(holds)
        }
        _ => truth_apart(value),
    }
}

// The truth value of a value that may be none, by a call that isn't inlined.
#[inline(always)]
fn truth_apart<A: Allocator>(value: Value<A>) -> Result<bool, Stop>
    ensures { MatchResult result (λ b. as_bool (tree_of value) ≡ Some b) (λ e. (e ≡ Stop.Stuck)
        × (as_bool (tree_of value) ≡ None)) }
{
    any_truth(value)
}

#[inline(never)]
fn any_truth<A: Allocator>(value: Value<A>) -> Result<bool, Stop>
    ensures { MatchResult result (λ b. as_bool (tree_of value) ≡ Some b) (λ e. (e ≡ Stop.Stuck)
        × (as_bool (tree_of value) ≡ None)) }
{
    nodes::read_truth(value)
}

// Drops the last value.
#[inline(always)]
fn drop_last<A: Allocator>(values: &mut Vec<Value<A>, A>)
    ensures { values.new.items ≡ take (vec_len values.old - 1) values.old.items }
{
    if let Some(value) = values.pop() {
        let_go(value);
    }
}

// Only the first `len` are left, which are most often all but one.
#[inline(always)]
fn cut_last<A: Allocator>(values: &mut Vec<Value<A>, A>, len: usize)
    ensures { values.new.items ≡ take len values.old.items }
{
    if values.len() == 0 || values.len() - 1 != len {
        values.truncate(len);
        return;
    }
    drop_last(values);
}

/// Only the first `len` are left.
#[inline(always)]
pub(crate) fn cut<A: Allocator>(values: &mut Vec<Value<A>, A>, len: usize)
    ensures { values.new.items ≡ take len values.old.items }
{
    if values.len().saturating_sub(len) == 2 {
        drop_last(values);
        cut_last(values, len);
        return;
    }
    cut_last(values, len);
}

impl<'a, A: Allocator + Copy> Machine<'a, A> {
    /// Puts a value that was at hand on the stack, and goes on with what is next.
    #[inline(always)]
    pub(crate) fn set_down(&mut self, value: Value<A>, next: &'a Ops) -> Result<(), Stop>
        ensures steps { (t : Table) → Fits t self.old → let m = self.old in
            Steps t m result self.new (block_of self.new.code.now)
            (left_with t m (exec t m.levels (env_of m) (block_of next.now) (tree_of value ∷ local_of m))) }
        ensures meter { self.new.meter ≡ self.old.meter }
    {
        push_value(&mut self.stack, value)?;
        self.code = next;
        Ok(())
    }
}
