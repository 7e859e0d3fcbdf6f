//! Calls of functions, and records.
ghost use Rattle.std.specs.Prelude.{◌≡◌, ◌-◌, [], ◌∷◌, suc, Some, IfSome, slice_get, option_and_then};
ghost use Rattle.nesl_values.specs.Tree.{tagged};
ghost use Rattle.nesl_values.specs.View.{tree_of};
ghost use Rattle.nesl_eval_meaning.specs.Out.{and_then, at_call};
ghost use Rattle.nesl_eval_meaning.specs.Outcome.{small_enough};
ghost use Rattle.nesl_eval_nodes.specs.declared.meter.Meter.{Meter};
ghost use Rattle.nesl_eval_nodes.specs.Meets.{Meets, Is};
ghost use Rattle.nesl_eval_code.specs.declared.code.Code.{Code};
ghost use Rattle.nesl_eval_code.specs.Frames.{frame};
ghost use Rattle.nesl_eval_code.specs.Run.{Table, run, run_called, slot_at, function_slot};
ghost use Rattle.nesl_eval_code.specs.Exec.{exec, slot_of};
ghost use Rattle.nesl_eval_ops.specs.View.{block_of, callee_is};
ghost use Rattle.nesl_eval_machine.specs.State.{Fits, env_of, local_of, left_with};
ghost use Rattle.nesl_eval_machine.specs.Steps.{Steps, Moves};

use crate::blocks::keep_frame;
use crate::hand::{in_hand, push_value};
use crate::state::{Frame, Hand, Machine, Purpose};
use nesl_eval_nodes::held::{Held, Tops};
use nesl_eval_nodes::meter::Stop;
use nesl_eval_nodes::nodes::make_record;
use nesl_eval_ops::{Callee, Ops};
use nesl_lex::token::Span;
use nesl_values::Value;
use std::alloc::Allocator;

/// Where a function is called, or a record is made.
#[derive(Clone, Copy)]
pub(crate) struct CallNode {
    pub height: u32,
    pub span: Span,
}

// The place that is called, if the name has one.
#[inline(always)]
fn place_called<A: Allocator, T: Tops<A>>(tops: &T, callee: &Callee) -> Option<usize>
    ensures { let t = T.table tops.now in option_and_then (slot_at t) result ≡ slot_of t (callee_is callee.now) }
{
    match callee {
        Callee::Placed(place) => Some(*place),
        Callee::Named(name) => tops.place_of(name),
    }
}

// A record. It is not inlined, so that its result takes no room in the loop's stack frame.
#[inline(never)]
fn record_of<A: Allocator>(
    tag: u64,
    inner: Value<A>,
    span: Span,
    alloc: A,
) -> Result<Value<A>, Stop>
    ensures { (m : Meter) → Meets Is m result m (small_enough span (tagged tag (tree_of inner))) }
{
    make_record(tag, inner, span, alloc)
}

// The operations of the body at a place.
#[inline(always)]
fn body_at<'a>(bodies: &'a [Option<Ops>], place: usize) -> Option<&'a Ops>
    ensures { IfSome result (λ o. slice_get bodies.now place ≡ Some (Some o.now)) }
{
    match bodies.get(place) {
        Some(body) => body.as_ref(),
        None => None,
    }
}

impl<'a, A: Allocator + Copy> Machine<'a, A> {
    /// Calls a function with the value at hand, or makes a record of it.
    #[inline(always)]
    pub(crate) fn call_with<T: Tops<A>>(
        &mut self,
        tops: &T,
        argument: Value<A>,
        node: CallNode,
        callee: &Callee,
        next: &'a Ops,
    ) -> Result<Hand<'a, A>, Stop>
        ensures { let t = T.table tops.now in let m = self.old in Fits t m → Moves t m result self.new
            (left_with t m (and_then
            (run_called (run (m.levels - suc node.height) t) node.span (slot_of t (callee_is callee.now))
            (tree_of argument)) (λ v. exec t m.levels (env_of m) (block_of next.now) (v ∷ local_of m)))) }
    {
        match place_called::<A, T>(tops, callee) {
            Some(place) => self.call_at(tops, argument, node, place, next),
            None => Err(Stop::Stuck),
        }
    }

    // Calls the function at a place, or makes a record.
    #[inline(always)]
    fn call_at<T: Tops<A>>(
        &mut self,
        tops: &T,
        argument: Value<A>,
        node: CallNode,
        place: usize,
        next: &'a Ops,
    ) -> Result<Hand<'a, A>, Stop>
        ensures { let t = T.table tops.now in let m = self.old in Fits t m → Moves t m result self.new
            (left_with t m (and_then (run_called (run (m.levels - suc node.height) t) node.span (slot_at t place)
            (tree_of argument)) (λ v. exec t m.levels (env_of m) (block_of next.now) (v ∷ local_of m)))) }
    {
        match tops.held(place) {
            Ok(Held::Function(_)) => {
                let done = self.enter_body(argument, node, place, next);
                self.after_step(tops, done)
            }
            Ok(Held::Datatype(tag)) => in_hand(
                record_of(tag, argument, node.span, self.alloc),
                next,
            ),
            Ok(Held::Variable(_)) => Err(Stop::Stuck),
            Ok(Held::Nothing) => Err(Stop::Stuck),
            Err(_) => Err(Stop::Memory),
        }
    }

    // Goes into the body of a function, whose value goes on the stack.
    #[inline(always)]
    fn enter_body(
        &mut self,
        argument: Value<A>,
        node: CallNode,
        place: usize,
        next: &'a Ops,
    ) -> Result<(), Stop>
        ensures steps { (t : Table) (c : Code) → slot_at t place ≡ Some (function_slot c) → let m = self.old in Fits t m
            → Steps t m result self.new (block_of self.new.code.now)
            (left_with t m (and_then
            (at_call node.span (run (m.levels - suc node.height) t (frame (tree_of argument ∷ []) ∷ []) c))
            (λ v. exec t m.levels (env_of m) (block_of next.now) (v ∷ local_of m)))) }
        ensures meter { self.new.meter ≡ self.old.meter }
    {
        let Some(body) = body_at(self.bodies, place) else {
            return Err(Stop::Memory);
        };
        let len = self.slots.len();
        let frame = Frame {
            next,
            base: self.base,
            len,
            height: self.stack.len(),
            levels: self.levels,
            purpose: Purpose::Return(node.span),
        };
        keep_frame(&mut self.frames, frame)?;
        push_value(&mut self.slots, argument)?;
        self.base = len;
        self.levels = self.levels.saturating_sub(node.height).saturating_sub(1);
        self.code = body;
        Ok(())
    }
}
