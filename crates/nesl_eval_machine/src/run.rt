//! Whole runs.
ghost use Rattle.std.specs.Prelude.{◌≡◌, ℕ, [], ◌∷◌};
ghost use Rattle.nesl_values.specs.View.{tree_of};
ghost use Rattle.nesl_eval_meaning.specs.Out.{stuck};
ghost use Rattle.nesl_eval_code.specs.declared.code.Code.{Code};
ghost use Rattle.nesl_eval_code.specs.Run.{Table, run};
ghost use Rattle.nesl_eval_code.specs.Exec.{Places, exec};
ghost use Rattle.nesl_eval_code.specs.Flat.{block};
ghost use Rattle.nesl_eval_ops.specs.View.{block_of};
ghost use Rattle.nesl_eval_nodes.specs.Meets.{Meets, Is};
ghost use Rattle.nesl_eval_machine.specs.State.{Fits, HasBodies, frames_of, env_of, local_of, left_with, left_at};
ghost use Rattle.nesl_eval_machine.specs.State.{left, left_at_hand};
ghost use Rattle.nesl_eval_machine.specs.Steps.{Steps, Moves, Ends, first_call, placed_stop};

use crate::calls::CallNode;
use crate::hand::empty_handed;
use crate::rounds::EachNode;
use crate::state::{Frame, Hand, Machine, Purpose};
use nesl_eval_nodes::held::Tops;
use nesl_eval_nodes::meter::{Meter, Stop};
use nesl_eval_ops::Ops;
use nesl_lex::token::Span;
use nesl_values::Value;
use std::alloc::Allocator;

// The span of the outermost call, or else this one.
fn outermost<A: Allocator>(frames: &[Frame<'_, A>], span: Span) -> Span
    ensures { result ≡ first_call frames.now span }
{
    for frame in frames {
        if let Purpose::Return(outer) = frame.purpose {
            return outer;
        }
    }
    span
}

impl<'a, A: Allocator + Copy> Machine<'a, A> {
    /// A fault has the span of the outermost call.
    pub fn place_stop(&self, stop: Stop) -> Stop
        ensures { result ≡ placed_stop (frames_of self.now) stop }
    {
        match stop {
            Stop::Fault(trap, span) => Stop::Fault(trap, outermost(&self.frames, span)),
            Stop::Over => Stop::Over,
            Stop::Memory => Stop::Memory,
            Stop::Stuck => Stop::Stuck,
        }
    }

    // The next operation, where nothing is at hand.
    #[inline(always)]
    fn operate<T: Tops<A>>(&mut self, tops: &T) -> Result<Hand<'a, A>, Stop>
        ensures { let t = T.table tops.now in Fits t self.old
            → Moves t self.old result self.new (left t self.old) }
    {
        let code = self.code;
        match code {
            Ops::Push { height, leaf, next } => self.push_leaf(tops, *height, leaf, next.ops()),
            Ops::Enter { height, span, next } => {
                let done = self.enter(*height, *span, next.ops());
                self.after_step(tops, done)
            }
            Ops::OfLeaf { node, leaf, next } => self.of_leaf(tops, *node, leaf, next.ops()),
            Ops::OfLeaves {
                node,
                left,
                right,
                next,
            } => self.of_leaves(tops, node, left, right, next.ops()),
            Ops::OfMany {
                node,
                count,
                leaves,
                next,
            } => self.of_many(tops, *node, *count, leaves, next.ops()),
            Ops::Forget { places, next } => empty_handed(self.forget(*places, next.ops())),
            Ops::Each {
                span,
                count,
                body,
                next,
            } => {
                let node = EachNode {
                    span: *span,
                    count: *count,
                };
                empty_handed(self.each(tops, node, &**body, next.ops()))
            }
            Ops::Filtered {
                span,
                count,
                body,
                filter,
                next,
            } => {
                let node = EachNode {
                    span: *span,
                    count: *count,
                };
                empty_handed(self.filtered(tops, node, &**body, &**filter, next.ops()))
            }
            Ops::Finish => self.take_top(code),
            Ops::OfTop { .. } => self.take_top(code),
            Ops::OfTopAndLeaf { .. } => self.take_top(code),
            Ops::OfTops { .. } => self.take_top(code),
            Ops::Choose { .. } => self.take_top(code),
            Ops::Last { .. } => self.take_top(code),
            Ops::Call { .. } => self.take_top(code),
            Ops::Bind { .. } => self.take_top(code),
        }
    }

    // What is next takes the value at hand.
    #[inline(always)]
    fn take<T: Tops<A>>(
        &mut self,
        tops: &T,
        value: Value<A>,
        code: &'a Ops,
    ) -> Result<Hand<'a, A>, Stop>
        ensures { let t = T.table tops.now in Fits t self.old → let m = self.old in Moves t m result self.new
            (left_with t m (exec t m.levels (env_of m) (block_of code.now) (tree_of value ∷ local_of m))) }
    {
        match code {
            Ops::Finish => self.finish_with(tops, value),
            Ops::Choose { .. }
            | Ops::Last { .. }
            | Ops::Bind { .. }
            | Ops::Enter { .. }
            | Ops::OfLeaves { .. } => {
                let done = self.take_at_step(value, code);
                self.after_step(tops, done)
            }
            Ops::Call {
                height,
                span,
                callee,
                next,
            } => {
                let node = CallNode {
                    height: *height,
                    span: *span,
                };
                self.call_with(tops, value, node, callee, next.ops())
            }
            _ => self.take_apart(tops, value, code),
        }
    }

    // A step that takes the value at hand, or puts it on the stack, and leaves nothing at hand.
    #[inline(always)]
    fn take_at_step(&mut self, value: Value<A>, code: &'a Ops) -> Result<(), Stop>
        ensures steps { (t : Table) → Fits t self.old → let m = self.old in
            Steps t m result self.new (block_of self.new.code.now)
            (left_with t m (exec t m.levels (env_of m) (block_of code.now) (tree_of value ∷ local_of m))) }
        ensures meter { self.new.meter ≡ self.old.meter }
    {
        match code {
            Ops::Choose { yes, no, next } => {
                self.choose_by(value, yes.ops(), no.ops(), next.ops())
            }
            Ops::Last { yes, no } => self.choose_last_by(value, yes.ops(), no.ops()),
            Ops::Bind { next } => self.bind_to(value, next.ops()),
            _ => self.set_down(value, code),
        }
    }

    // What is less frequent, where it is called.
    #[inline(always)]
    fn take_apart<T: Tops<A>>(
        &mut self,
        tops: &T,
        value: Value<A>,
        code: &'a Ops,
    ) -> Result<Hand<'a, A>, Stop>
        ensures { let t = T.table tops.now in Fits t self.old → let m = self.old in Moves t m result self.new
            (left_with t m (exec t m.levels (env_of m) (block_of code.now) (tree_of value ∷ local_of m))) }
    {
        self.take_any(tops, value, code)
    }

    // The less frequent operations, which take the value at hand. Not inlined.
    #[inline(never)]
    fn take_any<T: Tops<A>>(
        &mut self,
        tops: &T,
        value: Value<A>,
        code: &'a Ops,
    ) -> Result<Hand<'a, A>, Stop>
        ensures { let t = T.table tops.now in Fits t self.old → let m = self.old in Moves t m result self.new
            (left_with t m (exec t m.levels (env_of m) (block_of code.now) (tree_of value ∷ local_of m))) }
    {
        match code {
            Ops::OfTop { node, next } => self.of_value(value, *node, next.ops()),
            Ops::OfTopAndLeaf { node, right, next } => {
                self.of_value_and_leaf(tops, value, node, right, next.ops())
            }
            Ops::OfTops { node, next } => self.of_tops(value, node, next.ops()),
            Ops::Forget { places, next } => self.forget_with(value, *places, next.ops()),
            _ => empty_handed(self.set_down(value, code)),
        }
    }

    // The value on top of the stack is at hand before an operation that takes it.
    #[inline(always)]
    fn take_top(&mut self, code: &'a Ops) -> Result<Hand<'a, A>, Stop>
        ensures moves { (t : Table) → ((n : ℕ) (env : Places) → exec t n env (block_of code.now) [] ≡ stuck)
            → Fits t self.old → Moves t self.old result self.new (left_at t self.old (block_of code.now)) }
        ensures meter { self.new.meter ≡ self.old.meter }
    {
        match self.stack.pop() {
            Some(value) => Ok(Hand::Holds(value, code)),
            None => Err(Stop::Stuck),
        }
    }

    /// One move: of what is at hand, or else the next operation.
    #[inline(always)]
    pub fn go_on<T: Tops<A>>(&mut self, tops: &T, hand: Hand<'a, A>) -> Result<Hand<'a, A>, Stop>
        ensures { let t = T.table tops.now in Fits t self.old
            → Moves t self.old result self.new (left_at_hand t self.old hand.entry) }
    {
        match hand {
            Hand::Empty => self.operate(tops),
            Hand::Holds(value, next) => self.take(tops, value, next),
            Hand::Done(value) => Ok(Hand::Done(value)),
        }
    }

    // All that is left. No run makes 2^64 - 1 moves.
    fn run<T: Tops<A>>(&mut self, tops: &T) -> Result<Value<A>, Stop>
        ensures { let t = T.table tops.now in Fits t self.old → Ends self.old result self.new (left t self.old) }
    {
        let mut hand = Hand::Empty;
        for _ in 0..u64::MAX {
            match self.go_on(tops, hand) {
                Ok(Hand::Done(value)) => return Ok(value),
                Ok(next) => hand = next,
                Err(stop) => return Err(self.place_stop(stop)),
            }
        }
        Err(Stop::Memory)
    }
}

/// What the operations of an expression evaluate to with these levels and this fuel, and the meter at the end.
pub fn evaluate_ops<A: Allocator + Copy, T: Tops<A>>(
    tops: &T,
    bodies: &[Option<Ops>],
    ops: &Ops,
    levels: u32,
    fuel: u64,
    alloc: A,
) -> (Result<Value<A>, Stop>, Meter)
    ensures { let t = T.table tops.now in (code : Code) → HasBodies t bodies.now → block_of ops.now ≡ block [] code
        → Meets Is (record { fuel = fuel; depth = 0 }) result.0 result.1 (run levels t [] code) }
{
    let mut machine = Machine {
        bodies,
        code: ops,
        slots: Vec::new(alloc),
        stack: Vec::new(alloc),
        frames: Vec::new(alloc),
        base: 0,
        levels,
        meter: Meter::new(fuel),
        alloc,
    };
    let found = machine.run(tops);
    (found, machine.meter)
}
