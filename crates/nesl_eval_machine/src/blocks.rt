//! Operations that go into blocks, and local names.
ghost use Rattle.std.specs.Prelude.{◌≡◌, ◌∷◌, ◌++◌, [], MatchResult};
ghost use Rattle.nesl_values.specs.View.{tree_of};
ghost use Rattle.nesl_eval_meaning.specs.Out.{and_then};
ghost use Rattle.nesl_eval_code.specs.Run.{Table};
ghost use Rattle.nesl_eval_code.specs.Block.{choose, last, bind, forget};
ghost use Rattle.nesl_eval_code.specs.Exec.{exec};
ghost use Rattle.nesl_eval_ops.specs.View.{block_of};
ghost use Rattle.nesl_eval_machine.specs.State.{Fits, frames_of, env_of, local_of, left_with, left_at};
ghost use Rattle.nesl_eval_machine.specs.Steps.{Steps, Moves, slots_below};

use crate::hand::{cut, push_value, read_truth};
use crate::state::{Frame, Hand, Machine, Purpose};
use nesl_eval_nodes::meter::Stop;
use nesl_eval_ops::Ops;
use nesl_values::Value;
use std::alloc::Allocator;

// One more frame.
#[inline(always)]
pub(crate) fn keep_frame<'a, A: Allocator>(
    frames: &mut Vec<Frame<'a, A>, A>,
    frame: Frame<'a, A>,
) -> Result<(), Stop>
    ensures { MatchResult result
        (λ _. frames.new.items ≡ frames.old.items ++ frame.entry ∷ []) (λ e. e ≡ Stop.Memory) }
{
    match frames.push(frame) {
        Ok(()) => Ok(()),
        Err(_) => Err(Stop::Memory),
    }
}

impl<'a, A: Allocator + Copy> Machine<'a, A> {
    // Goes into a block, whose value goes on the stack.
    #[inline(always)]
    fn go_into(&mut self, block: &'a Ops, next: &'a Ops) -> Result<(), Stop>
        ensures steps { (t : Table) → Fits t self.old → let m = self.old in
            Steps t m result self.new (block_of self.new.code.now)
            (left_with t m (and_then (exec t m.levels (env_of m) (block_of block.now) [])
            (λ x. exec t m.levels (env_of m) (block_of next.now) (x ∷ local_of m)))) }
        ensures meter { self.new.meter ≡ self.old.meter }
    {
        let frame = Frame {
            next,
            base: self.base,
            len: self.slots.len(),
            height: self.stack.len(),
            levels: self.levels,
            purpose: Purpose::Push,
        };
        keep_frame(&mut self.frames, frame)?;
        self.code = block;
        Ok(())
    }

    /// Goes on with the one or the other, by the value at hand, and then with what is next.
    #[inline(always)]
    pub(crate) fn choose_by(
        &mut self,
        test: Value<A>,
        yes: &'a Ops,
        no: &'a Ops,
        next: &'a Ops,
    ) -> Result<(), Stop>
        ensures steps { (t : Table) → Fits t self.old → let m = self.old in
            Steps t m result self.new (block_of self.new.code.now)
            (left_with t m (exec t m.levels (env_of m)
            (choose (block_of yes.now) (block_of no.now) (block_of next.now)) (tree_of test ∷ local_of m))) }
        ensures meter { self.new.meter ≡ self.old.meter }
    {
        if read_truth(test)? {
            self.go_into(yes, next)
        } else {
            self.go_into(no, next)
        }
    }

    /// Goes on with the one or the other, by the value at hand, where nothing comes after it.
    #[inline(always)]
    pub(crate) fn choose_last_by(
        &mut self,
        test: Value<A>,
        yes: &'a Ops,
        no: &'a Ops,
    ) -> Result<(), Stop>
        ensures steps { (t : Table) → Fits t self.old → let m = self.old in
            Steps t m result self.new (block_of self.new.code.now)
            (left_with t m (exec t m.levels (env_of m)
            (last (block_of yes.now) (block_of no.now)) (tree_of test ∷ local_of m))) }
        ensures meter { self.new.meter ≡ self.old.meter }
    {
        if read_truth(test)? {
            self.code = yes;
            Ok(())
        } else {
            self.code = no;
            Ok(())
        }
    }

    /// The value at hand is that of one more local name.
    #[inline(always)]
    pub(crate) fn bind_to(&mut self, value: Value<A>, next: &'a Ops) -> Result<(), Stop>
        ensures steps { (t : Table) → Fits t self.old → let m = self.old in
            Steps t m result self.new (block_of self.new.code.now)
            (left_with t m (exec t m.levels (env_of m) (bind (block_of next.now)) (tree_of value ∷ local_of m))) }
        ensures meter { self.new.meter ≡ self.old.meter }
    {
        push_value(&mut self.slots, value)?;
        self.code = next;
        Ok(())
    }

    // How many slots the frames have.
    #[inline(always)]
    fn kept_slots(&self) -> usize
        ensures { result ≡ slots_below (frames_of self.now) }
    {
        match self.frames.last() {
            Some(frame) => frame.len,
            None => 0,
        }
    }

    /// Only the first `places` local names are left. They are never fewer than the frames have.
    #[inline(always)]
    pub(crate) fn forget(&mut self, places: usize, next: &'a Ops) -> Result<(), Stop>
        ensures steps { (t : Table) → Fits t self.old
            → Steps t self.old result self.new (block_of self.new.code.now)
            (left_at t self.old (forget places (block_of next.now))) }
        ensures meter { self.new.meter ≡ self.old.meter }
    {
        let Some(len) = self.base.checked_add(places) else {
            return Err(Stop::Memory);
        };
        if len < self.kept_slots() {
            return Err(Stop::Memory);
        }
        self.slots.truncate(len);
        self.code = next;
        Ok(())
    }

    /// Only the first `places` local names are left, and the value stays at hand.
    #[inline(always)]
    pub(crate) fn forget_with(
        &mut self,
        value: Value<A>,
        places: usize,
        next: &'a Ops,
    ) -> Result<Hand<'a, A>, Stop>
        ensures moves { (t : Table) → Fits t self.old → let m = self.old in Moves t m result self.new
            (left_with t m (exec t m.levels (env_of m) (forget places (block_of next.now))
            (tree_of value ∷ local_of m))) }
        ensures meter { self.new.meter ≡ self.old.meter }
    {
        let Some(len) = self.base.checked_add(places) else {
            return Err(Stop::Memory);
        };
        if len < self.kept_slots() {
            return Err(Stop::Memory);
        }
        cut(&mut self.slots, len);
        Ok(Hand::Holds(value, next))
    }
}
