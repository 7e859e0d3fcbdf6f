//! Ends of blocks.
ghost use Rattle.std.specs.Prelude.{◌≡◌, ◌+◌, ◌∷◌, ◌++◌, []};
ghost use Rattle.std.specs.declared.vec.Vec.{Vec};
ghost use Rattle.nesl_values.specs.View.{tree_of};
ghost use Rattle.nesl_eval_code.specs.Block.{finish};
ghost use Rattle.nesl_eval_code.specs.Exec.{exec};
ghost use Rattle.nesl_eval_machine.specs.State.{Fits, env_of, local_of, left_with};
ghost use Rattle.nesl_eval_machine.specs.Steps.{Moves};

use crate::hand::{cut, empty_handed};
use crate::rounds::Outer;
use crate::state::{Frame, Hand, Machine, Purpose};
use nesl_eval_nodes::held::Tops;
use nesl_eval_nodes::meter::Stop;
use nesl_values::Value;
use std::alloc::Allocator;

impl<'a, A: Allocator + Copy> Machine<'a, A> {
    /// The end of a block, whose value is at hand.
    #[inline(always)]
    pub(crate) fn finish_with<T: Tops<A>>(
        &mut self,
        tops: &T,
        value: Value<A>,
    ) -> Result<Hand<'a, A>, Stop>
        ensures { let t = T.table tops.now in Fits t self.old → let m = self.old in Moves t m result self.new
            (left_with t m (exec t m.levels (env_of m) finish (tree_of value ∷ local_of m))) }
    {
        match self.frames.pop() {
            Some(frame) => self.resume_with(tops, value, frame),
            None => Ok(Hand::Done(value)),
        }
    }

    // Goes on with the value at hand after its block, with the frame that waited for it.
    #[inline(always)]
    fn resume_with<T: Tops<A>>(
        &mut self,
        tops: &T,
        value: Value<A>,
        frame: Frame<'a, A>,
    ) -> Result<Hand<'a, A>, Stop>
        ensures { let t = T.table tops.now in (before : Vec (Frame A.row.Denot) A.row.Denot)
            → let m = record self.old { frames = before } in
            before.items ≡ self.old.frames.items ++ frame.entry ∷ [] → Fits t m
            → Moves t m result self.new
            (left_with t m (exec t m.levels (env_of m) finish (tree_of value ∷ local_of m))) }
    {
        let Frame {
            next,
            base,
            len,
            height: _,
            levels,
            purpose,
        } = frame;
        match purpose {
            Purpose::Push | Purpose::Return(_) => {
                cut(&mut self.slots, len);
                self.base = base;
                self.levels = levels;
                Ok(Hand::Holds(value, next))
            }
            Purpose::Turn(round) => {
                let outer = Outer {
                    next,
                    base,
                    len,
                    levels,
                };
                empty_handed(self.end_turn(tops, value, outer, round))
            }
        }
    }
}
