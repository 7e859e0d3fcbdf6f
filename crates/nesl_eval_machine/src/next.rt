//! What is next is done in the same move as the step before it, where it is frequent: the loop of a run goes round less
//! often.
ghost use Rattle.std.specs.Prelude.{◌∷◌};
ghost use Rattle.nesl_values.specs.Tree.{ValueTree};
ghost use Rattle.nesl_values.specs.View.{tree_of};
ghost use Rattle.nesl_eval_code.specs.Exec.{exec};
ghost use Rattle.nesl_eval_machine.specs.declared.state.Machine as declared;
ghost use Rattle.nesl_eval_meaning.specs.Out.{Out};
ghost use Rattle.nesl_eval_ops.specs.View.{block_of};
ghost use Rattle.nesl_eval_machine.specs.State.{Fits, left, left_with, env_of, local_of};
ghost use Rattle.nesl_eval_machine.specs.Steps.{Steps, Moves};

use crate::state::{Hand, Machine};
use nesl_eval_nodes::held::Tops;
use nesl_eval_nodes::meter::Stop;
use nesl_eval_ops::Ops;
use nesl_values::Value;
use std::alloc::Allocator;

impl<'a, A: Allocator + Copy> Machine<'a, A> {
    // A node of two leaves, if one is next.
    #[inline(always)]
    fn go_on_at_leaves<T: Tops<A>>(&mut self, tops: &T) -> Result<Hand<'a, A>, Stop>
        ensures { let t = T.table tops.now in Fits t self.old
            → Moves t self.old result self.new (left t self.old) }
    {
        let code = self.code;
        match code {
            Ops::OfLeaves {
                node,
                left,
                right,
                next,
            } => self.of_leaves(tops, node, left, right, next.ops()),
            _ => Ok(Hand::Empty),
        }
    }

    /// Enters a node, if one is next that has parts, and goes on with a node of two leaves, if one is next then.
    #[inline(always)]
    pub(crate) fn go_on_at_once<T: Tops<A>>(&mut self, tops: &T) -> Result<Hand<'a, A>, Stop>
        ensures { let t = T.table tops.now in Fits t self.old
            → Moves t self.old result self.new (left t self.old) }
    {
        let code = self.code;
        if let Ops::Enter { height, span, next } = code {
            self.enter(*height, *span, next.ops())?;
        }
        self.go_on_at_leaves(tops)
    }

    /// After a step that leaves nothing at hand.
    #[inline(always)]
    pub(crate) fn after_step<T: Tops<A>>(
        &mut self,
        tops: &T,
        done: Result<(), Stop>,
    ) -> Result<Hand<'a, A>, Stop>
        ensures { (m : declared.Machine A) (o : Out ValueTree) → let t = T.table tops.now in
            Steps t m done self.old (block_of self.old.code.now) o → Moves t m result self.new o }
    {
        match done {
            Ok(()) => self.go_on_at_once(tops),
            Err(stop) => Err(stop),
        }
    }
}
