//! How the expression of a line is evaluated.
ghost use Rattle.std.specs.Prelude.{◌≡◌, [], ⊤, IfOk};
ghost use Rattle.nesl_syntax_tree.specs.Views.{tree_of as tree_of_exp};
ghost use Rattle.nesl_values.specs.View.{tree_of};
ghost use Rattle.nesl_eval_meaning.specs.Names.{outside};
ghost use Rattle.nesl_eval_meaning.specs.Out.{within};
ghost use Rattle.nesl_eval_meaning.specs.Outcome.{out};
ghost use Rattle.nesl_eval_top_level.specs.Stored.{environment};
ghost use Rattle.nesl_eval.specs.Outcomes.{OutcomeIs};

use nesl_eval::{Outcome, eval_one, eval_one_in};
use nesl_eval_top_level::Env;
use nesl_syntax_tree::tree::Exp;
use nesl_values::Value;
use std::alloc::{AllocError, Allocator, Global};

/// Evaluates the expression of a line, and keeps its value. All evaluators give the same outcome.
pub(crate) trait Evaluator<A: Allocator> {
    // The evaluator can be called, and returns the outcome of the expression.
    ghost sound: { Self → Type 0 };

    fn evaluate(&self, alloc: Global, env: &Env, exp: &Exp, levels: u32, fuel: u64) -> Outcome<A>
        requires { sound self.now }
        ensures { OutcomeIs result
            (within fuel (out levels (environment env.now) (outside []) (tree_of_exp exp.now))) };

    /// The value in the form in which the bindings hold it.
    fn keep(&self, alloc: Global, value: &Value<A>) -> Result<Value, AllocError>
        ensures { IfOk result (λ kept. tree_of kept ≡ tree_of value.now) };
}

/// Evaluates in the allocator of the bindings, where the value gets one more owner.
#[derive(Clone, Copy)]
pub(crate) struct InPlace;

impl Evaluator<Global> for InPlace {
    ghost sound = { λ _. ⊤ };

    fn evaluate(
        &self,
        alloc: Global,
        env: &Env,
        exp: &Exp,
        levels: u32,
        fuel: u64,
    ) -> Outcome<Global> {
        eval_one(alloc, env, exp, levels, fuel)
    }

    fn keep(&self, _alloc: Global, value: &Value) -> Result<Value, AllocError> {
        value.share()
    }
}

/// Evaluates in a heap of its own, out of which the value is copied.
#[derive(Clone, Copy)]
pub(crate) struct InHeap<A> {
    pub(crate) heap: A,
}

impl<A: Allocator + Copy> Evaluator<A> for InHeap<A> {
    ghost sound = { λ _. ⊤ };

    fn evaluate(&self, alloc: Global, env: &Env, exp: &Exp, levels: u32, fuel: u64) -> Outcome<A> {
        eval_one_in(alloc, env, exp, levels, fuel, self.heap)
    }

    fn keep(&self, alloc: Global, value: &Value<A>) -> Result<Value, AllocError> {
        value.copy_into(alloc)
    }
}

/// Evaluates by a closure, in the allocator of the bindings. An evaluation between threads needs a closure, which can
/// use what the function around it knows of these threads. A block of an `impl` only knows of its own thread.
#[derive(Drop)]
pub(crate) struct ByCall<F> {
    pub(crate) call: F,
}

impl<F: Fn(&Env, &Exp, u32, u64) -> Outcome<Global> + Drop> Evaluator<Global> for ByCall<F> {
    ghost sound = { λ by. ((args : _) → F.Fn.pre by.call args)
        × ((env : _) (exp : _) (levels : _) (fuel : _) (outcome : _)
        → F.Fn.post by.call (env, (exp, (levels, (fuel, tt)))) outcome
        → OutcomeIs outcome (within fuel (out levels (environment env.now) (outside []) (tree_of_exp exp.now)))) };

    fn evaluate(
        &self,
        _alloc: Global,
        env: &Env,
        exp: &Exp,
        levels: u32,
        fuel: u64,
    ) -> Outcome<Global> {
        (self.call)(env, exp, levels, fuel)
    }

    fn keep(&self, _alloc: Global, value: &Value) -> Result<Value, AllocError> {
        value.share()
    }
}
