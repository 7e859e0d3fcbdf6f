//! The top level in another heap than that of its bindings.
ghost use Rattle.std.specs.Prelude.{◌≡◌, [], ℕ, IfOk, IfSome, OnOk, Some, slice_get};
ghost use Rattle.nesl_syntax_tree.specs.Views.{tree_of as tree_of_exp};
ghost use Rattle.nesl_values.specs.View.{tree_of};
ghost use Rattle.nesl_eval_code.specs.Means.{IsTableOf, names_of};
ghost use Rattle.nesl_eval_meaning.specs.Names.{outside};
ghost use Rattle.nesl_eval_meaning.specs.Out.{within};
ghost use Rattle.nesl_eval_meaning.specs.Outcome.{out};
ghost use Rattle.nesl_eval_top_level.specs.Stored.{environment, names_in};
ghost use Rattle.nesl_eval_top_level.specs.TopLevels.{table_in, bodies_in};
ghost use Rattle.nesl_eval_ops.specs.View.{HasBodies};
ghost use Rattle.nesl_eval.specs.Outcomes.{OutcomeIs};
ghost use Rattle.nesl_eval.specs.Copied.{AreCopies, copies-prop, tree_at};

use crate::outcome::{Outcome, evaluate};
use crate::reached::places_reached;
use nesl_eval_code::{Code, runs_as_meant};
use nesl_eval_nodes::held::{Held, Tops};
use nesl_eval_ops::expression_ops;
use nesl_eval_top_level::{Env, TopLevel, prepare};
use nesl_syntax_tree::tree::Exp;
use nesl_values::Value;
use std::alloc::{AllocError, Allocator, Global};

/// The top level, with the values of variables in another heap.
#[derive(Drop)]
struct Copies<'e, A: Allocator> {
    tops: TopLevel<'e>,
    /// By place. There is none where no code refers to the variable, or where there was no room for its copy.
    values: Vec<Option<Value<A>>>,
    ghost copied: { AreCopies (table_in tops) values.items } by { copies-prop (table_in tops) values.items },
}

impl<'e, A: Allocator> Tops<A> for Copies<'e, A> {
    ghost use Rattle.nesl_eval_top_level.specs.TopLevels.{table_in};

    ghost table = { λ c. table_in c.tops };

    #[tactic(auto, using(crate::proofs::Copying::copy_stands))]
    fn held(&self, place: usize) -> Result<Held<'_, A>, AllocError> {
        match self.tops.held(place) {
            Held::Variable(_) => match lent_copy(&self.values, place) {
                Some(copy) => Ok(Held::Variable(copy)),
                None => Err(AllocError),
            },
            Held::Function(code) => Ok(Held::Function(code)),
            Held::Datatype(tag) => Ok(Held::Datatype(tag)),
            Held::Nothing => Ok(Held::Nothing),
        }
    }

    #[tactic(auto, using(nesl_eval_top_level::proofs::Lent::place_named))]
    fn place_of(&self, name: &[u8]) -> Option<usize> {
        self.tops.place_of(name)
    }
}

// The copy at a place.
fn lent_copy<'a, A: Allocator>(values: &'a [Option<Value<A>>], place: usize) -> Option<&'a Value<A>>
    ensures { IfSome result (λ v. slice_get values.now place ≡ Some (Some v.now)) }
{
    match values.get(place) {
        Some(copy) => copy.as_ref(),
        None => None,
    }
}

/// The top level in a heap, with the values that code can reach.
fn copies_for<'e, A: Allocator + Copy>(
    alloc: Global,
    env: &'e Env,
    code: &Code,
    heap: A,
) -> Result<Copies<'e, A>, AllocError>
    ensures names { IfOk result (λ c. names_of (table_in c.tops) ≡ names_in env.now) }
    ensures stands { IfOk result (λ c. (n : ℕ) → IsTableOf n (environment env.now) (table_in c.tops)) }
    ensures bodies { IfOk result (λ c. HasBodies (table_in c.tops) (bodies_in c.tops)) }
{
    let tops = env.top_level();
    let reached = places_reached(alloc, &tops, env.len(), code)?;
    let values = copied(alloc, &tops, reached.as_slice(), heap)?;
    Ok(Copies { tops, values })
}

// The copies of the variables that are reached.
fn copied<A: Allocator + Copy>(
    alloc: Global,
    tops: &TopLevel<'_>,
    wanted: &[bool],
    heap: A,
) -> Result<Vec<Option<Value<A>>>, AllocError>
    ensures { IfOk result (λ values. AreCopies (table_in tops.now) values.items) }
{
    let mut values = Vec::new(alloc);
    for is_wanted in wanted {
        push_copy(&mut values, tops, *is_wanted, heap)?;
    }
    Ok(values)
}

// The copy for the next place.
fn push_copy<A: Allocator + Copy>(
    values: &mut Vec<Option<Value<A>>>,
    tops: &TopLevel<'_>,
    is_wanted: bool,
    heap: A,
) -> Result<(), AllocError>
    requires { AreCopies (table_in tops.now) values.old.items }
    ensures { OnOk result (AreCopies (table_in tops.now) values.new.items) }
{
    let copy = copy_at(tops, values.len(), is_wanted, heap);
    values.push(copy)?;
    Ok(())
}

// The copy of a variable's value, if it is reached and there is room.
fn copy_at<A: Allocator + Copy>(
    tops: &TopLevel<'_>,
    place: usize,
    is_wanted: bool,
    heap: A,
) -> Option<Value<A>>
    ensures { IfSome result (λ v. tree_of v ≡ tree_at (table_in tops.now) place) }
{
    if !is_wanted {
        return None;
    }
    match tops.held(place) {
        Held::Variable(value) => match value.copy_into(heap) {
            Ok(copy) => Some(copy),
            Err(_) => None,
        },
        _ => None,
    }
}

/// What `eval_one` returns, in a heap of its own: of the values of the bindings, those that the expression's code can
/// reach are copied there, each once.
pub fn eval_one_in<A: Allocator + Copy>(
    alloc: Global,
    env: &Env,
    exp: &Exp,
    levels: u32,
    fuel: u64,
    heap: A,
) -> Outcome<A>
    ensures { OutcomeIs result
        (within fuel (out levels (environment env.now) (outside []) (tree_of_exp exp.now))) }
{
    runs_as_meant();
    let Ok(code) = prepare(alloc, env, exp) else {
        return Outcome::Memory;
    };
    let Ok(ops) = expression_ops(alloc, &code) else {
        return Outcome::Memory;
    };
    match copies_for(alloc, env, &code, heap) {
        Ok(copies) => evaluate(&copies, copies.tops.bodies(), &ops, levels, fuel, heap),
        Err(_) => Outcome::Memory,
    }
}
