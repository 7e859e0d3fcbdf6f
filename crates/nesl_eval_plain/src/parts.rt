// Plain code at the turns of a block.
ghost use Rattle.std.specs.Prelude.{◌≡◌, ℕ, [], None, IfSome, slice_get};
ghost use Rattle.nesl_lex.specs.declared.token.Span.{Span};
ghost use Rattle.nesl_values.specs.Tree.{pair};
ghost use Rattle.nesl_values.specs.Parts.{as_bool};
ghost use Rattle.nesl_eval_meaning.specs.Out.{and_then};
ghost use Rattle.nesl_eval_meaning.specs.Outcome.{apply_builtin, branch, small_enough};
ghost use Rattle.nesl_eval_code.specs.Run.{Runs, run, run_node, run_two, run_let, run_called, slot_at};
ghost use Rattle.nesl_eval_column_results.specs.Blocks.{IsWithin};
ghost use Rattle.nesl_eval_column_results.specs.Frames.{frames_in, NeedsNothing, leaf_at, cost_at};
ghost use Rattle.nesl_eval_plain.specs.Found.{Finds, Yields, Chooses};
ghost use Rattle.nesl_eval_columns.specs.Sides.{Sorted};

use nesl_builtins::Builtin;
use nesl_eval_code::Code;
use nesl_eval_column_results::block::Block;
use nesl_eval_column_results::choices::{is_none, merged};
use nesl_eval_column_results::columns::{Columns, as_leaves, breadth, paired, same_value};
use nesl_eval_column_results::costs::{Costs, sum};
use nesl_eval_column_results::found::{Found, Results, entered, keep};
use nesl_eval_column_results::functions::applied;
use nesl_eval_column_results::names::{function_at, local, top};
use nesl_eval_column_results::outer::picked;
use nesl_eval_column_results::reach::{Reach, below, beside};
use nesl_eval_column_results::scopes::{Scopes, count};
use nesl_eval_columns::{Sides, of_two, split_sides};
use nesl_eval_nodes::held::Tops;
use nesl_scalars::Binary;
use nesl_seqs_base::seq_fn::SeqFn;
use nesl_values::Value;
use std::alloc::Allocator;

/// What code evaluates to, if it is plain and has a value at each turn.
#[cycle(plain)]
pub fn results<'x, A: Allocator + Copy, T: Tops<A>>(
    block: &'x Block<'x, A, T>,
    scopes: &Scopes<'_, A>,
    code: &Code,
    reach: Reach,
) -> Option<Results<A>>
    requires { IsWithin block.now }
    ensures { let tb = T.table block.now.tops.now in IfSome result
        (Yields (λ fs. run reach.levels tb fs code.now) (frames_in block.now scopes.now)) }
{
    let inside = below(reach)?;
    let found = node(block, scopes, code, inside)?;
    entered(found)
}

/// The leaves that code evaluates to, if it is plain and has a leaf at each turn.
#[cycle(plain)]
pub fn column<'x, A: Allocator + Copy, T: Tops<A>>(
    block: &'x Block<'x, A, T>,
    scopes: &Scopes<'_, A>,
    code: &Code,
    reach: Reach,
) -> Option<Found<A>>
    requires { IsWithin block.now }
    ensures { let tb = T.table block.now.tops.now in IfSome result
        (Finds (λ fs. run reach.levels tb fs code.now) (frames_in block.now scopes.now)) }
{
    let Results { values, costs } = results(block, scopes, code, reach)?;
    let count = count(block, scopes);
    let column = as_leaves(values, count, *block.alloc)?;
    Some(Found { column, costs })
}

// What has these values without any cost.
fn free<A: Allocator>(values: Columns<A>) -> Results<A>
    ensures { (result.values ≡ values) × (result.costs.same ≡ 0) × (result.costs.more ≡ None) }
{
    Results {
        values,
        costs: Costs {
            same: 0,
            more: None,
        },
    }
}

// What a node evaluates to that has been entered; its parts may go as far as `reach` allows.
#[cycle(plain)]
fn node<'x, A: Allocator + Copy, T: Tops<A>>(
    block: &'x Block<'x, A, T>,
    scopes: &Scopes<'_, A>,
    code: &Code,
    reach: Reach,
) -> Option<Results<A>>
    requires { IsWithin block.now }
    ensures { let tb = T.table block.now.tops.now in IfSome result
        (Yields (λ fs. run_node (run reach.levels tb) tb fs code.now) (frames_in block.now scopes.now)) }
{
    match code {
        Code::Pair { left, right, .. } => in_pair(block, scopes, left, right, reach),
        Code::Apply {
            function,
            argument,
            ..
        } => apply(block, scopes, *function, argument, reach),
        Code::ApplyTwo {
            function,
            left,
            right,
            ..
        } => apply_two(block, scopes, *function, left, right, reach),
        Code::Call {
            place,
            argument,
            ..
        } => call(block, scopes, *place, argument, reach),
        Code::Let { bindings, body, .. } => in_let(block, scopes, bindings, body, reach),
        Code::Choice { test, yes, no, .. } => choice(block, scopes, test, yes, no, reach),
        _ => {
            let values = end(block, scopes, code)?;
            Some(free(values))
        }
    }
}

// What a node without parts evaluates to.
fn end<'x, A: Allocator + Copy, T: Tops<A>>(
    block: &'x Block<'x, A, T>,
    scopes: &Scopes<'_, A>,
    code: &Code,
) -> Option<Columns<A>>
    requires { IsWithin block.now }
    ensures { let tb = T.table block.now.tops.now in IfSome result (λ c. (f : Runs) →
        NeedsNothing (λ fs. run_node f tb fs code.now) (frames_in block.now scopes.now) c) }
{
    match code {
        Code::Number { value, .. } => Some(Columns::Same(Value::Int(*value))),
        Code::Truth { value, .. } => Some(Columns::Same(Value::Bool(*value))),
        Code::Character { value, .. } => Some(Columns::Same(Value::Char(*value))),
        Code::Local {
            up,
            index,
            steps,
            ..
        } => local(block, scopes, *up, *index, steps),
        Code::Top { place, .. } => top(block, scopes, *place),
        _ => None,
    }
}

// The pairs of two parts.
#[cycle(plain)]
fn in_pair<'x, A: Allocator + Copy, T: Tops<A>>(
    block: &'x Block<'x, A, T>,
    scopes: &Scopes<'_, A>,
    left: &Code,
    right: &Code,
    reach: Reach,
) -> Option<Results<A>>
    requires { IsWithin block.now }
    ensures { let f = run reach.levels (T.table block.now.tops.now) in (s : Span) → IfSome result
        (Yields (λ fs. run_two f fs left.now right.now (λ x y. small_enough s (pair x y)))
        (frames_in block.now scopes.now)) }
{
    let one = results(block, scopes, left, reach)?;
    let inside = beside(reach, breadth(&one.values))?;
    let other = results(block, scopes, right, inside)?;
    let costs = sum(one.costs, other.costs, *block.alloc)?;
    let values = paired(one.values, other.values, *block.alloc)?;
    Some(Results { values, costs })
}

// The body of a `let`, after its bindings, of which each sees those before it.
#[cycle(plain)]
fn in_let<'x, A: Allocator + Copy, T: Tops<A>>(
    block: &'x Block<'x, A, T>,
    scopes: &Scopes<'_, A>,
    bindings: &[Code],
    body: &Code,
    reach: Reach,
) -> Option<Results<A>>
    requires { IsWithin block.now }
    ensures { let f = run reach.levels (T.table block.now.tops.now) in IfSome result
        (Yields (λ fs. run_let f fs [] bindings.now body.now) (frames_in block.now scopes.now)) }
{
    let mut costs = Costs {
        same: 0,
        more: None,
    };
    let mut columns = Vec::new(*block.alloc);
    let mut waiting: usize = 0;
    for binding in bindings {
        let inside = beside(reach, waiting)?;
        let bound = {
            let inner = Scopes::Let(&*columns, &*scopes);
            results(block, &inner, binding, inside)?
        };
        waiting = waiting.saturating_add(breadth(&bound.values));
        costs = sum(costs, bound.costs, *block.alloc)?;
        keep(&mut columns, bound.values)?;
    }
    let inside = beside(reach, waiting)?;
    let inner = Scopes::Let(&*columns, &*scopes);
    let last = results(block, &inner, body, inside)?;
    let all = sum(costs, last.costs, *block.alloc)?;
    Some(Results {
        values: last.values,
        costs: all,
    })
}

// The body of a user's function, which sees its argument alone.
#[cycle(plain)]
fn call<'x, A: Allocator + Copy, T: Tops<A>>(
    block: &'x Block<'x, A, T>,
    scopes: &Scopes<'_, A>,
    place: usize,
    argument: &Code,
    reach: Reach,
) -> Option<Results<A>>
    requires { IsWithin block.now }
    ensures { let tb = T.table block.now.tops.now in let f = run reach.levels tb in (s : Span) → IfSome result
        (Yields (λ fs. and_then (f fs argument.now) (run_called f s (slot_at tb place)))
        (frames_in block.now scopes.now)) }
{
    let body = function_at(block, place)?;
    let Results { values, costs } = results(block, scopes, argument, reach)?;
    let inside = beside(reach, breadth(&values))?;
    let inner = Scopes::Call(&values, &*scopes);
    let last = results(block, &inner, body, inside)?;
    let all = sum(costs, last.costs, *block.alloc)?;
    Some(Results {
        values: last.values,
        costs: all,
    })
}

// One of two parts at each turn, by the test there. Both have leaves.
#[cycle(plain)]
fn choice<'x, A: Allocator + Copy, T: Tops<A>>(
    block: &'x Block<'x, A, T>,
    scopes: &Scopes<'_, A>,
    test: &Code,
    yes: &Code,
    no: &Code,
    reach: Reach,
) -> Option<Results<A>>
    requires { IsWithin block.now }
    ensures { let f = run reach.levels (T.table block.now.tops.now) in IfSome result
        (Yields (λ fs. and_then (f fs test.now) (λ x. branch (as_bool x) (f fs yes.now) (f fs no.now)))
        (frames_in block.now scopes.now)) }
{
    let Found { column, costs } = column(block, scopes, test, reach)?;
    let sides = split_sides(column, *block.alloc)?;
    let chosen = chosen(block, scopes, &sides, yes, no, reach)?;
    let all = sum(costs, chosen.costs, *block.alloc)?;
    Some(Results {
        values: Columns::Leaves(chosen.column),
        costs: all,
    })
}

// What each turn evaluates to on its side. A side is evaluated at its own turns only.
#[cycle(plain)]
fn chosen<'x, A: Allocator + Copy, T: Tops<A>>(
    block: &'x Block<'x, A, T>,
    scopes: &Scopes<'_, A>,
    sides: &Sides<A>,
    yes: &Code,
    no: &Code,
    reach: Reach,
) -> Option<Found<A>>
    requires turns { IsWithin block.now }
    requires sorted { Sorted sides.now }
    ensures { let f = run reach.levels (T.table block.now.tops.now) in IfSome result (λ r.
        Chooses (slice_get sides.now.flags.items) (λ fs. f fs yes.now) (λ fs. f fs no.now)
        (frames_in block.now scopes.now) (leaf_at r) (cost_at r)) }
{
    if is_none(&sides.no) {
        return column(block, scopes, yes, reach);
    }
    if is_none(&sides.yes) {
        return column(block, scopes, no, reach);
    }
    let one = {
        let inner = Scopes::Turns(&*sides.yes, &*scopes);
        column(block, &inner, yes, reach)?
    };
    let other = {
        let inner = Scopes::Turns(&*sides.no, &*scopes);
        column(block, &inner, no, reach)?
    };
    merged(sides, &one, &other, *block.alloc)
}

// A function of the two parts of an operator.
#[cycle(plain)]
fn apply_two<'x, A: Allocator + Copy, T: Tops<A>>(
    block: &'x Block<'x, A, T>,
    scopes: &Scopes<'_, A>,
    function: Builtin,
    left: &Code,
    right: &Code,
    reach: Reach,
) -> Option<Results<A>>
    requires { IsWithin block.now }
    ensures { let f = run reach.levels (T.table block.now.tops.now) in (s : Span) → IfSome result
        (Yields (λ fs. run_two f fs left.now right.now (λ x y. apply_builtin s function (pair x y)))
        (frames_in block.now scopes.now)) }
{
    match function {
        Builtin::OfTwo(function) => two(block, scopes, function, left, right, reach),
        Builtin::OfSequences(function) => element(block, scopes, function, left, right, reach),
        Builtin::OfOne(_) => None,
    }
}

// An element of a sequence that is the same at all turns, or another function of two, which is not plain.
#[cycle(plain)]
fn element<'x, A: Allocator + Copy, T: Tops<A>>(
    block: &'x Block<'x, A, T>,
    scopes: &Scopes<'_, A>,
    function: SeqFn,
    left: &Code,
    right: &Code,
    reach: Reach,
) -> Option<Results<A>>
    requires { IsWithin block.now }
    ensures { let f = run reach.levels (T.table block.now.tops.now) in (s : Span) → IfSome result
        (Yields (λ fs. run_two f fs left.now right.now
        (λ x y. apply_builtin s (Builtin.OfSequences function) (pair x y)))
        (frames_in block.now scopes.now)) }
{
    match function {
        SeqFn::ElementAt => {
            let one = results(block, scopes, left, reach)?;
            let sequence = same_value(one.values)?;
            let places = column(block, scopes, right, reach)?;
            let column = picked(&sequence, &places.column, *block.alloc)?;
            let costs = sum(one.costs, places.costs, *block.alloc)?;
            Some(Results {
                values: Columns::Leaves(column),
                costs,
            })
        }
        _ => None,
    }
}

// A function of two scalars.
#[cycle(plain)]
fn two<'x, A: Allocator + Copy, T: Tops<A>>(
    block: &'x Block<'x, A, T>,
    scopes: &Scopes<'_, A>,
    function: Binary,
    left: &Code,
    right: &Code,
    reach: Reach,
) -> Option<Results<A>>
    requires { IsWithin block.now }
    ensures { let f = run reach.levels (T.table block.now.tops.now) in (s : Span) → IfSome result
        (Yields (λ fs. run_two f fs left.now right.now (λ x y. apply_builtin s (Builtin.OfTwo function) (pair x y)))
        (frames_in block.now scopes.now)) }
{
    let one = column(block, scopes, left, reach)?;
    let other = column(block, scopes, right, reach)?;
    let column = of_two(function, &one.column, &other.column, *block.alloc)?;
    let costs = sum(one.costs, other.costs, *block.alloc)?;
    Some(Results {
        values: Columns::Leaves(column),
        costs,
    })
}

// A function of one argument.
#[cycle(plain)]
fn apply<'x, A: Allocator + Copy, T: Tops<A>>(
    block: &'x Block<'x, A, T>,
    scopes: &Scopes<'_, A>,
    function: Builtin,
    argument: &Code,
    reach: Reach,
) -> Option<Results<A>>
    requires { IsWithin block.now }
    ensures { let f = run reach.levels (T.table block.now.tops.now) in (s : Span) → IfSome result
        (Yields (λ fs. and_then (f fs argument.now) (apply_builtin s function)) (frames_in block.now scopes.now)) }
{
    let Results { values, costs } = results(block, scopes, argument, reach)?;
    let count = count(block, scopes);
    let made = applied(function, values, count, *block.alloc)?;
    Some(Results {
        values: made,
        costs,
    })
}
