//! The values of leaves.
ghost use Rattle.std.specs.Prelude.{◌≡◌, ◌∷◌, [], ◌+◌, ◌≤◌, drop, map, slice_get};
ghost use Rattle.std.specs.Prelude.{MatchResult, option_and_then, option_map};
ghost use Rattle.nesl_values.specs.View.{tree_of};
ghost use Rattle.nesl_eval_meaning.specs.Out.{value, given};
ghost use Rattle.nesl_eval_code.specs.Frames.{followed};
ghost use Rattle.nesl_eval_code.specs.declared.code.Step.TheVariants.{Left, Right};
ghost use Rattle.nesl_eval_code.specs.Exec.{admitted, value_at, leaf_value, leaf_out};
ghost use Rattle.nesl_eval_ops.specs.View.{what_is, leaf_is};
ghost use Rattle.nesl_eval_nodes.specs.declared.meter.Meter.{Meter};
ghost use Rattle.nesl_eval_nodes.specs.Meets.{Meets, Is};
ghost use Rattle.nesl_eval_rounds.specs.Slots.{places_of, Anything};

use nesl_eval_code::Step;
use nesl_eval_nodes::held::Tops;
use nesl_eval_nodes::meter::{Meter, Stop};
use nesl_eval_nodes::nodes::{find_top, make_empty, make_text, named_top, share};
use nesl_eval_nodes::scope::part_of;
use nesl_eval_ops::{Leaf, Part, What};
use nesl_lex::token::Span;
use nesl_scalars::Trap;
use nesl_values::Value;
use std::alloc::Allocator;

/// What a leaf's value is found in: the top level, and the slots of local names from `base` on.
#[derive_where(Clone, Copy)]
pub struct Sight<'x, A: Allocator, T> {
    pub tops: &'x T,
    pub slots: &'x Vec<Value<A>, A>,
    pub base: usize,
    pub levels: u32,
    pub alloc: &'x A,
}

/// Enters a node at this height of a body with `levels` levels.
#[inline(always)]
pub fn enter_at(meter: &mut Meter, levels: u32, height: u32, span: Span) -> Result<(), Stop>
    ensures meets { Meets Anything meter.old result meter.new (admitted levels height span) }
    ensures spent { meter.new.fuel + meter.new.depth ≤ meter.old.fuel + meter.old.depth }
{
    if levels <= height {
        return Err(Stop::Fault(Trap::Deep, span));
    }
    meter.charge_deep(1, 1)?;
    Ok(())
}

// Another owner of a value that has parts, by a call that isn't inlined.
#[inline(always)]
fn share_apart<A: Allocator>(value: &Value<A>) -> Result<Value<A>, Stop>
    ensures { MatchResult result (λ v. tree_of v ≡ tree_of value.now) (λ e. e ≡ Stop.Memory) }
{
    share_any(value)
}

#[inline(never)]
fn share_any<A: Allocator>(value: &Value<A>) -> Result<Value<A>, Stop>
    ensures { MatchResult result (λ v. tree_of v ≡ tree_of value.now) (λ e. e ≡ Stop.Memory) }
{
    share(value)
}

// Another owner of a value. A leaf is copied.
#[inline(always)]
fn share_value<A: Allocator>(value: &Value<A>) -> Result<Value<A>, Stop>
    ensures { MatchResult result (λ v. tree_of v ≡ tree_of value.now) (λ e. e ≡ Stop.Memory) }
{
    match value {
        Value::Int(number) => Ok(Value::Int(*number)),
        Value::Bool(truth) => Ok(Value::Bool(*truth)),
        Value::Char(character) => Ok(Value::Char(*character)),
        Value::Shared(_) => share_apart(value),
    }
}

// What is at an index.
#[inline(always)]
fn lent_at<'x, A: Allocator>(slots: &'x Vec<Value<A>, A>, index: usize) -> Option<&'x Value<A>>
    ensures { option_map (λ v. tree_of v.now) result ≡ slice_get (map tree_of slots.now.items) index }
{
    slots.get(index)
}

// The value of a local name without steps.
#[inline(always)]
fn whole_local<A: Allocator>(
    slots: &Vec<Value<A>, A>,
    base: usize,
    place: usize,
) -> Result<Value<A>, Stop>
    ensures { (m : Meter) → Meets Is m result m
        (given (option_and_then (followed []) (value_at (drop base (places_of slots.now.items)) place))
        (λ v. value v 0 0)) }
{
    match base.checked_add(place) {
        Some(index) => match lent_at(slots, index) {
            Some(value) => share_value(value),
            None => Err(Stop::Stuck),
        },
        None => Err(Stop::Stuck),
    }
}

// What `steps` reach from what is at a place.
fn lent_part<'x, A: Allocator>(
    slots: &'x Vec<Value<A>, A>,
    base: usize,
    place: usize,
    steps: &[Step],
) -> Option<&'x Value<A>>
    ensures { option_map (λ v. tree_of v.now) result
        ≡ option_and_then (followed steps.now) (value_at (drop base (places_of slots.now.items)) place) }
{
    let index = base.checked_add(place)?;
    let whole = lent_at(slots, index)?;
    part_of(whole, steps)
}

// What `steps` reach from what is at a place.
#[inline(always)]
fn part_at<A: Allocator>(
    slots: &Vec<Value<A>, A>,
    base: usize,
    place: usize,
    steps: &[Step],
) -> Result<Value<A>, Stop>
    ensures { (m : Meter) → Meets Is m result m
        (given (option_and_then (followed steps.now) (value_at (drop base (places_of slots.now.items)) place))
        (λ v. value v 0 0)) }
{
    match lent_part(slots, base, place, steps) {
        Some(part) => share_value(part),
        None => Err(Stop::Stuck),
    }
}

// A part of what is at a place.
#[inline(never)]
fn part_of_local<A: Allocator>(
    slots: &Vec<Value<A>, A>,
    base: usize,
    part: &Part,
) -> Result<Value<A>, Stop>
    ensures { let p = part.now in (m : Meter) → Meets Is m result m
        (given (option_and_then (followed p.steps.items) (value_at (drop base (places_of slots.now.items)) p.place))
        (λ v. value v 0 0)) }
{
    part_at(slots, base, part.place, &part.steps)
}

// The left part of the pair at a place.
#[inline(never)]
fn left_of_local<A: Allocator>(
    slots: &Vec<Value<A>, A>,
    base: usize,
    place: usize,
) -> Result<Value<A>, Stop>
    ensures { (m : Meter) → Meets Is m result m
        (given (option_and_then (followed (Left ∷ [])) (value_at (drop base (places_of slots.now.items)) place))
        (λ v. value v 0 0)) }
{
    part_at(slots, base, place, &[Step::Left])
}

// The left part of the pair at a place, by a call that isn't inlined.
#[inline(always)]
fn left_apart<A: Allocator>(
    slots: &Vec<Value<A>, A>,
    base: usize,
    place: usize,
) -> Result<Value<A>, Stop>
    ensures { (m : Meter) → Meets Is m result m
        (given (option_and_then (followed (Left ∷ [])) (value_at (drop base (places_of slots.now.items)) place))
        (λ v. value v 0 0)) }
{
    left_of_local(slots, base, place)
}

// The right part of the pair at a place.
#[inline(never)]
fn right_of_local<A: Allocator>(
    slots: &Vec<Value<A>, A>,
    base: usize,
    place: usize,
) -> Result<Value<A>, Stop>
    ensures { (m : Meter) → Meets Is m result m
        (given (option_and_then (followed (Right ∷ [])) (value_at (drop base (places_of slots.now.items)) place))
        (λ v. value v 0 0)) }
{
    part_at(slots, base, place, &[Step::Right])
}

// The right part of the pair at a place, by a call that isn't inlined.
#[inline(always)]
fn right_apart<A: Allocator>(
    slots: &Vec<Value<A>, A>,
    base: usize,
    place: usize,
) -> Result<Value<A>, Stop>
    ensures { (m : Meter) → Meets Is m result m
        (given (option_and_then (followed (Right ∷ [])) (value_at (drop base (places_of slots.now.items)) place))
        (λ v. value v 0 0)) }
{
    right_of_local(slots, base, place)
}

// The value of a leaf that was entered, of any kind.
#[inline(never)]
fn any_leaf_value<A: Allocator + Copy, T: Tops<A>>(
    sight: &Sight<'_, A, T>,
    what: &What,
    meter: &mut Meter,
) -> Result<Value<A>, Stop>
    ensures meets { Meets Is meter.old result meter.new (leaf_value (T.table sight.now.tops.now)
        (drop sight.now.base (places_of sight.now.slots.now.items)) (what_is what.now)) }
    ensures spent { meter.new.fuel ≤ meter.old.fuel }
    ensures depth { meter.new.depth ≡ meter.old.depth }
{
    match what {
        What::Number(number) => Ok(Value::Int(*number)),
        What::Truth(truth) => Ok(Value::Bool(*truth)),
        What::Character(character) => Ok(Value::Char(*character)),
        What::Text(bytes) => make_text(bytes, meter, *sight.alloc),
        What::Empty => make_empty(*sight.alloc),
        What::Local(place) => whole_local(sight.slots, sight.base, *place),
        What::Left(place) => left_of_local(sight.slots, sight.base, *place),
        What::Right(place) => right_of_local(sight.slots, sight.base, *place),
        What::Part(part) => part_of_local(sight.slots, sight.base, part),
        What::Missing => Err(Stop::Stuck),
        What::Top(place) => find_top(sight.tops, *place),
        What::Named(name) => named_top(sight.tops, name),
    }
}

// The value of a leaf that was entered, by a call that isn't inlined. It gets a copy of `sight`, so that the loop's
// own needs no place in memory.
#[inline(always)]
fn value_apart<A: Allocator + Copy, T: Tops<A>>(
    sight: &Sight<'_, A, T>,
    what: &What,
    meter: &mut Meter,
) -> Result<Value<A>, Stop>
    ensures meets { Meets Is meter.old result meter.new (leaf_value (T.table sight.now.tops.now)
        (drop sight.now.base (places_of sight.now.slots.now.items)) (what_is what.now)) }
    ensures spent { meter.new.fuel ≤ meter.old.fuel }
    ensures depth { meter.new.depth ≡ meter.old.depth }
{
    let own = *sight;
    any_leaf_value(&own, what, meter)
}

// The value of a leaf that was entered: at once where it is frequent.
#[inline(always)]
fn leaf_value<A: Allocator + Copy, T: Tops<A>>(
    sight: &Sight<'_, A, T>,
    what: &What,
    meter: &mut Meter,
) -> Result<Value<A>, Stop>
    ensures meets { Meets Is meter.old result meter.new (leaf_value (T.table sight.now.tops.now)
        (drop sight.now.base (places_of sight.now.slots.now.items)) (what_is what.now)) }
    ensures spent { meter.new.fuel ≤ meter.old.fuel }
    ensures depth { meter.new.depth ≡ meter.old.depth }
{
    match what {
        What::Number(number) => Ok(Value::Int(*number)),
        What::Local(place) => whole_local(sight.slots, sight.base, *place),
        What::Left(place) => left_apart(sight.slots, sight.base, *place),
        What::Right(place) => right_apart(sight.slots, sight.base, *place),
        _ => value_apart(sight, what, meter),
    }
}

/// Enters a leaf at this height, and finds its value.
#[inline(always)]
pub fn enter_leaf<A: Allocator + Copy, T: Tops<A>>(
    sight: &Sight<'_, A, T>,
    height: u32,
    leaf: &Leaf,
    meter: &mut Meter,
) -> Result<Value<A>, Stop>
    ensures meets { Meets Is meter.old result meter.new (leaf_out (T.table sight.now.tops.now) sight.now.levels height
        (drop sight.now.base (places_of sight.now.slots.now.items)) (leaf_is leaf.now)) }
    ensures spent { meter.new.fuel + meter.new.depth ≤ meter.old.fuel + meter.old.depth }
{
    enter_at(meter, sight.levels, height, leaf.span.whole())?;
    leaf_value(sight, &leaf.what, meter)
}
