//! The local names.
ghost use Rattle.std.specs.Prelude.{◌≡◌, ◌-◌, option_map, slice_get, map, length, take, drop};
ghost use Rattle.nesl_values.specs.View.{tree_of};
ghost use Rattle.nesl_eval_code.specs.Frames.{followed, place_in, local_at};
ghost use Rattle.nesl_eval_nodes.specs.Scopes.{frames_of};

use nesl_eval_code::Step;
use nesl_values::Value;
use std::alloc::Allocator;

/// The values of local names in frames that lie end to end, those of the newest frame last, and the sizes of the
/// frames, the newest first.
#[derive_where(Clone, Copy)]
pub struct Scope<'a, A: Allocator> {
    pub values: &'a [Value<A>],
    pub sizes: &'a [usize],
}

// The values of the newest frame, which has this size, after those of the others.
fn split_newest<'a, A: Allocator>(
    values: &'a [Value<A>],
    size: usize,
) -> (&'a [Value<A>], &'a [Value<A>])
    ensures { let start = length values.now - size in
        (result.0.now ≡ take start values.now) × (result.1.now ≡ drop start values.now) }
{
    values.split_at(values.len().saturating_sub(size))
}

fn value_at<'a, A: Allocator>(values: &'a [Value<A>], index: usize) -> Option<&'a Value<A>>
    ensures { option_map (λ v. tree_of v.now) result ≡ slice_get (map tree_of values.now) index }
{
    values.get(index)
}

/// What is at an index of a frame.
pub fn place_in<'a, A: Allocator>(
    scope: &Scope<'a, A>,
    up: usize,
    index: usize,
) -> Option<&'a Value<A>>
    ensures { option_map (λ v. tree_of v.now) result ≡ place_in (frames_of scope.now) up index }
{
    let mut values = scope.values;
    let mut left = up;
    for size in scope.sizes {
        let (outer, newest) = split_newest(values, *size);
        if left == 0 {
            return value_at(newest, index);
        }
        values = outer;
        left -= 1;
    }
    None
}

/// The part of a value to which the steps lead.
pub fn part_of<'a, A: Allocator>(value: &'a Value<A>, steps: &[Step]) -> Option<&'a Value<A>>
    ensures { option_map (λ v. tree_of v.now) result ≡ followed steps.now (tree_of value.now) }
{
    let Some((first, rest)) = steps.split_first() else {
        return Some(value);
    };
    match first {
        Step::Left => {
            let (left, _) = value.as_pair()?;
            part_of(left, rest)
        }
        Step::Right => {
            let (_, right) = value.as_pair()?;
            part_of(right, rest)
        }
        Step::Inside => {
            let (_, inside) = value.as_tagged()?;
            part_of(inside, rest)
        }
    }
}

/// What a local name means, which `steps` reach from what is at an index of a frame.
pub fn lent_local<'a, A: Allocator>(
    scope: &Scope<'a, A>,
    up: usize,
    index: usize,
    steps: &[Step],
) -> Option<&'a Value<A>>
    ensures { option_map (λ v. tree_of v.now) result ≡ local_at (frames_of scope.now) up index steps.now }
{
    let whole = place_in(scope, up, index)?;
    part_of(whole, steps)
}
