// A function at each place.
ghost use Rattle.std.specs.Prelude.{◌≡◌, true, IsTrue, IfSome, length, map};
ghost use Rattle.nesl_scalars.specs.Scalars.{unary, binary};
ghost use Rattle.nesl_scalars.specs.Outcomes.{gives};
ghost use Rattle.nesl_eval_columns.specs.Columns.{Makes, MapsColumn};
ghost use Rattle.nesl_eval_columns.specs.Each.{EachTwo, EachThree};

use crate::leaf::Leaf;
use nesl_scalars::{Binary, Unary};
use std::alloc::Allocator;

// Writes what `f` has for each two, and returns whether it has something for all of them.
#[inline(always)]
fn filled<X: Copy, Y: Copy, Z: Copy, F: Fn(X, Y) -> (Z, bool)>(
    out: &mut [Z],
    left: &[X],
    right: &[Y],
    f: F,
) -> bool
    requires callable { F.IsAlwaysCallable f }
    requires left { length left.now ≡ length out.old }
    requires right { length right.now ≡ length out.old }
    ensures { IsTrue result → EachThree (λ x y z. F.post f x y (z, true)) left.now right.now out.new }
{
    let mut all = true;
    for place in 0..out.len() {
        let (made, has) = f(left[place], right[place]);
        out[place] = made;
        all &= has;
    }
    all
}

/// What `f` has for each two, if that is something for all of them. `some` may be anything.
#[inline(always)]
pub fn each_of_two<X: Copy, Y: Copy, Z: Copy, A: Allocator, F: Fn(X, Y) -> (Z, bool)>(
    left: &[X],
    right: &[Y],
    some: Z,
    alloc: A,
    f: F,
) -> Option<Vec<Z, A>>
    requires callable { F.IsAlwaysCallable f }
    ensures { IfSome result (λ v. EachThree (λ x y z. F.post f x y (z, true)) left.now right.now v.items) }
{
    let len = left.len();
    if right.len() != len {
        return None;
    }
    let mut out = Vec::new(alloc);
    match out.resize(len, some) {
        Ok(()) => {}
        Err(_) => return None,
    }
    if filled(&mut out, left, right, f) {
        Some(out)
    } else {
        None
    }
}

// What a function has for each two, if that is something for all of them.
#[inline(always)]
pub fn made<X: Leaf, Z: Leaf, A: Allocator, F: Fn(X, X) -> (Z, bool)>(
    function: Binary,
    left: &[X],
    right: &[X],
    alloc: A,
    f: F,
) -> Option<Vec<Z, A>>
    requires callable { F.IsAlwaysCallable f }
    requires law { (a b : X) (c : Z) → F.post f a b (c, true)
        → binary function (X.leaf a) (X.leaf b) ≡ gives (Z.leaf c) }
    ensures { IfSome result (λ v. Makes function (map X.leaf left.now) (map X.leaf right.now) (map Z.leaf v.items)) }
{
    each_of_two(left, right, Z::some(), alloc, f)
}

// Writes what `f` has for each, and returns whether it has something for all of them.
#[inline(always)]
fn turned<X: Copy, Z: Copy, F: Fn(X) -> (Z, bool)>(out: &mut [Z], items: &[X], f: F) -> bool
    requires callable { F.IsAlwaysCallable f }
    requires len { length items.now ≡ length out.old }
    ensures { IsTrue result → EachTwo (λ x z. F.post f x (z, true)) items.now out.new }
{
    let mut all = true;
    for place in 0..out.len() {
        let (made, has) = f(items[place]);
        out[place] = made;
        all &= has;
    }
    all
}

/// What `f` has for each, if that is something for all of them. `some` may be anything.
#[inline(always)]
pub fn each_of<X: Copy, Z: Copy, A: Allocator, F: Fn(X) -> (Z, bool)>(
    items: &[X],
    some: Z,
    alloc: A,
    f: F,
) -> Option<Vec<Z, A>>
    requires callable { F.IsAlwaysCallable f }
    ensures { IfSome result (λ v. EachTwo (λ x z. F.post f x (z, true)) items.now v.items) }
{
    let mut out = Vec::new(alloc);
    match out.resize(items.len(), some) {
        Ok(()) => {}
        Err(_) => return None,
    }
    if turned(&mut out, items, f) {
        Some(out)
    } else {
        None
    }
}

// What a function has for each, if that is something for all of them.
#[inline(always)]
pub fn made_of_one<X: Leaf, Z: Leaf, A: Allocator, F: Fn(X) -> (Z, bool)>(
    function: Unary,
    items: &[X],
    alloc: A,
    f: F,
) -> Option<Vec<Z, A>>
    requires callable { F.IsAlwaysCallable f }
    requires law { (a : X) (c : Z) → F.post f a (c, true)
        → unary function (X.leaf a) ≡ gives (Z.leaf c) }
    ensures { IfSome result (λ v. MapsColumn function (map X.leaf items.now) (map Z.leaf v.items)) }
{
    each_of(items, Z::some(), alloc, f)
}
