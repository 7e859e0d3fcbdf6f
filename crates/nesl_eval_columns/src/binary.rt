// The functions of two scalars at all places.
ghost use Rattle.std.specs.Prelude.{◌≡◌, ℕ, ℤ, Bool, true, IfSome, IsTrue, map};
ghost use Rattle.nesl_scalars.specs.Outcomes.{gives};
ghost use Rattle.nesl_scalars.specs.Scalars.{binary, of_ints};
ghost use Rattle.nesl_values.specs.Tree.{int, boolean, character};
ghost use Rattle.nesl_eval_columns.specs.Columns.{leaves_of, Makes};

use crate::column::Column;
use crate::leaf::Leaf;
use crate::made::made;
use nesl_scalars::{Binary, Trap};
use nesl_values::Value;
use std::alloc::{Allocator, Global};

/// What the function has for the leaves of two columns, where it has something at each place.
pub fn of_two<A: Allocator>(
    function: Binary,
    left: &Column<A>,
    right: &Column<A>,
    alloc: A,
) -> Option<Column<A>>
    ensures { IfSome result (λ c. Makes function (leaves_of left.now) (leaves_of right.now) (leaves_of c)) }
{
    match (left, right) {
        (Column::Ints(one), Column::Ints(other)) => of_ints(function, one, other, alloc),
        (Column::Bools(one), Column::Bools(other)) => of_bools(function, one, other, alloc),
        (Column::Chars(one), Column::Chars(other)) => of_chars(function, one, other, alloc),
        _ => None,
    }
}

// A column of numbers from two columns, if `f` has a number for each two leaves.
#[inline(always)]
fn ints<X: Leaf, A: Allocator, F: Fn(X, X) -> (i64, bool)>(
    function: Binary,
    left: &[X],
    right: &[X],
    alloc: A,
    f: F,
) -> Option<Column<A>>
    requires callable { F.IsAlwaysCallable f }
    requires law { (a b : X) (c : ℤ) → F.post f a b (c, true)
        → binary function (X.leaf a) (X.leaf b) ≡ gives (int c) }
    ensures { IfSome result (λ c. Makes function (map X.leaf left.now) (map X.leaf right.now) (leaves_of c)) }
{
    Some(Column::Ints(made(function, left, right, alloc, f)?))
}

// A column of truth values.
#[inline(always)]
fn bools<X: Leaf, A: Allocator, F: Fn(X, X) -> (bool, bool)>(
    function: Binary,
    left: &[X],
    right: &[X],
    alloc: A,
    f: F,
) -> Option<Column<A>>
    requires callable { F.IsAlwaysCallable f }
    requires law { (a b : X) (c : Bool) → F.post f a b (c, true)
        → binary function (X.leaf a) (X.leaf b) ≡ gives (boolean c) }
    ensures { IfSome result (λ c. Makes function (map X.leaf left.now) (map X.leaf right.now) (leaves_of c)) }
{
    Some(Column::Bools(made(function, left, right, alloc, f)?))
}

// A column of characters.
#[inline(always)]
fn chars<X: Leaf, A: Allocator, F: Fn(X, X) -> (u8, bool)>(
    function: Binary,
    left: &[X],
    right: &[X],
    alloc: A,
    f: F,
) -> Option<Column<A>>
    requires callable { F.IsAlwaysCallable f }
    requires law { (a b : X) (c : ℕ) → F.post f a b (c, true)
        → binary function (X.leaf a) (X.leaf b) ≡ gives (character c) }
    ensures { IfSome result (λ c. Makes function (map X.leaf left.now) (map X.leaf right.now) (leaves_of c)) }
{
    Some(Column::Chars(made(function, left, right, alloc, f)?))
}

#[inline(never)]
fn of_ints<A: Allocator>(
    function: Binary,
    left: &[i64],
    right: &[i64],
    alloc: A,
) -> Option<Column<A>>
    ensures { IfSome result (λ c. Makes function (map int left.now) (map int right.now) (leaves_of c)) }
{
    match function {
        Binary::And => ints(function, left, right, alloc, |a, b| (a & b, true)),
        Binary::Or => ints(function, left, right, alloc, |a, b| (a | b, true)),
        Binary::Xor => ints(function, left, right, alloc, |a, b| (a ^ b, true)),
        Binary::Nand => ints(function, left, right, alloc, |a, b| (!(a & b), true)),
        Binary::Nor => ints(function, left, right, alloc, |a, b| (!(a | b), true)),
        Binary::Equal => bools(function, left, right, alloc, |a, b| (a == b, true)),
        Binary::Unequal => bools(function, left, right, alloc, |a, b| (a != b, true)),
        Binary::Less => bools(function, left, right, alloc, |a, b| (a < b, true)),
        Binary::Greater => bools(function, left, right, alloc, |a, b| (b < a, true)),
        Binary::AtMost => bools(function, left, right, alloc, |a, b| (a <= b, true)),
        Binary::AtLeast => bools(function, left, right, alloc, |a, b| (b <= a, true)),
        Binary::Max => ints(function, left, right, alloc, |a, b| (a.max(b), true)),
        Binary::Min => ints(function, left, right, alloc, |a, b| (a.min(b), true)),
        Binary::Add => ints(function, left, right, alloc, added),
        Binary::Subtract => ints(function, left, right, alloc, subtracted),
        Binary::Multiply => ints(function, left, right, alloc, multiplied),
        Binary::Divide => ints(function, left, right, alloc, divided),
        Binary::Rem => ints(function, left, right, alloc, remainder),
        Binary::Lshift => ints(function, left, right, alloc, shifted_left),
        Binary::Rshift => ints(function, left, right, alloc, shifted_right),
    }
}

#[inline(never)]
fn of_bools<A: Allocator>(
    function: Binary,
    left: &[bool],
    right: &[bool],
    alloc: A,
) -> Option<Column<A>>
    ensures { IfSome result (λ c. Makes function (map boolean left.now) (map boolean right.now) (leaves_of c)) }
{
    match function {
        Binary::And => bools(function, left, right, alloc, |a, b| (a && b, true)),
        Binary::Or => bools(function, left, right, alloc, |a, b| (a || b, true)),
        Binary::Xor => bools(function, left, right, alloc, |a, b| (a != b, true)),
        Binary::Nand => bools(function, left, right, alloc, |a, b| (!(a && b), true)),
        Binary::Nor => bools(function, left, right, alloc, |a, b| (!(a || b), true)),
        _ => None,
    }
}

#[inline(never)]
fn of_chars<A: Allocator>(
    function: Binary,
    left: &[u8],
    right: &[u8],
    alloc: A,
) -> Option<Column<A>>
    ensures { IfSome result (λ c. Makes function (map character left.now) (map character right.now) (leaves_of c)) }
{
    match function {
        Binary::Equal => bools(function, left, right, alloc, |c, d| (c == d, true)),
        Binary::Unequal => bools(function, left, right, alloc, |c, d| (c != d, true)),
        Binary::Less => bools(function, left, right, alloc, |c, d| (c < d, true)),
        Binary::Greater => bools(function, left, right, alloc, |c, d| (d < c, true)),
        Binary::AtMost => bools(function, left, right, alloc, |c, d| (c <= d, true)),
        Binary::AtLeast => bools(function, left, right, alloc, |c, d| (d <= c, true)),
        Binary::Max => chars(function, left, right, alloc, |c, d| (c.max(d), true)),
        Binary::Min => chars(function, left, right, alloc, |c, d| (c.min(d), true)),
        _ => None,
    }
}

#[inline(always)]
fn added(a: i64, b: i64) -> (i64, bool)
    ensures { IsTrue result.1 → of_ints Binary.Add a b ≡ gives (int result.0) }
{
    let (sum, over) = a.overflowing_add(b);
    (sum, !over)
}

#[inline(always)]
fn subtracted(a: i64, b: i64) -> (i64, bool)
    ensures { IsTrue result.1 → of_ints Binary.Subtract a b ≡ gives (int result.0) }
{
    let (rest, over) = a.overflowing_sub(b);
    (rest, !over)
}

#[inline(always)]
fn multiplied(a: i64, b: i64) -> (i64, bool)
    ensures { IsTrue result.1 → of_ints Binary.Multiply a b ≡ gives (int result.0) }
{
    let (product, over) = a.overflowing_mul(b);
    (product, !over)
}

#[inline(always)]
fn divided(a: i64, b: i64) -> (i64, bool)
    ensures { IsTrue result.1 → of_ints Binary.Divide a b ≡ gives (int result.0) }
{
    match a.checked_div(b) {
        Some(quotient) => (quotient, true),
        None => (0, false),
    }
}

#[inline(always)]
fn remainder(a: i64, b: i64) -> (i64, bool)
    ensures { IsTrue result.1 → of_ints Binary.Rem a b ≡ gives (int result.0) }
{
    if b == 0 {
        (0, false)
    } else {
        (a.wrapping_rem(b), true)
    }
}

#[inline(always)]
fn shifted_left(a: i64, n: i64) -> (i64, bool)
    ensures { IsTrue result.1 → of_ints Binary.Lshift a n ≡ gives (int result.0) }
{
    number_of(Binary::Lshift, a, n)
}

#[inline(always)]
fn shifted_right(a: i64, n: i64) -> (i64, bool)
    ensures { IsTrue result.1 → of_ints Binary.Rshift a n ≡ gives (int result.0) }
{
    number_of(Binary::Rshift, a, n)
}

// The number that the function has for two numbers, if it has one.
#[inline]
fn number_of(function: Binary, a: i64, b: i64) -> (i64, bool)
    ensures { IsTrue result.1 → of_ints function a b ≡ gives (int result.0) }
{
    let left: Value<Global> = Value::Int(a);
    let right: Value<Global> = Value::Int(b);
    let found: Result<Value<Global>, Trap> = function.apply(&left, &right);
    match &found {
        Ok(Value::Int(number)) => (*number, true),
        _ => (0, false),
    }
}
