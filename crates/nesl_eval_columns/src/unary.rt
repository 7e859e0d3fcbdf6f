// The functions of one scalar at all places.
ghost use Rattle.std.specs.Prelude.{◌≡◌, ℕ, ℤ, Bool, true, IfSome, IsTrue, map};
ghost use Rattle.nesl_scalars.specs.Outcomes.{gives};
ghost use Rattle.nesl_scalars.specs.Scalars.{unary, of_int};
ghost use Rattle.nesl_values.specs.Tree.{int, boolean, character};
ghost use Rattle.nesl_eval_columns.specs.Columns.{leaves_of, MapsColumn};

use crate::column::Column;
use crate::leaf::Leaf;
use crate::made::made_of_one;
use nesl_scalars::{Trap, Unary};
use nesl_values::Value;
use std::alloc::{Allocator, Global};

/// What the function has for the leaves of a column, where it has something at each place.
pub fn of_one<A: Allocator>(function: Unary, column: &Column<A>, alloc: A) -> Option<Column<A>>
    ensures { IfSome result (λ c. MapsColumn function (leaves_of column.now) (leaves_of c)) }
{
    match column {
        Column::Ints(items) => of_ints(function, items, alloc),
        Column::Bools(items) => of_bools(function, items, alloc),
        Column::Chars(items) => of_chars(function, items, alloc),
    }
}

// A column of numbers, if `f` has a number for each leaf.
#[inline(always)]
fn ints<X: Leaf, A: Allocator, F: Fn(X) -> (i64, bool)>(
    function: Unary,
    items: &[X],
    alloc: A,
    f: F,
) -> Option<Column<A>>
    requires callable { F.IsAlwaysCallable f }
    requires law { (a : X) (c : ℤ) → F.post f a (c, true) → unary function (X.leaf a) ≡ gives (int c) }
    ensures { IfSome result (λ c. MapsColumn function (map X.leaf items.now) (leaves_of c)) }
{
    Some(Column::Ints(made_of_one(function, items, alloc, f)?))
}

// A column of truth values.
#[inline(always)]
fn bools<X: Leaf, A: Allocator, F: Fn(X) -> (bool, bool)>(
    function: Unary,
    items: &[X],
    alloc: A,
    f: F,
) -> Option<Column<A>>
    requires callable { F.IsAlwaysCallable f }
    requires law { (a : X) (c : Bool) → F.post f a (c, true) → unary function (X.leaf a) ≡ gives (boolean c) }
    ensures { IfSome result (λ c. MapsColumn function (map X.leaf items.now) (leaves_of c)) }
{
    Some(Column::Bools(made_of_one(function, items, alloc, f)?))
}

// A column of characters.
#[inline(always)]
fn chars<X: Leaf, A: Allocator, F: Fn(X) -> (u8, bool)>(
    function: Unary,
    items: &[X],
    alloc: A,
    f: F,
) -> Option<Column<A>>
    requires callable { F.IsAlwaysCallable f }
    requires law { (a : X) (c : ℕ) → F.post f a (c, true) → unary function (X.leaf a) ≡ gives (character c) }
    ensures { IfSome result (λ c. MapsColumn function (map X.leaf items.now) (leaves_of c)) }
{
    Some(Column::Chars(made_of_one(function, items, alloc, f)?))
}

#[inline(never)]
fn of_ints<A: Allocator>(function: Unary, items: &[i64], alloc: A) -> Option<Column<A>>
    ensures { IfSome result (λ c. MapsColumn function (map int items.now) (leaves_of c)) }
{
    match function {
        Unary::Not => ints(function, items, alloc, |a| (!a, true)),
        Unary::Plusp => bools(function, items, alloc, |a| (0 < a, true)),
        Unary::Minusp => bools(function, items, alloc, |a| (a < 0, true)),
        Unary::Zerop => bools(function, items, alloc, |a| (a == 0, true)),
        Unary::Oddp => bools(
            function,
            items,
            alloc,
            |a| (a.unsigned_abs() % 2 == 1, true),
        ),
        Unary::Evenp => bools(
            function,
            items,
            alloc,
            |a| (a.unsigned_abs() % 2 == 0, true),
        ),
        Unary::Negate => ints(function, items, alloc, negated),
        Unary::Abs => ints(function, items, alloc, size),
        Unary::Isqrt => ints(function, items, alloc, root),
        Unary::CodeChar => chars(function, items, alloc, character),
        _ => None,
    }
}

#[inline(never)]
fn of_bools<A: Allocator>(function: Unary, items: &[bool], alloc: A) -> Option<Column<A>>
    ensures { IfSome result (λ c. MapsColumn function (map boolean items.now) (leaves_of c)) }
{
    match function {
        Unary::Not => bools(function, items, alloc, |b| (!b, true)),
        Unary::Btoi => ints(function, items, alloc, |b| (i64::from(b), true)),
        _ => None,
    }
}

#[inline(never)]
fn of_chars<A: Allocator>(function: Unary, items: &[u8], alloc: A) -> Option<Column<A>>
    ensures { IfSome result (λ c. MapsColumn function (map character items.now) (leaves_of c)) }
{
    match function {
        Unary::CharCode => ints(function, items, alloc, |c| (i64::from(c), true)),
        _ => None,
    }
}

#[inline(always)]
fn negated(a: i64) -> (i64, bool)
    ensures { IsTrue result.1 → of_int Unary.Negate a ≡ gives (int result.0) }
{
    match a.checked_neg() {
        Some(negative) => (negative, true),
        None => (0, false),
    }
}

#[inline(always)]
fn size(a: i64) -> (i64, bool)
    ensures { IsTrue result.1 → of_int Unary.Abs a ≡ gives (int result.0) }
{
    match a.checked_abs() {
        Some(absolute) => (absolute, true),
        None => (0, false),
    }
}

#[inline(always)]
fn root(a: i64) -> (i64, bool)
    ensures { IsTrue result.1 → of_int Unary.Isqrt a ≡ gives (int result.0) }
{
    let argument: Value<Global> = Value::Int(a);
    let found: Result<Value<Global>, Trap> = Unary::Isqrt.apply(&argument);
    match &found {
        Ok(Value::Int(number)) => (*number, true),
        _ => (0, false),
    }
}

#[inline(always)]
fn character(a: i64) -> (u8, bool)
    ensures { IsTrue result.1 → of_int Unary.CodeChar a ≡ gives (character result.0) }
{
    let argument: Value<Global> = Value::Int(a);
    let found: Result<Value<Global>, Trap> = Unary::CodeChar.apply(&argument);
    match &found {
        Ok(Value::Char(code)) => (*code, true),
        _ => (0, false),
    }
}
