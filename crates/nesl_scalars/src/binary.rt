//! The functions of two scalars.

ghost use Rattle.std.specs.Prelude.{◌<◌, ◌^◌, ◌*ℤ◌, pos, FitsSigned};
ghost use Rattle.std.specs.Int.{w64};
ghost use Rattle.std.specs.Option.{SomeIff};
ghost use Rattle.nesl_values.specs.View.{tree_of};
ghost use Rattle.nesl_scalars.specs.Outcomes.{ResultIsOutcome};
ghost use Rattle.nesl_scalars.specs.Scalars.{of_ints, of_bools, of_chars, binary};

use crate::number::number;
use crate::trap::Trap;
use nesl_values::{Shape, Value};
use std::alloc::Allocator;

/// A function of two scalars of one type.
#[derive(Clone, Copy, PartialEq, Eq)]
pub enum Binary {
    And,
    Or,
    Xor,
    Nand,
    Nor,
    Equal,
    Unequal,
    Less,
    Greater,
    AtMost,
    AtLeast,
    Add,
    Subtract,
    Multiply,
    /// Rounded towards zero.
    Divide,
    Rem,
    Max,
    Min,
    Lshift,
    /// Rounded down.
    Rshift,
}

impl Binary {
    /// What the function has for the arguments: a leaf, which takes no memory. Arguments that aren't of the
    /// function's type are refused with some trap.
    pub fn apply<A: Allocator, B: Allocator, C: Allocator>(
        self,
        left: &Value<A>,
        right: &Value<B>,
    ) -> Result<Value<C>, Trap>
        ensures { ResultIsOutcome result (binary self (tree_of left.now) (tree_of right.now)) }
    {
        match left.shape() {
            Shape::Int(a) => match right.as_int() {
                Some(b) => self.of_ints(a, b),
                None => Err(Trap::Range),
            },
            Shape::Bool(a) => match right.as_bool() {
                Some(b) => self.of_bools(a, b),
                None => Err(Trap::Range),
            },
            Shape::Char(c) => match right.as_char() {
                Some(d) => self.of_chars(c, d),
                None => Err(Trap::Range),
            },
            Shape::Pair(_, _) | Shape::Sequence(_) | Shape::Tagged(_, _) => Err(Trap::Range),
        }
    }

    fn of_ints<C: Allocator>(self, a: i64, b: i64) -> Result<Value<C>, Trap>
        ensures { ResultIsOutcome result (of_ints self a b) }
    {
        match self {
            Binary::And => Ok(Value::Int(a & b)),
            Binary::Or => Ok(Value::Int(a | b)),
            Binary::Xor => Ok(Value::Int(a ^ b)),
            Binary::Nand => Ok(Value::Int(!(a & b))),
            Binary::Nor => Ok(Value::Int(!(a | b))),
            Binary::Equal => Ok(Value::Bool(a == b)),
            Binary::Unequal => Ok(Value::Bool(a != b)),
            Binary::Less => Ok(Value::Bool(a < b)),
            Binary::Greater => Ok(Value::Bool(b < a)),
            Binary::AtMost => Ok(Value::Bool(a <= b)),
            Binary::AtLeast => Ok(Value::Bool(b <= a)),
            Binary::Add => number(a.checked_add(b)),
            Binary::Subtract => number(a.checked_sub(b)),
            Binary::Multiply => number(a.checked_mul(b)),
            Binary::Divide => quotient(a, b),
            Binary::Rem => remainder_of(a, b),
            Binary::Max => Ok(Value::Int(a.max(b))),
            Binary::Min => Ok(Value::Int(a.min(b))),
            Binary::Lshift => shifted_left(a, b),
            Binary::Rshift => shifted_right(a, b),
        }
    }

    fn of_bools<C: Allocator>(self, a: bool, b: bool) -> Result<Value<C>, Trap>
        ensures { ResultIsOutcome result (of_bools self a b) }
    {
        match self {
            Binary::And => Ok(Value::Bool(a && b)),
            Binary::Or => Ok(Value::Bool(a || b)),
            Binary::Xor => Ok(Value::Bool(a != b)),
            Binary::Nand => Ok(Value::Bool(!(a && b))),
            Binary::Nor => Ok(Value::Bool(!(a || b))),
            _ => Err(Trap::Range),
        }
    }

    fn of_chars<C: Allocator>(self, c: u8, d: u8) -> Result<Value<C>, Trap>
        ensures { ResultIsOutcome result (of_chars self c d) }
    {
        match self {
            Binary::Equal => Ok(Value::Bool(c == d)),
            Binary::Unequal => Ok(Value::Bool(c != d)),
            Binary::Less => Ok(Value::Bool(c < d)),
            Binary::Greater => Ok(Value::Bool(d < c)),
            Binary::AtMost => Ok(Value::Bool(c <= d)),
            Binary::AtLeast => Ok(Value::Bool(d <= c)),
            Binary::Max => Ok(Value::Char(c.max(d))),
            Binary::Min => Ok(Value::Char(c.min(d))),
            _ => Err(Trap::Range),
        }
    }
}

fn quotient<C: Allocator>(a: i64, b: i64) -> Result<Value<C>, Trap>
    ensures { ResultIsOutcome result (of_ints Binary.Divide a b) }
{
    if b == 0 {
        return Err(Trap::Division);
    }
    number(a.checked_div(b))
}

// `wrapping_rem`, since the quotient of the least number by -1 does not fit, and its remainder is 0.
fn remainder_of<C: Allocator>(a: i64, b: i64) -> Result<Value<C>, Trap>
    ensures { ResultIsOutcome result (of_ints Binary.Rem a b) }
{
    if b == 0 {
        return Err(Trap::Division);
    }
    Ok(Value::Int(a.wrapping_rem(b)))
}

fn shifted_left<C: Allocator>(a: i64, n: i64) -> Result<Value<C>, Trap>
    ensures { ResultIsOutcome result (of_ints Binary.Lshift a n) }
{
    if n < 0 || 63 < n {
        return Err(Trap::Range);
    }
    number(times_power(a, n as u32))
}

fn shifted_right<C: Allocator>(a: i64, n: i64) -> Result<Value<C>, Trap>
    ensures { ResultIsOutcome result (of_ints Binary.Rshift a n) }
{
    if n < 0 || 63 < n {
        return Err(Trap::Range);
    }
    Ok(Value::Int(a >> n as u32))
}

// a * 2^n, if it fits
fn times_power(a: i64, n: u32) -> Option<i64>
    requires { n < 64 }
    ensures { SomeIff result (FitsSigned w64 (a *ℤ pos (2 ^ n))) (a *ℤ pos (2 ^ n)) }
{
    if n < 63 {
        a.checked_mul((1u64 << n) as i64)
    } else {
        match a {
            0 => Some(0),
            -1 => Some(i64::MIN),
            _ => None,
        }
    }
}
