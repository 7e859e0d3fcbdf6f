//! The functions of one scalar.

ghost use Rattle.std.specs.Prelude.{◌≡◌, ◌≤ℤ◌, pos, unsigned_abs};
ghost use Rattle.nesl_scalars.specs.Integers.{root};
ghost use Rattle.nesl_values.specs.View.{tree_of};
ghost use Rattle.nesl_scalars.specs.Outcomes.{ResultIsOutcome};
ghost use Rattle.nesl_scalars.specs.Scalars.{of_int, of_bool, of_char, unary};

use crate::number::number;
use crate::trap::Trap;
use nesl_values::{Shape, Value};
use std::alloc::Allocator;

/// A function of one scalar.
#[derive(Clone, Copy, PartialEq, Eq)]
pub enum Unary {
    /// Negation of a truth value, complement of a number's 64 bits.
    Not,
    Plusp,
    Minusp,
    Zerop,
    Oddp,
    Evenp,
    /// The sign `-` before an operand, too.
    Negate,
    Abs,
    Isqrt,
    Btoi,
    CharCode,
    CodeChar,
}

impl Unary {
    /// What the function has for the argument: a leaf, which takes no memory. An argument that isn't of the
    /// function's type is refused with some trap.
    pub fn apply<A: Allocator, B: Allocator>(self, argument: &Value<A>) -> Result<Value<B>, Trap>
        ensures { ResultIsOutcome result (unary self (tree_of argument.now)) }
    {
        match argument.shape() {
            Shape::Int(a) => self.of_int(a),
            Shape::Bool(b) => self.of_bool(b),
            Shape::Char(c) => self.of_char(c),
            Shape::Pair(_, _) | Shape::Sequence(_) | Shape::Tagged(_, _) => Err(Trap::Range),
        }
    }

    fn of_int<B: Allocator>(self, a: i64) -> Result<Value<B>, Trap>
        ensures { ResultIsOutcome result (of_int self a) }
    {
        match self {
            Unary::Not => Ok(Value::Int(!a)),
            Unary::Plusp => Ok(Value::Bool(0 < a)),
            Unary::Minusp => Ok(Value::Bool(a < 0)),
            Unary::Zerop => Ok(Value::Bool(a == 0)),
            Unary::Oddp => Ok(Value::Bool(a.unsigned_abs() % 2 == 1)),
            Unary::Evenp => Ok(Value::Bool(a.unsigned_abs() % 2 == 0)),
            Unary::Negate => number(a.checked_neg()),
            Unary::Abs => number(a.checked_abs()),
            Unary::Isqrt => root_of(a),
            Unary::CodeChar => char_of(a),
            Unary::Btoi | Unary::CharCode => Err(Trap::Range),
        }
    }

    fn of_bool<B: Allocator>(self, b: bool) -> Result<Value<B>, Trap>
        ensures { ResultIsOutcome result (of_bool self b) }
    {
        match self {
            Unary::Not => Ok(Value::Bool(!b)),
            Unary::Btoi => Ok(Value::Int(i64::from(b))),
            _ => Err(Trap::Range),
        }
    }

    fn of_char<B: Allocator>(self, c: u8) -> Result<Value<B>, Trap>
        ensures { ResultIsOutcome result (of_char self c) }
    {
        match self {
            Unary::CharCode => Ok(Value::Int(i64::from(c))),
            _ => Err(Trap::Range),
        }
    }
}

fn root_of<B: Allocator>(a: i64) -> Result<Value<B>, Trap>
    ensures { ResultIsOutcome result (of_int Unary.Isqrt a) }
{
    if a < 0 {
        return Err(Trap::Range);
    }
    Ok(Value::Int(root(a)))
}

fn root(a: i64) -> i64
    requires { pos 0 ≤ℤ a }
    ensures { result ≡ pos (root (unsigned_abs a)) }
{
    a.isqrt()
}

fn char_of<B: Allocator>(a: i64) -> Result<Value<B>, Trap>
    ensures { ResultIsOutcome result (of_int Unary.CodeChar a) }
{
    match u8::try_from(a) {
        Ok(code) => Ok(Value::Char(code)),
        Err(_) => Err(Trap::Code),
    }
}
