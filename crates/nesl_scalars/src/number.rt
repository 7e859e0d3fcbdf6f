//! Numbers that may not fit.

ghost use Rattle.std.specs.Prelude.{ℤ, FitsSigned};
ghost use Rattle.std.specs.Int.{w64};
ghost use Rattle.std.specs.Option.{SomeIff};
ghost use Rattle.nesl_scalars.specs.Outcomes.{ResultIsOutcome};
ghost use Rattle.nesl_scalars.specs.Scalars.{number};

use crate::trap::Trap;
use nesl_values::Value;
use std::alloc::Allocator;

// The number, or an overflow where there is none.
pub(crate) fn number<B: Allocator>(checked: Option<i64>) -> Result<Value<B>, Trap>
    ensures { (z : ℤ) → SomeIff checked (FitsSigned w64 z) z → ResultIsOutcome result (number z) }
{
    match checked {
        Some(n) => Ok(Value::Int(n)),
        None => Err(Trap::Overflow),
    }
}
