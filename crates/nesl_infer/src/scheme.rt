//! The scheme of a function, from what it takes and gives.

ghost use Rattle.std.specs.Prelude.{IfOk};
ghost use Rattle.nesl_types.specs.Class.{class_at};
ghost use Rattle.nesl_types.specs.Scheme.{IsSchemeOf};

use nesl_types::{Class, Scheme, Ty};
use nesl_unify::solve::is_below;
use std::alloc::{AllocError, Global};

/// The scheme of a function that takes and gives these types, where `classes` has the class of each variable at the
/// variable's place. Types without variables are not copied.
pub fn scheme_of(
    alloc: Global,
    takes: Ty,
    gives: Ty,
    classes: &[Class],
) -> Result<Scheme, AllocError>
    ensures { IfOk result (IsSchemeOf takes gives (class_at classes.now)) }
{
    if is_below(0, &takes) && is_below(0, &gives) {
        return Ok(Scheme {
            argument: takes,
            result: gives,
            classes: Vec::new(alloc),
        });
    }
    Scheme::new(alloc, &takes, &gives, classes)
}
