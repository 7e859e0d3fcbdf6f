//! Classes of types.

ghost use Rattle.std.specs.Prelude.{◌↔◌};
ghost use Rattle.nesl_types_shared.specs.Term.{Term};
ghost use Rattle.nesl_types.specs.Class.{IsMember};

/// A class of types.
#[derive(Clone, Copy, PartialEq, Eq)]
pub enum Class {
    /// All types.
    Any,
    /// `int` and `char`.
    Ordinal,
    /// `int`.
    Number,
    /// `int` and `bool`.
    Logical,
}

/// The class of the types that are in both.
pub fn meet(first: Class, second: Class) -> Class
    ensures { (t : Term) → IsMember result t ↔ (IsMember first t × IsMember second t) }
{
    match (first, second) {
        (Class::Any, other) => other,
        (other, Class::Any) => other,
        (Class::Ordinal, Class::Ordinal) => Class::Ordinal,
        (Class::Logical, Class::Logical) => Class::Logical,
        _ => Class::Number,
    }
}
