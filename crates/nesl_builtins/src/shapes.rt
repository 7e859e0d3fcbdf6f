//! The lists of the types that built-in functions take and give.

ghost use Rattle.std.specs.Prelude.{◌≡◌, ◌<◌, true, length};
ghost use Rattle.nesl_types_shared.specs.Types.{types};
ghost use Rattle.nesl_types_shared.specs.Lists.{last_type};
ghost use Rattle.nesl_builtins.specs.Lists.{are_types};

use nesl_types::Part;
use nesl_types_shared::{Parts, Shape};

pub const INT: [Shape; 1] = [Shape::Int];

pub const BOOL: [Shape; 1] = [Shape::Bool];

pub const CHAR: [Shape; 1] = [Shape::Char];
/// `a`, a variable.
pub const ANY: [Shape; 1] = [Shape::Var(0)];
/// `[a]`
pub const SEQUENCE: [Shape; 2] = [Shape::Var(0), Shape::SeqOf(0)];
/// `[[a]]`
pub const PIECES: [Shape; 3] = [Shape::Var(0), Shape::SeqOf(0), Shape::SeqOf(1)];
/// `[int]`
pub const INTS: [Shape; 2] = [Shape::Int, Shape::SeqOf(0)];
/// `[bool]`
pub const BOOLS: [Shape; 2] = [Shape::Bool, Shape::SeqOf(0)];
/// `[(a, b)]`
pub const JOINED: [Shape; 4] = [
    Shape::Var(0),
    Shape::Var(1),
    Shape::Both(0, 1),
    Shape::SeqOf(2),
];
/// `([a], [b])`
pub const SEPARATE: [Shape; 5] = [
    Shape::Var(0),
    Shape::SeqOf(0),
    Shape::Var(1),
    Shape::SeqOf(2),
    Shape::Both(1, 3),
];
/// `(a, a)`
pub const TWO: [Shape; 2] = [Shape::Var(0), Shape::Both(0, 0)];
/// `(int, int)`
pub const TWO_INTS: [Shape; 2] = [Shape::Int, Shape::Both(0, 0)];
/// `(int, (int, int))`
pub const THREE_INTS: [Shape; 3] = [Shape::Int, Shape::Both(0, 0), Shape::Both(0, 1)];
/// `(a, int)`
pub const WITH_INT: [Shape; 3] = [Shape::Var(0), Shape::Int, Shape::Both(0, 1)];
/// `([a], int)`
pub const SEQUENCE_WITH_INT: [Shape; 4] = [
    Shape::Var(0),
    Shape::SeqOf(0),
    Shape::Int,
    Shape::Both(1, 2),
];
/// `([a], [a])`
pub const TWO_SEQUENCES: [Shape; 3] = [Shape::Var(0), Shape::SeqOf(0), Shape::Both(1, 1)];
/// `([a], [int])`
pub const SEQUENCE_WITH_INTS: [Shape; 5] = [
    Shape::Var(0),
    Shape::SeqOf(0),
    Shape::Int,
    Shape::SeqOf(2),
    Shape::Both(1, 3),
];
/// `([a], [bool])`
pub const SEQUENCE_WITH_BOOLS: [Shape; 5] = [
    Shape::Var(0),
    Shape::SeqOf(0),
    Shape::Bool,
    Shape::SeqOf(2),
    Shape::Both(1, 3),
];
/// `([a], (a, int))`
pub const SEQUENCE_WITH_ITEM: [Shape; 5] = [
    Shape::Var(0),
    Shape::SeqOf(0),
    Shape::Int,
    Shape::Both(0, 2),
    Shape::Both(1, 3),
];
/// `([a], [(int, a)])`
pub const SEQUENCE_WITH_ITEMS: [Shape; 6] = [
    Shape::Var(0),
    Shape::SeqOf(0),
    Shape::Int,
    Shape::Both(2, 0),
    Shape::SeqOf(3),
    Shape::Both(1, 4),
];

/// The last type of a list.
pub fn last(shapes: &'static [Shape]) -> Part<'static>
    requires types { are_types shapes.now ≡ true }
    requires some { 0 < length shapes.now }
    ensures { result ≡ last_type (types shapes.now) }
{
    let parts = Parts::of(shapes);
    let place = parts.len() - 1;
    Part::of(parts, place)
}
