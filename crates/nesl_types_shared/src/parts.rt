//! Types that are each made of earlier ones, borrowed.

use crate::shape::Shape;
use std::marker::Model;

/// Types, each made of earlier ones, no two of them equal, borrowed from a bank or from a type. A type is known by its
/// place.
#[derive(Drop)]
pub struct Parts<'a> {
    shapes: &'a [Shape],
}

impl<'a> Model for Parts<'a> {
    ghost use Rattle.std.specs.Prelude.{List};
    ghost use Rattle.std.specs.Coded.{coded_list};
    ghost use Rattle.nesl_types_shared.specs.Term.{Term};
    ghost use Rattle.nesl_types_shared.specs.Codes.{term_code};

    ghost Value = { List Term };

    ghost coded = { coded_list term_code };

    ghost use Rattle.nesl_types_shared.specs.Types.{types, AreTypes};

    ghost view = { λ t. types t.shapes.now };

    ghost invariant = { λ t. AreTypes t.shapes.now };
}

ghost use Rattle.std.specs.Prelude.{◌≡◌, ◌<◌, length};
ghost use Rattle.nesl_types_shared.specs.Shapes.{IsShapeBelow, shape_type};
ghost use Rattle.nesl_types_shared.specs.Types.{type_at, types, AreTypes, AreDistinct};

impl<'a> Parts<'a> {
    /// The types of these shapes.
    pub fn of(shapes: &'a [Shape]) -> Parts<'a>
        requires { AreTypes shapes.now }
        ensures { result ≡ types shapes.now }
    {
        Parts { shapes }
    }

    /// These types, borrowed once more. Copies nothing.
    pub fn again(&self) -> Parts<'a>
        ensures { result ≡ self.now }
    {
        Parts::of(self.shapes)
    }

    /// How many types there are.
    pub fn len(&self) -> usize
        ensures len { result ≡ length self.now }
        ensures distinct { AreDistinct self.now }
    {
        self.shapes.len()
    }

    /// The shape of the type at a place.
    pub fn shape(&self, place: usize) -> Shape
        requires { place < length self.now }
        ensures parts { IsShapeBelow place result }
        ensures shape { type_at self.now place ≡ shape_type (type_at self.now) result }
    {
        let shapes = self.shapes;
        shapes[place]
    }
}
