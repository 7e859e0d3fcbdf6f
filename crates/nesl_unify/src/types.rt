//! The variables of types.

ghost use Rattle.std.specs.Prelude.{◌↔◌, IsTrue};
ghost use Rattle.nesl_types_shared.specs.Numbering.{IsBelow};

use nesl_types::Ty;
use nesl_types_shared::Shape;

/// Whether each variable of the type is below the count.
pub fn is_below(count: u64, ty: &Ty) -> bool
    ensures { IsTrue result ↔ IsBelow count ty.now }
{
    let parts = ty.parts();
    for place in 0..parts.len() {
        if let Shape::Var(variable) = parts.shape(place) {
            if variable >= count {
                return false;
            }
        }
    }
    true
}
