//! Where a node is while its code is laid out.
ghost use Rattle.std.specs.Prelude.{◌≡◌, ◌∷◌, [], IfOk, suc};
ghost use Rattle.nesl_eval_ops.specs.View.{sizes_of};

use crate::sizes::Sizes;
use std::alloc::{AllocError, Global};

/// Where a node is: its height in its body, and the sizes of the frames round it.
#[derive(Clone, Copy)]
pub(crate) struct Place<'a> {
    pub(crate) alloc: Global,
    pub(crate) height: u32,
    pub(crate) sizes: &'a Sizes<'a>,
}

pub(crate) fn top<'a>() -> Sizes<'a>
    ensures { sizes_of result ≡ [] }
{
    Sizes::Top
}

pub(crate) fn within<'a>(size: usize, outer: &'a Sizes<'a>) -> Sizes<'a>
    ensures { sizes_of result ≡ size ∷ sizes_of outer.now }
{
    Sizes::Frame(size, outer)
}

impl<'a> Place<'a> {
    /// The place of the parts of the node at this place.
    pub(crate) fn above(&self) -> Result<Place<'a>, AllocError>
        ensures { IfOk result (λ p. (p.height ≡ suc self.now.height) × (p.sizes ≡ self.now.sizes)) }
    {
        match self.height.checked_add(1) {
            Some(height) => Ok(Place {
                alloc: self.alloc,
                height,
                sizes: self.sizes,
            }),
            None => Err(AllocError),
        }
    }
}
