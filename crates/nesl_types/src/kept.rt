//! Types that are kept, so that equal ones share their parts.

ghost use Rattle.std.specs.Prelude.{◌≡◌, IfOk};

use indexmap::IndexMap;
use nesl_types_shared::Ty;
use std::alloc::{AllocError, Global};

/// The numbers under which the types of a name are kept.
#[derive(Clone, Copy)]
pub(crate) struct Marks {
    pub first: Option<u64>,
    pub second: Option<u64>,
}

impl Marks {
    /// Those of what has one type.
    pub fn one(first: Option<u64>) -> Marks {
        Marks {
            first,
            second: None,
        }
    }
}

#[derive(Drop)]
struct Shared {
    ty: Ty,
    /// How many types of names share its parts.
    uses: u64,
}

/// Types, each under the number that is made of its parts. Of types with one number the first is kept, and the others
/// are not.
#[derive(Drop)]
pub(crate) struct Kept {
    types: IndexMap<u64, Shared>,
}

impl Kept {
    /// No types.
    pub fn new(alloc: Global) -> Kept {
        Kept {
            types: IndexMap::new(alloc),
        }
    }

    /// How many types are kept.
    pub fn len(&self) -> usize {
        self.types.len()
    }

    /// Makes room for the types of a name.
    pub fn reserve(&mut self) -> Result<(), AllocError> {
        self.types.reserve(2)?;
        Ok(())
    }

    /// The type, which shares the parts of one that is kept where that is equal, and the number under which it is kept.
    pub fn share(&mut self, alloc: Global, ty: Ty) -> Result<(Ty, Option<u64>), AllocError>
        ensures { IfOk result (λ r. r.0 ≡ ty) }
    {
        let number = ty.number();
        if let Some(shared) = self.types.get_mut(&number) {
            if !shared.ty.same(&ty) {
                return Ok((ty, None));
            }
            let again = shared.ty.duplicate(alloc)?;
            shared.uses = shared.uses.saturating_add(1);
            return Ok((again, Some(number)));
        }
        let again = ty.duplicate(alloc)?;
        let shared = Shared { ty: again, uses: 1 };
        self.types.insert(number, shared)?;
        Ok((ty, Some(number)))
    }

    /// Drops the types of a name.
    pub fn release(&mut self, marks: Marks) {
        self.release_one(marks.first);
        self.release_one(marks.second);
    }

    // Drops a type of a name: it is no longer kept once no name has it.
    fn release_one(&mut self, mark: Option<u64>) {
        if let Some(number) = mark {
            if self.is_last(number) {
                self.types.swap_remove(&number);
            }
        }
    }

    // One use less of the type with a number: whether it was the last.
    fn is_last(&mut self, number: u64) -> bool {
        match self.types.get_mut(&number) {
            Some(shared) => {
                shared.uses = shared.uses.saturating_sub(1);
                shared.uses == 0
            }
            None => false,
        }
    }
}
