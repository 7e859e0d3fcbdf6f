// Columns.
ghost use Rattle.std.specs.Prelude.{◌≡◌, IfSome, length};
ghost use Rattle.nesl_eval_columns.specs.Columns.{leaves_of};

use std::alloc::Allocator;

/// Leaves of one kind, one at each place.
#[derive(Drop)]
pub enum Column<A: Allocator> {
    Ints(Vec<i64, A>),
    Bools(Vec<bool, A>),
    Chars(Vec<u8, A>),
}

impl<A: Allocator> Column<A> {
    /// How many leaves there are.
    pub fn len(&self) -> usize
        ensures { result ≡ length (leaves_of self.now) }
    {
        match self {
            Column::Ints(items) => items.len(),
            Column::Bools(items) => items.len(),
            Column::Chars(items) => items.len(),
        }
    }

    /// A copy in another allocator, if that has the memory.
    pub fn copy_into<B: Allocator>(&self, alloc: B) -> Option<Column<B>>
        ensures { IfSome result (λ c. leaves_of c ≡ leaves_of self.now) }
    {
        match self {
            Column::Ints(items) => Some(Column::Ints(copy_of(items, alloc)?)),
            Column::Bools(items) => Some(Column::Bools(copy_of(items, alloc)?)),
            Column::Chars(items) => Some(Column::Chars(copy_of(items, alloc)?)),
        }
    }
}

fn copy_of<X: Copy, A: Allocator>(items: &[X], alloc: A) -> Option<Vec<X, A>>
    ensures { IfSome result (λ v. v.items ≡ items.now) }
{
    match Vec::from_slice(alloc, items) {
        Ok(copies) => Some(copies),
        Err(_) => None,
    }
}
