//! Lists whose first item takes room for some more.

ghost use Rattle.std.specs.Prelude.{◌≡◌, ◌∷◌, ◌++◌, [], OnOk};

use std::alloc::AllocError;

/// For how many items the first one takes room.
const ROOM: usize = 32;

/// Adds an item at the end.
pub fn push_with_room<T: Copy>(items: &mut Vec<T>, item: T) -> Result<(), AllocError>
    ensures { OnOk result (items.new.items ≡ items.old.items ++ item ∷ []) }
{
    if items.is_empty() {
        items.reserve(ROOM)?;
    }
    items.push(item)?;
    Ok(())
}
